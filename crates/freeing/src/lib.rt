// Freed table sectors as targets of a change: what a delete, a resize that shrinks, a rename onto an existing name and a repair share.
#![tactic(auto)]

ghost use Rattle.std.specs.Prelude.{[], ◌∷◌, ◌≡◌, ◌+◌, ◌*◌, ◌≤◌, ◌<◌, length};
ghost use Rattle.model.specs.Geometry.{table_sectors};
ghost use Rattle.model.specs.Disk.{view};
ghost use Rattle.model.specs.Table.{free_file, sectors_holding};
ghost use Rattle.model.specs.Freeing.{freed_sector, freed_sectors};
ghost use Rattle.model.specs.WriteList.{record_size};
ghost use Rattle.model.specs.Opened.{Opened};
ghost use Rattle.commit.specs.Commit.{Stages, Added};
ghost use Rattle.table.specs.Owned.{owned_in};
ghost use Rattle.freeing.specs.Marked.{marked_sector};

use model::{FileIndex, Geometry};

// The copy of table sector t with its marked entries freed is record k: byte j of the marks is entry j's.
pub fn put_freed_sector(
    list: &mut [u8],
    k: usize,
    numbers: &mut [u64],
    img: &[u8],
    g: Geometry,
    stages: &[u64],
    t: u64,
    marks: &[u8],
) -> usize
    requires stages { Stages g stages.now }
    requires opened { Opened img.now g }
    requires t_bound { (t < table_sectors g) × (128 ≤ length marks.now) }
    requires record_size_in_bounds { ((k + 1) * record_size ≤ length list.old) × (k < 640) × (k < length numbers.old) }
    ensures { Added g stages.now numbers.old list.old k
        (marked_sector marks.now g (view img.now) t ∷ []) numbers.new list.new result }
{
    let at = g.table_sector(t);
    let mut s = fields::sector(img, at);
    table::free_marked(&mut s, marks);
    commit::put_copy(list, k, g, stages, numbers, k, at, s)
}

// The same of file i's entries of offset o or more, if the sector holds one.
fn put_file_sector(
    list: &mut [u8],
    k: usize,
    numbers: &mut [u64],
    img: &[u8],
    g: Geometry,
    stages: &[u64],
    i: FileIndex,
    o: u64,
    t: u64,
) -> usize
    requires stages { Stages g stages.now }
    requires opened { Opened img.now g }
    requires i_lt_free_file { (i.0 < free_file) × (t < table_sectors g) }
    requires record_size_in_bounds { ((k + 1) * record_size ≤ length list.old) × (k < 640) × (k < length numbers.old) }
    ensures { Added g stages.now numbers.old list.old k
        (freed_sector (owned_in img.now i.0 o) g (view img.now) t) numbers.new list.new result }
{
    if table::holds_from(img, g, i, o, t) {
        let marks = table::marks_from(img, g, i, o, t);
        put_freed_sector(list, k, numbers, img, g, stages, t, &marks)
    } else {
        k
    }
}

// The copies of all such table sectors, from record k on.
pub fn put_freed(
    list: &mut [u8],
    k: usize,
    numbers: &mut [u64],
    img: &[u8],
    g: Geometry,
    stages: &[u64],
    i: FileIndex,
    o: u64,
) -> usize
    requires stages { Stages g stages.now }
    requires opened { Opened img.now g }
    requires i_lt_free_file { i.0 < free_file }
    requires record_size_in_bounds { (k + sectors_holding (owned_in img.now i.0 o) g + 1) * record_size ≤ length list.old }
    requires k_bound { (k ≤ 3) × (k + table_sectors g ≤ length numbers.old) }
    ensures added { Added g stages.now numbers.old list.old k
        (freed_sectors (owned_in img.now i.0 o) g (view img.now)) numbers.new list.new result }
    ensures value { (result ≡ k + sectors_holding (owned_in img.now i.0 o) g) × (result ≤ k + table_sectors g) }
{
    let mut j = k;
    for t in 0..g.table_sectors() {
        j = put_file_sector(list, j, numbers, img, g, stages, i, o, t);
    }
    j
}
