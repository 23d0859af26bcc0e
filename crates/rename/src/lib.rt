// Rename, also onto an existing name, on a volume that the refusals 1 to 7 let pass.
#![tactic(auto)]

ghost use Rattle.std.specs.Prelude.{◌≡◌, ◌||◌, [], ◌∷◌, ◌+◌, ◌*◌, ◌≤◌, ◌<◌, length};
ghost use Rattle.std.proofs.Math.Option.{some};
ghost use Rattle.model.specs.Bytes.{zero_sector};
ghost use Rattle.model.specs.Search.{index_of};
ghost use Rattle.model.specs.Geometry.{entry_at, table_sectors};
ghost use Rattle.model.specs.Disk.{view};
ghost use Rattle.model.specs.Edition.{layout_of, bad_time};
ghost use Rattle.model.specs.Entry.{bad_name, bad_new_name};
ghost use Rattle.model.specs.Table.{sectors_holding};
ghost use Rattle.model.specs.WriteList.{sector_write, record_size, record_count, groups_for, closed, Emitted};
ghost use Rattle.model.specs.Rename.{rename_answer, rename_list};
ghost use Rattle.model.specs.Results.{changed_in};
ghost use Rattle.model.specs.Opened.{Bounded, Opened, in_volume, Accepted};
ghost use Rattle.commit.specs.Commit.{Stages, StagesOf, Added};
ghost use Rattle.table.specs.Owned.{owned_in};
ghost use Rattle.rename.specs.Renaming.{renaming_count, renamed_entry, both_entries, replacing, renaming, plan_for, RenamesTo};

use model::{FileIndex, Geometry, Refusal, Sector};

// ---- refusal 8

// The old name by the rule that every name keeps, the new one by that for names to come; or the time.
fn bad_argument(edition: u64, old: &[u8], new: &[u8], time: u64) -> bool
    ensures { result ≡ (bad_time edition time || bad_name edition old.now || bad_new_name edition new.now) }
{
    directory::bad_name_or_time(edition, old, time) || directory::bad_new_name(edition, new)
}

// ---- the entries

// The copy of file i's entry with its new name is record k.
fn put_renamed(
    list: &mut [u8],
    k: usize,
    numbers: &mut [u64],
    img: &[u8],
    g: Geometry,
    stages: &[u64],
    i: FileIndex,
    name: &[u8],
    time: u64,
) -> usize
    requires stages { Stages g stages.now }
    requires opened { Opened img.now g }
    requires i_lt_files { (i.0 < g.files) × (length name.now ≤ (layout_of g.edition).longest_name) }
    requires record_size_in_bounds { ((k + 1) * record_size ≤ length list.old) × (k ≤ 3) × (k < length numbers.old) }
    ensures added { Added g stages.now numbers.old list.old k
        (renamed_entry img.now i.0 name.now time ∷ []) numbers.new list.new result }
    ensures value { result ≡ k + 1 }
{
    let s = directory::renamed_entry(img, g.edition, i, name, time);
    commit::put_copy(list, k, g, stages, numbers, k, i.sector(), s)
}

// The copy of file j's entry, freed, is record k.
fn put_freed_entry(
    list: &mut [u8],
    k: usize,
    numbers: &mut [u64],
    g: Geometry,
    stages: &[u64],
    j: FileIndex,
) -> usize
    requires stages { Stages g stages.now }
    requires bounded { Bounded g }
    requires j_lt_files { j.0 < g.files }
    requires record_size_in_bounds { ((k + 1) * record_size ≤ length list.old) × (k ≤ 3) × (k < length numbers.old) }
    ensures added { Added g stages.now numbers.old list.old k
        (sector_write (entry_at j.0) zero_sector ∷ []) numbers.new list.new result }
    ensures value { result ≡ k + 1 }
{
    let s = [0u8; 512];
    commit::put_copy(list, k, g, stages, numbers, k, j.sector(), s)
}

// The copies of both, by index, from record k on.
fn put_entries(
    list: &mut [u8],
    k: usize,
    numbers: &mut [u64],
    img: &[u8],
    g: Geometry,
    stages: &[u64],
    i: FileIndex,
    j: FileIndex,
    name: &[u8],
    time: u64,
) -> usize
    requires stages { Stages g stages.now }
    requires opened { Opened img.now g }
    requires i_lt_files { (i.0 < g.files) × (j.0 < g.files) × (length name.now ≤ (layout_of g.edition).longest_name) }
    requires record_size_in_bounds { ((k + 2) * record_size ≤ length list.old) × (k ≤ 1) × (k + 1 < length numbers.old) }
    ensures added { Added g stages.now numbers.old list.old k
        (both_entries img.now i.0 j.0 name.now time) numbers.new list.new result }
    ensures value { result ≡ k + 2 }
{
    if i.0 < j.0 {
        let n = put_renamed(list, k, numbers, img, g, stages, i, name, time);
        return put_freed_entry(list, n, numbers, g, stages, j);
    }
    let n = put_freed_entry(list, k, numbers, g, stages, j);
    put_renamed(list, n, numbers, img, g, stages, i, name, time)
}

// ---- the targets

// Behind the root, where file j has the new name: the copies of both entries and of the table sectors that hold an extent of file j,
// from record k on.
fn put_replacing(
    list: &mut [u8],
    k: usize,
    numbers: &mut [u64],
    img: &[u8],
    g: Geometry,
    stages: &[u64],
    i: FileIndex,
    j: FileIndex,
    name: &[u8],
    time: u64,
) -> usize
    requires stages { Stages g stages.now }
    requires opened { Opened img.now g }
    requires i_lt_files { (i.0 < g.files) × (j.0 < g.files) × (length name.now ≤ (layout_of g.edition).longest_name) }
    requires record_size_in_bounds { (k + 2 + sectors_holding (owned_in img.now j.0 0) g + 1) * record_size ≤ length list.old }
    requires k_bound { (k ≤ 1) × (k + 2 + table_sectors g ≤ length numbers.old) }
    ensures added { Added g stages.now numbers.old list.old k
        (replacing img.now i.0 j.0 name.now time) numbers.new list.new result }
    ensures value { (result ≡ k + 2 + sectors_holding (owned_in img.now j.0 0) g) × (result ≤ k + 2 + table_sectors g) }
{
    let n = put_entries(list, k, numbers, img, g, stages, i, j, name, time);
    freeing::put_freed(list, n, numbers, img, g, stages, j, 0)
}

// The same by where the new name is: nowhere, or at a file that is replaced.
fn put_renaming(
    list: &mut [u8],
    k: usize,
    numbers: &mut [u64],
    img: &[u8],
    g: Geometry,
    stages: &[u64],
    i: FileIndex,
    place: Option<usize>,
    name: &[u8],
    time: u64,
) -> usize
    requires stages { Stages g stages.now }
    requires opened { Opened img.now g }
    requires i_lt_files { (i.0 < g.files) × (index_of place < g.files) × (length name.now ≤ (layout_of g.edition).longest_name) }
    requires record_size_in_bounds { (k + renaming_count img.now g place + 1) * record_size ≤ length list.old }
    requires k_bound { (k ≤ 1) × (k + 2 + table_sectors g ≤ length numbers.old) }
    ensures added { Added g stages.now numbers.old list.old k
        (renaming img.now i.0 place name.now time) numbers.new list.new result }
    ensures value { (result ≡ k + renaming_count img.now g place) × (result ≤ k + 2 + table_sectors g) }
{
    match place {
        Some(j) => put_replacing(
            list,
            k,
            numbers,
            img,
            g,
            stages,
            i,
            FileIndex(j as u64),
            name,
            time,
        ),
        None => put_renamed(list, k, numbers, img, g, stages, i, name, time),
    }
}

// ---- the list

// How many records it has, by where the new name is.
fn rename_count(img: &[u8], g: Geometry, place: Option<usize>) -> usize
    requires opened { Opened img.now g }
    requires place_bound { index_of place < g.files }
    ensures value { result ≡ record_count 0 (1 + renaming_count img.now g place) }
    ensures upper_bound { result ≤ 2048 }
{
    match place {
        Some(j) => commit::records_for(3 + table::sectors_from(img, g, FileIndex(j as u64), 0)),
        None => commit::records_for(2),
    }
}

// The whole list, which has room for it.
fn put_rename(
    img: &[u8],
    g: Geometry,
    stages: &[u64],
    i: FileIndex,
    place: Option<usize>,
    name: &[u8],
    time: u64,
    list: &mut [u8],
) -> usize
    requires stages_of { StagesOf g (view img.now) stages.now }
    requires opened { Opened img.now g }
    requires i_lt_files { (i.0 < g.files) × (index_of place < g.files) × (length name.now ≤ (layout_of g.edition).longest_name) }
    requires record_size_in_bounds { record_count 0 (1 + renaming_count img.now g place) * record_size ≤ length list.old }
    ensures { Emitted list.old 0
        (closed (groups_for (view img.now) (some (plan_for img.now i.0 place name.now time)))) list.new result }
{
    let mut numbers = [0u64; 1024];
    let root = directory::updated_root(img, g.edition, time);
    let k = commit::put_copy(list, 0, g, stages, &mut numbers, 0, Sector::ROOT, root);
    let n = put_renaming(list, k, &mut numbers, img, g, stages, i, place, name, time);
    commit::put_commit(list, n, img, g, stages, &numbers, n)
}

// ---- the call

// File i to a name that is not its own: refusals 13 and 14, or the list.
fn rename_file(
    img: &[u8],
    g: Geometry,
    i: FileIndex,
    name: &[u8],
    time: u64,
    list: &mut [u8],
) -> Result<u64, Refusal>
    requires opened { Opened img.now g }
    requires i_lt_files { (i.0 < g.files) × (length name.now ≤ (layout_of g.edition).longest_name) }
    ensures { RenamesTo img.now i.0 name.now time list.old (changed_in result) list.new }
{
    let Some(stages) = table::staging(img, g) else {
        return Err(Refusal::VolumeFull);
    };
    let place = directory::file_named(img, g, name);
    let needed = lists::RECORD_SIZE * rename_count(img, g, place);
    if list.len() < needed {
        return Err(Refusal::TooShort);
    }
    put_rename(img, g, &stages, i, place, name, time, list);
    Ok(needed as u64)
}

pub fn rename_in(
    img: &[u8],
    old: &[u8],
    new: &[u8],
    time: u64,
    list: &mut [u8],
) -> Result<u64, Refusal>
    requires { Accepted img.now }
    ensures value { changed_in result ≡ in_volume rename_answer img.now old.now new.now time (length list.old) }
    ensures list_after { list.new ≡ in_volume rename_list img.now old.now new.now time list.old }
{
    let g = volume::geometry_in(img);
    if bad_argument(g.edition, old, new, time) {
        return Err(Refusal::BadArgument);
    }
    let Some(i) = directory::file_named(img, g, old) else {
        return Err(Refusal::NotFound);
    };
    if fields::is_same(old, new) {
        return Ok(0);
    }
    rename_file(img, g, FileIndex(i as u64), new, time, list)
}
