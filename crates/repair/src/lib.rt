// Repair: the table entries that no file needs, freed in one transaction. A byte for each extent says whether it is freed; repeated
// offsets are found by chained hashing, as `duplicates` finds names and ids.
#![tactic(auto)]

ghost use Rattle.std.specs.Prelude.{◌≡◌, true, false, ℕ, ◌+◌, ◌*◌, ◌≤◌, ◌<◌, eqb, length, get_or};
ghost use Rattle.std.proofs.Math.Option.{some};
ghost use Rattle.model.specs.Search.{first, any_below, count_below};
ghost use Rattle.model.specs.Geometry.{table_sectors};
ghost use Rattle.model.specs.Disk.{view, on_image};
ghost use Rattle.model.specs.Superblock.{state_on};
ghost use Rattle.model.specs.Table.{free_file, table_file, table_offset, holds_any, sectors_holding};
ghost use Rattle.model.specs.Catalogue.{catalogue_of};
ghost use Rattle.model.specs.Answers.{Sound};
ghost use Rattle.model.specs.Faults.{fault26, or_else};
ghost use Rattle.model.specs.Refusals.{state_number};
ghost use Rattle.model.specs.WriteList.{record_size, record_count, groups_for, closed, Emitted};
ghost use Rattle.model.specs.Opened.{Bounded, Opened, in_volume, Readable};
ghost use Rattle.model.specs.Lent.{on_lent};
ghost use Rattle.model.specs.Freeing.{freed_sector, freed_sectors};
ghost use Rattle.model.specs.Repair.{is_stray, repaired, repair_answer, repair_list};
ghost use Rattle.model.specs.Results.{soundness_in, repaired_in};
ghost use Rattle.commit.specs.Commit.{Stages, StagesOf, Added};
ghost use Rattle.table.specs.Owned.{is_marked};
ghost use Rattle.repair.specs.Strays.{bucket_of, Linked, same_part, Kept};
ghost use Rattle.repair.specs.Mending.{plan_for, Mends};

use model::{Extent, Fault, FileIndex, Geometry, Refusal, Repair};

// ---- which extents are freed

// Which of `buckets` buckets the entry of extent e belongs to.
fn bucket_of(img: &[u8], g: Geometry, e: Extent, buckets: usize) -> usize
    requires opened { Opened img.now g }
    requires e_lt_extents { e.0 < g.extents }
    requires buckets_nonzero { (0 < buckets) × (buckets ≤ 65536) }
    ensures value { result ≡ bucket_of buckets (table_file g (view img.now) e.0) (table_offset g (view img.now) e.0) }
    ensures upper_bound { result < buckets }
{
    let part = table::table_file(img, g, e) * 65536 + table::table_offset(img, g, e);
    (duplicates::mixed(0, part) as usize) * buckets / 4294967296
}

// Extent k has extent e's file and offset.
fn is_same_part(img: &[u8], g: Geometry, e: Extent, k: Extent) -> bool
    requires opened { Opened img.now g }
    requires e_lt_extents { (e.0 < g.extents) × (k.0 < g.extents) }
    ensures { result ≡ same_part g (view img.now) e.0 k.0 }
{
    table::table_file(img, g, k) == table::table_file(img, g, e)
        && table::table_offset(img, g, k) == table::table_offset(img, g, e)
}

// An extent below e has its file and offset. `b` is the bucket of both.
fn is_repeated(img: &[u8], g: Geometry, e: usize, b: usize, chains: &[u32]) -> bool
    requires opened { Opened img.now g }
    requires e_lt_extents { (e < g.extents) × (b < length chains.now) × (e ≤ length chains.now) }
    requires b_value { b ≡ bucket_of (length chains.now) (table_file g (view img.now) e) (table_offset g (view img.now) e) }
    requires free_file_value { eqb (table_file g (view img.now) e) free_file ≡ false }
    requires linked { Linked g (view img.now) e chains.now }
    ensures { result ≡ any_below (same_part g (view img.now) e) e }
{
    let mut j = (chains[b] / 65536) as usize;
    // Kept as a loop by hand: it goes from link to link, not from number to number.
    while j != 0 {
        if is_same_part(img, g, Extent(e as u64), Extent((j - 1) as u64)) {
            return true;
        }
        j = (chains[j - 1] % 65536) as usize;
    }
    false
}

// Extent e isn't free, and is freed; `again`: an extent below it has its file and offset. An offset has 16 bits, so the bytes before it
// are counted where the size, which can be any number of 64 bits, can't be rounded up.
fn is_needless(img: &[u8], g: Geometry, e: Extent, again: bool) -> bool
    requires opened { Opened img.now g }
    requires e_lt_extents { e.0 < g.extents }
    requires free_file_value { eqb (table_file g (view img.now) e.0) free_file ≡ false }
    requires again_value { again ≡ any_below (same_part g (view img.now) e.0) e.0 }
    ensures { result ≡ is_stray (catalogue_of (view img.now)) e.0 }
{
    let f = table::table_file(img, g, e);
    if f >= g.files || !directory::is_occupied(img, FileIndex(f)) {
        return true;
    }
    let before = table::table_offset(img, g, e) * (512 * u64::from(g.extent_sectors));
    directory::size_at(img, FileIndex(f)) <= before || again
}

// Whether extent e is freed. Where it isn't free it has joined its chain.
fn is_stray(img: &[u8], g: Geometry, e: usize, chains: &mut [u32]) -> bool
    requires opened { Opened img.now g }
    requires e_lt_extents { (e < g.extents) × (length chains.old ≤ 65536) × (g.extents ≤ length chains.old) }
    requires linked { Linked g (view img.now) e chains.old }
    ensures value { result ≡ is_stray (catalogue_of (view img.now)) e }
    ensures linked_2 { Linked g (view img.now) (e + 1) chains.new }
{
    let extent = Extent(e as u64);
    if table::table_file(img, g, extent) == model::FREE_FILE {
        return false;
    }
    let b = bucket_of(img, g, extent, chains.len());
    let again = is_repeated(img, g, e, b, chains);
    duplicates::enter(e, b, chains);
    is_needless(img, g, extent, again)
}

// The byte of each extent that is freed becomes 1; all were 0. How many are.
fn mark_strays(img: &[u8], g: Geometry, chains: &mut [u32], marks: &mut [u8]) -> u64
    requires opened { Opened img.now g }
    requires chains_len_bound { (length chains.old ≤ 65536) × (g.extents ≤ length chains.old) × (g.extents ≤ length marks.old) }
    requires by_index { (b : ℕ) → b < length chains.old → get_or chains.old b 0 ≡ 0 }
    requires by_index_2 { (e : ℕ) → get_or marks.old e 0 ≡ 0 }
    ensures marks_after { is_marked marks.new ≡ is_stray (catalogue_of (view img.now)) }
    ensures value { result ≡ count_below (is_stray (catalogue_of (view img.now))) g.extents }
{
    let mut found = 0;
    for e in 0..g.extents as usize {
        let freed = is_stray(img, g, e, chains);
        marks[e] = u8::from(freed);
        found += u64::from(freed);
    }
    found
}

// ---- their table sectors

// Table sector t holds an extent that is freed.
fn holds_marked(marks: &[u8], t: u64) -> bool
    requires { 128 * t + 128 ≤ length marks.now }
    ensures { result ≡ holds_any (is_marked marks.now) t }
{
    let from = (128 * t) as usize;
    (0..128).any(|k| marks[from + k] == 1)
}

// How many table sectors hold one.
fn marked_sectors(marks: &[u8], g: Geometry) -> u64
    requires bounded { Bounded g }
    requires g_in_bounds { 128 * table_sectors g ≤ length marks.now }
    ensures value { result ≡ sectors_holding (is_marked marks.now) g }
    ensures upper_bound { result ≤ table_sectors g }
{
    let mut found = 0;
    for t in 0..g.table_sectors() {
        found += u64::from(holds_marked(marks, t));
    }
    found
}

// The copy of table sector t, freed, is record k, if the sector holds one.
fn put_marked_sector(
    list: &mut [u8],
    k: usize,
    numbers: &mut [u64],
    img: &[u8],
    g: Geometry,
    stages: &[u64],
    marks: &[u8],
    t: u64,
) -> usize
    requires stages { Stages g stages.now }
    requires opened { Opened img.now g }
    requires t_bound { (t < table_sectors g) × (128 * table_sectors g ≤ length marks.now) }
    requires record_size_in_bounds { ((k + 1) * record_size ≤ length list.old) × (k < 640) × (k < length numbers.old) }
    ensures { Added g stages.now numbers.old list.old k
        (freed_sector (is_marked marks.now) g (view img.now) t) numbers.new list.new result }
{
    if !holds_marked(marks, t) {
        return k;
    }
    let from = (128 * t) as usize;
    let part = &marks[from..from + 128];
    freeing::put_freed_sector(list, k, numbers, img, g, stages, t, part)
}

// The copies of all such table sectors, from record 0 on.
fn put_marked(
    list: &mut [u8],
    numbers: &mut [u64],
    img: &[u8],
    g: Geometry,
    stages: &[u64],
    marks: &[u8],
) -> usize
    requires stages { Stages g stages.now }
    requires opened { Opened img.now g }
    requires g_in_bounds { 128 * table_sectors g ≤ length marks.now }
    requires record_size_in_bounds { ((sectors_holding (is_marked marks.now) g + 1) * record_size ≤ length list.old) × (table_sectors g ≤ length numbers.old) }
    ensures added { Added g stages.now numbers.old list.old 0
        (freed_sectors (is_marked marks.now) g (view img.now)) numbers.new list.new result }
    ensures value { (result ≡ sectors_holding (is_marked marks.now) g) × (result ≤ table_sectors g) }
{
    let mut j = 0;
    for t in 0..g.table_sectors() {
        j = put_marked_sector(list, j, numbers, img, g, stages, marks, t);
    }
    j
}

// The whole list, which has room for it.
fn put_repair(img: &[u8], g: Geometry, stages: &[u64], marks: &[u8], list: &mut [u8]) -> usize
    requires stages_of { StagesOf g (view img.now) stages.now }
    requires opened { Opened img.now g }
    requires marks_value { (is_marked marks.now ≡ is_stray (catalogue_of (view img.now))) × (128 * table_sectors g ≤ length marks.now) }
    requires record_size_in_bounds { record_count 0 (sectors_holding (is_marked marks.now) g) * record_size ≤ length list.old }
    ensures { Emitted list.old 0
        (closed (groups_for (view img.now) (some (plan_for img.now)))) list.new result }
{
    let mut numbers = [0u64; 1024];
    let n = put_marked(list, &mut numbers, img, g, stages, marks);
    commit::put_commit(list, n, img, g, stages, &numbers, n)
}

// ---- files that lack an extent

// Extent e is counted for its file, if it stays.
fn count_extent(img: &[u8], g: Geometry, e: usize, marks: &[u8], kept: &mut [u32])
    requires opened { Opened img.now g }
    requires e_lt_extents { (e < g.extents) × (g.extents ≤ length marks.now) × (g.files ≤ length kept.old) }
    requires kept { Kept g (view img.now) (is_marked marks.now) e kept.old }
    ensures { Kept g (view img.now) (is_marked marks.now) (e + 1) kept.new }
{
    if marks[e] == 1 {
        return;
    }
    let f = table::table_file(img, g, Extent(e as u64)) as usize;
    if f < g.files as usize {
        kept[f] += 1;
    }
}

// How many extents of each file stay.
fn count_kept(img: &[u8], g: Geometry, marks: &[u8], kept: &mut [u32])
    requires opened { Opened img.now g }
    requires extents_in_bounds { (g.extents ≤ length marks.now) × (g.files ≤ length kept.old) }
    ensures { Kept g (view img.now) (is_marked marks.now) g.extents kept.new }
{
    kept.fill(0);
    for e in 0..g.extents as usize {
        count_extent(img, g, e, marks, kept);
    }
}

// File i has fewer than its size needs. None that stay are too many, or of one offset.
fn is_lacking(img: &[u8], g: Geometry, i: usize, kept: &[u32]) -> bool
    requires opened { Opened img.now g }
    requires i_lt_files { (i < g.files) × (g.files ≤ length kept.now) }
    requires kept { Kept g (view img.now) (is_stray (catalogue_of (view img.now))) g.extents kept.now }
    ensures { result ≡ fault26 (repaired (catalogue_of (view img.now))) i }
{
    let index = FileIndex(i as u64);
    directory::is_occupied(img, index)
        && u64::from(kept[i]) != table::extents_for(g, directory::size_at(img, index))
}

// The fault of the lowest such file. No other is one of the table's then, as every entry is free or a file's.
fn table_fault(img: &[u8], g: Geometry, kept: &[u32]) -> Result<(), Fault>
    requires opened { Opened img.now g }
    requires files_in_bounds { g.files ≤ length kept.now }
    requires kept { Kept g (view img.now) (is_stray (catalogue_of (view img.now))) g.extents kept.now }
    ensures { soundness_in result ≡ or_else 26 (first (fault26 (repaired (catalogue_of (view img.now)))) g.files) Sound }
{
    match (0..g.files as usize).find(|&i| is_lacking(img, g, i, kept)) {
        Some(i) => Err(Fault::WrongExtents(FileIndex(i as u64))),
        None => Ok(()),
    }
}

// ---- a repair of a clean volume

// What remains is the table's alone. By way of arrays that are lent, all 0. The marks are as many as the table has entries, padding
// included.
fn mend_in(
    img: &[u8],
    g: Geometry,
    list: &mut [u8],
    numbers: &mut [u32],
    marks: &mut [u8],
) -> Result<Repair, Refusal>
    requires opened { Opened img.now g }
    requires numbers_len_bound { (length numbers.old ≤ 65536) × (g.extents ≤ length numbers.old) × (g.files ≤ length numbers.old) }
    requires g_in_bounds { 128 * table_sectors g ≤ length marks.old }
    requires by_index { (b : ℕ) → b < length numbers.old → get_or numbers.old b 0 ≡ 0 }
    requires by_index_2 { (e : ℕ) → get_or marks.old e 0 ≡ 0 }
    ensures { Mends (view img.now) list.old result list.new }
{
    let freed = mark_strays(img, g, numbers, marks);
    let sectors = marked_sectors(marks, g);
    count_kept(img, g, marks, numbers);
    let remaining = table_fault(img, g, numbers);
    if freed == 0 {
        return Ok(Repair {
            freed,
            length: 0,
            remaining,
        });
    }
    let Some(stages) = table::staging(img, g) else {
        return Err(Refusal::VolumeFull);
    };
    let needed = lists::RECORD_SIZE * commit::records_for(sectors);
    if list.len() < needed {
        return Err(Refusal::TooShort);
    }
    put_repair(img, g, &stages, marks, list);
    Ok(Repair {
        freed,
        length: needed as u64,
        remaining,
    })
}

// By way of N numbers and N bytes of its own. They stay out of the frames of its callers, so that a volume takes stack only for those
// that it uses.
#[inline(never)]
fn mend_of<const N: usize>(img: &[u8], g: Geometry, list: &mut [u8]) -> Result<Repair, Refusal>
    requires opened { Opened img.now g }
    requires files_bound { (g.files ≤ N) × (128 * table_sectors g ≤ N) × (N ≤ 65536) }
    ensures { Mends (view img.now) list.old result list.new }
{
    let mut numbers = [0u32; N];
    let mut marks = [0u8; N];
    mend_in(img, g, list, &mut numbers, &mut marks)
}

fn mend(img: &[u8], g: Geometry, list: &mut [u8]) -> Result<Repair, Refusal>
    requires { Opened img.now g }
    ensures { Mends (view img.now) list.old result list.new }
{
    let most = g.files.max(g.extents);
    if most <= 1024 {
        return mend_of::<1024>(img, g, list);
    }
    if most <= 8192 {
        return mend_of::<8192>(img, g, list);
    }
    mend_of::<65536>(img, g, list)
}

// ---- the call

// The repair of a clean volume. What is wrong with the directory stays, and is found before what remains of the table.
fn repair_in(img: &[u8], list: &mut [u8]) -> Result<Repair, Refusal>
    requires readable { Readable img.now }
    requires img_value { state_number (state_on (view img.now)) ≡ 0 }
    ensures value { repaired_in result ≡ in_volume repair_answer img.now (length list.old) }
    ensures list_after { list.new ≡ in_volume repair_list img.now list.old }
{
    let g = volume::geometry_in(img);
    let repair = mend(img, g, list)?;
    let remaining = soundness::directory_fault(img, g).and(repair.remaining);
    Ok(Repair {
        remaining,
        ..repair
    })
}

pub fn repair(img: &[u8], list: &mut [u8]) -> Result<Repair, Refusal>
    ensures value { repaired_in result ≡ on_image repair_answer img.now (length list.old) }
    ensures list_after { list.new ≡ on_image repair_list img.now list.old }
{
    soundness::clean_verdict(img)?;
    repair_in(img, list)
}

// The same of lent sectors (T-11).
pub fn repair_lent(front: &[u8], count: u64, list: &mut [u8]) -> Result<Repair, Refusal>
    ensures value { repaired_in result ≡ on_lent repair_answer front.now count (length list.old) }
    ensures list_after { list.new ≡ on_lent repair_list front.now count list.old }
{
    soundness::clean_verdict_lent(front, count)?;
    repair_in(front, list)
}
