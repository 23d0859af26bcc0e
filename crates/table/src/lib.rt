// The allocation table: its entries, the searches of it, and which entries of its sectors are a file's.
#![tactic(auto)]

ghost use Rattle.std.specs.Prelude.{◌≡◌, true, cond, not, ◌&&◌, ◌||◌, ◌+◌, ◌-◌, ◌*◌, ◌≤◌, ◌<◌, eqb, length, is_none, IfSome};
ghost use Rattle.model.specs.Bytes.{put, be_at};
ghost use Rattle.model.specs.Search.{any_below, all_below, scan, index_of};
ghost use Rattle.model.specs.Geometry.{table_sectors, extents_for};
ghost use Rattle.model.specs.Disk.{view};
ghost use Rattle.model.specs.Opened.{Bounded, Opened};
ghost use Rattle.commit.specs.Commit.{StagesOf};
ghost use Rattle.model.specs.Table.{table_file, table_offset, table_entry_bytes, free_file, freed_in, holds_any, sectors_holding};
ghost use Rattle.model.specs.Catalogue.{catalogue_of, free_extent, lacks_reserve, extent_of, is_part};
ghost use Rattle.table.specs.Word.{swapped, entry_word};
ghost use Rattle.table.specs.Highest.{IsHighest};
ghost use Rattle.table.specs.Owned.{owned_in, is_marked, Marks};

use model::{Extent, FileIndex, Geometry};

// The file that extent e's entry names; 65535 where it is free.
pub fn table_file(img: &[u8], g: Geometry, e: Extent) -> u64
    requires opened { Opened img.now g }
    requires e_lt_extents { e.0 < g.extents }
    ensures value { result ≡ table_file g (view img.now) e.0 }
    ensures upper_bound { result < 65536 }
{
    layout::table::file(img, g.table_entry_at(e))
}

// The offset, counted in extents, that extent e's entry says.
pub fn table_offset(img: &[u8], g: Geometry, e: Extent) -> u64
    requires opened { Opened img.now g }
    requires e_lt_extents { e.0 < g.extents }
    ensures value { result ≡ table_offset g (view img.now) e.0 }
    ensures upper_bound { result < 65536 }
{
    layout::table::offset(img, g.table_entry_at(e))
}

// ---- searches, a table sector at a time
// Their folds over a sector's 128 entries have no early exit and read an entry as one number, lowest byte first: so the compiler takes
// several entries at once.

// A number below 65536 with its bytes in the other order.
fn swapped(v: u64) -> u32
    requires { v < 65536 }
    ensures { result ≡ swapped v }
{
    u32::from((v as u16).swap_bytes())
}

// The two bytes at `at`, lowest first.
fn pair(s: &[u8], at: usize) -> u32
    requires { at + 2 ≤ length s.now }
    ensures value { result ≡ swapped (be_at s.now at 2) }
    ensures at_bound { be_at s.now at 2 < 65536 }
{
    u32::from(u16::from_le_bytes([s[at], s[at + 1]]))
}

// Extent e's entry, lowest byte first.
fn entry_word(img: &[u8], g: Geometry, e: Extent) -> u32
    requires opened { Opened img.now g }
    requires e_lt_extents { e.0 < g.extents }
    ensures value { result ≡ entry_word (table_file g (view img.now) e.0) (table_offset g (view img.now) e.0) }
    ensures e_bound { (table_file g (view img.now) e.0 < 65536) × (table_offset g (view img.now) e.0 < 65536) }
{
    let at = g.table_entry_at(e);
    pair(img, at) + 65536 * pair(img, at + layout::table::OFFSET)
}

// Extent e is free.
fn is_free(img: &[u8], g: Geometry, e: Extent) -> bool
    requires opened { Opened img.now g }
    requires e_lt_extents { e.0 < g.extents }
    ensures { result ≡ eqb (table_file g (view img.now) e.0) free_file }
{
    entry_word(img, g, e) % 65536 == 65535
}

// The 128 extents from e on are all free.
pub fn all_free(img: &[u8], g: Geometry, e: u64) -> bool
    requires opened { Opened img.now g }
    requires e_bound { e + 128 ≤ g.extents }
    ensures { result ≡ all_below (λ k. eqb (table_file g (view img.now) (e + k)) free_file) 128 }
{
    (0..128).fold(true, |all, k| all & is_free(img, g, Extent(e + k)))
}

// One of the 128 extents from e on is free.
fn holds_free(img: &[u8], g: Geometry, e: u64) -> bool
    requires opened { Opened img.now g }
    requires e_bound { e + 128 ≤ g.extents }
    ensures { result ≡ any_below (λ k. eqb (table_file g (view img.now) (e + k)) free_file) 128 }
{
    (0..128).fold(false, |found, k| found | is_free(img, g, Extent(e + k)))
}

// The lowest free extent from `from` to below `to`.
fn free_between(img: &[u8], g: Geometry, from: usize, to: usize) -> Option<usize>
    requires opened { Opened img.now g }
    requires from_le_to { (from ≤ to) × (to ≤ g.extents) }
    ensures { result ≡ scan (λ e. eqb (table_file g (view img.now) e) free_file) (to - from) from }
{
    (from..to).find(|&e| is_free(img, g, Extent(e as u64)))
}

// The lowest free extent from `from` on. Table sectors with no free one are passed over whole, as many as there are
// times 128 extents from `from` on: a shorter table isn't read twice.
fn free_from(img: &[u8], g: Geometry, from: usize) -> Option<usize>
    requires opened { Opened img.now g }
    requires from_le_extents { from ≤ g.extents }
    ensures { result ≡ scan (λ e. eqb (table_file g (view img.now) e) free_file) (g.extents - from) from }
{
    let n = g.extents as usize;
    let whole = (n - from) / 128;
    let t = (0..whole)
        .find(|&t| holds_free(img, g, 128 * t as u64))
        .unwrap_or(whole);
    free_between(img, g, from.max(128 * t), n)
}

// The lowest free extent. The first ones are looked at one by one, as the search ends there on a volume that is nearly empty.
pub fn free_extent(img: &[u8], g: Geometry) -> Option<usize>
    requires { Opened img.now g }
    ensures { result ≡ free_extent (catalogue_of (view img.now)) }
{
    let few = g.extents.min(8) as usize;
    free_between(img, g, 0, few).or_else(|| free_from(img, g, few))
}

// ---- the highest free extents

// The highest free extent below `end`.
fn free_below(img: &[u8], g: Geometry, end: u64) -> Option<u64>
    requires opened { Opened img.now g }
    requires end_le_extents { end ≤ g.extents }
    ensures { IsHighest (catalogue_of (view img.now)) end result }
{
    (0..end).rev().find(|&e| is_free(img, g, Extent(e)))
}

// The same. 128 entries with no free one are passed over at once.
fn highest_free(img: &[u8], g: Geometry, end: u64) -> Option<u64>
    requires opened { Opened img.now g }
    requires end_le_extents { end ≤ g.extents }
    ensures { IsHighest (catalogue_of (view img.now)) end result }
{
    let mut e = end;
    // Kept as a `while`: the steps of 128 begin at `end`, which need not end a table sector.
    while 128 <= e && !holds_free(img, g, e - 128) {
        e -= 128;
    }
    free_below(img, g, e)
}

// The staging extents: the K highest that are free, in rising order, behind which zeros stand. None where fewer are free.
pub fn staging(img: &[u8], g: Geometry) -> Option<[u64; 5]>
    requires { Opened img.now g }
    ensures lacking { lacks_reserve (catalogue_of (view img.now)) ≡ is_none result }
    ensures stages_of { IfSome result (λ stages. StagesOf g (view img.now) stages) }
{
    let mut stages = [0u64; 5];
    let mut e = g.extents;
    for k in (0..g.reserve_extents() as usize).rev() {
        e = highest_free(img, g, e)?;
        stages[k] = e;
    }
    Some(stages)
}

// ---- a file's extent of an offset

// Extent e is file i's, of offset o. Both numbers are compared at once; an offset past 65535 is no entry's.
fn is_part(img: &[u8], g: Geometry, i: FileIndex, o: u64, e: Extent) -> bool
    requires opened { Opened img.now g }
    requires i_lt_free_file { (i.0 < free_file) × (e.0 < g.extents) }
    ensures { result ≡ is_part i.0 o ((catalogue_of (view img.now)).table e.0) }
{
    let word = entry_word(img, g, e);
    o < 65536 && word == swapped(i.0) + 65536 * swapped(o)
}

// One of the 128 extents from e on is file i's, of offset o.
fn holds_part(img: &[u8], g: Geometry, i: FileIndex, o: u64, e: u64) -> bool
    requires opened { Opened img.now g }
    requires i_lt_free_file { (i.0 < free_file) × (e + 128 ≤ g.extents) }
    ensures { result ≡ any_below (λ k. is_part i.0 o ((catalogue_of (view img.now)).table (e + k))) 128 }
{
    (0..128).fold(
        false,
        |found, k| found | is_part(img, g, i, o, Extent(e + k)),
    )
}

// The lowest one from `from` on.
fn part_from(img: &[u8], g: Geometry, i: FileIndex, o: u64, from: u64) -> Extent
    requires opened { Opened img.now g }
    requires i_lt_free_file { (i.0 < free_file) × (from ≤ g.extents) }
    ensures result_value { result.0 ≡ index_of (scan (λ e. is_part i.0 o ((catalogue_of (view img.now)).table e)) (g.extents - from) from) }
    ensures result_lt_extents { result.0 < g.extents }
{
    let found = (from..g.extents).find(|&e| is_part(img, g, i, o, Extent(e)));
    Extent(found.unwrap_or(0))
}

// File i's extent of offset o; extent 0 where it has none. A sector that does not hold it is passed over whole.
pub fn extent_of(img: &[u8], g: Geometry, i: FileIndex, o: u64) -> Extent
    requires opened { Opened img.now g }
    requires i_lt_free_file { i.0 < free_file }
    ensures result_value { result.0 ≡ extent_of (catalogue_of (view img.now)) i.0 o }
    ensures result_lt_extents { result.0 < g.extents }
{
    let whole = g.extents / 128;
    let t = (0..whole)
        .find(|&t| holds_part(img, g, i, o, 128 * t))
        .unwrap_or(whole);
    part_from(img, g, i, o, 128 * t)
}

// ---- a file's extents from an offset on

// Extent e is file i's, of offset o or more. Past the last extent stands table padding, which is no file's.
fn owned_from(img: &[u8], g: Geometry, i: FileIndex, o: u64, e: Extent) -> bool
    requires opened { Opened img.now g }
    requires i_lt_free_file { i.0 < free_file }
    ensures { result ≡ owned_in img.now i.0 o e.0 }
{
    e.0 < g.extents && table_file(img, g, e) == i.0 && o <= table_offset(img, g, e)
}

// Table sector t holds an extent of file i of offset o or more.
pub fn holds_from(img: &[u8], g: Geometry, i: FileIndex, o: u64, t: u64) -> bool
    requires opened { Opened img.now g }
    requires i_lt_free_file { (i.0 < free_file) × (t < table_sectors g) }
    ensures { result ≡ holds_any (owned_in img.now i.0 o) t }
{
    (0..128).any(|k| owned_from(img, g, i, o, g.table_extent(t, k)))
}

// How many table sectors hold one.
pub fn sectors_from(img: &[u8], g: Geometry, i: FileIndex, o: u64) -> u64
    requires opened { Opened img.now g }
    requires i_lt_free_file { i.0 < free_file }
    ensures value { result ≡ sectors_holding (owned_in img.now i.0 o) g }
    ensures upper_bound { result ≤ table_sectors g }
{
    (0..g.table_sectors())
        .filter(|&t| holds_from(img, g, i, o, t))
        .count() as u64
}

// A byte for each entry of table sector t: 1 marks one of file i's, of offset o or more.
pub fn marks_from(img: &[u8], g: Geometry, i: FileIndex, o: u64, t: u64) -> [u8; 128]
    requires opened { Opened img.now g }
    requires i_lt_free_file { (i.0 < free_file) × (t < table_sectors g) }
    ensures { Marks (λ k. owned_in img.now i.0 o (128 * t + k)) 128 result }
{
    let mut marks = [0u8; 128];
    for k in 0..128 {
        let hit = owned_from(img, g, i, o, g.table_extent(t, k as u64));
        marks[k] = u8::from(hit);
    }
    marks
}

// ---- freed entries

// Entry k of a table sector becomes 65535, 65535, if it is hit.
pub fn free_one(s: &mut [u8], k: usize, hit: bool)
    requires { 4 * k + 4 ≤ length s.old }
    ensures { s.new ≡ cond hit (put s.old (4 * k) (table_entry_bytes free_file 65535)) s.old }
{
    if hit {
        layout::table::free(s, k);
    }
}

// The marked ones of a table sector's entries are freed: byte k of the marks is entry k's.
pub fn free_marked(s: &mut [u8], marks: &[u8])
    requires { (length s.old ≡ 512) × (128 ≤ length marks.now) }
    ensures { s.new ≡ freed_in (is_marked marks.now) s.old 128 }
{
    for k in 0..128 {
        free_one(s, k, marks[k] == 1);
    }
}

// How many extents a size needs: z / E rounded up. No sum overflows here, whatever an entry says.
pub fn extents_for(g: Geometry, z: u64) -> u64
    requires { Bounded g }
    ensures value { result ≡ extents_for g z }
    ensures upper_bound { result ≤ 281474976710656 }
{
    z.div_ceil(512 * u64::from(g.extent_sectors))
}
