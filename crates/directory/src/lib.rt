// The root and the directory entries of an image: what they say, the searches by name and by id, faults 21 and 22, updated sectors.
#![tactic(auto)]

ghost use Rattle.std.specs.Prelude.{◌≡◌, not, ◌&&◌, ◌||◌, ◌+◌, ◌-◌, ◌*◌, ◌≤◌, ◌<◌, eqb, ltb, length, get_or};
ghost use Rattle.model.specs.Bytes.{number_in};
ghost use Rattle.model.specs.Search.{scan, first, any_below};
ghost use Rattle.model.specs.Geometry.{extent_bytes, root_at, entry_at};
ghost use Rattle.model.specs.Disk.{view};
ghost use Rattle.model.specs.Root.{root_field, updated_root_sector, accessed_root_sector};
ghost use Rattle.model.specs.Edition.{layout_of, bad_time};
ghost use Rattle.model.specs.Entry.{entry_field, entry_in, fields_of, is_occupied, name_in, bad_name, is_typable, bad_new_name, updated_entry_sector, renamed_entry_sector, accessed_entry_sector};
ghost use Rattle.model.specs.Catalogue.{catalogue_of, has_id, file_named, free_entry};
ghost use Rattle.model.specs.Faults.{bad_mark, fault21, fault22};
ghost use Rattle.model.specs.Opened.{Bounded, Opened};
ghost use Rattle.directory.specs.Named.{is_named};

use model::{Fields, FileIndex, Geometry, Sector};

// ---- one entry

pub fn is_occupied(img: &[u8], i: FileIndex) -> bool
    requires { 512 * entry_at i.0 + 512 ≤ length img.now }
    ensures { result ≡ is_occupied (view img.now (entry_at i.0)) }
{
    layout::entry::is_occupied(fields::sector_part(img, i.sector()))
}

// What an occupied entry says.
pub fn fields_at(img: &[u8], edition: u64, i: FileIndex) -> Fields
    requires { 512 * entry_at i.0 + 512 ≤ length img.now }
    ensures { result ≡ fields_of (entry_in edition (view img.now (entry_at i.0))) }
{
    layout::entry::fields_in(fields::sector_part(img, i.sector()), edition)
}

pub fn size_at(img: &[u8], i: FileIndex) -> u64
    requires { 512 * entry_at i.0 + 512 ≤ length img.now }
    ensures { result ≡ number_in (view img.now (entry_at i.0)) entry_field.size }
{
    layout::entry::size(fields::sector_part(img, i.sector()))
}

pub fn id_at(img: &[u8], i: FileIndex) -> u64
    requires { 512 * entry_at i.0 + 512 ≤ length img.now }
    ensures { result ≡ number_in (view img.now (entry_at i.0)) entry_field.id }
{
    layout::entry::id(fields::sector_part(img, i.sector()))
}

// The name's bytes, where they end in the sector.
pub fn name_at(img: &[u8], edition: u64, i: FileIndex) -> &[u8]
    requires i_in_bounds { 512 * entry_at i.0 + 512 ≤ length img.now }
    requires edition_bound { number_in (view img.now (entry_at i.0)) (layout_of edition).name_length ≤ (layout_of edition).longest_name }
    ensures { result.now ≡ name_in edition (view img.now (entry_at i.0)) }
{
    layout::entry::name(fields::sector_part(img, i.sector()), edition)
}

// Whether an entry's sector is occupied and has the name. The lengths are compared first: the comparison sees no byte past the name.
// Inlined: a search asks it of each entry.
#[inline(always)]
pub fn is_named(s: &[u8], edition: u64, name: &[u8]) -> bool
    requires s_len { length s.now ≡ 512 }
    requires name_len_bound { length name.now ≤ (layout_of edition).longest_name }
    ensures { result ≡ is_named edition name.now s.now }
{
    layout::entry::is_occupied(s)
        && layout::entry::name_length(s, edition) == name.len()
        && fields::starts_with(layout::entry::name_part(s, edition), name)
}

// Whether entry i is occupied and has the name.
#[inline(always)]
pub fn has_name(img: &[u8], edition: u64, i: FileIndex, name: &[u8]) -> bool
    requires i_in_bounds { 512 * entry_at i.0 + 512 ≤ length img.now }
    requires name_len_bound { length name.now ≤ (layout_of edition).longest_name }
    ensures { result ≡ is_named edition name.now (view img.now (entry_at i.0)) }
{
    is_named(fields::sector_part(img, i.sector()), edition, name)
}

// Whether entry i is occupied and has the id.
pub fn has_id_at(img: &[u8], i: FileIndex, id: u64) -> bool
    requires { 512 * entry_at i.0 + 512 ≤ length img.now }
    ensures { result ≡ (is_occupied (view img.now (entry_at i.0)) && eqb (number_in (view img.now (entry_at i.0)) entry_field.id) id) }
{
    is_occupied(img, i) && id_at(img, i) == id
}

// ---- the root

pub fn root_id(img: &[u8]) -> u64
    requires { 512 * root_at + 512 ≤ length img.now }
    ensures { result ≡ number_in (view img.now root_at) root_field.id }
{
    layout::root::id(fields::sector_part(img, Sector::ROOT))
}

// ---- sectors that a change rewrites: the bytes that document 01 doesn't name stay

// The root's sector with the version up and the change time set.
pub fn updated_root(img: &[u8], edition: u64, time: u64) -> [u8; 512]
    requires { 512 * root_at + 512 ≤ length img.now }
    ensures { result ≡ updated_root_sector edition time (view img.now root_at) }
{
    layout::root::updated(fields::sector_part(img, Sector::ROOT), edition, time)
}

// Entry i's sector with the size given, the version up and the change time set.
pub fn updated_entry(img: &[u8], edition: u64, i: FileIndex, size: u64, time: u64) -> [u8; 512]
    requires { 512 * entry_at i.0 + 512 ≤ length img.now }
    ensures { result ≡ updated_entry_sector edition size time (view img.now (entry_at i.0)) }
{
    layout::entry::updated(fields::sector_part(img, i.sector()), edition, size, time)
}

// Entry i's sector with the new name, the version up and the change time set.
pub fn renamed_entry(img: &[u8], edition: u64, i: FileIndex, name: &[u8], time: u64) -> [u8; 512]
    requires i_in_bounds { 512 * entry_at i.0 + 512 ≤ length img.now }
    requires name_len_bound { length name.now ≤ (layout_of edition).longest_name }
    ensures { result ≡ renamed_entry_sector edition name.now time (view img.now (entry_at i.0)) }
{
    layout::entry::renamed(fields::sector_part(img, i.sector()), edition, name, time)
}

// The root's sector with the access time set.
pub fn accessed_root(img: &[u8], edition: u64, time: u64) -> [u8; 512]
    requires { 512 * root_at + 512 ≤ length img.now }
    ensures { result ≡ accessed_root_sector edition time (view img.now root_at) }
{
    layout::root::accessed(fields::sector_part(img, Sector::ROOT), edition, time)
}

// Entry i's sector with the access time set.
pub fn accessed_entry(img: &[u8], edition: u64, i: FileIndex, time: u64) -> [u8; 512]
    requires { 512 * entry_at i.0 + 512 ≤ length img.now }
    ensures { result ≡ accessed_entry_sector edition time (view img.now (entry_at i.0)) }
{
    layout::entry::accessed(fields::sector_part(img, i.sector()), edition, time)
}

// ---- names

// The length isn't 1 to the edition's longest, or a byte is 0.
pub fn bad_name(edition: u64, name: &[u8]) -> bool
    ensures { result ≡ bad_name edition name.now }
{
    name.is_empty() || layout::edition::longest_name(edition) < name.len() || fields::has_zero(name)
}

// What every call refuses that takes the name of a file and a time.
pub fn bad_name_or_time(edition: u64, name: &[u8], time: u64) -> bool
    ensures { result ≡ (bad_time edition time || bad_name edition name.now) }
{
    layout::edition::bad_time(edition, time) || bad_name(edition, name)
}

// A byte that nobody can type, or the slash.
fn is_untypable(b: u8) -> bool
    ensures { result ≡ not (is_typable b) }
{
    !(33..=126).contains(&b) || b == b'/'
}

// Such a byte stands in the name.
fn has_untypable(name: &[u8]) -> bool
    ensures { result ≡ any_below (λ k. not (is_typable (get_or name.now k 0))) (length name.now) }
{
    name.iter().any(|&b| is_untypable(b))
}

// The rule for a name that create or rename gives.
pub fn bad_new_name(edition: u64, name: &[u8]) -> bool
    ensures { result ≡ bad_new_name edition name.now }
{
    bad_name(edition, name) || has_untypable(name)
}

// ---- searches

// The lowest of the files from `from` to below `to` that has the name.
pub fn file_named_between(
    img: &[u8],
    g: Geometry,
    name: &[u8],
    from: usize,
    to: usize,
) -> Option<usize>
    requires opened { Opened img.now g }
    requires name_len_bound { length name.now ≤ (layout_of g.edition).longest_name }
    requires from_le_to { (from ≤ to) × (to ≤ g.files) }
    ensures { result ≡ scan (λ i. is_named g.edition name.now (view img.now (entry_at i))) (to - from) from }
{
    (from..to).find(|&i| has_name(img, g.edition, FileIndex(i as u64), name))
}

// The file of that name.
pub fn file_named(img: &[u8], g: Geometry, name: &[u8]) -> Option<usize>
    requires opened { Opened img.now g }
    requires name_len_bound { length name.now ≤ (layout_of g.edition).longest_name }
    ensures { result ≡ file_named (catalogue_of (view img.now)) name.now }
{
    file_named_between(img, g, name, 0, g.files as usize)
}

// The lowest free entry.
pub fn free_entry(img: &[u8], g: Geometry) -> Option<usize>
    requires { Opened img.now g }
    ensures { result ≡ free_entry (catalogue_of (view img.now)) }
{
    (0..g.files as usize).find(|&i| !is_occupied(img, FileIndex(i as u64)))
}

// Whether an occupied entry has the id.
pub fn has_id(img: &[u8], g: Geometry, id: u64) -> bool
    requires { Opened img.now g }
    ensures { result ≡ any_below (λ i. has_id id ((catalogue_of (view img.now)).entries i)) (catalogue_of (view img.now)).geometry.files }
{
    (0..g.files).any(|i| has_id_at(img, FileIndex(i), id))
}

// ---- fault 21

// The mark in an entry's sector is neither 0 nor 65535.
pub fn bad_mark_in(s: &[u8]) -> bool
    requires { length s.now ≡ 512 }
    ensures { result ≡ bad_mark s.now }
{
    let mark = layout::entry::mark(s);
    mark != layout::entry::FREE_MARK && mark != layout::entry::OCCUPIED_MARK
}

fn bad_mark(img: &[u8], i: FileIndex) -> bool
    requires { 512 * entry_at i.0 + 512 ≤ length img.now }
    ensures { result ≡ fault21 (view img.now) i.0 }
{
    bad_mark_in(fields::sector_part(img, i.sector()))
}

pub fn fault21(img: &[u8], g: Geometry) -> Option<usize>
    requires { Opened img.now g }
    ensures { result ≡ first (fault21 (view img.now)) g.files }
{
    (0..g.files as usize).find(|&i| bad_mark(img, FileIndex(i as u64)))
}

// ---- fault 22

// The name in an entry's sector is bad.
fn bad_name_in(s: &[u8], edition: u64) -> bool
    requires { length s.now ≡ 512 }
    ensures { result ≡ bad_name edition (name_in edition s.now) }
{
    layout::edition::longest_name(edition) < layout::entry::name_length(s, edition)
        || bad_name(edition, layout::entry::name(s, edition))
}

// N x E
pub fn most_bytes(g: Geometry) -> u64
    requires { Bounded g }
    ensures { result ≡ g.extents * extent_bytes g }
{
    g.extents * (512 * (g.extent_sectors as u64))
}

// The name in an entry's sector is bad, or the size exceeds `most`.
pub fn bad_entry_in(s: &[u8], edition: u64, most: u64) -> bool
    requires { length s.now ≡ 512 }
    ensures { result ≡ (bad_name edition (name_in edition s.now) || ltb most (number_in s.now entry_field.size)) }
{
    bad_name_in(s, edition) || most < layout::entry::size(s)
}

// Entry i is occupied, and its name is bad or its size exceeds `most`.
fn bad_entry(img: &[u8], edition: u64, most: u64, i: FileIndex) -> bool
    requires { 512 * entry_at i.0 + 512 ≤ length img.now }
    ensures { result ≡ (is_occupied (view img.now (entry_at i.0))
        && (bad_name edition (name_in edition (view img.now (entry_at i.0))) || ltb most (number_in (view img.now (entry_at i.0)) entry_field.size))) }
{
    let s = fields::sector_part(img, i.sector());
    layout::entry::is_occupied(s) && bad_entry_in(s, edition, most)
}

pub fn fault22(img: &[u8], g: Geometry) -> Option<usize>
    requires { Opened img.now g }
    ensures { result ≡ first (fault22 (catalogue_of (view img.now))) g.files }
{
    let most = most_bytes(g);
    (0..g.files as usize).find(|&i| bad_entry(img, g.edition, most, FileIndex(i as u64)))
}
