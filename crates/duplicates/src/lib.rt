// Faults 23 and 24: a name or an id that an occupied entry of lower index has too. Entries are taken in index order, each joins
// the chain of the bucket that its key's hash picks, and it is compared with the entries of that chain alone, and only where their
// tags, 8 bits more of the hash, are the same.
#![tactic(auto)]

ghost use Rattle.std.specs.Prelude.{◌≡◌, true, false, ℕ, ◌+◌, ◌*◌, ◌/◌, ◌%◌, ◌≤◌, ◌<◌, length, get_or, set};
ghost use Rattle.model.specs.Search.{first};
ghost use Rattle.model.specs.Geometry.{entry_at};
ghost use Rattle.model.specs.Disk.{view};
ghost use Rattle.model.specs.Catalogue.{catalogue_of};
ghost use Rattle.model.specs.Faults.{fault22, fault23, fault24};
ghost use Rattle.model.specs.Opened.{Opened};
ghost use Rattle.duplicates.specs.Keys.{shares, key_fits, KeysFit, is_reserved, is_repeated, is_faulty, mixed, half_at, part_at, name_hash, key_hash, place_of};
ghost use Rattle.duplicates.specs.Chains.{Entered, top_in, link_in, last_in, Joined, Chained};

use model::{FileIndex, Geometry};

// What no two occupied entries may share. A name stands where the edition has it.
#[derive(Clone, Copy)]
enum Key {
    Name(u64),
    Id,
}

// ---- hashes, on whose quality only the speed depends

// One more number into a hash, its halves multiplied apart: no product passes 64 bits.
pub fn mixed(h: u32, w: u64) -> u32
    ensures { result ≡ mixed h w }
{
    let high = (h as u64) + w / 4294967296;
    let low = w % 4294967296;
    ((high * 739982445 + low * 1640531527) % 4294967296) as u32
}

// The four bytes at `at`, lowest first: so the compiler reads them at once.
fn half(s: &[u8], at: usize) -> u64
    requires { at + 4 ≤ length s.now }
    ensures value { result ≡ half_at s.now at }
    ensures upper_bound { result < 4294967296 }
{
    u64::from(u32::from_le_bytes([s[at], s[at + 1], s[at + 2], s[at + 3]]))
}

// What the eight bytes at `at` add to a name's hash: the product of their halves. `k` is added to both, so that the order of words matters.
fn part(s: &[u8], at: usize, k: usize) -> u64
    requires at_in_bounds { at + 8 ≤ length s.now }
    requires k_bound { k ≤ 64 }
    ensures value { result ≡ part_at s.now at k }
    ensures upper_bound { result < 281474976710656 }
{
    let step = k as u64 + 1;
    let low = (half(s, at) + step * 2654435769) % 4294967296;
    let high = (half(s, at + 4) + step * 2246822519) % 4294967296;
    low * high / 65536
}

// The sum of the parts of all words of eight bytes, and of the last eight bytes. No part depends on another, so that the compiler takes
// several at once.
fn name_hash(name: &[u8]) -> u32
    requires { length name.now ≤ 512 }
    ensures { result ≡ name_hash name.now }
{
    let n = name.len();
    if n < 8 {
        return mixed(0, fields::be(name, 0, n));
    }
    let words = n / 8;
    let mut sum: u64 = 0;
    for i in 0..words {
        sum += part(name, 8 * i, i);
    }
    mixed(0, sum + part(name, n - 8, words))
}

fn key_hash(img: &[u8], key: Key, i: FileIndex) -> u32
    requires i_in_bounds { 512 * entry_at i.0 + 512 ≤ length img.now }
    requires i_value { key_fits key (view img.now (entry_at i.0)) ≡ true }
    ensures { result ≡ key_hash key (view img.now (entry_at i.0)) }
{
    match key {
        Key::Name(edition) => name_hash(directory::name_at(img, edition, i)),
        // of its halves the compiler would read each byte by itself; a remainder takes the whole id
        Key::Id => mixed(0, directory::id_at(img, i) % 4294967291),
    }
}

// Which of `buckets` buckets, and in the lowest 8 bits the key's tag. The hash is scaled, which takes no division by a variable.
fn place_of(img: &[u8], key: Key, i: FileIndex, buckets: usize) -> usize
    requires i_in_bounds { 512 * entry_at i.0 + 512 ≤ length img.now }
    requires i_value { key_fits key (view img.now (entry_at i.0)) ≡ true }
    requires buckets_nonzero { (0 < buckets) × (buckets ≤ 65536) }
    ensures value { result ≡ place_of key buckets (view img.now (entry_at i.0)) }
    ensures result_bound { result / 256 < buckets }
{
    (key_hash(img, key, i) as usize) * buckets / 16777216
}

// ---- comparisons

// Whether entry j is occupied and has entry i's key.
fn shares(img: &[u8], key: Key, i: FileIndex, j: FileIndex) -> bool
    requires i_in_bounds { 512 * entry_at i.0 + 512 ≤ length img.now }
    requires j_in_bounds { 512 * entry_at j.0 + 512 ≤ length img.now }
    requires i_value { key_fits key (view img.now (entry_at i.0)) ≡ true }
    ensures { result ≡ shares key (view img.now) i.0 j.0 }
{
    match key {
        Key::Name(edition) => {
            directory::has_name(img, edition, j, directory::name_at(img, edition, i))
        }
        Key::Id => directory::has_id_at(img, j, directory::id_at(img, i)),
    }
}

// The id is 0 or the root's.
fn is_reserved_id(img: &[u8], i: FileIndex) -> bool
    requires { 512 * entry_at i.0 + 512 ≤ length img.now }
    ensures { result ≡ is_reserved Key.Id (view img.now) i.0 }
{
    let id = directory::id_at(img, i);
    id == 0 || id == directory::root_id(img)
}

fn is_reserved(img: &[u8], key: Key, i: FileIndex) -> bool
    requires { 512 * entry_at i.0 + 512 ≤ length img.now }
    ensures { result ≡ is_reserved key (view img.now) i.0 }
{
    match key {
        Key::Name(_) => false,
        Key::Id => is_reserved_id(img, i),
    }
}

// ---- chains without tags, which `repair` has: the upper 16 bits of number b are bucket b's last entry, the lower ones of number j the
// entry before j

// Entry i becomes the last of bucket b.
pub fn enter(i: usize, b: usize, chains: &mut [u32])
    requires { (b < length chains.old) × (i < length chains.old) × (i < 65535) }
    ensures { Entered i b chains.old chains.new }
{
    let last = chains[b] / 65536;
    chains[i] = chains[i] / 65536 * 65536 + last;
    chains[b] = (i as u32 + 1) * 65536 + chains[b] % 65536;
}

// ---- chains with tags: number j has a link, the entry before j in the lowest 16 bits and the tag of j's key in the next 8. The upper 8
// bits of the numbers 2 b and 2 b + 1 are bucket b's last entry, the lower byte first.

fn last(chains: &[u32], b: usize) -> u32
    requires { 2 * b + 1 < length chains.now }
    ensures value { result ≡ last_in chains.now b }
    ensures upper_bound { result < 65536 }
{
    chains[2 * b] / 16777216 + chains[2 * b + 1] / 16777216 * 256
}

// Half of a bucket's last entry.
fn put_top(k: usize, top: u32, chains: &mut [u32])
    requires { (k < length chains.old) × (top < 256) }
    ensures { chains.new ≡ set chains.old k (top * 16777216 + link_in chains.old k) }
{
    chains[k] = top * 16777216 + chains[k] % 16777216;
}

fn put_link(k: usize, link: u32, chains: &mut [u32])
    requires { (k < length chains.old) × (link < 16777216) }
    ensures { chains.new ≡ set chains.old k (top_in chains.old k * 16777216 + link) }
{
    chains[k] = chains[k] / 16777216 * 16777216 + link;
}

// Entry i becomes the last of the bucket of its key's place.
fn join(i: usize, place: usize, chains: &mut [u32])
    requires { (2 * (place / 256) + 1 < length chains.old) × (i < length chains.old) × (i < 65535) }
    ensures { Joined i (place / 256) (place % 256) chains.old chains.new }
{
    let b = place / 256;
    let link = (place % 256) as u32 * 65536 + last(chains, b);
    put_link(i, link, chains);
    put_top(2 * b, (i as u32 + 1) % 256, chains);
    put_top(2 * b + 1, (i as u32 + 1) / 256, chains);
}

// Whether entry j, whose link this is, has entry i's key. Where the tags differ it has not, and the directory isn't read.
fn is_shared(img: &[u8], key: Key, i: usize, j: usize, place: usize, link: u32) -> bool
    requires i_in_bounds { 512 * entry_at i + 512 ≤ length img.now }
    requires j_in_bounds { 512 * entry_at j + 512 ≤ length img.now }
    requires i_value { key_fits key (view img.now (entry_at i)) ≡ true }
    requires link_value { shares key (view img.now) i j ≡ true → link / 65536 ≡ place % 256 }
    ensures { result ≡ shares key (view img.now) i j }
{
    (link / 65536) as usize == place % 256
        && shares(img, key, FileIndex(i as u64), FileIndex(j as u64))
}

// Whether an occupied entry below i has its key, whose place is `place`.
fn is_repeated(img: &[u8], key: Key, i: usize, place: usize, chains: &[u32]) -> bool
    requires i_in_bounds { 512 * entry_at i + 512 ≤ length img.now }
    requires i_value { key_fits key (view img.now (entry_at i)) ≡ true }
    requires place_in_bounds { (place / 256 < length chains.now / 2) × (i ≤ length chains.now) }
    requires place_value { place ≡ place_of key (length chains.now / 2) (view img.now (entry_at i)) }
    requires chained { Chained key (view img.now) i chains.now }
    ensures { result ≡ is_repeated key (view img.now) i }
{
    let mut j = last(chains, place / 256) as usize;
    // Kept as a loop: it follows the links, and counts nothing.
    while j != 0 {
        let link = chains[j - 1] % 16777216;
        if is_shared(img, key, i, j - 1, place, link) {
            return true;
        }
        j = (link % 65536) as usize;
    }
    false
}

// Whether entry i has the fault. Where it has not, it has joined its chain.
fn is_faulty(img: &[u8], key: Key, i: usize, chains: &mut [u32]) -> bool
    requires i_in_bounds { 512 * entry_at i + 512 ≤ length img.now }
    requires keys_fit { KeysFit key (view img.now) (i + 1) }
    requires chains_len_bound { (length chains.old ≤ 65536) × (1 < length chains.old) × (i < length chains.old) × (i < 65535) }
    requires chained { Chained key (view img.now) i chains.old }
    ensures value { result ≡ is_faulty key (view img.now) i }
    ensures chained_2 { result ≡ false → Chained key (view img.now) (i + 1) chains.new }
{
    let e = FileIndex(i as u64);
    if !directory::is_occupied(img, e) {
        return false;
    }
    if is_reserved(img, key, e) {
        return true;
    }
    let place = place_of(img, key, e, chains.len() / 2);
    if is_repeated(img, key, i, place, chains) {
        return true;
    }
    join(i, place, chains);
    false
}

// ---- the searches

// The lowest faulty entry, by way of empty chains that are lent.
fn first_in(img: &[u8], g: Geometry, key: Key, chains: &mut [u32]) -> Option<usize>
    requires opened { Opened img.now g }
    requires keys_fit { KeysFit key (view img.now) g.files }
    requires chains_len_bound { (length chains.old ≤ 65536) × (g.files ≤ length chains.old) × (g.files ≤ 65535) }
    requires by_index { (b : ℕ) → b < length chains.old → get_or chains.old b 0 ≡ 0 }
    ensures { result ≡ first (is_faulty key (view img.now)) g.files }
{
    // Kept as a loop: the chains change with each entry, and of a search whose test changes what it holds nothing is known.
    for i in 0..g.files as usize {
        if is_faulty(img, key, i, chains) {
            return Some(i);
        }
    }
    None
}

// By way of N numbers of its own. They stay out of the frames of its callers, so that a volume takes stack only for those that it uses.
#[inline(never)]
fn first_of<const N: usize>(img: &[u8], g: Geometry, key: Key) -> Option<usize>
    requires opened { Opened img.now g }
    requires keys_fit { KeysFit key (view img.now) g.files }
    requires chains_len_bound { (N ≤ 65536) × (g.files ≤ N) × (g.files ≤ 65535) }
    ensures { result ≡ first (is_faulty key (view img.now)) g.files }
{
    let mut chains = [0u32; N];
    first_in(img, g, key, &mut chains)
}

fn first_faulty(img: &[u8], g: Geometry, key: Key) -> Option<usize>
    requires opened { Opened img.now g }
    requires keys_fit { KeysFit key (view img.now) g.files }
    ensures { result ≡ first (is_faulty key (view img.now)) g.files }
{
    if g.files <= 1024 {
        first_of::<1024>(img, g, key)
    } else {
        first_of::<65536>(img, g, key)
    }
}

// Fault 22 bounds the names, so each ends in its sector.
pub fn fault23(img: &[u8], g: Geometry) -> Option<usize>
    requires opened { Opened img.now g }
    requires files_value { first (fault22 (catalogue_of (view img.now))) g.files ≡ None }
    ensures { result ≡ first (fault23 (catalogue_of (view img.now))) g.files }
{
    first_faulty(img, g, Key::Name(g.edition))
}

pub fn fault24(img: &[u8], g: Geometry) -> Option<usize>
    requires { Opened img.now g }
    ensures { result ≡ first (fault24 (catalogue_of (view img.now))) g.files }
{
    first_faulty(img, g, Key::Id)
}

// ---- the same by way of lent scratch

// Four numbers for each entry, so that few entries share a bucket; more than 65,536 in all made the check slower.
fn first_faulty_with(img: &[u8], g: Geometry, key: Key, scratch: &mut [u32]) -> Option<usize>
    requires opened { Opened img.now g }
    requires keys_fit { KeysFit key (view img.now) g.files }
    requires files_in_bounds { 4 * g.files ≤ length scratch.old }
    ensures { result ≡ first (is_faulty key (view img.now)) g.files }
{
    let n = (4 * g.files).min(65536) as usize;
    let chains = &mut scratch[..n];
    chains.fill(0);
    first_in(img, g, key, chains)
}

pub fn fault23_with(img: &[u8], g: Geometry, scratch: &mut [u32]) -> Option<usize>
    requires opened { Opened img.now g }
    requires files_value { first (fault22 (catalogue_of (view img.now))) g.files ≡ None }
    requires files_in_bounds { 4 * g.files ≤ length scratch.old }
    ensures { result ≡ first (fault23 (catalogue_of (view img.now))) g.files }
{
    first_faulty_with(img, g, Key::Name(g.edition), scratch)
}

pub fn fault24_with(img: &[u8], g: Geometry, scratch: &mut [u32]) -> Option<usize>
    requires opened { Opened img.now g }
    requires files_in_bounds { 4 * g.files ≤ length scratch.old }
    ensures { result ≡ first (fault24 (catalogue_of (view img.now))) g.files }
{
    first_faulty_with(img, g, Key::Id, scratch)
}
