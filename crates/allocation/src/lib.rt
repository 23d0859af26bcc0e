// Faults 25 and 26 in one pass over the allocation table. For fault 26 there is a mark for each extent that the files need, made when
// its table entry is met.
#![tactic(auto)]

ghost use Rattle.std.specs.Prelude.{◌≡◌, List, ℕ, ◌+◌, ◌-◌, ◌*◌, ◌≤◌, ◌<◌, eqb, length, get_or, set};
ghost use Rattle.model.specs.Search.{first, any_below};
ghost use Rattle.model.specs.Disk.{view};
ghost use Rattle.model.specs.Opened.{Opened};
ghost use Rattle.model.specs.Catalogue.{catalogue_of};
ghost use Rattle.model.specs.Faults.{fault25};
ghost use Rattle.model.specs.Results.{soundness_in};
ghost use Rattle.allocation.specs.Marks.{table_fault, needed, start_of, lacks, Rising, Starts, Marks, Passed};

use model::{Extent, Fault, FileIndex, Geometry};

// ---- the numbers of the arrays: narrow ones on the stack, u32 in lent scratch

// Where a file's marks begin. Starts past the number of extents are never stored.
trait Start: Copy {
    ghost numbers: { List Self → List ℕ };

    fn start(s: &[Self], i: usize) -> usize
        requires { i < length (numbers s.now) }
        ensures { result ≡ get_or (numbers s.now) i 0 };

    fn put_start(s: &mut [Self], i: usize, n: usize)
        requires { (i < length (numbers s.old)) × (n ≤ 65535) }
        ensures { numbers s.new ≡ set (numbers s.old) i n };
}

impl Start for u16 {
    ghost numbers = { λ s. s };

    fn start(s: &[u16], i: usize) -> usize {
        s[i] as usize
    }

    fn put_start(s: &mut [u16], i: usize, n: usize) {
        s[i] = n as u16;
    }
}

impl Start for u32 {
    ghost numbers = { λ s. s };

    fn start(s: &[u32], i: usize) -> usize {
        s[i] as usize
    }

    fn put_start(s: &mut [u32], i: usize, n: usize) {
        s[i] = n as u32;
    }
}

// The mark of an extent: 1 once it is met, and 0 before.
trait Mark: Copy {
    ghost numbers: { List Self → List ℕ };

    fn is_marked(s: &[Self], p: usize) -> bool
        requires { p < length (numbers s.now) }
        ensures { result ≡ eqb (get_or (numbers s.now) p 0) 1 };

    fn put_mark(s: &mut [Self], p: usize)
        requires { p < length (numbers s.old) }
        ensures { numbers s.new ≡ set (numbers s.old) p 1 };

    // One of the marks from a to b - 1 is not made.
    fn lacks_mark(s: &[Self], a: usize, b: usize) -> bool
        requires { (a ≤ b) × (b ≤ length (numbers s.now)) }
        ensures { result ≡ any_below (λ k. eqb (get_or (numbers s.now) (a + k) 0) 0) (b - a) };
}

impl Mark for u8 {
    ghost numbers = { λ s. s };

    fn is_marked(s: &[u8], p: usize) -> bool {
        s[p] == 1
    }

    fn put_mark(s: &mut [u8], p: usize) {
        s[p] = 1;
    }

    fn lacks_mark(s: &[u8], a: usize, b: usize) -> bool {
        fields::has_zero(&s[a..b])
    }
}

impl Mark for u32 {
    ghost numbers = { λ s. s };

    fn is_marked(s: &[u32], p: usize) -> bool {
        s[p] == 1
    }

    fn put_mark(s: &mut [u32], p: usize) {
        s[p] = 1;
    }

    fn lacks_mark(s: &[u32], a: usize, b: usize) -> bool {
        s[a..b].iter().fold(1, |least, &x| least.min(x)) == 0
    }
}

// ---- the starts

// How many extents entry i's size needs; a free entry needs none.
fn needed(img: &[u8], g: Geometry, i: FileIndex) -> u64
    requires opened { Opened img.now g }
    requires i_lt_files { i.0 < g.files }
    ensures value { result ≡ needed g (view img.now) i.0 }
    ensures upper_bound { result ≤ 281474976710656 }
{
    if directory::is_occupied(img, i) {
        table::extents_for(g, directory::size_at(img, i))
    } else {
        0
    }
}

// Where each file's marks begin, up to the first file that would need more extents than there are.
fn fill_starts<S: Start>(img: &[u8], g: Geometry, starts: &mut [S]) -> usize
    requires opened { Opened img.now g }
    requires files_in_bounds { g.files < length (S.numbers starts.old) }
    ensures starts { Starts g (view img.now) result (S.numbers starts.new) }
    ensures extents_bound { result < g.files → g.extents < start_of g (view img.now) (result + 1) }
{
    let f = g.files as usize;
    let mut sum: u64 = 0;
    for i in 0..f {
        S::put_start(starts, i, sum as usize);
        sum += needed(img, g, FileIndex(i as u64));
        if g.extents < sum {
            return i;
        }
    }
    S::put_start(starts, f, sum as usize);
    f
}

// ---- the pass

// Extent e's entry names no occupied file and isn't free.
fn is_misplaced(img: &[u8], g: Geometry, e: Extent) -> bool
    requires opened { Opened img.now g }
    requires e_lt_extents { e.0 < g.extents }
    ensures { result ≡ fault25 (catalogue_of (view img.now)) e.0 }
{
    let f = table::table_file(img, g, e);
    f != model::FREE_FILE && !(f < g.files && directory::is_occupied(img, FileIndex(f)))
}

// Extent e is judged, and marked unless its file is m or later. A misplaced one is refused; else the files below the answer have no
// extent too many. Where its offset is too large or was met before, its file is the next m. A file that has a mark for the offset
// needs extents, so it is occupied and the directory isn't read.
fn judge<S: Start, M: Mark>(
    img: &[u8],
    g: Geometry,
    e: Extent,
    starts: &[S],
    m: usize,
    seen: &mut [M],
) -> Result<usize, Extent>
    requires opened { Opened img.now g }
    requires e_lt_extents { e.0 < g.extents }
    requires starts { Starts g (view img.now) m (S.numbers starts.now) }
    requires marks { Marks g (view img.now) e.0 m (M.numbers seen.old) }
    ensures { Passed g (view img.now) e.0 (e.0 + 1) m result (M.numbers seen.new) }
{
    let f = table::table_file(img, g, e) as usize;
    if m <= f {
        return if is_misplaced(img, g, e) {
            Err(e)
        } else {
            Ok(m)
        };
    }
    let p = S::start(starts, f) + table::table_offset(img, g, e) as usize;
    if S::start(starts, f + 1) <= p {
        return if is_misplaced(img, g, e) {
            Err(e)
        } else {
            Ok(f)
        };
    }
    if M::is_marked(seen, p) {
        return Ok(f);
    }
    M::put_mark(seen, p);
    Ok(m)
}

// The extents from `from` to `to` - 1, one by one: the lowest misplaced one, or the files that none of them is too many for.
fn pass_part<S: Start, M: Mark>(
    img: &[u8],
    g: Geometry,
    from: u64,
    to: u64,
    starts: &[S],
    f: usize,
    seen: &mut [M],
) -> Result<usize, Extent>
    requires opened { Opened img.now g }
    requires from_le_to { (from ≤ to) × (to ≤ g.extents) }
    requires starts { Starts g (view img.now) f (S.numbers starts.now) }
    requires marks { Marks g (view img.now) from f (M.numbers seen.old) }
    ensures { Passed g (view img.now) from to f result (M.numbers seen.new) }
{
    let mut m = f;
    for e in from..to {
        m = judge(img, g, Extent(e), starts, m, seen)?;
    }
    Ok(m)
}

// The 128 extents of a table sector, from e on. Free ones are not misplaced and leave no mark.
fn pass_sector<S: Start, M: Mark>(
    img: &[u8],
    g: Geometry,
    e: u64,
    starts: &[S],
    f: usize,
    seen: &mut [M],
) -> Result<usize, Extent>
    requires opened { Opened img.now g }
    requires e_bound { e + 128 ≤ g.extents }
    requires starts { Starts g (view img.now) f (S.numbers starts.now) }
    requires marks { Marks g (view img.now) e f (M.numbers seen.old) }
    ensures { Passed g (view img.now) e (e + 128) f result (M.numbers seen.new) }
{
    if table::all_free(img, g, e) {
        return Ok(f);
    }
    pass_part(img, g, e, e + 128, starts, f, seen)
}

// All extents, a table sector at a time.
fn pass_over<S: Start, M: Mark>(
    img: &[u8],
    g: Geometry,
    starts: &[S],
    f: usize,
    seen: &mut [M],
) -> Result<usize, Extent>
    requires opened { Opened img.now g }
    requires starts { Starts g (view img.now) f (S.numbers starts.now) }
    requires marks { Marks g (view img.now) 0 f (M.numbers seen.old) }
    ensures { Passed g (view img.now) 0 g.extents f result (M.numbers seen.new) }
{
    let sectors = g.extents / 128;
    let mut m = f;
    for k in 0..sectors {
        m = pass_sector(img, g, 128 * k, starts, m, seen)?;
    }
    pass_part(img, g, 128 * sectors, g.extents, starts, m, seen)
}

// ---- the files that lack an extent

// The lowest file below m that lacks an extent.
fn lowest_lacking<S: Start, M: Mark>(starts: &[S], seen: &[M], m: usize) -> Option<usize>
    requires m_in_bounds { m < length (S.numbers starts.now) }
    requires rising { Rising (S.numbers starts.now) m (length (M.numbers seen.now)) }
    ensures { result ≡ first (lacks (S.numbers starts.now) (M.numbers seen.now)) m }
{
    // Kept as a loop: a closure would need clauses of its own, that the starts rise.
    for i in 0..m {
        if M::lacks_mark(seen, S::start(starts, i), S::start(starts, i + 1)) {
            return Some(i);
        }
    }
    None
}

// The same. In a sound volume none lacks one: the marks of all are looked at first, at once.
fn first_lacking<S: Start, M: Mark>(starts: &[S], seen: &[M], m: usize) -> Option<usize>
    requires m_in_bounds { m < length (S.numbers starts.now) }
    requires rising { Rising (S.numbers starts.now) m (length (M.numbers seen.now)) }
    ensures { result ≡ first (lacks (S.numbers starts.now) (M.numbers seen.now)) m }
{
    if M::lacks_mark(seen, 0, S::start(starts, m)) {
        return lowest_lacking(starts, seen, m);
    }
    None
}

// ---- the first of the faults 25 and 26

// By way of arrays that are lent; no extent is marked yet.
fn faults_in<S: Start, M: Mark>(
    img: &[u8],
    g: Geometry,
    starts: &mut [S],
    seen: &mut [M],
) -> Result<(), Fault>
    requires opened { Opened img.now g }
    requires files_in_bounds { (g.files < length (S.numbers starts.old)) × (g.extents ≤ length (M.numbers seen.old)) }
    requires by_index { (p : ℕ) → p < length (M.numbers seen.old) → get_or (M.numbers seen.old) p 0 ≡ 0 }
    ensures { soundness_in result ≡ table_fault g (view img.now) }
{
    let f = fill_starts(img, g, starts);
    let m = match pass_over(img, g, starts, f, seen) {
        Ok(m) => m,
        Err(e) => return Err(Fault::Misplaced(e)),
    };
    if let Some(i) = first_lacking(starts, seen, m) {
        return Err(Fault::WrongExtents(FileIndex(i as u64)));
    }
    if m < g.files as usize {
        return Err(Fault::WrongExtents(FileIndex(m as u64)));
    }
    Ok(())
}

// By way of arrays of its own. They stay out of the frames of its callers, so that a volume takes stack only for those that it uses.
#[inline(never)]
fn faults_of<const F: usize, const E: usize>(img: &[u8], g: Geometry) -> Result<(), Fault>
    requires opened { Opened img.now g }
    requires files_in_bounds { (g.files < F) × (F ≤ 65536) }
    requires extents_in_bounds { (g.extents ≤ E) × (E ≤ 65536) }
    ensures { soundness_in result ≡ table_fault g (view img.now) }
{
    let mut starts = [0u16; F];
    let mut seen = [0u8; E];
    faults_in(img, g, &mut starts, &mut seen)
}

pub fn faults(img: &[u8], g: Geometry) -> Result<(), Fault>
    requires { Opened img.now g }
    ensures { soundness_in result ≡ table_fault g (view img.now) }
{
    if 1024 < g.files {
        faults_of::<65536, 65536>(img, g)
    } else if 4096 < g.extents {
        faults_of::<1025, 65536>(img, g)
    } else {
        faults_of::<1025, 4096>(img, g)
    }
}

// By way of lent scratch.
pub fn faults_by(img: &[u8], g: Geometry, scratch: &mut [u32]) -> Result<(), Fault>
    requires opened { Opened img.now g }
    requires extents_in_bounds { g.files + 1 + g.extents ≤ length scratch.old }
    ensures { soundness_in result ≡ table_fault g (view img.now) }
{
    let (starts, rest) = scratch.split_at_mut(g.files as usize + 1);
    let seen = &mut rest[..g.extents as usize];
    seen.fill(0);
    faults_in(img, g, starts, seen)
}
