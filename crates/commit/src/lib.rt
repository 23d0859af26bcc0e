// What every changing call's write list holds behind its data sectors. The call hands over its targets one by one, and their
// copies go into the list; journal, start mark, targets and end mark then follow from the targets' numbers and the copies.
#![tactic(auto)]

ghost use Rattle.std.specs.Prelude.{◌≡◌, map, [], ◌∷◌, ◌+◌, ◌-◌, ◌*◌, ◌≤◌, ◌<◌, length, get_or, set};
ghost use Rattle.std.proofs.Math.Option.{some};
ghost use Rattle.model.specs.Bytes.{bytes_from};
ghost use Rattle.model.specs.Disk.{view};
ghost use Rattle.model.specs.Journal.{journal_sectors, entries_in, journal_sector};
ghost use Rattle.model.specs.WriteList.{sector_write, one_target, record_size, contents_start, stage_in, stages_in, journal_of, groups_for, closed, record_count, Emitted};
ghost use Rattle.model.specs.Opened.{Bounded, Opened};
ghost use Rattle.commit.specs.Commit.{Stages, StagesOf, staged_targets, commit_groups};

use model::{Extent, Geometry, Sector};

// Where copy j is staged: sector j mod S of the (j / S)-th of these extents.
fn stage_at(g: Geometry, stages: &[u64], j: usize) -> Sector
    requires stages { Stages g stages.now }
    requires bounded { Bounded g }
    requires j_bound { j < 640 }
    ensures { result.0 ≡ stage_in g stages.now j }
{
    let s = g.extent_sectors as usize;
    let first = g.extent_at(Extent(stages[j / s]));
    Sector(first.0 + (j % s) as u64)
}

// Record k is the copy of target j, in its stage; the target's number is noted for the journal.
pub fn put_copy(
    list: &mut [u8],
    k: usize,
    g: Geometry,
    stages: &[u64],
    numbers: &mut [u64],
    j: usize,
    target: Sector,
    s: [u8; 512],
) -> usize
    requires stages { Stages g stages.now }
    requires record_size_in_bounds { (k + 1) * record_size ≤ length list.old }
    requires bounded { Bounded g }
    requires j_bound { (j < 640) × (j < length numbers.old) }
    ensures emitted { Emitted list.old k (sector_write (stage_in g stages.now j) s ∷ []) list.new result }
    ensures numbers_after { numbers.new ≡ set numbers.old j target.0 }
{
    numbers[j] = target.0;
    let stage = stage_at(g, stages, j);
    lists::put_sector(list, k, stage, s)
}

// ---- the journal

// A sector of zeros with n entries put in from its front, the first of them entry `from`.
fn entries_in(g: Geometry, stages: &[u64], numbers: &[u64], from: usize, n: usize) -> [u8; 512]
    requires stages { Stages g stages.now }
    requires bounded { Bounded g }
    requires n_bound { (n ≤ 32) × (from + n ≤ 640) × (from + n ≤ length numbers.now) }
    ensures { result ≡ entries_in (stage_in g stages.now) (λ k. get_or numbers.now k 0) from n }
{
    let mut a = [0u8; 512];
    for i in 0..n {
        let source = stage_at(g, stages, from + i);
        let target = numbers[from + i];
        layout::journal::put(&mut a, i, source.0, target);
    }
    a
}

// Journal sector j of n targets.
fn journal_sector(g: Geometry, stages: &[u64], numbers: &[u64], n: usize, j: usize) -> [u8; 512]
    requires stages { Stages g stages.now }
    requires bounded { Bounded g }
    requires n_bound { (n ≤ 640) × (n ≤ length numbers.now) × (32 * j ≤ n) }
    ensures { result ≡ journal_sector (stage_in g stages.now) (λ k. get_or numbers.now k 0) n j }
{
    let from = 32 * j;
    entries_in(g, stages, numbers, from, (n - from).min(32))
}

// The journal of n targets, from position k on.
fn put_journal(
    list: &mut [u8],
    k: usize,
    g: Geometry,
    stages: &[u64],
    numbers: &[u64],
    n: usize,
) -> usize
    requires stages { Stages g stages.now }
    requires record_size_in_bounds { (k + journal_sectors n) * record_size ≤ length list.old }
    requires bounded { Bounded g }
    requires n_bound { (n ≤ 640) × (n ≤ length numbers.now) }
    ensures emitted { Emitted list.old k (journal_of g (stages_in g stages.now n) (bytes_from numbers.now 0 n)) list.new result }
    ensures value { result ≡ k + journal_sectors n }
{
    let at = g.journal_at();
    let m = n.div_ceil(32);
    for j in 0..m {
        let s = journal_sector(g, stages, numbers, n, j);
        lists::put_sector(list, k + j, Sector(at.0 + j as u64), s);
    }
    k + m
}

// ---- the targets

// The contents of record k.
fn contents_at(list: &[u8], k: usize) -> [u8; 512]
    requires { (k + 1) * record_size ≤ length list.now }
    ensures { result ≡ bytes_from list.now (k * record_size + contents_start) 512 }
{
    let mut a = [0u8; 512];
    let at = k * lists::RECORD_SIZE + lists::CONTENTS_START;
    a.copy_from_slice(&list[at..at + 512]);
    a
}

// Record k is the target whose copy is record `copy`.
fn put_target(list: &mut [u8], k: usize, target: Sector, copy: usize) -> usize
    requires record_size_in_bounds { (k + 1) * record_size ≤ length list.old }
    requires copy_lt_k { copy < k }
    ensures { Emitted list.old k (sector_write target.0 (bytes_from list.old (copy * record_size + contents_start) 512) ∷ []) list.new result }
{
    let s = contents_at(list, copy);
    lists::put_sector(list, k, target, s)
}

// The n targets, from position k on; their copies are the records from position `from` on.
fn put_targets(list: &mut [u8], k: usize, numbers: &[u64], n: usize, from: usize) -> usize
    requires record_size_in_bounds { (k + n) * record_size ≤ length list.old }
    requires n_in_bounds { n ≤ length numbers.now }
    requires n_bound { from + n ≤ k }
    ensures emitted { Emitted list.old k (staged_targets list.old from numbers.now n) list.new result }
    ensures value { result ≡ k + n }
{
    for j in 0..n {
        put_target(list, k + j, Sector(numbers[j]), from + j);
    }
    k + n
}

// ---- all of it

// Behind n copies that end at position k: the journal; the start mark; the targets; the end mark; a barrier after each.
pub fn put_commit(
    list: &mut [u8],
    k: usize,
    img: &[u8],
    g: Geometry,
    stages: &[u64],
    numbers: &[u64],
    n: usize,
) -> usize
    requires stages { Stages g stages.now }
    requires record_size_in_bounds { record_count (k - n) n * record_size ≤ length list.old }
    requires in_bounds { 512 ≤ length img.now }
    requires bounded { Bounded g }
    requires n_bound { (n ≤ 640) × (n ≤ length numbers.now) × (n ≤ k) }
    ensures emitted { Emitted list.old k
        (closed (commit_groups g stages.now (view img.now) list.old (k - n) numbers.now n)) list.new result }
    ensures value { result ≡ record_count (k - n) n }
{
    let k1 = put_journal(list, k, g, stages, numbers, n);
    let k2 = lists::put_barrier(list, k1);
    let k3 = lists::put_superblock(list, k2, img, n as u64);
    let k4 = put_targets(list, k3, numbers, n, k - n);
    let k5 = lists::put_barrier(list, k4);
    lists::put_superblock(list, k5, img, 0)
}

// How many records the list of n targets has that come with no data sectors.
pub fn records_for(n: u64) -> usize
    requires { n ≤ 1024 }
    ensures { result ≡ record_count 0 n }
{
    let journal = n.div_ceil(32);
    (n + journal + 1 + 2 + (n + 1) + 2) as usize
}

// The list of a call that has no data sectors and these targets: sectors and their new contents.
pub fn put_targets_alone<const N: usize>(
    list: &mut [u8],
    img: &[u8],
    g: Geometry,
    stages: &[u64],
    targets: &[(Sector, [u8; 512]); N],
) -> usize
    requires stages_of { StagesOf g (view img.now) stages.now }
    requires few { N ≤ 640 }
    requires record_size_in_bounds { record_count 0 N * record_size ≤ length list.old }
    requires opened { Opened img.now g }
    ensures { Emitted list.old 0
        (closed (groups_for (view img.now) (some (record { data_sectors = []; targets = map (λ t. sector_write t.0.0 t.1) targets.now })))) list.new result }
{
    let mut numbers = [0u64; N];
    let mut k = 0;
    for &(sector, contents) in targets {
        k = put_copy(list, k, g, stages, &mut numbers, k, sector, contents);
    }
    put_commit(list, k, img, g, stages, &numbers, k)
}

// The list of a call with one target and no data has 9 records.
pub const ONE_TARGET_SIZE: usize = 9 * lists::RECORD_SIZE;

pub fn put_one_target(
    list: &mut [u8],
    img: &[u8],
    g: Geometry,
    stages: &[u64],
    target: Sector,
    s: [u8; 512],
) -> usize
    requires stages_of { StagesOf g (view img.now) stages.now }
    requires record_size_in_bounds { 9 * record_size ≤ length list.old }
    requires opened { Opened img.now g }
    ensures { Emitted list.old 0 (closed (groups_for (view img.now) (some (one_target target.0 s)))) list.new result }
{
    put_targets_alone(list, img, g, stages, &[(target, s)])
}
