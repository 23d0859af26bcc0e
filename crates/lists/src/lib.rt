// Write lists: records, barriers, and the group that is a superblock.
#![tactic(auto)]

ghost use Rattle.std.specs.Prelude.{◌≡◌, [], ◌∷◌, ◌+◌, ◌*◌, ◌≤◌, length};
ghost use Rattle.model.specs.Bytes.{bytes_from, put};
ghost use Rattle.model.specs.Disk.{view};
ghost use Rattle.model.specs.Superblock.{with_journal_length};
ghost use Rattle.model.specs.WriteList.{sector_write, barrier, record_size, record_bytes, Emitted};

use model::Sector;

// How many bytes a record has, and where in them its sector's number and its contents start.
pub const RECORD_SIZE: usize = 528;

pub const NUMBER_START: usize = 8;

pub const CONTENTS_START: usize = 16;

// The number that a barrier has in place of a sector's: the highest.
pub const BARRIER: Sector = Sector(u64::MAX);

// Copies 512 bytes of `src` from `from` to `dst` at `at`.
pub fn copy_sector(src: &[u8], from: usize, dst: &mut [u8], at: usize)
    requires from_in_bounds { from + 512 ≤ length src.now }
    requires at_in_bounds { at + 512 ≤ length dst.old }
    ensures { dst.new ≡ put dst.old at (bytes_from src.now from 512) }
{
    fields::copy_bytes(src, from, dst, at, 512);
}

// The record of position p, at any place: a sector's number and its new contents, the 512 bytes of `src` from `from` on.
pub fn put_at(list: &mut [u8], at: usize, p: u64, sector: Sector, src: &[u8], from: usize)
    requires record_size_in_bounds { at + record_size ≤ length list.old }
    requires from_in_bounds { from + 512 ≤ length src.now }
    ensures { list.new ≡ put list.old at (record_bytes p (sector_write sector.0 (bytes_from src.now from 512))) }
{
    fields::put_be(list, at, 8, p);
    fields::put_be(list, at + NUMBER_START, 8, sector.0);
    copy_sector(src, from, list, at + CONTENTS_START);
}

// Record k: a sector's number and its new contents. The answer is the next position.
pub fn put_sector(list: &mut [u8], k: usize, sector: Sector, s: [u8; 512]) -> usize
    requires { (k + 1) * record_size ≤ length list.old }
    ensures { Emitted list.old k (sector_write sector.0 s ∷ []) list.new result }
{
    put_from(list, k, sector, &s, 0)
}

// Record k: a sector's number and its new contents, the 512 bytes of `src` from `from` on.
pub fn put_from(list: &mut [u8], k: usize, sector: Sector, src: &[u8], from: usize) -> usize
    requires record_size_in_bounds { (k + 1) * record_size ≤ length list.old }
    requires from_in_bounds { from + 512 ≤ length src.now }
    ensures { Emitted list.old k (sector_write sector.0 (bytes_from src.now from 512) ∷ []) list.new result }
{
    put_at(list, k * RECORD_SIZE, k as u64, sector, src, from);
    k + 1
}

// Record k is a barrier: its number, and zeros.
pub fn put_barrier(list: &mut [u8], k: usize) -> usize
    requires { (k + 1) * record_size ≤ length list.old }
    ensures { Emitted list.old k (barrier ∷ []) list.new result }
{
    put_sector(list, k, BARRIER, layout::zero_sector())
}

// A group that is the superblock with another journal length, which is stored over the copied one.
pub fn put_superblock(list: &mut [u8], k: usize, img: &[u8], n: u64) -> usize
    requires record_size_in_bounds { (k + 2) * record_size ≤ length list.old }
    requires in_bounds { 512 ≤ length img.now }
    ensures { Emitted list.old k (sector_write 0 (with_journal_length n (view img.now 0)) ∷ barrier ∷ []) list.new result }
{
    let j = put_from(list, k, Sector::SUPERBLOCK, img, 0);
    layout::superblock::put_journal_length(list, k * RECORD_SIZE + CONTENTS_START, n);
    put_barrier(list, j)
}
