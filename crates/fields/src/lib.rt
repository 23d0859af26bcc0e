// Leaves on byte slices: big-endian numbers, runs of bytes copied and compared, sectors by value.
#![tactic(auto)]

ghost use Rattle.std.specs.Prelude.{◌≡◌, cond, [], ℕ, ◌+◌, ◌*◌, ◌≤◌, ◌<◌, ◌^◌, min, max, length, get_or};
ghost use Rattle.model.specs.Bytes.{be_at, be_bytes, bytes_from, put};
ghost use Rattle.model.specs.Disk.{view};
ghost use Rattle.model.specs.Search.{equal_bytes};
ghost use Rattle.model.specs.Entry.{has_zero};

use model::Sector;

// The big-endian number of `width` bytes at `at`.
pub fn be(s: &[u8], at: usize, width: usize) -> u64
    requires width_bound { width ≤ 8 }
    requires width_in_bounds { at + width ≤ length s.now }
    ensures value { result ≡ be_at s.now at width }
    ensures upper_bound { result < 256 ^ width }
{
    let mut v: u64 = 0;
    for &b in &s[at..at + width] {
        v = v * 256 + u64::from(b);
    }
    v
}

pub fn be64(s: &[u8], at: usize) -> u64
    requires { at + 8 ≤ length s.now }
    ensures { result ≡ be_at s.now at 8 }
{
    be(s, at, 8)
}

// Writes `v` as `width` big-endian bytes at `at`.
pub fn put_be(b: &mut [u8], at: usize, width: usize, v: u64)
    requires { at + width ≤ length b.old }
    ensures { b.new ≡ put b.old at (be_bytes width v) }
{
    let mut x = v;
    for i in (0..width).rev() {
        b[at + i] = (x % 256) as u8;
        x /= 256;
    }
}

// Copies `n` bytes of `src` from `from` to `dst` at `at`.
pub fn copy_bytes(src: &[u8], from: usize, dst: &mut [u8], at: usize, n: usize)
    requires from_in_bounds { from + n ≤ length src.now }
    requires at_in_bounds { at + n ≤ length dst.old }
    ensures { dst.new ≡ put dst.old at (bytes_from src.now from n) }
{
    dst[at..at + n].copy_from_slice(&src[from..from + n]);
}

// Writes `n` zeros at `at`.
pub fn put_zeros(b: &mut [u8], at: usize, n: usize)
    requires { at + n ≤ length b.old }
    ensures { b.new ≡ put b.old at (bytes_from [] 0 n) }
{
    b[at..at + n].fill(0);
}

// Sector k of an image, by value.
pub fn sector(img: &[u8], k: Sector) -> [u8; 512]
    requires { 512 * k.0 + 512 ≤ length img.now }
    ensures { result ≡ view img.now k.0 }
{
    let mut a = [0u8; 512];
    a.copy_from_slice(sector_part(img, k));
    a
}

// Sector k of an image, lent.
pub fn sector_part(img: &[u8], k: Sector) -> &[u8]
    requires { 512 * k.0 + 512 ≤ length img.now }
    ensures result_value { result.now ≡ view img.now k.0 }
    ensures result_len { length result.now ≡ 512 }
{
    let at = (512 * k.0) as usize;
    &img[at..at + 512]
}

// Sector k as an image shows it: zeros past its end, as where only the front of a volume is lent.
pub fn shown(img: &[u8], k: Sector) -> [u8; 512]
    requires { 512 * k.0 + 512 < 2 ^ 63 }
    ensures { result ≡ view img.now k.0 }
{
    let mut a = [0u8; 512];
    let from = ((512 * k.0) as usize).min(img.len());
    let n = (img.len() - from).min(512);
    copy_bytes(img, from, &mut a, 0, n);
    a
}

// Whether the part begins with the text.
pub fn starts_with(part: &[u8], text: &[u8]) -> bool
    requires { length text.now ≤ length part.now }
    ensures { result ≡ equal_bytes (bytes_from part.now 0 (length text.now)) text.now }
{
    is_same(&part[..text.len()], text)
}

// Whether both are the same bytes.
pub fn is_same(a: &[u8], b: &[u8]) -> bool
    ensures { result ≡ equal_bytes a.now b.now }
{
    a == b
}

// Whether one of the bytes is 0: the least of them tells, without a test for each.
pub fn has_zero(bytes: &[u8]) -> bool
    ensures { result ≡ has_zero bytes.now }
{
    bytes.iter().fold(255u8, |least, &b| least.min(b)) == 0
}
