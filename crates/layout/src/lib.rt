// The sector formats of document 01: each field's place stands once, and what reads a format and what writes it stand together.
#![tactic(auto)]

pub mod edition;
pub mod entry;
pub mod journal;
pub mod root;
pub mod superblock;
pub mod table;

ghost use Rattle.std.specs.Prelude.{◌≡◌, ◌+◌, ◌^◌, ◌<◌, ◌≤◌, length};
ghost use Rattle.model.specs.Bytes.{be_at, be_bytes, put, raised, zero_sector};

// Where a number stands in a sector: its first byte and its width in bytes.
#[derive(Clone, Copy)]
pub struct Field {
    pub offset: usize,
    pub width: usize,
}

// The number that a field holds.
fn number_in(s: &[u8], f: Field) -> u64
    requires { (f.width ≤ 8) × (f.offset + f.width ≤ length s.now) }
    ensures value { result ≡ be_at s.now f.offset f.width }
    ensures upper_bound { result < 256 ^ f.width }
{
    fields::be(s, f.offset, f.width)
}

fn set_to(s: &mut [u8], f: Field, v: u64)
    requires { f.offset + f.width ≤ length s.old }
    ensures { s.new ≡ put s.old f.offset (be_bytes f.width v) }
{
    fields::put_be(s, f.offset, f.width, v);
}

// Unused bytes of a new sector are 0.
pub fn zero_sector() -> [u8; 512]
    ensures { result ≡ zero_sector }
{
    [0u8; 512]
}

// A sector's bytes by value.
fn owned(s: &[u8]) -> [u8; 512]
    requires { length s.now ≡ 512 }
    ensures { result ≡ s.now }
{
    let mut a = [0u8; 512];
    a.copy_from_slice(s);
    a
}

// A version of 4,294,967,295 is followed by 0.
fn raised_version(version: u64) -> u64
    requires { version < 4294967296 }
    ensures { result ≡ raised version }
{
    u64::from((version as u32).wrapping_add(1))
}
