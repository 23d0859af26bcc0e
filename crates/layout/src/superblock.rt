// The superblock.
ghost use Rattle.std.specs.Prelude.{◌≡◌, ◌+◌, ◌≤◌, length};
ghost use Rattle.model.specs.Bytes.{be_bytes, put};
ghost use Rattle.model.specs.Superblock.{superblock_field, is_volume, geometry_in, journal_length, new_superblock};

use super::Field;
use model::Geometry;

const FILES: Field = Field {
    offset: 0,
    width: 2,
};

const EXTENTS: Field = Field {
    offset: 2,
    width: 2,
};

const EXTENT_SECTORS: Field = Field {
    offset: 4,
    width: 4,
};

const MAGIC: usize = 8;

const VERSION: Field = Field {
    offset: 16,
    width: 2,
};

const JOURNAL_LENGTH: Field = Field {
    offset: 18,
    width: 2,
};

// ---- what reads it

// It has the magic, and the version is an edition's.
pub fn is_volume(s: &[u8]) -> bool
    requires { length s.now ≡ 512 }
    ensures { result ≡ is_volume s.now }
{
    s[MAGIC..].starts_with(b"/Goo/FS/") && super::edition::is_edition(super::number_in(s, VERSION))
}

pub fn geometry(s: &[u8]) -> Geometry
    requires { length s.now ≡ 512 }
    ensures { result ≡ geometry_in s.now }
{
    Geometry {
        files: super::number_in(s, FILES),
        extents: super::number_in(s, EXTENTS),
        extent_sectors: super::number_in(s, EXTENT_SECTORS) as u32,
        edition: super::number_in(s, VERSION),
    }
}

pub fn journal_length(s: &[u8]) -> u64
    requires { length s.now ≡ 512 }
    ensures { result ≡ journal_length s.now }
{
    super::number_in(s, JOURNAL_LENGTH)
}

// ---- what writes it

// Another journal length, in a superblock that stands from byte `at` on.
pub fn put_journal_length(s: &mut [u8], at: usize, n: u64)
    requires { at + 512 ≤ length s.old }
    ensures { s.new ≡ put s.old (at + superblock_field.journal_length.offset) (be_bytes superblock_field.journal_length.width n) }
{
    fields::put_be(s, at + JOURNAL_LENGTH.offset, JOURNAL_LENGTH.width, n);
}

// Format's: the unused bytes are 0.
pub fn new(g: Geometry, n: u64) -> [u8; 512]
    ensures { result ≡ new_superblock g n }
{
    let mut a = super::zero_sector();
    super::set_to(&mut a, FILES, g.files);
    super::set_to(&mut a, EXTENTS, g.extents);
    super::set_to(&mut a, EXTENT_SECTORS, g.extent_sectors as u64);
    fields::copy_bytes(b"/Goo/FS/", 0, &mut a, MAGIC, 8);
    super::set_to(&mut a, VERSION, g.edition);
    super::set_to(&mut a, JOURNAL_LENGTH, n);
    a
}
