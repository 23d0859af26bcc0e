// The root.
ghost use Rattle.std.specs.Prelude.{◌≡◌, length};
ghost use Rattle.model.specs.Bytes.{number_in};
ghost use Rattle.model.specs.Root.{root_field, updated_root_sector, accessed_root_sector, new_root_sector};

use super::Field;
use super::edition::of;

const VERSION: Field = Field {
    offset: 0,
    width: 4,
};

const ID: Field = Field {
    offset: 4,
    width: 8,
};

const MODE: Field = Field {
    offset: 12,
    width: 4,
};

pub fn id(s: &[u8]) -> u64
    requires { length s.now ≡ 512 }
    ensures { result ≡ number_in s.now root_field.id }
{
    super::number_in(s, ID)
}

// The sector with the version up and the change time set.
pub fn updated(s: &[u8], edition: u64, time: u64) -> [u8; 512]
    requires { length s.now ≡ 512 }
    ensures { result ≡ updated_root_sector edition time s.now }
{
    let version = super::raised_version(super::number_in(s, VERSION));
    let mut a = super::owned(s);
    super::set_to(&mut a, VERSION, version);
    super::set_to(&mut a, of(edition).root_change_time, time);
    a
}

// List's: the access time set, all else as it was.
pub fn accessed(s: &[u8], edition: u64, time: u64) -> [u8; 512]
    requires { length s.now ≡ 512 }
    ensures { result ≡ accessed_root_sector edition time s.now }
{
    let mut a = super::owned(s);
    super::set_to(&mut a, of(edition).root_access_time, time);
    a
}

// Format's: the version is 0, as are the unused bytes.
pub fn new(edition: u64, id: u64, mode: u32, time: u64) -> [u8; 512]
    ensures { result ≡ new_root_sector edition id mode time }
{
    let e = of(edition);
    let mut a = super::zero_sector();
    super::set_to(&mut a, ID, id);
    super::set_to(&mut a, MODE, mode as u64);
    super::set_to(&mut a, e.root_access_time, time);
    super::set_to(&mut a, e.root_change_time, time);
    a
}
