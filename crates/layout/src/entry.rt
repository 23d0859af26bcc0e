// A directory entry.
ghost use Rattle.std.specs.Prelude.{◌≡◌, ◌≤◌, length};
ghost use Rattle.model.specs.Bytes.{number_in, bytes_from};
ghost use Rattle.model.specs.Edition.{layout_of};
ghost use Rattle.model.specs.Entry.{entry_field, entry_in, fields_of, is_occupied, name_in, new_entry_sector, updated_entry_sector, renamed_entry_sector, accessed_entry_sector};

use super::Field;
use super::edition::of;
use model::Fields;

const MARK: Field = Field {
    offset: 0,
    width: 2,
};

const SIZE: Field = Field {
    offset: 2,
    width: 8,
};

const VERSION: Field = Field {
    offset: 10,
    width: 4,
};

const ID: Field = Field {
    offset: 14,
    width: 8,
};

const MODE: Field = Field {
    offset: 22,
    width: 4,
};

pub const FREE_MARK: u64 = 0;

pub const OCCUPIED_MARK: u64 = 65535;

// ---- what reads it

pub fn mark(s: &[u8]) -> u64
    requires { length s.now ≡ 512 }
    ensures { result ≡ number_in s.now entry_field.mark }
{
    super::number_in(s, MARK)
}

pub fn is_occupied(s: &[u8]) -> bool
    requires { length s.now ≡ 512 }
    ensures { result ≡ is_occupied s.now }
{
    mark(s) == OCCUPIED_MARK
}

pub fn size(s: &[u8]) -> u64
    requires { length s.now ≡ 512 }
    ensures { result ≡ number_in s.now entry_field.size }
{
    super::number_in(s, SIZE)
}

pub fn id(s: &[u8]) -> u64
    requires { length s.now ≡ 512 }
    ensures { result ≡ number_in s.now entry_field.id }
{
    super::number_in(s, ID)
}

pub fn name_length(s: &[u8], edition: u64) -> usize
    requires { length s.now ≡ 512 }
    ensures { result ≡ number_in s.now (layout_of edition).name_length }
{
    super::number_in(s, of(edition).name_length) as usize
}

// The bytes from the name on, to the sector's end.
pub fn name_part(s: &[u8], edition: u64) -> &[u8]
    requires { length s.now ≡ 512 }
    ensures result_value { result.now ≡ bytes_from s.now (layout_of edition).name (layout_of edition).longest_name }
    ensures result_len { length result.now ≡ (layout_of edition).longest_name }
{
    let at = of(edition).name;
    &s[at..]
}

// The name's bytes, where they end in the sector.
pub fn name(s: &[u8], edition: u64) -> &[u8]
    requires s_len { length s.now ≡ 512 }
    requires edition_bound { number_in s.now (layout_of edition).name_length ≤ (layout_of edition).longest_name }
    ensures { result.now ≡ name_in edition s.now }
{
    let n = name_length(s, edition);
    let at = of(edition).name;
    &s[at..at + n]
}

// What an occupied entry says.
pub fn fields_in(s: &[u8], edition: u64) -> Fields
    requires { length s.now ≡ 512 }
    ensures { result ≡ fields_of (entry_in edition s.now) }
{
    let e = of(edition);
    Fields {
        size: size(s),
        version: super::number_in(s, VERSION) as u32,
        id: id(s),
        mode: super::number_in(s, MODE) as u32,
        access_time: super::number_in(s, e.access_time),
        change_time: super::number_in(s, e.change_time),
        name_length: super::number_in(s, e.name_length),
    }
}

// ---- what writes it

// Create's: size and version are 0, as are the bytes after the name.
pub fn new(edition: u64, name: &[u8], id: u64, mode: u32, time: u64) -> [u8; 512]
    requires { length name.now ≤ (layout_of edition).longest_name }
    ensures { result ≡ new_entry_sector edition name.now id mode time }
{
    let e = of(edition);
    let n = name.len();
    let mut a = super::zero_sector();
    super::set_to(&mut a, MARK, OCCUPIED_MARK);
    super::set_to(&mut a, ID, id);
    super::set_to(&mut a, MODE, mode as u64);
    super::set_to(&mut a, e.access_time, time);
    super::set_to(&mut a, e.change_time, time);
    super::set_to(&mut a, e.name_length, n as u64);
    a[e.name..e.name + n].copy_from_slice(name);
    a
}

// The sector with the size given, the version up and the change time set.
pub fn updated(s: &[u8], edition: u64, size: u64, time: u64) -> [u8; 512]
    requires { length s.now ≡ 512 }
    ensures { result ≡ updated_entry_sector edition size time s.now }
{
    let e = of(edition);
    let version = super::raised_version(super::number_in(s, VERSION));
    let mut a = super::owned(s);
    super::set_to(&mut a, SIZE, size);
    super::set_to(&mut a, VERSION, version);
    super::set_to(&mut a, e.change_time, time);
    a
}

// Rename's: the version is up, the change time set, and the bytes after the new name are 0.
pub fn renamed(s: &[u8], edition: u64, name: &[u8], time: u64) -> [u8; 512]
    requires s_len { length s.now ≡ 512 }
    requires name_len_bound { length name.now ≤ (layout_of edition).longest_name }
    ensures { result ≡ renamed_entry_sector edition name.now time s.now }
{
    let e = of(edition);
    let n = name.len();
    let version = super::raised_version(super::number_in(s, VERSION));
    let mut a = super::owned(s);
    super::set_to(&mut a, VERSION, version);
    super::set_to(&mut a, e.change_time, time);
    super::set_to(&mut a, e.name_length, n as u64);
    fields::put_zeros(&mut a, e.name, e.longest_name);
    a[e.name..e.name + n].copy_from_slice(name);
    a
}

// Read's: the access time set, all else as it was.
pub fn accessed(s: &[u8], edition: u64, time: u64) -> [u8; 512]
    requires { length s.now ≡ 512 }
    ensures { result ≡ accessed_entry_sector edition time s.now }
{
    let mut a = super::owned(s);
    super::set_to(&mut a, of(edition).access_time, time);
    a
}
