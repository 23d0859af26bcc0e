// The editions of the format, 1 and 2: the superblock's version says which. Where they differ, one value says what stands where.
ghost use Rattle.std.specs.Prelude.{◌≡◌, ◌+◌};
ghost use Rattle.model.specs.Edition.{layout_of, is_edition, bad_time};
ghost use Rattle.layout.specs.Edition.{layout_in, InSector};

use super::Field;

// The times and the name of an entry, and the times of the root.
#[derive(Clone, Copy)]
pub struct Edition {
    pub access_time: Field,
    pub change_time: Field,
    pub name_length: Field,
    pub name: usize,
    pub longest_name: usize,
    pub root_access_time: Field,
    pub root_change_time: Field,
}

const FIRST: Edition = Edition {
    access_time: Field {
        offset: 26,
        width: 4,
    },
    change_time: Field {
        offset: 30,
        width: 4,
    },
    name_length: Field {
        offset: 34,
        width: 2,
    },
    name: 36,
    longest_name: 476,
    root_access_time: Field {
        offset: 16,
        width: 4,
    },
    root_change_time: Field {
        offset: 20,
        width: 4,
    },
};

const SECOND: Edition = Edition {
    access_time: Field {
        offset: 26,
        width: 8,
    },
    change_time: Field {
        offset: 34,
        width: 8,
    },
    name_length: Field {
        offset: 42,
        width: 2,
    },
    name: 44,
    longest_name: 468,
    root_access_time: Field {
        offset: 16,
        width: 8,
    },
    root_change_time: Field {
        offset: 24,
        width: 8,
    },
};

pub fn of(edition: u64) -> Edition
    ensures result_value { layout_in result ≡ layout_of edition }
    ensures in_sector { InSector result }
{
    if edition == 2 { SECOND } else { FIRST }
}

// Where an entry's name starts.
pub fn name_start(edition: u64) -> usize
    ensures value { result ≡ (layout_of edition).name }
    ensures edition_value { result + (layout_of edition).longest_name ≡ 512 }
{
    of(edition).name
}

pub fn longest_name(edition: u64) -> usize
    ensures { result ≡ (layout_of edition).longest_name }
{
    of(edition).longest_name
}

pub fn is_edition(version: u64) -> bool
    ensures { result ≡ is_edition version }
{
    version == 1 || version == 2
}

// A time that the edition's fields cannot hold.
pub fn bad_time(edition: u64, time: u64) -> bool
    ensures { result ≡ bad_time edition time }
{
    edition != 2 && u64::from(u32::MAX) < time
}
