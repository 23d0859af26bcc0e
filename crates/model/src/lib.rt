// The plain data that the volume's calls speak of, and the layout's rules on it. No other algorithm stands here.
#![tactic(auto)]

ghost use Rattle.std.specs.Prelude.{◌≡◌, ◌+◌, ◌*◌, ◌≤◌, ◌<◌};
ghost use Rattle.model.specs.Geometry.{in_bounds, table_sectors, reserve_extents, usable, entry_at, journal_at, table_at, data_at, extent_at, reserve_at, volume_sectors};
ghost use Rattle.model.specs.Table.{table_sector_of, table_entry_start};
ghost use Rattle.model.specs.Summary.{area_at, located};
ghost use Rattle.model.specs.Results.{located_in, fault_number, fault_place, verdict_for};
ghost use Rattle.model.specs.Opened.{Bounded};
ghost use Rattle.model.specs.declared.Refusal.TheVariants.{Unsound};

// Sector, extent and file numbers are never mixed: each is its own kind.
#[derive(Clone, Copy, PartialEq, Eq)]
pub struct Sector(pub u64);

#[derive(Clone, Copy, PartialEq, Eq)]
pub struct Extent(pub u64);

#[derive(Clone, Copy, PartialEq, Eq)]
pub struct FileIndex(pub u64);

// F files, N extents, S sectors in each extent, and the edition, which is the superblock's version. The superblock gives S four bytes, so
// no area's start can overflow.
#[derive(Clone, Copy)]
pub struct Geometry {
    pub files: u64,
    pub extents: u64,
    pub extent_sectors: u32,
    pub edition: u64,
}

// What the superblock's journal length says; a waiting volume's entry count goes with it.
#[derive(Clone, Copy)]
pub enum State {
    Clean,
    Waiting(u64),
    Damaged,
    Unfinished,
}

// The areas whose first sector a summary gives.
#[derive(Clone, Copy)]
pub enum Area {
    Journal,
    Table,
    Data,
    Reserve,
}

#[derive(Clone, Copy)]
pub struct Summary {
    pub geometry: Geometry,
    pub state: State,
}

// What can be wrong with a volume, and where: document 01 numbers the kinds from 21 to 26.
#[derive(Clone, Copy, PartialEq, Eq)]
pub enum Fault {
    // the entry's mark is neither value
    BadMark(FileIndex),
    // the entry's name is bad, or its size exceeds the volume's
    BadEntry(FileIndex),
    // an entry of lower index has the name
    RepeatedName(FileIndex),
    // the id is 0, the root's, or that of an entry of lower index
    BadId(FileIndex),
    // the extent's table entry names no occupied file and isn't free
    Misplaced(Extent),
    // the file hasn't exactly one extent for each offset that its size needs
    WrongExtents(FileIndex),
}

// Why a call gives nothing. Document 01 numbers the refusals from 1 to 14 in this order; the lowest that holds is the answer.
#[derive(Clone, Copy, PartialEq, Eq)]
pub enum Refusal {
    NotWhole,
    NotVolume,
    OutOfBounds,
    Unfinished,
    Waiting,
    Damaged,
    Unsound(Fault),
    BadArgument,
    NotFound,
    Taken,
    DirectoryFull,
    PastEnd,
    VolumeFull,
    TooShort,
    // 8 and 9 of the rename at this place of a set
    BadRename(u64),
    NoSuchName(u64),
}

// The numbers by which document 01, and so C, knows a fault and a refusal.
impl Fault {
    pub fn number(self) -> u64
        ensures { result ≡ fault_number self }
    {
        match self {
            Fault::BadMark(_) => 21,
            Fault::BadEntry(_) => 22,
            Fault::RepeatedName(_) => 23,
            Fault::BadId(_) => 24,
            Fault::Misplaced(_) => 25,
            Fault::WrongExtents(_) => 26,
        }
    }

    // A file's index, or of a misplaced extent its number.
    pub fn place(self) -> u64
        ensures { result ≡ fault_place self }
    {
        match self {
            Fault::BadMark(i) => i.0,
            Fault::BadEntry(i) => i.0,
            Fault::RepeatedName(i) => i.0,
            Fault::BadId(i) => i.0,
            Fault::Misplaced(e) => e.0,
            Fault::WrongExtents(i) => i.0,
        }
    }
}

impl Refusal {
    pub fn number(self) -> u64
        ensures { result ≡ (verdict_for self).number }
    {
        match self {
            Refusal::NotWhole => 1,
            Refusal::NotVolume => 2,
            Refusal::OutOfBounds => 3,
            Refusal::Unfinished => 4,
            Refusal::Waiting => 5,
            Refusal::Damaged => 6,
            Refusal::Unsound(_) => 7,
            Refusal::BadArgument => 8,
            Refusal::NotFound => 9,
            Refusal::Taken => 10,
            Refusal::DirectoryFull => 11,
            Refusal::PastEnd => 12,
            Refusal::VolumeFull => 13,
            Refusal::TooShort => 14,
            Refusal::BadRename(_) => 8,
            Refusal::NoSuchName(_) => 9,
        }
    }

    // The fault's number, 0 of any other refusal.
    pub fn fault(self) -> u64
        ensures { result ≡ (verdict_for self).fault }
    {
        match self {
            Refusal::Unsound(f) => f.number(),
            _ => 0,
        }
    }

    // The fault's place, or of a set the rename's, 0 of any other refusal.
    pub fn place(self) -> u64
        ensures { result ≡ (verdict_for self).place }
    {
        match self {
            Refusal::Unsound(f) => f.place(),
            Refusal::BadRename(k) => k,
            Refusal::NoSuchName(k) => k,
            _ => 0,
        }
    }
}

// A fault refuses every call that asks for a sound volume.
impl From<Fault> for Refusal {
    ghost from_gives = { λ f r. r ≡ Unsound f };

    fn from(fault: Fault) -> Refusal {
        Refusal::Unsound(fault)
    }
}

// What find and list give of an entry.
#[derive(Clone, Copy)]
pub struct Fields {
    pub size: u64,
    pub version: u32,
    pub id: u64,
    pub mode: u32,
    pub access_time: u64,
    pub change_time: u64,
    pub name_length: u64,
}

// ---- what a call gives where nothing refuses it

#[derive(Clone, Copy)]
pub struct FoundFile {
    pub index: FileIndex,
    pub fields: Fields,
}

// The name's bytes stand in the output; their count is the field `name_length`. Of list and read too, `length` is the write list's in bytes.
#[derive(Clone, Copy)]
pub struct ListedFile {
    pub fields: Fields,
    pub length: u64,
}

#[derive(Clone, Copy)]
pub struct ReadBytes {
    pub count: u64,
    pub length: u64,
}

// How many table entries a repair frees, its write list's length in bytes, and the first fault that remains.
#[derive(Clone, Copy)]
pub struct Repair {
    pub freed: u64,
    pub length: u64,
    pub remaining: Result<(), Fault>,
}

// Of `count` sector writes.
#[derive(Clone, Copy)]
pub struct Slice {
    pub length: u64,
    pub count: u64,
}

// What the listing program prints on a sector: nothing; "refused " and the number; a fault's number and the entry's index; or an occupied
// entry's index and size, and of its name the first byte's place in the sector and the length.
#[derive(Clone, Copy)]
pub enum Line {
    Nothing,
    Refused(u64),
    Fault(u64, u64),
    File(u64, u64, usize, usize),
}

// ---- a call over lent sectors (T-11), between its steps. Each holds the number of the last step, the answer's other numbers, the data sector that is
// asked for, 0 for none (sector 0 is the superblock), and what the next step rests on. A list's length stays 0 until nothing is asked for.

// `skip` bytes of the sector stand before the span. `done` bytes of the span are in the output; at `edge` of them it goes on in sector `next`.
#[repr(C)]
#[derive(Clone, Copy)]
pub struct Reading {
    pub code: u64,
    pub fault: u64,
    pub place: u64,
    pub count: u64,
    pub length: u64,
    pub wanted: u64,
    pub skip: u64,
    pub done: u64,
    pub edge: u64,
    pub next: u64,
}

// A data sector of which a span covers the bytes from `from` to before `to`, and its record's position in the list.
#[repr(C)]
#[derive(Clone, Copy)]
pub struct Part {
    pub sector: u64,
    pub from: u64,
    pub to: u64,
    pub position: u64,
}

// `last` is asked for after `wanted`; `full` is the list's length.
#[repr(C)]
#[derive(Clone, Copy)]
pub struct Writing {
    pub code: u64,
    pub fault: u64,
    pub place: u64,
    pub length: u64,
    pub wanted: Part,
    pub last: Part,
    pub full: u64,
}

// The source of journal entry `entry` is asked for; `full` is the list's length.
#[repr(C)]
#[derive(Clone, Copy)]
pub struct Recovering {
    pub code: u64,
    pub length: u64,
    pub wanted: u64,
    pub entry: u64,
    pub full: u64,
}

// ---- the layout's rules: only these turn file, extent and sector numbers into each other

// The most bytes that a read or write takes, and that a resize adds.
pub const LONGEST_TRANSFER: u64 = 65536;

// The file that the table's entry of a free extent names.
pub const FREE_FILE: u64 = 65535;

impl Sector {
    pub const SUPERBLOCK: Sector = Sector(0);

    pub const ROOT: Sector = Sector(1);
}

impl FileIndex {
    pub fn sector(self) -> Sector
        requires { 2 + self.0 < 18446744073709551616 }
        ensures { result.0 ≡ entry_at self.0 }
    {
        Sector(2 + self.0)
    }
}

impl Extent {
    // Where its entry stands in its table sector.
    pub fn table_place(self) -> usize
        ensures { result ≡ table_entry_start self.0 }
    {
        4 * (self.0 % 128) as usize
    }
}

impl Geometry {
    pub fn in_bounds(self) -> bool
        ensures { result ≡ in_bounds self }
    {
        255 <= self.files
            && self.files <= 65535
            && 2 <= self.extents
            && self.extents <= 65535
            && 128 <= self.extent_sectors
    }

    pub fn table_sectors(self) -> u64
        requires { Bounded self }
        ensures { result ≡ table_sectors self }
    {
        (self.extents + 127) / 128
    }

    pub fn reserve_extents(self) -> u64
        requires { Bounded self }
        ensures { result ≡ reserve_extents self }
    {
        let s = self.extent_sectors as u64;
        (self.table_sectors() + 3 + (s - 1)) / s
    }

    fn usable(self) -> u64
        requires { Bounded self }
        ensures { result ≡ usable self }
    {
        self.extents - self.reserve_extents()
    }

    pub fn journal_at(self) -> Sector
        requires { Bounded self }
        ensures { result.0 ≡ journal_at self }
    {
        Sector(2 + self.files)
    }

    pub fn table_at(self) -> Sector
        requires { Bounded self }
        ensures { result.0 ≡ table_at self }
    {
        Sector(34 + self.files)
    }

    // The table sector that holds the entry of extent `e`.
    pub fn table_sector_of(self, e: Extent) -> Sector
        requires bounded { Bounded self }
        requires e_lt_extents { e.0 < self.extents }
        ensures { result.0 ≡ table_sector_of self e.0 }
    {
        Sector(34 + self.files + e.0 / 128)
    }

    // Table sector `t`, and the extent whose entry is its entry `k`.
    pub fn table_sector(self, t: u64) -> Sector
        requires bounded { Bounded self }
        requires t_bound { t < table_sectors self }
        ensures { result.0 ≡ table_at self + t }
    {
        Sector(34 + self.files + t)
    }

    pub fn table_extent(self, t: u64, k: u64) -> Extent
        requires bounded { Bounded self }
        requires t_bound { (t < table_sectors self) × (k < 128) }
        ensures { result.0 ≡ 128 * t + k }
    {
        Extent(128 * t + k)
    }

    // Where the entry of extent `e` stands in an image: table sectors follow one another, 128 entries in each.
    pub fn table_entry_at(self, e: Extent) -> usize
        requires bounded { Bounded self }
        requires e_lt_extents { e.0 < self.extents }
        ensures { result ≡ 512 * table_at self + 4 * e.0 }
    {
        (512 * (34 + self.files) + 4 * e.0) as usize
    }

    pub fn data_at(self) -> Sector
        requires { Bounded self }
        ensures { result.0 ≡ data_at self }
    {
        Sector(34 + self.files + self.table_sectors())
    }

    pub fn extent_at(self, e: Extent) -> Sector
        requires bounded { Bounded self }
        requires e_le_extents { e.0 ≤ self.extents }
        ensures { result.0 ≡ extent_at self e.0 }
    {
        let d = self.data_at();
        Sector(d.0 + e.0 * (self.extent_sectors as u64))
    }

    pub fn reserve_at(self) -> Sector
        requires { Bounded self }
        ensures { result.0 ≡ reserve_at self }
    {
        self.extent_at(Extent(self.usable()))
    }

    fn start_of(self, area: Area) -> Sector
        requires { Bounded self }
        ensures { result.0 ≡ area_at area self }
    {
        match area {
            Area::Journal => self.journal_at(),
            Area::Table => self.table_at(),
            Area::Data => self.data_at(),
            Area::Reserve => self.reserve_at(),
        }
    }

    pub fn volume_sectors(self) -> u64
        requires { Bounded self }
        ensures { result ≡ volume_sectors self }
    {
        let end = self.extent_at(Extent(self.extents));
        end.0
    }
}

// Once made, the summary alone answers where each area starts, unless its geometry breaks the bounds.
impl Summary {
    fn start_of(self, area: Area) -> Result<Sector, Refusal>
        ensures { located_in result ≡ located (area_at area) self }
    {
        let g = self.geometry;
        if g.in_bounds() {
            return Ok(g.start_of(area));
        }
        Err(Refusal::OutOfBounds)
    }

    pub fn journal_at(self) -> Result<Sector, Refusal>
        ensures { located_in result ≡ located journal_at self }
    {
        self.start_of(Area::Journal)
    }

    pub fn table_at(self) -> Result<Sector, Refusal>
        ensures { located_in result ≡ located table_at self }
    {
        self.start_of(Area::Table)
    }

    pub fn data_at(self) -> Result<Sector, Refusal>
        ensures { located_in result ≡ located data_at self }
    {
        self.start_of(Area::Data)
    }

    pub fn reserve_at(self) -> Result<Sector, Refusal>
        ensures { located_in result ≡ located reserve_at self }
    {
        self.start_of(Area::Reserve)
    }
}
