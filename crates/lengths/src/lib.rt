// How long a list each call can give on a volume, by its geometry alone: who lends a buffer this long is never refused for it.
#![tactic(auto)]

ghost use Rattle.std.specs.Prelude.{◌≡◌, ◌+◌, ◌*◌, ◌≤◌, ◌<◌, min, max};
ghost use Rattle.model.specs.Geometry.{extent_sectors, table_sectors, reserve_extents};
ghost use Rattle.model.specs.WriteList.{record_count};
ghost use Rattle.model.specs.Opened.{Bounded};
ghost use Rattle.model.specs.Lengths.{most_entries, longest_records, longest_answer};
ghost use Rattle.model.specs.Results.{longest_in};
ghost use Rattle.lengths.specs.Calls.{call_number, IsCallOf};

use model::{Geometry, Refusal};

// The calls that give a list. C knows them by the numbers from 1 to 10 in this order.
#[derive(Clone, Copy)]
pub enum Call {
    // list and read
    Access,
    Create,
    Delete,
    Rename,
    RenameSet,
    Resize,
    Write,
    Repair,
    Recover,
    // of any budget
    RecoverSlice,
}

impl TryFrom<u64> for Call {
    type Error = Refusal;

    ghost try_from_gives = { IsCallOf };

    fn try_from(number: u64) -> Result<Call, Refusal> {
        match number {
            1 => Ok(Call::Access),
            2 => Ok(Call::Create),
            3 => Ok(Call::Delete),
            4 => Ok(Call::Rename),
            5 => Ok(Call::RenameSet),
            6 => Ok(Call::Resize),
            7 => Ok(Call::Write),
            8 => Ok(Call::Repair),
            9 => Ok(Call::Recover),
            10 => Ok(Call::RecoverSlice),
            _ => Err(Refusal::BadArgument),
        }
    }
}

// The records of a change with so many data sectors and targets.
fn record_count(sectors: u64, targets: u64) -> u64
    requires { (sectors ≤ 65536) × (targets ≤ 65536) }
    ensures { result ≡ record_count sectors targets }
{
    sectors + targets + (targets + 31) / 32 + 1 + 2 + (targets + 1) + 2
}

// The most sectors that a set of renames changes.
fn most_in_set(g: Geometry) -> u64
    requires { Bounded g }
    ensures { result ≡ min (17 + table_sectors g) (reserve_extents g * extent_sectors g) }
{
    let reserved = g.reserve_extents() * u64::from(g.extent_sectors);
    reserved.min(17 + g.table_sectors())
}

// The most entries of a good journal.
fn most_entries(g: Geometry) -> u64
    requires { Bounded g }
    ensures { result ≡ most_entries g }
{
    (1 + g.files + g.table_sectors()).min(1024)
}

// The most records of a call's list.
#[tactic(auto, unfolding(model::specs::Lengths::longest_records))]
fn records(call: Call, g: Geometry) -> u64
    requires { Bounded g }
    ensures value { result ≡ longest_records (call_number call) g }
    ensures bounds { (0 < result) × (result ≤ 65536) }
{
    let t = g.table_sectors();
    match call {
        Call::Access => record_count(0, 1),
        Call::Create => record_count(0, 2),
        Call::Delete => record_count(0, 2 + t),
        Call::Rename => record_count(0, t + 3),
        Call::RenameSet => record_count(0, most_in_set(g)),
        Call::Resize => record_count(0, 1 + t).max(record_count(129, 2)),
        Call::Write => record_count(129, 2),
        Call::Repair => record_count(0, t),
        Call::Recover => most_entries(g) + 3,
        Call::RecoverSlice => most_entries(g) + 1,
    }
}

// In bytes, of a volume with extents of so many sectors.
pub fn longest_list(files: u64, extents: u64, sectors: u64, call: u64) -> Result<u64, Refusal>
    ensures { longest_in result ≡ longest_answer (record { files = files; extents = extents; extent_sectors = sectors; edition = 1 }) call }
{
    let Ok(extent_sectors) = u32::try_from(sectors) else {
        return Err(Refusal::OutOfBounds);
    };
    let g = Geometry {
        files,
        extents,
        extent_sectors,
        edition: 1,
    };
    if !g.in_bounds() {
        return Err(Refusal::OutOfBounds);
    }
    let call = Call::try_from(call)?;
    Ok(records(call, g) * (lists::RECORD_SIZE as u64))
}
