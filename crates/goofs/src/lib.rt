// The C interface: every call under its plain name, thin over the proved calls. A slice passes as pointer and length; results are
// structs of numbers. `include/goofs.h` declares it.
#![tactic(auto)]

ghost use Rattle.std.specs.Prelude.{◌≡◌, length};
ghost use Rattle.model.specs.Disk.{view, on_image};
ghost use Rattle.model.specs.Summary.{state_code, summary_answer, check_answer};
ghost use Rattle.model.specs.Scratch.{check_with_answer, ScratchAfter};
ghost use Rattle.model.specs.Find.{find_answer};
ghost use Rattle.model.specs.Listing.{list_answer, list_output, listing_list};
ghost use Rattle.model.specs.Read.{read_answer, read_output, read_list};
ghost use Rattle.model.specs.Create.{create_answer, create_list};
ghost use Rattle.model.specs.Delete.{delete_answer, delete_list};
ghost use Rattle.model.specs.Resize.{resize_answer, resize_list};
ghost use Rattle.model.specs.Write.{write_answer, write_list};
ghost use Rattle.model.specs.Rename.{rename_answer, rename_list};
ghost use Rattle.model.specs.RenameSet.{rename_set_answer, rename_set_list};
ghost use Rattle.model.specs.Repair.{repair_answer, repair_list, done_but};
ghost use Rattle.model.specs.Recovery.{recovery_answer, recovery_list, slice_answer, slice_list};
ghost use Rattle.model.specs.Lent.{on_lent, read_lent, read_step, read_step_output, write_lent, resize_lent, write_step, write_step_list, recovery_lent, recovery_step, recovery_step_list};
ghost use Rattle.model.specs.Format.{format_answer, format_output};
ghost use Rattle.model.specs.CarryOut.{carry_answer, carry_image};
ghost use Rattle.model.specs.Lengths.{longest_answer};
ghost use Rattle.model.specs.Results.{summarized_in, checked_in, found_in, listed_in, read_in, changed_in, repaired_in, soundness_in, recovered_in, sliced_in, formatted_in, longest_in};
ghost use Rattle.goofs.specs.Numbers.{summary_numbers, check_numbers, find_numbers, list_numbers, read_numbers, change_numbers};
ghost use Rattle.goofs.specs.Numbers.{repair_numbers, recover_numbers, slice_numbers, format_numbers, longest_numbers};

use model::{
    Fault, FoundFile, ListedFile, ReadBytes, Reading, Recovering, Refusal, Repair, Slice, State,
    Summary, Writing,
};

// ---- summary

#[repr(C)]
#[derive(Clone, Copy)]
pub struct SummaryResult {
    pub code: u64,
    pub files: u64,
    pub extents: u64,
    pub extent_sectors: u64,
    pub state: u64,
    pub entries: u64,
    pub edition: u64,
}

fn state_code(s: State) -> u64
    ensures { result ≡ state_code s }
{
    match s {
        State::Clean => 0,
        State::Waiting(_) => 1,
        State::Damaged => 2,
        State::Unfinished => 3,
    }
}

impl From<Result<Summary, Refusal>> for SummaryResult {
    ghost from_gives = { λ a r. r ≡ summary_numbers (summarized_in a) };

    fn from(a: Result<Summary, Refusal>) -> SummaryResult {
        match a {
            Ok(s) => {
                let g = s.geometry;
                SummaryResult {
                    code: 0,
                    files: g.files,
                    extents: g.extents,
                    extent_sectors: g.extent_sectors as u64,
                    state: state_code(s.state),
                    entries: volume::state_entries(s.state),
                    edition: g.edition,
                }
            }
            Err(refusal) => SummaryResult {
                code: refusal.number(),
                files: 0,
                extents: 0,
                extent_sectors: 0,
                state: 0,
                entries: 0,
                edition: 0,
            },
        }
    }
}

#[unsafe(no_mangle)]
pub extern "C" fn goofs_summary(img: &[u8]) -> SummaryResult
    ensures { result ≡ summary_numbers (on_image summary_answer img.now) }
{
    SummaryResult::from(volume::summary(img))
}

// ---- check

#[repr(C)]
#[derive(Clone, Copy)]
pub struct CheckResult {
    pub code: u64,
    pub fault: u64,
    pub place: u64,
}

impl From<Result<(), Refusal>> for CheckResult {
    ghost from_gives = { λ a r. r ≡ check_numbers (checked_in a) };

    fn from(a: Result<(), Refusal>) -> CheckResult {
        match a {
            Ok(()) => CheckResult {
                code: 0,
                fault: 0,
                place: 0,
            },
            Err(refusal) => CheckResult {
                code: refusal.number(),
                fault: refusal.fault(),
                place: refusal.place(),
            },
        }
    }
}

#[unsafe(no_mangle)]
pub extern "C" fn goofs_check(img: &[u8]) -> CheckResult
    ensures { result ≡ check_numbers (on_image check_answer img.now) }
{
    CheckResult::from(queries::check(img))
}

// What scratch holds after 0 or 7 is the program's choice; only its length is common to every choice.
#[unsafe(no_mangle)]
pub extern "C" fn goofs_check_with(img: &[u8], scratch: &mut [u32]) -> CheckResult
    ensures value { result ≡ check_numbers (on_image check_with_answer img.now (length scratch.old)) }
    ensures scratch_after { ScratchAfter (on_image check_with_answer img.now (length scratch.old)).verdict scratch.old scratch.new }
{
    CheckResult::from(queries::check_with(img, scratch))
}

// ---- find

#[repr(C)]
#[derive(Clone, Copy)]
pub struct FindResult {
    pub code: u64,
    pub fault: u64,
    pub place: u64,
    pub index: u64,
    pub size: u64,
    pub version: u64,
    pub id: u64,
    pub mode: u64,
    pub access_time: u64,
    pub change_time: u64,
    pub name_length: u64,
}

impl From<Result<FoundFile, Refusal>> for FindResult {
    ghost from_gives = { λ a r. r ≡ find_numbers (found_in a) };

    fn from(a: Result<FoundFile, Refusal>) -> FindResult {
        match a {
            Ok(found) => {
                let i = found.index;
                let f = found.fields;
                FindResult {
                    code: 0,
                    fault: 0,
                    place: 0,
                    index: i.0,
                    size: f.size,
                    version: f.version as u64,
                    id: f.id,
                    mode: f.mode as u64,
                    access_time: f.access_time,
                    change_time: f.change_time,
                    name_length: f.name_length,
                }
            }
            Err(refusal) => FindResult {
                code: refusal.number(),
                fault: refusal.fault(),
                place: refusal.place(),
                index: 0,
                size: 0,
                version: 0,
                id: 0,
                mode: 0,
                access_time: 0,
                change_time: 0,
                name_length: 0,
            },
        }
    }
}

#[unsafe(no_mangle)]
pub extern "C" fn goofs_find(img: &[u8], name: &[u8]) -> FindResult
    ensures { result ≡ find_numbers (on_image find_answer img.now name.now) }
{
    FindResult::from(queries::find(img, name))
}

// ---- list

#[repr(C)]
#[derive(Clone, Copy)]
pub struct ListResult {
    pub code: u64,
    pub fault: u64,
    pub place: u64,
    pub size: u64,
    pub version: u64,
    pub id: u64,
    pub mode: u64,
    pub access_time: u64,
    pub change_time: u64,
    pub name_length: u64,
    pub length: u64,
}

impl From<Result<ListedFile, Refusal>> for ListResult {
    ghost from_gives = { λ a r. r ≡ list_numbers (listed_in a) };

    fn from(a: Result<ListedFile, Refusal>) -> ListResult {
        match a {
            Ok(listed) => {
                let f = listed.fields;
                ListResult {
                    code: 0,
                    fault: 0,
                    place: 0,
                    size: f.size,
                    version: f.version as u64,
                    id: f.id,
                    mode: f.mode as u64,
                    access_time: f.access_time,
                    change_time: f.change_time,
                    name_length: f.name_length,
                    length: listed.length,
                }
            }
            Err(refusal) => ListResult {
                code: refusal.number(),
                fault: refusal.fault(),
                place: refusal.place(),
                size: 0,
                version: 0,
                id: 0,
                mode: 0,
                access_time: 0,
                change_time: 0,
                name_length: 0,
                length: 0,
            },
        }
    }
}

// Two buffers are lent: the output for the name, and the write list of the root's access time.
#[unsafe(no_mangle)]
pub extern "C" fn goofs_list(
    img: &[u8],
    index: u64,
    time: u64,
    out: &mut [u8],
    list: &mut [u8],
) -> ListResult
    ensures value { result ≡ list_numbers (on_image list_answer img.now index time (length out.old) (length list.old)) }
    ensures out_after { out.new ≡ on_image list_output img.now index time out.old (length list.old) }
    ensures list_after { list.new ≡ on_image listing_list img.now index time (length out.old) list.old }
{
    ListResult::from(queries::list(img, index, time, out, list))
}

// ---- read

#[repr(C)]
#[derive(Clone, Copy)]
pub struct ReadResult {
    pub code: u64,
    pub fault: u64,
    pub place: u64,
    pub count: u64,
    pub length: u64,
}

impl From<Result<ReadBytes, Refusal>> for ReadResult {
    ghost from_gives = { λ a r. r ≡ read_numbers (read_in a) };

    fn from(a: Result<ReadBytes, Refusal>) -> ReadResult {
        match a {
            Ok(b) => ReadResult {
                code: 0,
                fault: 0,
                place: 0,
                count: b.count,
                length: b.length,
            },
            Err(refusal) => ReadResult {
                code: refusal.number(),
                fault: refusal.fault(),
                place: refusal.place(),
                count: 0,
                length: 0,
            },
        }
    }
}

// Two buffers are lent: the output for the bytes, and the write list of the entry's access time.
#[unsafe(no_mangle)]
pub extern "C" fn goofs_read(
    img: &[u8],
    name: &[u8],
    offset: u64,
    count: u64,
    time: u64,
    out: &mut [u8],
    list: &mut [u8],
) -> ReadResult
    ensures value { result ≡ read_numbers (on_image read_answer img.now name.now offset count time (length out.old) (length list.old)) }
    ensures out_after { out.new ≡ on_image read_output img.now name.now offset count time out.old (length list.old) }
    ensures list_after { list.new ≡ on_image read_list img.now name.now offset count time (length out.old) list.old }
{
    ReadResult::from(queries::read(img, name, offset, count, time, out, list))
}

// ---- create, delete, resize, write

#[repr(C)]
#[derive(Clone, Copy)]
pub struct ChangeResult {
    pub code: u64,
    pub fault: u64,
    pub place: u64,
    pub length: u64,
}

impl From<Result<u64, Refusal>> for ChangeResult {
    ghost from_gives = { λ a r. r ≡ change_numbers (changed_in a) };

    fn from(a: Result<u64, Refusal>) -> ChangeResult {
        match a {
            Ok(length) => ChangeResult {
                code: 0,
                fault: 0,
                place: 0,
                length,
            },
            Err(refusal) => ChangeResult {
                code: refusal.number(),
                fault: refusal.fault(),
                place: refusal.place(),
                length: 0,
            },
        }
    }
}

#[unsafe(no_mangle)]
pub extern "C" fn goofs_create(
    img: &[u8],
    name: &[u8],
    id: u64,
    mode: u32,
    time: u64,
    list: &mut [u8],
) -> ChangeResult
    ensures value { result ≡ change_numbers (on_image create_answer img.now name.now id mode time (length list.old)) }
    ensures list_after { list.new ≡ on_image create_list img.now name.now id mode time list.old }
{
    ChangeResult::from(changes::create(img, name, id, mode, time, list))
}

#[unsafe(no_mangle)]
pub extern "C" fn goofs_delete(img: &[u8], name: &[u8], time: u64, list: &mut [u8]) -> ChangeResult
    ensures value { result ≡ change_numbers (on_image delete_answer img.now name.now time (length list.old)) }
    ensures list_after { list.new ≡ on_image delete_list img.now name.now time list.old }
{
    ChangeResult::from(changes::delete(img, name, time, list))
}

#[unsafe(no_mangle)]
pub extern "C" fn goofs_resize(
    img: &[u8],
    name: &[u8],
    size: u64,
    time: u64,
    list: &mut [u8],
) -> ChangeResult
    ensures value { result ≡ change_numbers (on_image resize_answer img.now name.now size time (length list.old)) }
    ensures list_after { list.new ≡ on_image resize_list img.now name.now size time list.old }
{
    ChangeResult::from(changes::resize(img, name, size, time, list))
}

#[unsafe(no_mangle)]
pub extern "C" fn goofs_write(
    img: &[u8],
    name: &[u8],
    offset: u64,
    bytes: &[u8],
    time: u64,
    list: &mut [u8],
) -> ChangeResult
    ensures value { result ≡ change_numbers (on_image write_answer img.now name.now offset bytes.now time (length list.old)) }
    ensures list_after { list.new ≡ on_image write_list img.now name.now offset bytes.now time list.old }
{
    ChangeResult::from(changes::write(img, name, offset, bytes, time, list))
}

#[unsafe(no_mangle)]
pub extern "C" fn goofs_rename(
    img: &[u8],
    old: &[u8],
    new: &[u8],
    time: u64,
    list: &mut [u8],
) -> ChangeResult
    ensures value { result ≡ change_numbers (on_image rename_answer img.now old.now new.now time (length list.old)) }
    ensures list_after { list.new ≡ on_image rename_list img.now old.now new.now time list.old }
{
    ChangeResult::from(changes::rename(img, old, new, time, list))
}

// `names` holds all names one after the other, old, new, old, new and so on; `lengths` the length of each.
#[unsafe(no_mangle)]
pub extern "C" fn goofs_rename_set(
    img: &[u8],
    names: &[u8],
    lengths: &[u64],
    time: u64,
    list: &mut [u8],
) -> ChangeResult
    ensures value { result ≡ change_numbers (on_image rename_set_answer img.now names.now lengths.now time (length list.old)) }
    ensures list_after { list.new ≡ on_image rename_set_list img.now names.now lengths.now time list.old }
{
    ChangeResult::from(changes::rename_set(img, names, lengths, time, list))
}

// ---- repair

// With 0 its fault and place are the first fault that remains.
#[repr(C)]
#[derive(Clone, Copy)]
pub struct RepairResult {
    pub code: u64,
    pub fault: u64,
    pub place: u64,
    pub length: u64,
    pub freed: u64,
}

// The first fault that remains, by its numbers: 0 and 0 where none does.
fn remaining_number(remaining: Result<(), Fault>) -> u64
    ensures { result ≡ (done_but (soundness_in remaining)).fault }
{
    match remaining {
        Ok(()) => 0,
        Err(fault) => fault.number(),
    }
}

fn remaining_place(remaining: Result<(), Fault>) -> u64
    ensures { result ≡ (done_but (soundness_in remaining)).place }
{
    match remaining {
        Ok(()) => 0,
        Err(fault) => fault.place(),
    }
}

impl From<Result<Repair, Refusal>> for RepairResult {
    ghost from_gives = { λ a r. r ≡ repair_numbers (repaired_in a) };

    fn from(a: Result<Repair, Refusal>) -> RepairResult {
        match a {
            Ok(r) => RepairResult {
                code: 0,
                fault: remaining_number(r.remaining),
                place: remaining_place(r.remaining),
                length: r.length,
                freed: r.freed,
            },
            Err(refusal) => RepairResult {
                code: refusal.number(),
                fault: refusal.fault(),
                place: refusal.place(),
                length: 0,
                freed: 0,
            },
        }
    }
}

#[unsafe(no_mangle)]
pub extern "C" fn goofs_repair(img: &[u8], list: &mut [u8]) -> RepairResult
    ensures value { result ≡ repair_numbers (on_image repair_answer img.now (length list.old)) }
    ensures list_after { list.new ≡ on_image repair_list img.now list.old }
{
    RepairResult::from(repair::repair(img, list))
}

// ---- recovery, format, carrying out

#[repr(C)]
#[derive(Clone, Copy)]
pub struct RecoverResult {
    pub code: u64,
    pub length: u64,
}

impl From<Result<u64, Refusal>> for RecoverResult {
    ghost from_gives = { λ a r. r ≡ recover_numbers (recovered_in a) };

    fn from(a: Result<u64, Refusal>) -> RecoverResult {
        match a {
            Ok(length) => RecoverResult { code: 0, length },
            Err(refusal) => RecoverResult {
                code: refusal.number(),
                length: 0,
            },
        }
    }
}

#[unsafe(no_mangle)]
pub extern "C" fn goofs_recover(img: &[u8], list: &mut [u8]) -> RecoverResult
    ensures value { result ≡ recover_numbers (on_image recovery_answer img.now (length list.old)) }
    ensures list_after { list.new ≡ on_image recovery_list img.now list.old }
{
    RecoverResult::from(recovery::recover(img, list))
}

#[repr(C)]
#[derive(Clone, Copy)]
pub struct SliceResult {
    pub code: u64,
    pub length: u64,
    pub count: u64,
}

impl From<Result<Slice, Refusal>> for SliceResult {
    ghost from_gives = { λ a r. r ≡ slice_numbers (sliced_in a) };

    fn from(a: Result<Slice, Refusal>) -> SliceResult {
        match a {
            Ok(slice) => SliceResult {
                code: 0,
                length: slice.length,
                count: slice.count,
            },
            Err(refusal) => SliceResult {
                code: refusal.number(),
                length: 0,
                count: 0,
            },
        }
    }
}

#[unsafe(no_mangle)]
pub extern "C" fn goofs_recover_slice(img: &[u8], budget: u64, list: &mut [u8]) -> SliceResult
    ensures value { result ≡ slice_numbers (on_image slice_answer img.now budget (length list.old)) }
    ensures list_after { list.new ≡ on_image slice_list img.now budget list.old }
{
    SliceResult::from(recovery::recover_slice(img, budget, list))
}

#[repr(C)]
#[derive(Clone, Copy)]
pub struct FormatResult {
    pub code: u64,
    pub length: u64,
}

impl From<Result<u64, Refusal>> for FormatResult {
    ghost from_gives = { λ a r. r ≡ format_numbers (formatted_in a) };

    fn from(a: Result<u64, Refusal>) -> FormatResult {
        match a {
            Ok(length) => FormatResult { code: 0, length },
            Err(refusal) => FormatResult {
                code: refusal.number(),
                length: 0,
            },
        }
    }
}

#[unsafe(no_mangle)]
pub extern "C" fn goofs_format_record(
    sectors: u64,
    files: u64,
    edition: u64,
    id: u64,
    mode: u32,
    time: u64,
    position: u64,
    out: &mut [u8],
) -> FormatResult
    ensures value { result ≡ format_numbers (format_answer (record { sectors = sectors; files = files; edition = edition; id = id; mode = mode; time = time }) position (length out.old)) }
    ensures out_after { out.new ≡ format_output (record { sectors = sectors; files = files; edition = edition; id = id; mode = mode; time = time }) position out.old }
{
    FormatResult::from(format::format_record(
        sectors, files, edition, id, mode, time, position, out,
    ))
}

#[unsafe(no_mangle)]
pub extern "C" fn goofs_carry_out(img: &mut [u8], list: &[u8]) -> u64
    ensures value { result ≡ (carry_answer img.old list.now).number }
    ensures img_after { img.new ≡ carry_image img.old list.now }
{
    match carry_out::carry_out(img, list) {
        Ok(()) => 0,
        Err(refusal) => refusal.number(),
    }
}

// ---- how long a list can be

#[repr(C)]
#[derive(Clone, Copy)]
pub struct LongestResult {
    pub code: u64,
    pub length: u64,
}

impl From<Result<u64, Refusal>> for LongestResult {
    ghost from_gives = { λ a r. r ≡ longest_numbers (longest_in a) };

    fn from(a: Result<u64, Refusal>) -> LongestResult {
        match a {
            Ok(length) => LongestResult { code: 0, length },
            Err(refusal) => LongestResult {
                code: refusal.number(),
                length: 0,
            },
        }
    }
}

#[unsafe(no_mangle)]
pub extern "C" fn goofs_longest_list(
    files: u64,
    extents: u64,
    sectors: u64,
    call: u64,
) -> LongestResult
    ensures { result ≡ longest_numbers (longest_answer (record { files = files; extents = extents; extent_sectors = sectors; edition = 1 }) call) }
{
    LongestResult::from(lengths::longest_list(files, extents, sectors, call))
}

// ---- on lent sectors (T-11): `front` holds at least the sectors before the data area, `count` is the volume's sectors

#[unsafe(no_mangle)]
pub extern "C" fn goofs_summary_lent(front: &[u8], count: u64) -> SummaryResult
    ensures { result ≡ summary_numbers (on_lent summary_answer front.now count) }
{
    SummaryResult::from(volume::summary_lent(front, count))
}

#[unsafe(no_mangle)]
pub extern "C" fn goofs_check_lent(front: &[u8], count: u64) -> CheckResult
    ensures { result ≡ check_numbers (on_lent check_answer front.now count) }
{
    CheckResult::from(queries::check_lent(front, count))
}

#[unsafe(no_mangle)]
pub extern "C" fn goofs_check_with_lent(
    front: &[u8],
    count: u64,
    scratch: &mut [u32],
) -> CheckResult
    ensures value { result ≡ check_numbers (on_lent check_with_answer front.now count (length scratch.old)) }
    ensures scratch_after { ScratchAfter (on_lent check_with_answer front.now count (length scratch.old)).verdict scratch.old scratch.new }
{
    CheckResult::from(queries::check_with_lent(front, count, scratch))
}

#[unsafe(no_mangle)]
pub extern "C" fn goofs_find_lent(front: &[u8], count: u64, name: &[u8]) -> FindResult
    ensures { result ≡ find_numbers (on_lent find_answer front.now count name.now) }
{
    FindResult::from(queries::find_lent(front, count, name))
}

#[unsafe(no_mangle)]
pub extern "C" fn goofs_list_lent(
    front: &[u8],
    count: u64,
    index: u64,
    time: u64,
    out: &mut [u8],
    list: &mut [u8],
) -> ListResult
    ensures value { result ≡ list_numbers (on_lent list_answer front.now count index time (length out.old) (length list.old)) }
    ensures out_after { out.new ≡ on_lent list_output front.now count index time out.old (length list.old) }
    ensures list_after { list.new ≡ on_lent listing_list front.now count index time (length out.old) list.old }
{
    ListResult::from(queries::list_lent(front, count, index, time, out, list))
}

#[unsafe(no_mangle)]
pub extern "C" fn goofs_create_lent(
    front: &[u8],
    count: u64,
    name: &[u8],
    id: u64,
    mode: u32,
    time: u64,
    list: &mut [u8],
) -> ChangeResult
    ensures value { result ≡ change_numbers (on_lent create_answer front.now count name.now id mode time (length list.old)) }
    ensures list_after { list.new ≡ on_lent create_list front.now count name.now id mode time list.old }
{
    ChangeResult::from(changes::create_lent(front, count, name, id, mode, time, list))
}

#[unsafe(no_mangle)]
pub extern "C" fn goofs_delete_lent(
    front: &[u8],
    count: u64,
    name: &[u8],
    time: u64,
    list: &mut [u8],
) -> ChangeResult
    ensures value { result ≡ change_numbers (on_lent delete_answer front.now count name.now time (length list.old)) }
    ensures list_after { list.new ≡ on_lent delete_list front.now count name.now time list.old }
{
    ChangeResult::from(changes::delete_lent(front, count, name, time, list))
}

#[unsafe(no_mangle)]
pub extern "C" fn goofs_rename_lent(
    front: &[u8],
    count: u64,
    old: &[u8],
    new: &[u8],
    time: u64,
    list: &mut [u8],
) -> ChangeResult
    ensures value { result ≡ change_numbers (on_lent rename_answer front.now count old.now new.now time (length list.old)) }
    ensures list_after { list.new ≡ on_lent rename_list front.now count old.now new.now time list.old }
{
    ChangeResult::from(changes::rename_lent(front, count, old, new, time, list))
}

#[unsafe(no_mangle)]
pub extern "C" fn goofs_rename_set_lent(
    front: &[u8],
    count: u64,
    names: &[u8],
    lengths: &[u64],
    time: u64,
    list: &mut [u8],
) -> ChangeResult
    ensures value { result ≡ change_numbers (on_lent rename_set_answer front.now count names.now lengths.now time (length list.old)) }
    ensures list_after { list.new ≡ on_lent rename_set_list front.now count names.now lengths.now time list.old }
{
    ChangeResult::from(changes::rename_set_lent(front, count, names, lengths, time, list))
}

#[unsafe(no_mangle)]
pub extern "C" fn goofs_repair_lent(front: &[u8], count: u64, list: &mut [u8]) -> RepairResult
    ensures value { result ≡ repair_numbers (on_lent repair_answer front.now count (length list.old)) }
    ensures list_after { list.new ≡ on_lent repair_list front.now count list.old }
{
    RepairResult::from(repair::repair_lent(front, count, list))
}

// Read, write, a growing resize and recovery ask for data sectors: the state that comes back goes into the next step with the sector's bytes.
#[unsafe(no_mangle)]
pub extern "C" fn goofs_read_lent(
    front: &[u8],
    count: u64,
    name: &[u8],
    offset: u64,
    asked: u64,
    time: u64,
    room: u64,
    list: &mut [u8],
) -> Reading
    ensures value { result ≡ on_lent read_lent front.now count name.now offset asked time room (length list.old) }
    ensures list_after { list.new ≡ on_lent read_list front.now count name.now offset asked time room list.old }
{
    queries::read_lent(front, count, name, offset, asked, time, room, list)
}

#[unsafe(no_mangle)]
pub extern "C" fn goofs_read_step(r: Reading, bytes: &[u8], out: &mut [u8]) -> Reading
    ensures value { result ≡ read_step r (length bytes.now) (length out.old) }
    ensures out_after { out.new ≡ read_step_output r bytes.now out.old }
{
    reading::read_step(r, bytes, out)
}

#[unsafe(no_mangle)]
pub extern "C" fn goofs_resize_lent(
    front: &[u8],
    count: u64,
    name: &[u8],
    size: u64,
    time: u64,
    list: &mut [u8],
) -> Writing
    ensures value { result ≡ on_lent resize_lent front.now count name.now size time (length list.old) }
    ensures list_after { list.new ≡ on_lent resize_list front.now count name.now size time list.old }
{
    changes::resize_lent(front, count, name, size, time, list)
}

#[unsafe(no_mangle)]
pub extern "C" fn goofs_write_lent(
    front: &[u8],
    count: u64,
    name: &[u8],
    offset: u64,
    bytes: &[u8],
    time: u64,
    list: &mut [u8],
) -> Writing
    ensures value { result ≡ on_lent write_lent front.now count name.now offset bytes.now time (length list.old) }
    ensures list_after { list.new ≡ on_lent write_list front.now count name.now offset bytes.now time list.old }
{
    changes::write_lent(front, count, name, offset, bytes, time, list)
}

#[unsafe(no_mangle)]
pub extern "C" fn goofs_write_step(w: Writing, bytes: &[u8], list: &mut [u8]) -> Writing
    ensures value { result ≡ write_step w (length bytes.now) (length list.old) }
    ensures list_after { list.new ≡ write_step_list w bytes.now list.old }
{
    write::write_step(w, bytes, list)
}

#[unsafe(no_mangle)]
pub extern "C" fn goofs_recover_lent(front: &[u8], count: u64, list: &mut [u8]) -> Recovering
    ensures value { result ≡ on_lent recovery_lent front.now count (length list.old) }
    ensures list_after { list.new ≡ on_lent recovery_list front.now count list.old }
{
    recovery::recover_lent(front, count, list)
}

#[unsafe(no_mangle)]
pub extern "C" fn goofs_recover_step(
    v: Recovering,
    front: &[u8],
    bytes: &[u8],
    list: &mut [u8],
) -> Recovering
    ensures value { result ≡ recovery_step (view front.now) (length front.now) v (length bytes.now) (length list.old) }
    ensures list_after { list.new ≡ recovery_step_list (view front.now) (length front.now) v bytes.now list.old }
{
    recovery::recover_step(v, front, bytes, list)
}
