// The calls that give what a volume holds, on any bytes and any arguments: check, with lent scratch too, and find, which only read; list and read,
// which also give the write list of an access time. Each has a form on lent sectors and the volume's sector count (T-11). (The summary stands in `volume`.)
#![tactic(auto)]

ghost use Rattle.std.specs.Prelude.{◌≡◌, length};
ghost use Rattle.model.specs.Disk.{on_image};
ghost use Rattle.model.specs.Summary.{check_answer};
ghost use Rattle.model.specs.Scratch.{check_with_answer, ScratchAfter};
ghost use Rattle.model.specs.Find.{find_answer};
ghost use Rattle.model.specs.Listing.{list_answer, list_output, listing_list};
ghost use Rattle.model.specs.Read.{read_answer, read_output, read_list};
ghost use Rattle.model.specs.Results.{verdict_in, checked_in, found_in, listed_in, read_in};
ghost use Rattle.model.specs.Lent.{on_lent, read_lent};

use model::{FoundFile, ListedFile, ReadBytes, Reading, Refusal};

pub fn check(img: &[u8]) -> Result<(), Refusal>
    ensures { checked_in result ≡ on_image check_answer img.now }
{
    soundness::judge(img)
}

// Check by way of lent scratch (T-10). What scratch holds after 0 or 7 is the program's choice.
pub fn check_with(img: &[u8], scratch: &mut [u32]) -> Result<(), Refusal>
    ensures value { checked_in result ≡ on_image check_with_answer img.now (length scratch.old) }
    ensures scratch_after { ScratchAfter (verdict_in result) scratch.old scratch.new }
{
    soundness::judge_with(img, scratch)
}

pub fn find(img: &[u8], name: &[u8]) -> Result<FoundFile, Refusal>
    ensures { found_in result ≡ on_image find_answer img.now name.now }
{
    soundness::judge(img)?;
    reading::find_in(img, name)
}

pub fn list(
    img: &[u8],
    index: u64,
    time: u64,
    out: &mut [u8],
    list: &mut [u8],
) -> Result<ListedFile, Refusal>
    ensures value { listed_in result ≡ on_image list_answer img.now index time (length out.old) (length list.old) }
    ensures out_after { out.new ≡ on_image list_output img.now index time out.old (length list.old) }
    ensures list_after { list.new ≡ on_image listing_list img.now index time (length out.old) list.old }
{
    soundness::judge(img)?;
    reading::list_in(img, index, time, out, list)
}

pub fn read(
    img: &[u8],
    name: &[u8],
    offset: u64,
    count: u64,
    time: u64,
    out: &mut [u8],
    list: &mut [u8],
) -> Result<ReadBytes, Refusal>
    ensures value { read_in result ≡ on_image read_answer img.now name.now offset count time (length out.old) (length list.old) }
    ensures out_after { out.new ≡ on_image read_output img.now name.now offset count time out.old (length list.old) }
    ensures list_after { list.new ≡ on_image read_list img.now name.now offset count time (length out.old) list.old }
{
    soundness::judge(img)?;
    reading::read_in(img, name, offset, count, time, out, list)
}

// ---- on the sectors before the data area alone, of a volume of `count` sectors

pub fn check_lent(front: &[u8], count: u64) -> Result<(), Refusal>
    ensures { checked_in result ≡ on_lent check_answer front.now count }
{
    soundness::judge_lent(front, count)
}

pub fn check_with_lent(front: &[u8], count: u64, scratch: &mut [u32]) -> Result<(), Refusal>
    ensures value { checked_in result ≡ on_lent check_with_answer front.now count (length scratch.old) }
    ensures scratch_after { ScratchAfter (verdict_in result) scratch.old scratch.new }
{
    soundness::judge_with_lent(front, count, scratch)
}

pub fn find_lent(front: &[u8], count: u64, name: &[u8]) -> Result<FoundFile, Refusal>
    ensures { found_in result ≡ on_lent find_answer front.now count name.now }
{
    soundness::judge_lent(front, count)?;
    reading::find_in(front, name)
}

pub fn list_lent(
    front: &[u8],
    count: u64,
    index: u64,
    time: u64,
    out: &mut [u8],
    list: &mut [u8],
) -> Result<ListedFile, Refusal>
    ensures value { listed_in result ≡ on_lent list_answer front.now count index time (length out.old) (length list.old) }
    ensures out_after { out.new ≡ on_lent list_output front.now count index time out.old (length list.old) }
    ensures list_after { list.new ≡ on_lent listing_list front.now count index time (length out.old) list.old }
{
    soundness::judge_lent(front, count)?;
    reading::list_in(front, index, time, out, list)
}

// The bytes follow by `reading::read_step`, sector by sector; `room` is the length of the output that they are for.
pub fn read_lent(
    front: &[u8],
    count: u64,
    name: &[u8],
    offset: u64,
    asked: u64,
    time: u64,
    room: u64,
    list: &mut [u8],
) -> Reading
    ensures value { result ≡ on_lent read_lent front.now count name.now offset asked time room (length list.old) }
    ensures list_after { list.new ≡ on_lent read_list front.now count name.now offset asked time room list.old }
{
    match soundness::judge_lent(front, count) {
        Ok(()) => reading::read_lent_in(front, name, offset, asked, time, room, list),
        Err(refusal) => reading::idle(Err(refusal)),
    }
}
