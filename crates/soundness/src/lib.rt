// Judging a volume: the first fault, and the refusals 1 to 7 that all calls but format, summary, recovery and carrying out share.
// The judging needs no heap; it has arrays of its own, or is lent scratch (T-10). bench/README.md has its stack.
#![tactic(auto)]

ghost use Rattle.std.specs.Prelude.{◌≡◌, ◌≤◌, length};
ghost use Rattle.model.specs.Disk.{view, on_image};
ghost use Rattle.model.specs.Faults.{first_fault};
ghost use Rattle.model.specs.Superblock.{state_on};
ghost use Rattle.model.specs.Refusals.{and_then, refusal, image_verdict, state_number, sound_verdict, judged};
ghost use Rattle.model.specs.Answers.{Sound};
ghost use Rattle.model.specs.Results.{verdict_in, soundness_in};
ghost use Rattle.model.specs.Scratch.{scratch_numbers, sound_verdict_with, judged_with, ScratchAfter};
ghost use Rattle.model.specs.Lent.{on_lent};
ghost use Rattle.model.specs.Opened.{Opened, Readable};
ghost use Rattle.soundness.specs.Directory.{directory_fault};

use model::{Fault, FileIndex, Geometry, Refusal};

// The first of the faults 21 to 24. Each test may rest on the earlier faults' not being there.
pub fn directory_fault(img: &[u8], g: Geometry) -> Result<(), Fault>
    requires { Opened img.now g }
    ensures { soundness_in result ≡ directory_fault g (view img.now) Sound }
{
    if let Some(i) = directory::fault21(img, g) {
        return Err(Fault::BadMark(FileIndex(i as u64)));
    }
    if let Some(i) = directory::fault22(img, g) {
        return Err(Fault::BadEntry(FileIndex(i as u64)));
    }
    if let Some(i) = duplicates::fault23(img, g) {
        return Err(Fault::RepeatedName(FileIndex(i as u64)));
    }
    if let Some(i) = duplicates::fault24(img, g) {
        return Err(Fault::BadId(FileIndex(i as u64)));
    }
    Ok(())
}

// Lowest number first, then lowest place.
fn first_fault(img: &[u8], g: Geometry) -> Result<(), Fault>
    requires { Opened img.now g }
    ensures { soundness_in result ≡ first_fault (view img.now) }
{
    directory_fault(img, g)?;
    allocation::faults(img, g)
}

// The refusals 1 to 6.
pub fn clean_verdict(img: &[u8]) -> Result<(), Refusal>
    ensures { verdict_in result ≡ and_then (on_image image_verdict img.now) (refusal (state_number (state_on (view img.now)))) }
{
    volume::image_verdict(img)?;
    volume::state_verdict(volume::state_on(img))
}

pub fn clean_verdict_lent(front: &[u8], count: u64) -> Result<(), Refusal>
    ensures { verdict_in result ≡ and_then (on_lent image_verdict front.now count) (refusal (state_number (state_on (view front.now)))) }
{
    volume::front_verdict(front, count)?;
    volume::state_verdict(volume::state_on(front))
}

// The refusals 4 to 7.
fn sound_verdict(img: &[u8]) -> Result<(), Refusal>
    requires { Readable img.now }
    ensures { verdict_in result ≡ sound_verdict (view img.now) }
{
    volume::state_verdict(volume::state_on(img))?;
    let g = volume::geometry_in(img);
    first_fault(img, g)?;
    Ok(())
}

// The refusals 1 to 7.
pub fn judge(img: &[u8]) -> Result<(), Refusal>
    ensures { verdict_in result ≡ on_image judged img.now }
{
    volume::image_verdict(img)?;
    sound_verdict(img)
}

// Of lent sectors (T-11).
pub fn judge_lent(front: &[u8], count: u64) -> Result<(), Refusal>
    ensures { verdict_in result ≡ on_lent judged front.now count }
{
    volume::front_verdict(front, count)?;
    sound_verdict(front)
}

// ---- the same by way of lent scratch

// How many numbers the scratch must have.
fn scratch_numbers(g: Geometry) -> u64
    requires { (g.files ≤ 65535) × (g.extents ≤ 65535) }
    ensures { result ≡ scratch_numbers g }
{
    4 * g.files + g.extents
}

fn first_fault_with(img: &[u8], g: Geometry, scratch: &mut [u32]) -> Result<(), Fault>
    requires opened { Opened img.now g }
    requires g_in_bounds { scratch_numbers g ≤ length scratch.old }
    ensures { soundness_in result ≡ first_fault (view img.now) }
{
    if let Some(i) = directory::fault21(img, g) {
        return Err(Fault::BadMark(FileIndex(i as u64)));
    }
    if let Some(i) = directory::fault22(img, g) {
        return Err(Fault::BadEntry(FileIndex(i as u64)));
    }
    if let Some(i) = duplicates::fault23_with(img, g, scratch) {
        return Err(Fault::RepeatedName(FileIndex(i as u64)));
    }
    if let Some(file) = duplicates::fault24_with(img, g, scratch) {
        return Err(Fault::BadId(FileIndex(file as u64)));
    }
    allocation::faults_by(img, g, scratch)
}

// The refusals 4 to 6, 14 and 7.
fn sound_verdict_with(img: &[u8], scratch: &mut [u32]) -> Result<(), Refusal>
    requires { Readable img.now }
    ensures value { verdict_in result ≡ sound_verdict_with (view img.now) (length scratch.old) }
    ensures scratch_after { ScratchAfter (verdict_in result) scratch.old scratch.new }
{
    volume::state_verdict(volume::state_on(img))?;
    let g = volume::geometry_in(img);
    if (scratch.len() as u64) < scratch_numbers(g) {
        return Err(Refusal::TooShort);
    }
    first_fault_with(img, g, scratch)?;
    Ok(())
}

// The refusals 1 to 6, 14 and 7.
pub fn judge_with(img: &[u8], scratch: &mut [u32]) -> Result<(), Refusal>
    ensures value { verdict_in result ≡ on_image judged_with img.now (length scratch.old) }
    ensures scratch_after { ScratchAfter (verdict_in result) scratch.old scratch.new }
{
    volume::image_verdict(img)?;
    sound_verdict_with(img, scratch)
}

pub fn judge_with_lent(front: &[u8], count: u64, scratch: &mut [u32]) -> Result<(), Refusal>
    ensures value { verdict_in result ≡ on_lent judged_with front.now count (length scratch.old) }
    ensures scratch_after { ScratchAfter (verdict_in result) scratch.old scratch.new }
{
    volume::front_verdict(front, count)?;
    sound_verdict_with(front, scratch)
}
