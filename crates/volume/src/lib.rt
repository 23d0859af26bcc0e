// The superblock, the summary, and the refusals 1 to 3 of an image.
#![tactic(auto)]

ghost use Rattle.std.specs.Prelude.{◌≡◌, ◌*◌, ◌≤◌, ◌<◌, length, Ok};
ghost use Rattle.model.specs.Disk.{view, on_image};
ghost use Rattle.model.specs.Superblock.{is_volume, geometry_in, state_of, state_on};
ghost use Rattle.model.specs.Refusals.{is_whole, fits_image, refusal, image_verdict, state_number};
ghost use Rattle.model.specs.Summary.{state_entries, no_summary, summary_on, summary_answer, superblock_verdict, superblock_answer};
ghost use Rattle.model.specs.Lines.{listing_verdict};
ghost use Rattle.model.specs.Results.{verdict_in, summarized_in};
ghost use Rattle.model.specs.Lent.{is_front, on_lent, is_asked};

use model::{Geometry, Refusal, Sector, State, Summary};

// Not empty, and whole sectors.
pub fn is_whole(len: usize) -> bool
    ensures { result ≡ is_whole len }
{
    0 < len && len % 512 == 0
}

// The superblock has the magic, and its version is an edition.
pub fn is_volume(img: &[u8]) -> bool
    requires { 512 ≤ length img.now }
    ensures { result ≡ is_volume (view img.now 0) }
{
    layout::superblock::is_volume(fields::sector_part(img, Sector::SUPERBLOCK))
}

pub fn geometry_in(img: &[u8]) -> Geometry
    requires { 512 ≤ length img.now }
    ensures { result ≡ geometry_in (view img.now 0) }
{
    layout::superblock::geometry(fields::sector_part(img, Sector::SUPERBLOCK))
}

// The geometry is in bounds, and the volume has no more sectors than these.
fn fits_in(img: &[u8], sectors: u64) -> bool
    requires { 512 ≤ length img.now }
    ensures { result ≡ fits_image (512 * sectors) (view img.now 0) }
{
    let g = geometry_in(img);
    g.in_bounds() && g.volume_sectors() <= sectors
}

fn state_of(length: u64) -> State
    ensures { result ≡ state_of length }
{
    if length == 0 {
        return State::Clean;
    }
    if length <= 1024 {
        return State::Waiting(length);
    }
    if length <= 65534 {
        return State::Damaged;
    }
    State::Unfinished
}

// How many entries wait.
pub fn state_entries(s: State) -> u64
    ensures { result ≡ state_entries s }
{
    match s {
        State::Clean => 0,
        State::Waiting(n) => n,
        State::Damaged => 0,
        State::Unfinished => 0,
    }
}

pub fn state_on(img: &[u8]) -> State
    requires { 512 ≤ length img.now }
    ensures { result ≡ state_on (view img.now) }
{
    let s = fields::sector_part(img, Sector::SUPERBLOCK);
    state_of(layout::superblock::journal_length(s))
}

// A state that isn't clean is refused.
pub fn state_verdict(state: State) -> Result<(), Refusal>
    ensures { verdict_in result ≡ refusal (state_number state) }
{
    match state {
        State::Clean => Ok(()),
        State::Waiting(_) => Err(Refusal::Waiting),
        State::Damaged => Err(Refusal::Damaged),
        State::Unfinished => Err(Refusal::Unfinished),
    }
}

// The refusals 2 and 3, of a volume of so many sectors.
fn sectors_verdict(img: &[u8], sectors: u64) -> Result<(), Refusal>
    requires { (512 ≤ length img.now) × (0 < sectors) }
    ensures { verdict_in result ≡ image_verdict (512 * sectors) (view img.now) }
{
    if !is_volume(img) {
        return Err(Refusal::NotVolume);
    }
    if !fits_in(img, sectors) {
        return Err(Refusal::OutOfBounds);
    }
    Ok(())
}

// The refusals 1 to 3.
pub fn image_verdict(img: &[u8]) -> Result<(), Refusal>
    ensures { verdict_in result ≡ on_image image_verdict img.now }
{
    if !is_whole(img.len()) {
        return Err(Refusal::NotWhole);
    }
    sectors_verdict(img, (img.len() / 512) as u64)
}

// ---- lent sectors (T-11)

// The sectors before the data area are lent.
pub fn is_front(front: &[u8]) -> bool
    ensures { result ≡ on_image is_front front.now }
{
    if !is_whole(front.len()) {
        return false;
    }
    let g = geometry_in(front);
    if !g.in_bounds() {
        return false;
    }
    let data = g.data_at();
    data.0 <= (front.len() / 512) as u64
}

// The refusals 1 to 3 of lent sectors, by the volume's sector count.
pub fn front_verdict(front: &[u8], count: u64) -> Result<(), Refusal>
    ensures { verdict_in result ≡ on_lent image_verdict front.now count }
{
    if is_front(front) {
        return sectors_verdict(front, count.max(1));
    }
    image_verdict(front)
}

// A data sector is asked for, and n bytes are a sector.
pub fn is_asked(wanted: u64, n: usize) -> bool
    ensures { result ≡ is_asked wanted n }
{
    0 < wanted && wanted < 18446744073709551615 && n == 512
}

// ---- the summary

// Geometry and state, where nothing refuses.
fn summary_on(img: &[u8]) -> Summary
    requires { 512 ≤ length img.now }
    ensures { summarized_in (Ok result) ≡ summary_on (view img.now) }
{
    let geometry = geometry_in(img);
    let state = state_on(img);
    Summary { geometry, state }
}

pub fn summary(img: &[u8]) -> Result<Summary, Refusal>
    ensures { summarized_in result ≡ on_image summary_answer img.now }
{
    image_verdict(img)?;
    Ok(summary_on(img))
}

pub fn summary_lent(front: &[u8], count: u64) -> Result<Summary, Refusal>
    ensures { summarized_in result ≡ on_lent summary_answer front.now count }
{
    front_verdict(front, count)?;
    Ok(summary_on(front))
}

// The small program's refusals: the input is one sector, whose volume's length isn't tested.
fn superblock_verdict(s: &[u8]) -> Result<(), Refusal>
    ensures { verdict_in result ≡ superblock_verdict (length s.now) (view s.now) }
{
    if s.len() < 512 {
        return Err(Refusal::NotWhole);
    }
    if !is_volume(s) {
        return Err(Refusal::NotVolume);
    }
    let g = geometry_in(s);
    if !g.in_bounds() {
        return Err(Refusal::OutOfBounds);
    }
    Ok(())
}

// The listing program's: also the state is refused that isn't clean.
pub fn listing_verdict(s: &[u8]) -> Result<(), Refusal>
    ensures { verdict_in result ≡ listing_verdict (length s.now) (view s.now) }
{
    superblock_verdict(s)?;
    state_verdict(state_on(s))
}

pub fn superblock_summary(s: &[u8]) -> Result<Summary, Refusal>
    ensures { summarized_in result ≡ superblock_answer (length s.now) (view s.now) }
{
    superblock_verdict(s)?;
    Ok(summary_on(s))
}
