// The listing program's decisions, a sector at a time: what a sector of the input makes it print, and which it reads next. It holds no
// other sector: the geometry and an index are all that it keeps.
#![tactic(auto)]

ghost use Rattle.std.specs.Prelude.{◌≡◌, ◌-◌, ◌<◌, ◌≤◌, length};
ghost use Rattle.model.specs.Bytes.{number_in};
ghost use Rattle.model.specs.Edition.{layout_of};
ghost use Rattle.model.specs.Entry.{entry_field};
ghost use Rattle.model.specs.Lines.{entry_line};
ghost use Rattle.model.specs.Opened.{Bounded};
ghost use Rattle.lines.specs.Steps.{step, step_on, entry_from, Kept, left, NameInSector};

use model::{FileIndex, Geometry, Line};

// The sector that the program reads: the superblock, the root or an entry.
#[derive(Clone, Copy)]
pub enum Awaited {
    Superblock,
    Root(Geometry),
    Entry(Geometry, FileIndex),
}

// What a sector makes the program print, and which sector it reads next, if one is left.
#[derive(Clone, Copy)]
pub struct Step {
    pub line: Line,
    pub next: Option<Awaited>,
}

// An occupied entry without fault 22.
fn file_line(g: Geometry, i: FileIndex, s: &[u8]) -> Line
    requires { length s.now ≡ 512 }
    ensures { result ≡ Line.File i.0 (number_in s.now entry_field.size) (layout_of g.edition).name (number_in s.now (layout_of g.edition).name_length) }
{
    let size = layout::entry::size(s);
    let at = layout::edition::name_start(g.edition);
    let n = layout::entry::name_length(s, g.edition);
    Line::File(i.0, size, at, n)
}

fn entry_line(g: Geometry, i: FileIndex, s: &[u8]) -> Line
    requires bounded { Bounded g }
    requires s_len { length s.now ≡ 512 }
    ensures { result ≡ entry_line g i.0 s.now }
{
    if directory::bad_mark_in(s) {
        return Line::Fault(21, i.0);
    }
    if layout::entry::is_occupied(s) {
        if directory::bad_entry_in(s, g.edition, directory::most_bytes(g)) {
            return Line::Fault(22, i.0);
        }
        return file_line(g, i, s);
    }
    Line::Nothing
}

fn entry_from(g: Geometry, i: FileIndex) -> Option<Awaited>
    ensures { result ≡ entry_from g i.0 }
{
    if i.0 < g.files {
        return Some(Awaited::Entry(g, i));
    }
    None
}

fn ended() -> Step
    ensures { result ≡ step (Line.Refused 1) None }
{
    Step {
        line: Line::Refused(1),
        next: None,
    }
}

fn superblock_step(s: &[u8]) -> Step
    ensures value { result ≡ step_on s.now (Some Awaited.Superblock) }
    ensures kept { Kept result.next }
{
    match volume::listing_verdict(s) {
        Ok(()) => Step {
            line: Line::Nothing,
            next: Some(Awaited::Root(volume::geometry_in(s))),
        },
        Err(refusal) => Step {
            line: Line::Refused(refusal.number()),
            next: None,
        },
    }
}

fn root_step(g: Geometry, s: &[u8]) -> Step
    ensures { result ≡ step_on s.now (Some (Awaited.Root g)) }
{
    if s.len() < 512 {
        return ended();
    }
    let next = entry_from(g, FileIndex(0));
    Step {
        line: Line::Nothing,
        next,
    }
}

fn entry_step(g: Geometry, i: FileIndex, s: &[u8]) -> Step
    requires bounded { Bounded g }
    requires i_lt_files { i.0 < g.files }
    requires s_len_bound { length s.now ≤ 512 }
    ensures { result ≡ step_on s.now (Some (Awaited.Entry g i)) }
{
    if s.len() < 512 {
        return ended();
    }
    let line = entry_line(g, i, s);
    let after = i.0 + 1;
    let next = entry_from(g, FileIndex(after));
    Step { line, next }
}

// The bytes `s` were read where the sector awaited should stand; fewer than 512 are the input's end.
fn step_at(awaited: Awaited, s: &[u8]) -> Step
    requires kept { Kept (Some awaited) }
    requires s_len_bound { length s.now ≤ 512 }
    ensures value { result ≡ step_on s.now (Some awaited) }
    ensures kept_2 { Kept result.next }
{
    match awaited {
        Awaited::Superblock => superblock_step(s),
        Awaited::Root(g) => root_step(g, s),
        Awaited::Entry(g, i) => entry_step(g, i, s),
    }
}

// The same where a sector is awaited; where none is, nothing is printed.
pub fn step_on(next: Option<Awaited>, s: &[u8]) -> Step
    requires kept { Kept next }
    requires s_len_bound { length s.now ≤ 512 }
    ensures value { result ≡ step_on s.now next }
    ensures name_in_sector { NameInSector result.line }
    ensures kept_2 { Kept result.next }
    ensures next_bound { left result.next ≤ left next - 1 }
{
    match next {
        Some(awaited) => step_at(awaited, s),
        None => Step {
            line: Line::Nothing,
            next: None,
        },
    }
}
