// The small program: reads one sector from standard input and prints the geometry, the areas and the state that its superblock
// gives, a line each; or one line, "refused " and the number. What follows the first sector is ignored.
//
// A read that fails ends the input, and a write that fails is passed over.
#![tactic(auto)]

ghost use Rattle.std.specs.Prelude.{◌≤◌, length};

use model::{Geometry, Refusal, Sector, State, Summary};
use std::io::Read;

// A refused area has no line: the program prints areas only of a geometry in bounds.
fn print_area(rt: &impl Print, label: &str, area: Result<Sector, Refusal>) {
    if let Ok(start) = area {
        let _ = println!(rt; "{label} {}", start.0);
    }
}

fn print_state(rt: &impl Print, state: State) {
    let _ = match state {
        State::Clean => println!(rt; "state clean"),
        State::Waiting(n) => println!(rt; "state waiting {n}"),
        State::Damaged => println!(rt; "state damaged"),
        State::Unfinished => println!(rt; "state unfinished"),
    };
}

fn print_geometry(rt: &impl Print, g: Geometry) {
    let _ = println!(rt; "files {}", g.files);
    let _ = println!(rt; "extents {}", g.extents);
    let _ = println!(rt; "extent-sectors {}", g.extent_sectors);
    if g.in_bounds() {
        let _ = println!(rt; "table-sectors {}", g.table_sectors());
    }
}

fn print_areas(rt: &impl Print, s: Summary) {
    print_area(rt, "journal-at", s.journal_at());
    print_area(rt, "table-at", s.table_at());
    print_area(rt, "data-at", s.data_at());
    let g = s.geometry;
    if g.in_bounds() {
        let _ = println!(rt; "reserve-extents {}", g.reserve_extents());
    }
}

fn main(rt: HostRuntime) {
    let mut input = [0u8; 512];
    let n = input::read_full(&mut rt.stdin(), &mut input);
    match volume::superblock_summary(&input[..n]) {
        Ok(s) => {
            print_geometry(&rt, s.geometry);
            print_areas(&rt, s);
            print_state(&rt, s.state);
        }
        Err(refusal) => {
            let _ = println!(&rt; "refused {}", refusal.number());
        }
    }
}
