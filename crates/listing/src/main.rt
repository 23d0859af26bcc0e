// The listing program: reads a volume from standard input one sector at a time, and prints a line for each occupied entry: index, size,
// name. The crate `lines` decides what a sector comes to; here it is read, and its line printed.
//
// A read that fails ends the input, and a write that fails is passed over.
#![tactic(auto)]

ghost use Rattle.std.specs.Prelude.{◌≡◌, ◌-◌, ◌≤◌, length};
ghost use Rattle.lines.specs.Steps.{Kept, left, NameInSector};

use lines::Awaited;
use model::Line;
use std::io::Read;

// The name's bytes are printed as they are: nothing says that they are text.
fn print_file(rt: &impl Print, index: u64, size: u64, name: &[u8]) {
    let _ = print!(rt; "{index} {size} ");
    let _ = rt.write_all(name);
    let _ = println!(rt;);
}

// `s` is the sector that the line was made of.
fn print_line(rt: &impl Print, line: Line, s: &[u8])
    requires name_in_sector { NameInSector line }
    requires s_len { length s.now ≡ 512 }
{
    match line {
        Line::Nothing => {}
        Line::Refused(n) => {
            let _ = println!(rt; "refused {n}");
        }
        Line::Fault(n, i) => {
            let _ = println!(rt; "fault {n} at {i}");
        }
        Line::File(i, size, at, n) => print_file(rt, i, size, &s[at..at + n]),
    }
}

// Reads the sector awaited and prints its line. No earlier sector is kept.
fn turn(rt: &impl Print, input: &mut impl Read, next: Option<Awaited>) -> Option<Awaited>
    requires { Kept next }
    ensures kept { Kept result }
    ensures result_bound { left result ≤ left next - 1 }
{
    let mut s = [0u8; 512];
    let n = input::read_full(input, &mut s);
    let r = lines::step_on(next, &s[..n]);
    print_line(rt, r.line, &s);
    r.next
}

fn main(rt: HostRuntime) {
    let mut input = rt.stdin();
    let mut next = Some(Awaited::Superblock);
    // Kept as a `while`: it goes from sector to sector as the steps say, and counts nothing.
    while next.is_some() {
        next = turn(&rt, &mut input, next);
    }
}
