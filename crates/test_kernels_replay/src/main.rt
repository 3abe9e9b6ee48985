// Replays a recorded list of kernel calls from standard input, a line at a time, and says how many of its lines agree.
#![tactic(auto)]

mod line;

ghost use Rattle.std.specs.Prelude.{◌≡◌, ◌<◌, ◌≤◌};
ghost use Rattle.test_kernels_replay.specs.Tallies.{counted_of};

use std::io;
use std::io::Read;

// first is the number, from 1, of the first line that does not agree.
#[derive(Clone, Copy)]
struct Tally {
    read: u64,
    agree: u64,
    first: Option<u64>,
}

// One line more.
#[tactic(auto, unfolding(crate::specs::Tallies::counted_of))]
fn counted(t: Tally, agrees: bool) -> Tally
    requires { (t.agree ≤ t.read) × (t.read < 0xffff_ffff) }
    ensures { result ≡ counted_of t agrees }
{
    let read = t.read + 1;
    if agrees {
        Tally {
            read,
            agree: t.agree + 1,
            ..t
        }
    } else {
        Tally {
            read,
            first: t.first.or(Some(read)),
            ..t
        }
    }
}

// A piece shorter than a line is the end of a list that breaks off, and does not agree. A proved loop has to end, and nothing
// says that the input does, so the turns are counted: more than a list has lines.
fn replay(from: &mut impl Read) -> io::Result<Tally> {
    let mut t = Tally {
        read: 0,
        agree: 0,
        first: None,
    };
    for _ in 0..0xffff_fffeu64 {
        let mut line = [0u8; 53];
        let n = inputs::read(from, &mut line)?;
        if n == 0 {
            break;
        }
        t = counted(t, n == 53 && line::agrees(&line));
    }
    Ok(t)
}

fn report(rt: &impl Print, t: Tally) -> io::Result<()> {
    print!(rt; "calls {} agree {}", t.read, t.agree)?;
    if let Some(line) = t.first {
        print!(rt; " first difference at line {line}")?;
    }
    println!(rt)
}

fn main(rt: HostRuntime) -> io::Result<()> {
    let t = replay(&mut rt.stdin())?;
    report(&rt, t)
}
