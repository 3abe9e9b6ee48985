// Answers the requests of standard input, a line each, in the words of compare/oracle's `ask`: the request, an arrow, and what the proved samplers
// answer. A line that is no request is unreadable.
#![tactic(auto)]

mod answer;
mod asked;
mod fields;
mod input;
mod made;
mod names;
mod raw;
mod requests;
mod rows;
mod samplers;

use input::{Line, Source};
use std::io;
use std::io::Read;

fn print_answer(rt: &impl Print, line: &[u8]) -> io::Result<()> {
    rows::text(rt, line)?;
    rows::text(rt, b" ->")?;
    answer::printed(rt, line)?;
    rows::text(rt, b"\n")
}

// As many turns as no input has lines: a proved loop has to end.
fn run<R: Read>(rt: &impl Print, source: &mut Source<R>, buffer: &mut [u8]) -> io::Result<()> {
    for _ in 0..u32::MAX {
        match source.next_line(buffer)? {
            Line::Read(line) => print_answer(rt, line)?,
            Line::TooLong => rows::text(rt, b"unreadable\n")?,
            Line::Ended => {
                return Ok(());
            }
        }
    }
    Ok(())
}

fn main(rt: HostRuntime) -> io::Result<()> {
    let mut source = Source::new(rt.stdin());
    let mut buffer = [0u8; 262144];
    run(&rt, &mut source, &mut buffer)
}
