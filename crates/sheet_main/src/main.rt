// Reads a sheet from standard input and writes its whole answer and nothing else; where a read fails, nothing at all.
#![tactic(auto)]

use std::io;

// One byte more than a sheet may have settles the answer: what follows it is left unread. Where a read fails, the program ends well and has written
// nothing, by which `./sheet` tells it from one that has failed.
fn main(rt: HostRuntime) -> io::Result<()> {
    let mut input = [0u8; 4097];
    let Ok(n) = inputs::read(&mut rt.stdin(), &mut input) else {
        return Ok(());
    };
    let mut out = [0u8; 144];
    let k = sheet_answer::answer(&input[..n], &mut out);
    rt.write_all(&out[..k])
}
