// Answers many sheets: each in standard input ends with the byte %, which no right sheet has, and its answer is written as sheet_main would.
#![tactic(auto)]

ghost use Rattle.std.specs.Prelude.{ℕ, [], ◌∷◌, ◌++◌, ◌≡◌, length, take, IfOk, MatchOption};
ghost use Rattle.std.specs.Io.KnownBytes.{Consumes};
ghost use Rattle.io.specs.Counts.{IsPrefixLen};

use std::io;
use std::io::Read;

// The bytes up to the next %, and how many they are; the input's end, or a sheet that there is no room for, ends the run. An error is that of a read,
// and leaves what was stored by then.
fn next<R: Read>(from: &mut R, input: &mut [u8]) -> io::Result<Option<usize>>
    ensures kept { length input.new ≡ length input.old }
    ensures bytes { IfOk result (λ p. MatchOption p
        ((n : ℕ) × IsPrefixLen n input.new × Consumes (R.remaining from.old) (R.remaining from.new) (take n input.new))
        (λ n. IsPrefixLen n input.new × Consumes (R.remaining from.old) (R.remaining from.new) (take n input.new ++ 37 ∷ []))) }
{
    for count in 0..input.len() {
        let mut byte = [0u8; 1];
        if from.read(&mut byte)? == 0 {
            return Ok(None);
        }
        if byte[0] == b'%' {
            return Ok(Some(count));
        }
        input[count] = byte[0];
    }
    Ok(None)
}

// A proved loop has to end, and nothing says that the input does, so the turns are counted.
fn main(rt: HostRuntime) -> io::Result<()> {
    let mut stdin = rt.stdin();
    for _ in 0..0xffff_ffffu64 {
        let mut input = [0u8; 4098];
        let Some(n) = next(&mut stdin, &mut input)? else {
            return Ok(());
        };
        let mut out = [0u8; 144];
        let k = sheet_answer::answer(&input[..n], &mut out);
        rt.write_all(&out[..k])?;
    }
    Ok(())
}
