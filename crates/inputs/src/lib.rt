// What comes in: as much of an input as a lent buffer has room for.
#![tactic(auto)]

ghost use Rattle.std.specs.Prelude.{◌≡◌, ℕ, ◌<◌, length, take, IfOk, IfErr};
ghost use Rattle.std.specs.Io.KnownBytes.{Consumes, IsAtEnd};
ghost use Rattle.io.specs.Counts.{IsPrefixLen};

use std::io;
use std::io::Read;

// Reads until the input ends or the buffer is full, and answers how many bytes were stored. An error is that of a read, and leaves what was stored by
// then, which is not the input. A read that a signal interrupts has failed: no program here handles a signal.
pub fn read<R: Read>(from: &mut R, into: &mut [u8]) -> io::Result<usize>
    ensures in_bounds { IfOk result (λ n. IsPrefixLen n into.new) }
    ensures kept { length into.new ≡ length into.old }
    ensures bytes { IfOk result (λ n. Consumes (R.remaining from.old) (R.remaining from.new) (take n into.new)) }
    ensures err { IfErr result (λ _. (n : ℕ) × IsPrefixLen n into.new × Consumes (R.remaining from.old) (R.remaining from.new) (take n into.new)) }
    ensures ended { IfOk result (λ n. n < length into.new → IsAtEnd (R.remaining from.new)) }
{
    let mut count = 0;
    while count < into.len() {
        let more = from.read(&mut into[count..])?;
        if more == 0 {
            break;
        }
        count += more;
    }
    Ok(count)
}
