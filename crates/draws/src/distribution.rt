// What a sampler is, and an output filled by any: samples in order, one for each element.
ghost use Rattle.std.specs.Prelude.{◌≡◌};
ghost use Rattle.draws.specs.Draws.{Lent as Draws, Drawn as DrawnOf};
ghost use Rattle.draws.specs.Promises.{lent_by, FillsBy};
ghost use Rattle.draws.specs.declared.Positions.{Positions as At};

use super::{Drawn, Filled, Lent, Positions, Refusal, outputs};

pub trait Distribution: Copy {
    // What a sample is, by the draws and the positions.
    ghost drawn: { Self → Draws → At → DrawnOf };

    fn sample(self, lent: Lent, at: Positions) -> Drawn
        ensures { result ≡ drawn self (lent_by lent) at };
}

// A refused output is cleared, but where a position is above its slice: then it is left as it was lent.
#[inline(always)]
pub fn fill<D: Distribution>(sampler: D, lent: Lent, at: Positions, out: &mut [f64]) -> Filled
    ensures { FillsBy (D.drawn sampler) (lent_by lent) at out result }
{
    if !lent.placed(at) {
        return Err((Refusal::Above, at));
    }
    let mut p = at;
    for i in 0..out.len() {
        match sampler.sample(lent, p) {
            Ok((v, q)) => {
                out[i] = v;
                p = q;
            }
            Err((r, _)) => {
                outputs::clear(out);
                return Err((r, at));
            }
        }
    }
    Ok(p)
}
