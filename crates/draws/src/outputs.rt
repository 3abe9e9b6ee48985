// What a call hands out, at its end: every NaN as the one NaN, an output that is refused by 18 or 19 as +0 throughout.
ghost use Rattle.std.specs.Prelude.{◌≡◌, length, replicate};
ghost use Rattle.kernels.specs.Numbers.{nought};
ghost use Rattle.draws.specs.Search.{as_sample};

use super::{Draw, Drawn, Positions};
use kernels::one_nan;

// What was drawn, with its value as the one NaN where it is one, and a refusal with the positions as lent: the last step of a public call.
pub fn mended(draw: Draw, at: Positions) -> Drawn
    ensures { result ≡ as_sample at draw }
{
    match draw {
        Ok((v, q)) => Ok((one_nan(v), q)),
        Err(r) => Err((r, at)),
    }
}

// Every NaN of a filled output as the one NaN.
pub fn mend(out: &mut [f64])
    ensures { out.new ≡ out.old }
{
    for i in 0..out.len() {
        out[i] = one_nan(out[i]);
    }
}

// Every element of a refused output as +0.
pub fn clear(out: &mut [f64])
    ensures { out.new ≡ replicate (length out.old) nought }
{
    out.fill(0.0);
}
