// The chi-squared distribution: chi_squared.rs of rand_distr 0.6.0 over lent draws.
#![tactic(auto)]

ghost use Rattle.std.specs.Prelude.{◌≡◌};
ghost use Rattle.draws.specs.Promises.{lent_by};
ghost use Rattle.draws.specs.Search.{as_sample};
ghost use Rattle.chi_squared.specs.ChiSquared.{error_number, chi_made, chi_of};

use draws::{Distribution, Draw, Drawn, Kind, Lent, Numbered, Positions, Refusal};
use gamma::Gamma;

// The Rust's ChiSquaredRepr: at k = 1 the square of a normal.
#[derive(Clone, Copy)]
pub enum ChiSquared {
    DoFExactlyOne,
    DoFAnythingElse(Gamma),
}

// Refusal 5.
#[derive(Clone, Copy)]
pub enum Error {
    DoFTooSmall,
}

impl Numbered for Error {
    ghost number = { error_number };

    fn number(self) -> usize {
        match self {
            Error::DoFTooSmall => 5,
        }
    }
}

impl ChiSquared {
    // Gamma::new can't refuse here: 0.5 * k and 2 are above 0.
    pub fn new(k: f64) -> Result<ChiSquared, Error>
        ensures { result ≡ chi_made k }
    {
        if k == 1.0 {
            return Ok(ChiSquared::DoFExactlyOne);
        }
        if !(0.5 * k > 0.0) {
            return Err(Error::DoFTooSmall);
        }
        Ok(ChiSquared::DoFAnythingElse(Gamma::new(0.5 * k, 2.0).unwrap()))
    }

    // A sample whose NaN is as the machine made it: sample mends it.
    #[inline(always)]
    fn unmended(self, lent: Lent, at: Positions) -> Draw
        ensures { as_sample at result ≡ chi_of self (lent_by lent) at }
    {
        match self {
            ChiSquared::DoFExactlyOne => {
                // k == 1 => N(0,1)^2
                if !lent.placed(at) {
                    return Err(Refusal::Above);
                }
                let (norm, q) = lent.read(Kind::Normal, at)?;
                Ok((norm * norm, q))
            }
            ChiSquared::DoFAnythingElse(g) => Ok(g.sample(lent, at)?),
        }
    }
}

impl Distribution for ChiSquared {
    ghost drawn = { chi_of };

    #[inline(always)]
    fn sample(self, lent: Lent, at: Positions) -> Drawn {
        draws::outputs::mended(self.unmended(lent, at), at)
    }
}
