// The Fisher F-distribution: fisher_f.rs of rand_distr 0.6.0 over lent draws.
#![tactic(auto)]

ghost use Rattle.std.specs.Prelude.{◌≡◌};
ghost use Rattle.draws.specs.Promises.{lent_by};
ghost use Rattle.draws.specs.Search.{as_sample};
ghost use Rattle.fisher_f.specs.FisherF.{error_number, fisher_made, fisher_of};

use chi_squared::ChiSquared;
use draws::{Distribution, Draw, Drawn, Lent, Numbered, Positions};
use kernels::one_nan;

#[derive(Clone, Copy)]
pub struct FisherF {
    pub numer: ChiSquared,
    pub denom: ChiSquared,
    // denom_dof / numer_dof so that this can just be a straight multiplication, rather than a division.
    pub dof_ratio: f64,
}

// Refusals 6 and 7.
#[derive(Clone, Copy)]
pub enum Error {
    MTooSmall,
    NTooSmall,
}

impl Numbered for Error {
    ghost number = { error_number };

    fn number(self) -> usize {
        match self {
            Error::MTooSmall => 6,
            Error::NTooSmall => 7,
        }
    }
}

impl FisherF {
    pub fn new(m: f64, n: f64) -> Result<FisherF, Error>
        ensures { result ≡ fisher_made m n }
    {
        let numer = ChiSquared::new(m).map_err(|_| Error::MTooSmall)?;
        let denom = ChiSquared::new(n).map_err(|_| Error::NTooSmall)?;
        Ok(FisherF {
            numer,
            denom,
            dof_ratio: one_nan(n / m),
        })
    }

    // A sample whose NaN is as the machine made it: the numerator first, then the denominator.
    #[inline(always)]
    fn unmended(self, lent: Lent, at: Positions) -> Draw
        ensures { as_sample at result ≡ fisher_of self (lent_by lent) at }
    {
        let (n, p) = self.numer.sample(lent, at)?;
        let (d, q) = self.denom.sample(lent, p)?;
        Ok((n / d * self.dof_ratio, q))
    }
}

impl Distribution for FisherF {
    ghost drawn = { fisher_of };

    #[inline(always)]
    fn sample(self, lent: Lent, at: Positions) -> Drawn {
        draws::outputs::mended(self.unmended(lent, at), at)
    }
}
