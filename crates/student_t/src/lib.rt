// The Student t-distribution: student_t.rs of rand_distr 0.6.0 over lent draws.
#![tactic(auto)]

ghost use Rattle.std.specs.Prelude.{◌≡◌};
ghost use Rattle.draws.specs.Promises.{lent_by};
ghost use Rattle.draws.specs.Search.{as_sample};
ghost use Rattle.student_t.specs.StudentT.{student_made, student_of};

use chi_squared::{ChiSquared, Error};
use draws::{Distribution, Draw, Drawn, Kind, Lent, Positions, Refusal};
use kernels::{one_nan, sqrt};

#[derive(Clone, Copy)]
pub struct StudentT {
    pub chi: ChiSquared,
    pub dof: f64,
}

impl StudentT {
    // Its refusal is chi-squared's, 5.
    pub fn new(nu: f64) -> Result<StudentT, Error>
        ensures { result ≡ student_made nu }
    {
        let chi = ChiSquared::new(nu)?;
        Ok(StudentT {
            chi,
            dof: one_nan(nu),
        })
    }

    // A sample whose NaN is as the machine made it: a normal first, then chi.
    #[inline(always)]
    fn unmended(self, lent: Lent, at: Positions) -> Draw
        ensures { as_sample at result ≡ student_of self (lent_by lent) at }
    {
        if !lent.placed(at) {
            return Err(Refusal::Above);
        }
        let (norm, p) = lent.read(Kind::Normal, at)?;
        let (chi, q) = self.chi.sample(lent, p)?;
        Ok((norm * sqrt(self.dof / chi), q))
    }
}

impl Distribution for StudentT {
    ghost drawn = { student_of };

    #[inline(always)]
    fn sample(self, lent: Lent, at: Positions) -> Drawn {
        draws::outputs::mended(self.unmended(lent, at), at)
    }
}
