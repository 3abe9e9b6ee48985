// The Gamma distribution: gamma.rs of rand_distr 0.6.0 over lent draws, its names and its order of operations.
#![tactic(auto)]

mod large;
mod small;

ghost use Rattle.std.specs.Prelude.{◌≡◌};
ghost use Rattle.draws.specs.Promises.{lent_by};
ghost use Rattle.draws.specs.Search.{as_sample};
ghost use Rattle.gamma.specs.Gamma.{error_number, gamma_made, gamma_of};

use draws::{Distribution, Draw, Drawn, Lent, Numbered, Positions, Refusal};
use kernels::one_nan;
pub use large::GammaLargeShape;
pub use small::GammaSmallShape;

// The Rust's GammaRepr. One keeps what `Exp` keeps, the inverse of its rate.
#[derive(Clone, Copy)]
pub enum Gamma {
    Large(GammaLargeShape),
    One(f64),
    Small(GammaSmallShape),
}

// Refusals 1 and 2.
#[derive(Clone, Copy)]
pub enum Error {
    ShapeTooSmall,
    ScaleTooSmall,
}

impl Numbered for Error {
    ghost number = { error_number };

    fn number(self) -> usize {
        match self {
            Error::ShapeTooSmall => 1,
            Error::ScaleTooSmall => 2,
        }
    }
}

impl Gamma {
    pub fn new(shape: f64, scale: f64) -> Result<Gamma, Error>
        ensures { result ≡ gamma_made shape scale }
    {
        if !(shape > 0.0) {
            return Err(Error::ShapeTooSmall);
        }
        if !(scale > 0.0) {
            return Err(Error::ScaleTooSmall);
        }
        if shape == 1.0 / 0.0 || scale == 1.0 / 0.0 {
            return Ok(Gamma::One(1.0 / 0.0));
        }
        if shape == 1.0 {
            return Ok(Gamma::One(one_nan(1.0 / (1.0 / scale))));
        }
        if shape < 1.0 {
            return Ok(Gamma::Small(GammaSmallShape::new_raw(shape, scale)));
        }
        Ok(Gamma::Large(GammaLargeShape::new_raw(shape, scale)))
    }

    // A sample whose NaN is as the machine made it: sample mends it.
    #[inline(always)]
    fn unmended(self, lent: Lent, at: Positions) -> Draw
        ensures { as_sample at result ≡ gamma_of self (lent_by lent) at }
    {
        if !lent.placed(at) {
            return Err(Refusal::Above);
        }
        match self {
            Gamma::Large(g) => g.sample(lent, at),
            Gamma::One(g) => small::one(g, lent, at),
            Gamma::Small(g) => g.sample(lent, at),
        }
    }
}

impl Distribution for Gamma {
    ghost drawn = { gamma_of };

    #[inline(always)]
    fn sample(self, lent: Lent, at: Positions) -> Drawn {
        draws::outputs::mended(self.unmended(lent, at), at)
    }
}
