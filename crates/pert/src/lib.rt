// The PERT distribution: pert.rs of rand_distr 0.6.0 over lent draws.
#![tactic(auto)]

ghost use Rattle.std.specs.Prelude.{◌≡◌};
ghost use Rattle.draws.specs.Promises.{lent_by};
ghost use Rattle.draws.specs.Search.{as_sample};
ghost use Rattle.pert.specs.Pert.{builder, shaped, mode_made, mean_made, error_number, pert_of};

use beta::Beta;
use draws::{Distribution, Draw, Drawn, Lent, Numbered, Positions};
use kernels::one_nan;

#[derive(Clone, Copy)]
pub struct Pert {
    pub min: f64,
    pub range: f64,
    pub beta: Beta,
}

// Used to build a Pert.
#[derive(Clone, Copy)]
pub struct PertBuilder {
    pub min: f64,
    pub max: f64,
    pub shape: f64,
}

// Refusals 8, 9 and 10 of document 01.
#[derive(Clone, Copy)]
pub enum Error {
    RangeTooSmall,
    ModeRange,
    ShapeTooSmall,
}

impl Numbered for Error {
    ghost number = { error_number };

    fn number(self) -> usize {
        match self {
            Error::RangeTooSmall => 8,
            Error::ModeRange => 9,
            Error::ShapeTooSmall => 10,
        }
    }
}

impl PertBuilder {
    // If not specified, the shape is 4.
    pub fn with_shape(self, shape: f64) -> PertBuilder
        ensures { result ≡ shaped self shape }
    {
        PertBuilder {
            min: one_nan(self.min),
            max: one_nan(self.max),
            shape: one_nan(shape),
        }
    }

    pub fn with_mean(self, mean: f64) -> Result<Pert, Error>
        ensures { result ≡ mean_made self mean }
    {
        let mode = ((self.shape + 2.0) * mean - self.min - self.max) / self.shape;
        self.with_mode(mode)
    }

    pub fn with_mode(self, mode: f64) -> Result<Pert, Error>
        ensures { result ≡ mode_made self mode }
    {
        let PertBuilder { min, max, shape } = self;
        if !(max > min) {
            return Err(Error::RangeTooSmall);
        }
        if !(mode >= min && max >= mode) {
            return Err(Error::ModeRange);
        }
        if !(shape >= 0.0) {
            return Err(Error::ShapeTooSmall);
        }
        let range = one_nan(max - min);
        let v = 1.0 + shape * (mode - min) / range;
        let w = 1.0 + shape * (max - mode) / range;
        let beta = Beta::new(v, w).map_err(|_| Error::RangeTooSmall)?;
        Ok(Pert {
            min: one_nan(min),
            range,
            beta,
        })
    }
}

impl Pert {
    // Construct a PERT distribution with defined min, max
    pub fn new(min: f64, max: f64) -> PertBuilder
        ensures { result ≡ builder min max }
    {
        PertBuilder {
            min: one_nan(min),
            max: one_nan(max),
            shape: 4.0,
        }
    }

    // A sample whose NaN is as the machine made it: sample mends it.
    #[inline(always)]
    fn unmended(self, lent: Lent, at: Positions) -> Draw
        ensures { as_sample at result ≡ pert_of self (lent_by lent) at }
    {
        let (b, q) = self.beta.sample(lent, at)?;
        Ok((b * self.range + self.min, q))
    }
}

impl Distribution for Pert {
    ghost drawn = { pert_of };

    #[inline(always)]
    fn sample(self, lent: Lent, at: Positions) -> Drawn {
        draws::outputs::mended(self.unmended(lent, at), at)
    }
}
