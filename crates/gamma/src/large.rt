// The inner struct of gamma.rs of rand_distr 0.6.0 for a shape above 1, over lent draws: its names and its order of operations.
// Known to this crate alone: a sample's NaN is as the machine made it, and `Gamma::sample` mends it.
ghost use Rattle.std.specs.Prelude.{◌≡◌, length};
ghost use Rattle.draws.specs.Promises.{lent_by};
ghost use Rattle.draws.specs.Search.{as_sample, searched, trial as trial_of};
ghost use Rattle.gamma.specs.Large.{large_made, large_of, large_trials};

use draws::{Draw, Kind, Lent, Positions, Trial};
use kernels::{ln, one_nan, sqrt};

// Shape above 1.
#[derive(Clone, Copy)]
pub struct GammaLargeShape {
    pub scale: f64,
    pub c: f64,
    pub d: f64,
}

impl GammaLargeShape {
    pub(crate) fn new_raw(shape: f64, scale: f64) -> GammaLargeShape
        ensures { result ≡ large_made shape scale }
    {
        let d = one_nan(shape - 1.0 / 3.0);
        GammaLargeShape {
            scale: one_nan(scale),
            c: one_nan(1.0 / sqrt(9.0 * d)),
            d,
        }
    }

    // One trial of the Marsaglia & Tsang method, 2000.
    #[inline(always)]
    fn trial(self, lent: Lent, at: Positions) -> Trial
        ensures { result ≡ trial_of (large_trials self (lent_by lent) at) 0 }
    {
        let (x, p) = lent.read(Kind::Normal, at)?;
        let v_cbrt = 1.0 + self.c * x;
        if v_cbrt <= 0.0 {
            return Ok((None, p));
        }
        let (u, q) = lent.read(Kind::Uniform, p)?;
        let v = v_cbrt * v_cbrt * v_cbrt;
        let x_sqr = x * x;
        if u < 1.0 - 0.0331 * x_sqr * x_sqr {
            return Ok((Some(v), q));
        }
        if ln(u) < 0.5 * x_sqr + self.d * (1.0 - v + ln(v)) {
            return Ok((Some(v), q));
        }
        Ok((None, q))
    }

    #[inline(always)]
    pub(crate) fn sample_unscaled(self, lent: Lent, at: Positions) -> Draw
        ensures { as_sample at result ≡ searched (large_trials self (lent_by lent) at) at (length (lent_by lent).normals) }
    {
        let mut p = at;
        loop {
            match self.trial(lent, p)? {
                (Some(v), q) => return Ok((v, q)),
                (None, q) => p = q,
            }
        }
    }

    #[inline(always)]
    pub(crate) fn sample(self, lent: Lent, at: Positions) -> Draw
        ensures { as_sample at result ≡ large_of self (lent_by lent) at }
    {
        let (v, q) = self.sample_unscaled(lent, at)?;
        Ok((v * (self.d * self.scale), q))
    }
}
