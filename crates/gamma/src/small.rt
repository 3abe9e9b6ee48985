// The inner struct of gamma.rs of rand_distr 0.6.0 for a shape below 1, and its exponential kind, over lent draws: its names and its order of
// operations. Known to this crate alone: a sample's NaN is as the machine made it, and `Gamma::sample` mends it.
ghost use Rattle.std.specs.Prelude.{◌≡◌};
ghost use Rattle.draws.specs.Promises.{lent_by};
ghost use Rattle.draws.specs.Search.{as_sample};
ghost use Rattle.gamma.specs.Small.{one_of, small_made, small_of};

use super::GammaLargeShape;
use draws::{Draw, Kind, Lent, Positions};
use kernels::{one_nan, powf};

// Shape below 1.
#[derive(Clone, Copy)]
pub struct GammaSmallShape {
    pub inv_shape: f64,
    pub large_shape: GammaLargeShape,
}

impl GammaSmallShape {
    pub(crate) fn new_raw(shape: f64, scale: f64) -> GammaSmallShape
        ensures { result ≡ small_made shape scale }
    {
        GammaSmallShape {
            inv_shape: one_nan(1.0 / shape),
            large_shape: GammaLargeShape::new_raw(shape + 1.0, scale),
        }
    }

    // powf stands before the search, where it waits for nothing.
    #[inline(always)]
    pub(crate) fn sample(self, lent: Lent, at: Positions) -> Draw
        ensures { as_sample at result ≡ small_of self (lent_by lent) at }
    {
        let (u, p) = lent.read(Kind::Uniform, at)?;
        let g = self.large_shape;
        let b = powf(u, self.inv_shape);
        let (a, q) = g.sample_unscaled(lent, p)?;
        Ok(((a * b * g.d) * g.scale, q))
    }
}

// The Rust's Exp: an exponential times the inverse of the rate.
#[inline(always)]
pub(crate) fn one(lambda_inverse: f64, lent: Lent, at: Positions) -> Draw
    ensures { as_sample at result ≡ one_of lambda_inverse (lent_by lent) at }
{
    let (e, q) = lent.read(Kind::Exponential, at)?;
    Ok((e * lambda_inverse, q))
}
