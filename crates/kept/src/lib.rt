// What a sampler keeps, by plain numbers: its kind and its fields, as the constructor made them, in the Rust's own names and order. A field
// that a kind has not is +0.
#![tactic(auto)]

ghost use Rattle.std.specs.Prelude.{◌≡◌};
ghost use Rattle.kept.specs.Kept.{gamma_kept, chi_kept, beta_kept};
ghost use Rattle.gamma.specs.declared.Gamma.TheVariants.{Large};

use beta::{Beta, BetaAlgorithm};
use chi_squared::ChiSquared;
use gamma::{Gamma, GammaLargeShape};

// Gamma's kind: 1 One, 2 Small, 3 Large.
#[derive(Clone, Copy, Default)]
pub struct GammaFields {
    pub kind: usize,
    pub lambda_inverse: f64,
    pub inv_shape: f64,
    pub scale: f64,
    pub c: f64,
    pub d: f64,
}

// Beta's kind: 1 BB, 2 BC.
#[derive(Clone, Copy, Default)]
pub struct BetaFields {
    pub kind: usize,
    pub switched_params: usize,
    pub a: f64,
    pub b: f64,
    pub alpha: f64,
    pub beta: f64,
    pub gamma: f64,
    pub kappa1: f64,
    pub kappa2: f64,
}

fn of_large(large: GammaLargeShape) -> GammaFields
    ensures { result ≡ gamma_kept (Large large) }
{
    GammaFields {
        kind: 3,
        scale: large.scale,
        c: large.c,
        d: large.d,
        ..GammaFields::default()
    }
}

impl From<Gamma> for GammaFields {
    ghost from_gives = { λ g k. k ≡ gamma_kept g };

    fn from(g: Gamma) -> GammaFields {
        match g {
            Gamma::One(lambda_inverse) => GammaFields {
                kind: 1,
                lambda_inverse,
                ..GammaFields::default()
            },
            Gamma::Small(s) => GammaFields {
                kind: 2,
                inv_shape: s.inv_shape,
                ..of_large(s.large_shape)
            },
            Gamma::Large(large) => of_large(large),
        }
    }
}

// Kind 0 is DoFExactlyOne, which has no field; else the Gamma's.
impl From<ChiSquared> for GammaFields {
    ghost from_gives = { λ c k. k ≡ chi_kept c };

    fn from(chi: ChiSquared) -> GammaFields {
        match chi {
            ChiSquared::DoFExactlyOne => GammaFields {
                kind: 0,
                ..GammaFields::default()
            },
            ChiSquared::DoFAnythingElse(g) => g.into(),
        }
    }
}

impl From<Beta> for BetaFields {
    ghost from_gives = { λ b k. k ≡ beta_kept b };

    fn from(beta: Beta) -> BetaFields {
        let switched_params = usize::from(beta.switched_params);
        match beta.algorithm {
            BetaAlgorithm::BB(bb) => BetaFields {
                kind: 1,
                switched_params,
                a: bb.a,
                b: bb.b,
                alpha: bb.alpha,
                beta: bb.beta,
                gamma: bb.gamma,
                ..BetaFields::default()
            },
            BetaAlgorithm::BC(bc) => BetaFields {
                kind: 2,
                switched_params,
                a: bc.a,
                b: bc.b,
                alpha: bc.alpha,
                beta: bc.beta,
                kappa1: bc.kappa1,
                kappa2: bc.kappa2,
                ..BetaFields::default()
            },
        }
    }
}
