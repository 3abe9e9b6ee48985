// The Beta distribution: beta.rs of rand_distr 0.6.0 over lent draws, its names, its step numbers and its order of operations.
#![tactic(auto)]

mod algorithm;

ghost use Rattle.std.specs.Prelude.{◌≡◌};
ghost use Rattle.draws.specs.Promises.{lent_by};
ghost use Rattle.draws.specs.Search.{as_sample, trial as trial_of};
ghost use Rattle.beta.specs.Beta.{sorted_made, beta_made, error_number, final_of, beta_trials, beta_of};

pub use algorithm::{BB, BC, BetaAlgorithm};
use draws::{Distribution, Draw, Drawn, Kind, Lent, Numbered, Positions, Refusal, Trial};

#[derive(Clone, Copy)]
pub struct Beta {
    pub switched_params: bool,
    pub algorithm: BetaAlgorithm,
}

// Refusals 3 and 4 of document 01.
#[derive(Clone, Copy)]
pub enum Error {
    AlphaTooSmall,
    BetaTooSmall,
}

impl Numbered for Error {
    ghost number = { error_number };

    fn number(self) -> usize {
        match self {
            Error::AlphaTooSmall => 3,
            Error::BetaTooSmall => 4,
        }
    }
}

impl Beta {
    pub fn new(alpha: f64, beta: f64) -> Result<Beta, Error>
        ensures { result ≡ beta_made alpha beta }
    {
        if !(alpha > 0.0) {
            return Err(Error::AlphaTooSmall);
        }
        if !(beta > 0.0) {
            return Err(Error::BetaTooSmall);
        }
        if alpha < beta {
            Ok(Beta::sorted(alpha, beta, false))
        } else {
            Ok(Beta::sorted(beta, alpha, true))
        }
    }

    // a is not above b, unless one of them is NaN.
    fn sorted(a: f64, b: f64, switched_params: bool) -> Beta
        ensures { result ≡ sorted_made a b switched_params }
    {
        if a > 1.0 {
            Beta {
                switched_params,
                algorithm: BetaAlgorithm::BB(BB::new(a, b)),
            }
        } else {
            Beta {
                switched_params: !switched_params,
                algorithm: BetaAlgorithm::BC(BC::new(b, a)),
            }
        }
    }

    // 5. for BB, 6. for BC
    #[inline(always)]
    fn last(self, w: f64) -> f64
        ensures { result ≡ final_of self w }
    {
        let b = self.algorithm.b();
        if !self.switched_params {
            if w == f64::INFINITY {
                return 1.0;
            }
            w / (b + w)
        } else {
            b / (b + w)
        }
    }

    // Both uniforms are read, also where the first would settle the trial.
    #[inline(always)]
    fn trial(self, lent: Lent, at: Positions) -> Trial
        ensures { result ≡ trial_of (beta_trials self (lent_by lent) at) 0 }
    {
        let (u1, p) = lent.read(Kind::Uniform, at)?;
        let (u2, q) = lent.read(Kind::Uniform, p)?;
        Ok((self.algorithm.tested(u1, u2).map(|w| self.last(w)), q))
    }

    // A sample whose NaN is as the machine made it: sample mends it.
    #[inline(always)]
    fn unmended(self, lent: Lent, at: Positions) -> Draw
        ensures { as_sample at result ≡ beta_of self (lent_by lent) at }
    {
        if !lent.placed(at) {
            return Err(Refusal::Above);
        }
        let mut p = at;
        loop {
            match self.trial(lent, p)? {
                (Some(v), q) => return Ok((v, q)),
                (None, q) => p = q,
            }
        }
    }
}

impl Distribution for Beta {
    ghost drawn = { beta_of };

    #[inline(always)]
    fn sample(self, lent: Lent, at: Positions) -> Drawn {
        draws::outputs::mended(self.unmended(lent, at), at)
    }
}
