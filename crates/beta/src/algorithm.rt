// The two algorithms of beta.rs of rand_distr 0.6.0: what each keeps and how it tests a trial, its names, its step numbers and its order of
// operations. Known to this crate alone: the w of an accepted trial may be any NaN.
ghost use Rattle.std.specs.Prelude.{◌≡◌};
ghost use Rattle.beta.specs.Algorithm.{beta_v, beta_w, b_at, bb_made, bb_tested, bc_made, bc_tested, step5_of, tested_of};

use kernels::{exp, ln, one_nan, sqrt};

// Algorithm BB for min(alpha, beta) > 1.
#[derive(Clone, Copy)]
pub struct BB {
    pub a: f64,
    pub b: f64,
    pub alpha: f64,
    pub beta: f64,
    pub gamma: f64,
}

// Algorithm BC for min(alpha, beta) <= 1; here a is the maximum and not the minimum.
#[derive(Clone, Copy)]
pub struct BC {
    pub a: f64,
    pub b: f64,
    pub alpha: f64,
    pub beta: f64,
    pub kappa1: f64,
    pub kappa2: f64,
}

#[derive(Clone, Copy)]
pub enum BetaAlgorithm {
    BB(BB),
    BC(BC),
}

// v and w of a trial's first uniform, the same in both.
#[inline(always)]
fn v_w(a: f64, beta: f64, u1: f64) -> (f64, f64)
    ensures v { result.0 ≡ beta_v beta u1 }
    ensures w { result.1 ≡ beta_w a beta u1 }
{
    let v = beta * ln(u1 / (1.0 - u1));
    (v, a * exp(v))
}

impl BB {
    pub(crate) fn new(a: f64, b: f64) -> BB
        ensures { result ≡ bb_made a b }
    {
        let alpha = one_nan(a + b);
        let beta_numer = alpha - 2.0;
        let beta_denom = 2.0 * a * b - alpha;
        let beta = one_nan(sqrt(beta_numer / beta_denom));
        BB {
            a,
            b,
            alpha,
            beta,
            gamma: one_nan(a + 1.0 / beta),
        }
    }

    // The w of the two uniforms, or that they are rejected.
    #[inline(always)]
    fn tested(self, u1: f64, u2: f64) -> Option<f64>
        ensures { result ≡ bb_tested self u1 u2 }
    {
        // 1.
        let (v, w) = v_w(self.a, self.beta, u1);
        let z = u1 * u1 * u2;
        let r = self.gamma * v - ln(4.0);
        let s = self.a + r - w;
        // 2.
        if s + 1.0 + ln(5.0) >= 5.0 * z {
            return Some(w);
        }
        // 3.
        let t = ln(z);
        if s >= t {
            return Some(w);
        }
        // 4.
        if !(r + self.alpha * ln(self.alpha / (self.b + w)) < t) {
            return Some(w);
        }
        None
    }
}

impl BC {
    pub(crate) fn new(a: f64, b: f64) -> BC
        ensures { result ≡ bc_made a b }
    {
        let alpha = one_nan(a + b);
        let beta = one_nan(1.0 / b);
        let delta = 1.0 + a - b;
        let kappa1 = delta * (1.0 / 18.0 / 4.0 + 3.0 / 18.0 / 4.0 * b) / (a * beta - 14.0 / 18.0);
        let kappa2 = 0.25 + (0.5 + 0.25 / delta) * b;
        BC {
            a,
            b,
            alpha,
            beta,
            kappa1: one_nan(kappa1),
            kappa2: one_nan(kappa2),
        }
    }

    // 5.
    #[inline(always)]
    fn step5(self, u1: f64, z: f64) -> Option<f64>
        ensures { result ≡ step5_of self u1 z }
    {
        let (v, w) = v_w(self.a, self.beta, u1);
        if !(self.alpha * (ln(self.alpha / (self.b + w)) + v) - ln(4.0) < ln(z)) {
            return Some(w);
        }
        None
    }

    #[inline(always)]
    fn tested(self, u1: f64, u2: f64) -> Option<f64>
        ensures { result ≡ bc_tested self u1 u2 }
    {
        // 1.
        if u1 < 0.5 {
            // 2.
            let y = u1 * u2;
            let z = u1 * y;
            if 0.25 * u2 + z - y >= self.kappa1 {
                return None;
            }
            return self.step5(u1, z);
        }
        // 3.
        let z = u1 * u1 * u2;
        if z <= 0.25 {
            return Some(v_w(self.a, self.beta, u1).1);
        }
        // 4.
        if z >= self.kappa2 {
            return None;
        }
        self.step5(u1, z)
    }
}

impl BetaAlgorithm {
    // Either keeps b.
    #[inline(always)]
    pub(crate) fn b(self) -> f64
        ensures { result ≡ b_at self }
    {
        match self {
            BetaAlgorithm::BB(BB { b, .. }) | BetaAlgorithm::BC(BC { b, .. }) => b,
        }
    }

    // The w of a trial's two uniforms where it is accepted.
    #[inline(always)]
    pub(crate) fn tested(self, u1: f64, u2: f64) -> Option<f64>
        ensures { result ≡ tested_of self u1 u2 }
    {
        match self {
            BetaAlgorithm::BB(algo) => algo.tested(u1, u2),
            BetaAlgorithm::BC(algo) => algo.tested(u1, u2),
        }
    }
}
