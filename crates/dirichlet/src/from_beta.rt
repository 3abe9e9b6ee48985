// DirichletFromBeta of multi/dirichlet.rs: each component's sampler is made when it is reached, and the tails stand in the output until they are
// overwritten.
ghost use Rattle.std.specs.Prelude.{◌≡◌, length};
ghost use Rattle.draws.specs.Promises.{lent_by};
ghost use Rattle.dirichlet_alpha.specs.Answers.{Routed};
ghost use Rattle.dirichlet.specs.FromBeta.{TailsIn, betas_of};

use super::Alpha;
use beta::Beta;
use draws::{Distribution, Lent, Positions, Refusal};

// The tail after i into out[i]: from the last element to the first.
fn tails(alpha: Alpha, out: &mut [f64])
    requires { length out.old ≡ length alpha.elements.now }
    ensures { TailsIn alpha.entry.elements.now out.new }
{
    let n = alpha.elements.len();
    out[n - 2] = alpha.elements[n - 1];
    for i in (0..n - 2).rev() {
        out[i] = out[i + 1] + alpha.elements[i + 1];
    }
}

// Component i is acc times Beta(alpha_i, tail after i); acc then is what is left. Beta::new can't refuse: every tail is above 0.
fn beta_samples(
    alpha: Alpha,
    lent: Lent,
    at: Positions,
    out: &mut [f64],
) -> Result<Positions, Refusal>
    requires { (length out.old ≡ length alpha.elements.now) × TailsIn alpha.elements.now out.old }
    ensures { Routed (betas_of alpha.entry.elements.now (lent_by lent) at) result out.new }
{
    let last = out.len() - 1;
    let mut acc = 1.0;
    let mut p = at;
    for i in 0..last {
        let beta = Beta::new(alpha.elements[i], out[i]).unwrap();
        let (beta_sample, q) = beta.sample(lent, p)?;
        out[i] = acc * beta_sample;
        acc = acc * (1.0 - beta_sample);
        p = q;
    }
    out[last] = acc;
    Ok(p)
}

pub(crate) fn sample(
    alpha: Alpha,
    lent: Lent,
    at: Positions,
    out: &mut [f64],
) -> Result<Positions, Refusal>
    requires { length out.old ≡ length alpha.elements.now }
    ensures { Routed (betas_of alpha.entry.elements.now (lent_by lent) at) result out.new }
{
    tails(alpha, out);
    beta_samples(alpha, lent, at, out)
}
