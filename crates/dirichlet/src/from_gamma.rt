// DirichletFromGamma of multi/dirichlet.rs: each component's sampler is made when it is reached.
ghost use Rattle.std.specs.Prelude.{◌≡◌, map, length, Float};
ghost use Rattle.kernels.specs.Numbers.{◌⊗◌, nought};
ghost use Rattle.draws.specs.Fill.{samples};
ghost use Rattle.draws.specs.Promises.{lent_by};
ghost use Rattle.dirichlet_alpha.specs.Answers.{Routed};
ghost use Rattle.dirichlet.specs.FromGamma.{Drew, sum_from, gamma_at, gammas_of};

use super::Alpha;
use draws::{Distribution, Draw, Lent, Positions, Refusal};
use gamma::Gamma;

// Gamma(alpha_i, 1) in order into the output, and their sum, or why a draw can't be had. Gamma::new can't refuse: alpha was scanned.
fn gamma_samples(alpha: Alpha, lent: Lent, at: Positions, out: &mut [f64]) -> Draw
    requires { length out.old ≡ length alpha.elements.now }
    ensures { Drew (samples (gamma_at alpha.entry.elements.now (lent_by lent)) 0 (length alpha.entry.elements.now) at) (sum_from nought) result out.new }
{
    let mut sum = 0.0;
    let mut p = at;
    for i in 0..out.len() {
        let g = Gamma::new(alpha.elements[i], 1.0).unwrap();
        let (s, q) = g.sample(lent, p)?;
        out[i] = s;
        sum = sum + s;
        p = q;
    }
    Ok((sum, p))
}

fn scale(out: &mut [f64], invacc: f64)
    ensures { out.new ≡ map (λ (v : Float). v ⊗ invacc) out.old }
{
    for i in 0..out.len() {
        out[i] = out[i] * invacc;
    }
}

// Each sample times 1/sum.
pub(crate) fn sample(
    alpha: Alpha,
    lent: Lent,
    at: Positions,
    out: &mut [f64],
) -> Result<Positions, Refusal>
    requires { length out.old ≡ length alpha.elements.now }
    ensures { Routed (gammas_of alpha.entry.elements.now (lent_by lent) at) result out.new }
{
    let (sum, q) = gamma_samples(alpha, lent, at, out)?;
    scale(out, 1.0 / sum);
    Ok(q)
}
