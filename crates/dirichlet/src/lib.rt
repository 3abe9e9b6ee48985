// The Dirichlet distribution: multi/dirichlet.rs of rand_distr 0.6.0 over lent draws, in one call, by the route that alpha takes.
#![tactic(auto)]

mod from_beta;
mod from_gamma;

ghost use Rattle.std.specs.Prelude.{◌≡◌, ◌≤◌, length, Ok};
ghost use Rattle.draws.specs.Promises.{lent_by};
ghost use Rattle.dirichlet_alpha.specs.Alpha.{scanned};
ghost use Rattle.dirichlet_alpha.specs.Answers.{Routed};
ghost use Rattle.dirichlet.specs.Dirichlet.{vector_of, Dirichlets};

use dirichlet_alpha::Answer;
use draws::{Lent, Positions, Refusal};

// A checked alpha. It stands for the Rust's samplers: each is made of its element when it is reached, since there is no heap to keep them.
#[derive(Clone, Copy)]
struct Alpha<'a> {
    elements: &'a [f64],
    ghost long: { 2 ≤ length elements.now },
    ghost fine: { scanned elements.now 0 ≡ Ok tt },
}

// The vector of a checked alpha, by its route.
#[tactic(auto, unfolding(crate::specs::Dirichlet::vector_of))]
fn by_route(alpha: Alpha, lent: Lent, at: Positions, out: &mut [f64]) -> Result<Positions, Refusal>
    requires { length out.old ≡ length alpha.elements.now }
    ensures { Routed (vector_of alpha.entry.elements.now (lent_by lent) at) result out.new }
{
    if dirichlet_alpha::all_small(alpha.elements) {
        from_beta::sample(alpha, lent, at, out)
    } else {
        from_gamma::sample(alpha, lent, at, out)
    }
}

// One vector, an element of the output for each of alpha. NaN vectors are given as in the Rust; an output that is refused by 18 or 19 is cleared.
#[tactic(auto, using(dirichlet_alpha::proofs::Laws::ready_fine))]
pub fn sample(alpha: &[f64], lent: Lent, at: Positions, out: &mut [f64]) -> Answer
    ensures { Dirichlets alpha.now (lent_by lent) at out.old result out.new }
{
    dirichlet_alpha::ready(alpha, out.len(), lent, at).map_err(|r| (r, at))?;
    match by_route(Alpha { elements: alpha }, lent, at, out) {
        Ok(q) => {
            draws::outputs::mend(out);
            Ok(q)
        }
        Err(r) => {
            draws::outputs::clear(out);
            Err((r.into(), at))
        }
    }
}
