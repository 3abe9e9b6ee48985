// What Dirichlet checks before any draw, in document 01's order, and the route that alpha takes: `new` of multi/dirichlet.rs. Both routes answer in
// its words.
#![tactic(auto)]

ghost use Rattle.std.specs.Prelude.{◌≡◌};
ghost use Rattle.draws.specs.Promises.{lent_by};
ghost use Rattle.dirichlet_alpha.specs.Alpha.{element_of, scanned, checked_of, all_small_lem, named_of};
ghost use Rattle.dirichlet_alpha.specs.Answers.{ready_of};
ghost use Rattle.dirichlet_alpha.specs.declared.Refused.TheVariants.{Draws};

use draws::{Lent, Named, Positions, Refusal};

// Refusals 11, 15, 12 to 14 with the element's index, 16, and those of draws.
#[derive(Clone, Copy)]
pub enum Refused {
    AlphaTooShort,
    AlphaTooLong,
    AlphaTooSmall(usize),
    AlphaInfinite(usize),
    AlphaSubnormal(usize),
    OutputLength,
    Draws(Refusal),
}

pub type Checked = Result<(), Refused>;

// The positions past the vector's draws, or a refusal and the positions as lent.
pub type Answer = Result<Positions, (Refused, Positions)>;

impl From<Refusal> for Refused {
    ghost from_gives = { λ r w. w ≡ Draws r };

    fn from(r: Refusal) -> Refused {
        Refused::Draws(r)
    }
}

// Document 01's number, kind and index of a refusal.
impl From<Refused> for Named {
    ghost from_gives = { λ r n. n ≡ named_of r };

    fn from(r: Refused) -> Named {
        match r {
            Refused::AlphaTooShort => Named::numbered(11, 0),
            Refused::AlphaTooSmall(i) => Named::numbered(12, i),
            Refused::AlphaInfinite(i) => Named::numbered(13, i),
            Refused::AlphaSubnormal(i) => Named::numbered(14, i),
            Refused::AlphaTooLong => Named::numbered(15, 0),
            Refused::OutputLength => Named::numbered(16, 0),
            Refused::Draws(d) => d.into(),
        }
    }
}

// Above 0 the Rust's `is_infinite` and `is_normal` come to one comparison each.
#[tactic(auto, unfolding(crate::specs::Alpha::judged, crate::specs::Alpha::element_of))]
fn element(x: f64, i: usize) -> Checked
    ensures { result ≡ element_of x i }
{
    if !(x > 0.0) {
        // This also catches NaN.
        return Err(Refused::AlphaTooSmall(i));
    }
    if x == f64::INFINITY {
        return Err(Refused::AlphaInfinite(i));
    }
    if x < f64::MIN_POSITIVE {
        return Err(Refused::AlphaSubnormal(i));
    }
    Ok(())
}

#[tactic(auto, using(crate::proofs::Scans::scanned_at), unfolding(crate::specs::Alpha::scanned))]
fn scan(alpha: &[f64]) -> Checked
    ensures { result ≡ scanned alpha.now 0 }
{
    for (i, &x) in alpha.iter().enumerate() {
        element(x, i)?;
    }
    Ok(())
}

#[tactic(auto, unfolding(crate::specs::Alpha::checked_of))]
fn check(alpha: &[f64], n: usize) -> Checked
    ensures { result ≡ checked_of alpha.now n }
{
    if alpha.len() < 2 {
        return Err(Refused::AlphaTooShort);
    }
    if alpha.len() > 4096 {
        return Err(Refused::AlphaTooLong);
    }
    scan(alpha)?;
    if alpha.len() != n {
        return Err(Refused::OutputLength);
    }
    Ok(())
}

// All that is refused before any draw: 17 comes last.
#[tactic(auto, unfolding(crate::specs::Answers::ready_of))]
pub fn ready(alpha: &[f64], n: usize, lent: Lent, at: Positions) -> Checked
    ensures { result ≡ ready_of alpha.now n (lent_by lent) at }
{
    check(alpha, n)?;
    if !lent.placed(at) {
        return Err(Refused::Draws(Refusal::Above));
    }
    Ok(())
}

// 0.1 as a threshold provides a reasonable compromise between the faster Gamma method and NaN vectors.
pub fn all_small(alpha: &[f64]) -> bool
    ensures { result ≡ all_small_lem alpha.now }
{
    alpha.iter().all(|&x| x <= 0.1)
}
