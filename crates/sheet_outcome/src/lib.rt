// What a sheet's sampler gives from the start of its draws, in the words of an answer.
#![tactic(auto)]

ghost use Rattle.std.specs.Prelude.{◌≡◌};
ghost use Rattle.draws.specs.Promises.{lent_by};
ghost use Rattle.sheet_outcome.specs.Outcomes.{sample_outcome_lem, by_made, sampled_of};

use beta::Beta;
use chi_squared::ChiSquared;
use draws::{Distribution, Drawn, Lent, Named, Numbered, Positions};
use fisher_f::FisherF;
use gamma::Gamma;
use sheet_lines::Sampler;
use student_t::StudentT;

// A sample's 64 bits and the positions past its draws, from the start as many as were used; or a refusal's number, kind, and index or line.
pub type Outcome = Result<(u64, Positions), Named>;

fn sample_outcome(d: Drawn) -> Outcome
    ensures { result ≡ sample_outcome_lem d }
{
    match d {
        Ok((v, q)) => Ok((words::word_of(v), q)),
        Err((r, _)) => Err(Named::from(r)),
    }
}

// The constructor's refusal has a number alone.
fn by_made<S: Distribution, E: Numbered>(made: Result<S, E>, lent: Lent) -> Outcome
    ensures { result ≡ by_made S.drawn E.number made (lent_by lent) }
{
    match made {
        Ok(s) => sample_outcome(s.sample(lent, draws::origin())),
        Err(e) => Err(Named::numbered(e.number(), 0)),
    }
}

// The sampler that a sheet names, at its parameters; chi and student have one.
#[tactic(auto, unfolding(crate::specs::Outcomes::sampled_of))]
pub fn sampled(s: Sampler, a: f64, b: f64, lent: Lent) -> Outcome
    ensures { result ≡ sampled_of s a b (lent_by lent) }
{
    match s {
        Sampler::Gamma => by_made(Gamma::new(a, b), lent),
        Sampler::Beta => by_made(Beta::new(a, b), lent),
        Sampler::Chi => by_made(ChiSquared::new(a), lent),
        Sampler::Fisher => by_made(FisherF::new(a, b), lent),
        Sampler::Student => by_made(StudentT::new(a), lent),
    }
}
