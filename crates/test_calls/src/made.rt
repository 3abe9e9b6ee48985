// Samplers by their constructors.
use super::names::Name;
use super::requests::Words;
use super::samplers::{Made, Sampler};
use beta::Beta;
use chi_squared::ChiSquared;
use draws::{Named, Numbered};
use fisher_f::FisherF;
use gamma::Gamma;
use pert::{Pert, PertBuilder};
use student_t::StudentT;

// No constructor reads a draw.
fn made<S, E: Numbered, F: FnOnce(S) -> Sampler>(made: Result<S, E>, kind: F) -> Made
    requires { F.IsAlwaysCallable kind }
{
    match made {
        Ok(s) => Ok(kind(s)),
        Err(e) => Err(Named::numbered(e.number(), 0)),
    }
}

// A PERT needs a form beside them.
pub fn of_arguments(words: &mut Words, name: Name) -> Option<Made> {
    let x = words.float()?;
    match name {
        Name::Gamma => Some(made(Gamma::new(x, words.float()?), Sampler::Gamma)),
        Name::Beta => Some(made(Beta::new(x, words.float()?), Sampler::Beta)),
        Name::Fisher => Some(made(FisherF::new(x, words.float()?), Sampler::Fisher)),
        Name::Chi => Some(made(ChiSquared::new(x), Sampler::Chi)),
        Name::Student => Some(made(StudentT::new(x), Sampler::Student)),
        Name::Pert | Name::Dirichlet => None,
    }
}

// A shape, or - for the default.
fn shaped(words: &mut Words, builder: PertBuilder) -> Option<PertBuilder> {
    if words.past(b" -").is_some() {
        return Some(builder);
    }
    Some(builder.with_shape(words.float()?))
}

// The last word goes to one of the builder's methods.
fn pert<F: Fn(PertBuilder, f64) -> Result<Pert, pert::Error>>(
    words: &mut Words,
    with: F,
) -> Option<Made>
    requires { F.IsAlwaysCallable with }
{
    let min = words.float()?;
    let max = words.float()?;
    let builder = shaped(words, Pert::new(min, max))?;
    let x = words.float()?;
    Some(made(with(builder, x), Sampler::Pert))
}

pub fn pert_by_mode(words: &mut Words) -> Option<Made> {
    pert(words, |builder, mode| builder.with_mode(mode))
}

pub fn pert_by_mean(words: &mut Words) -> Option<Made> {
    pert(words, |builder, mean| builder.with_mean(mean))
}
