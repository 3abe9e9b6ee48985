// Any sampler but a Dirichlet, as a request says it: by a constructor's arguments, or by fields that no constructor made.
use beta::Beta;
use chi_squared::ChiSquared;
use draws::{Distribution, Drawn, Filled, Lent, Named, Positions};
use fisher_f::FisherF;
use gamma::Gamma;
use pert::Pert;
use student_t::StudentT;

#[derive(Clone, Copy)]
pub enum Sampler {
    Gamma(Gamma),
    Beta(Beta),
    Chi(ChiSquared),
    Fisher(FisherF),
    Student(StudentT),
    Pert(Pert),
}

// Or what the constructor refused it for.
pub type Made = Result<Sampler, Named>;

pub fn sample(s: Sampler, lent: Lent, at: Positions) -> Drawn {
    match s {
        Sampler::Gamma(s) => s.sample(lent, at),
        Sampler::Beta(s) => s.sample(lent, at),
        Sampler::Chi(s) => s.sample(lent, at),
        Sampler::Fisher(s) => s.sample(lent, at),
        Sampler::Student(s) => s.sample(lent, at),
        Sampler::Pert(s) => s.sample(lent, at),
    }
}

pub fn fill(s: Sampler, lent: Lent, at: Positions, out: &mut [f64]) -> Filled {
    match s {
        Sampler::Gamma(s) => draws::fill(s, lent, at, out),
        Sampler::Beta(s) => draws::fill(s, lent, at, out),
        Sampler::Chi(s) => draws::fill(s, lent, at, out),
        Sampler::Fisher(s) => draws::fill(s, lent, at, out),
        Sampler::Student(s) => draws::fill(s, lent, at, out),
        Sampler::Pert(s) => draws::fill(s, lent, at, out),
    }
}
