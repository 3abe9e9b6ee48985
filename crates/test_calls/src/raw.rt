// Samplers by their fields.
use super::names::Name;
use super::requests::Words;
use super::samplers::Sampler;
use beta::{BB, BC, Beta, BetaAlgorithm};
use chi_squared::ChiSquared;
use fisher_f::FisherF;
use gamma::{Gamma, GammaLargeShape, GammaSmallShape};
use pert::Pert;
use student_t::StudentT;

fn large(words: &mut Words) -> Option<GammaLargeShape> {
    let scale = words.float()?;
    let c = words.float()?;
    let d = words.float()?;
    Some(GammaLargeShape { scale, c, d })
}

fn small(words: &mut Words) -> Option<GammaSmallShape> {
    let inv_shape = words.float()?;
    let large_shape = large(words)?;
    Some(GammaSmallShape {
        inv_shape,
        large_shape,
    })
}

fn gamma(words: &mut Words) -> Option<Gamma> {
    match words.word()? {
        b"one" => Some(Gamma::One(words.float()?)),
        b"small" => Some(Gamma::Small(small(words)?)),
        b"large" => Some(Gamma::Large(large(words)?)),
        _ => None,
    }
}

fn bb(words: &mut Words) -> Option<BB> {
    let a = words.float()?;
    let b = words.float()?;
    let alpha = words.float()?;
    let beta = words.float()?;
    let gamma = words.float()?;
    Some(BB {
        a,
        b,
        alpha,
        beta,
        gamma,
    })
}

fn bc(words: &mut Words) -> Option<BC> {
    let a = words.float()?;
    let b = words.float()?;
    let alpha = words.float()?;
    let beta = words.float()?;
    let kappa1 = words.float()?;
    let kappa2 = words.float()?;
    Some(BC {
        a,
        b,
        alpha,
        beta,
        kappa1,
        kappa2,
    })
}

fn switched(words: &mut Words) -> Option<bool> {
    match words.count()? {
        0 => Some(false),
        1 => Some(true),
        _ => None,
    }
}

fn beta(words: &mut Words) -> Option<Beta> {
    let kind = words.word()?;
    let switched_params = switched(words)?;
    let algorithm = match kind {
        b"bb" => BetaAlgorithm::BB(bb(words)?),
        b"bc" => BetaAlgorithm::BC(bc(words)?),
        _ => {
            return None;
        }
    };
    Some(Beta {
        switched_params,
        algorithm,
    })
}

fn chi(words: &mut Words) -> Option<ChiSquared> {
    match words.word()? {
        b"square" => Some(ChiSquared::DoFExactlyOne),
        b"gamma" => Some(ChiSquared::DoFAnythingElse(gamma(words)?)),
        _ => None,
    }
}

fn fisher(words: &mut Words) -> Option<FisherF> {
    let numer = chi(words)?;
    let denom = chi(words)?;
    let dof_ratio = words.float()?;
    Some(FisherF {
        numer,
        denom,
        dof_ratio,
    })
}

fn student(words: &mut Words) -> Option<StudentT> {
    let chi = chi(words)?;
    let dof = words.float()?;
    Some(StudentT { chi, dof })
}

fn pert(words: &mut Words) -> Option<Pert> {
    let min = words.float()?;
    let range = words.float()?;
    let beta = beta(words)?;
    Some(Pert { min, range, beta })
}

pub fn of_fields(words: &mut Words, name: Name) -> Option<Sampler> {
    match name {
        Name::Gamma => Some(Sampler::Gamma(gamma(words)?)),
        Name::Beta => Some(Sampler::Beta(beta(words)?)),
        Name::Chi => Some(Sampler::Chi(chi(words)?)),
        Name::Fisher => Some(Sampler::Fisher(fisher(words)?)),
        Name::Student => Some(Sampler::Student(student(words)?)),
        Name::Pert => Some(Sampler::Pert(pert(words)?)),
        Name::Dirichlet => None,
    }
}
