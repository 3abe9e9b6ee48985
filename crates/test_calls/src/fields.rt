// The fields of a sampler, printed in the words of a request.
use super::rows;
use super::samplers::{Made, Sampler};
use beta::{Beta, BetaAlgorithm};
use chi_squared::ChiSquared;
use gamma::{Gamma, GammaLargeShape};
use std::io;

fn large(rt: &impl Print, g: GammaLargeShape) -> io::Result<()> {
    rows::floats(rt, &[g.scale, g.c, g.d])
}

fn gamma(rt: &impl Print, g: Gamma) -> io::Result<()> {
    match g {
        Gamma::Large(g) => {
            rows::text(rt, b" large")?;
            large(rt, g)
        }
        Gamma::One(x) => {
            rows::text(rt, b" one")?;
            rows::floats(rt, &[x])
        }
        Gamma::Small(g) => {
            rows::text(rt, b" small")?;
            rows::floats(rt, &[g.inv_shape])?;
            large(rt, g.large_shape)
        }
    }
}

fn beta(rt: &impl Print, g: Beta) -> io::Result<()> {
    let switched = usize::from(g.switched_params);
    match g.algorithm {
        BetaAlgorithm::BB(k) => {
            rows::text(rt, b" bb")?;
            rows::counts(rt, &[switched])?;
            rows::floats(rt, &[k.a, k.b, k.alpha, k.beta, k.gamma])
        }
        BetaAlgorithm::BC(k) => {
            rows::text(rt, b" bc")?;
            rows::counts(rt, &[switched])?;
            rows::floats(rt, &[k.a, k.b, k.alpha, k.beta, k.kappa1, k.kappa2])
        }
    }
}

fn chi(rt: &impl Print, c: ChiSquared) -> io::Result<()> {
    match c {
        ChiSquared::DoFExactlyOne => rows::text(rt, b" square"),
        ChiSquared::DoFAnythingElse(g) => {
            rows::text(rt, b" gamma")?;
            gamma(rt, g)
        }
    }
}

fn of_sampler(rt: &impl Print, s: Sampler) -> io::Result<()> {
    match s {
        Sampler::Gamma(g) => gamma(rt, g),
        Sampler::Beta(b) => beta(rt, b),
        Sampler::Chi(c) => chi(rt, c),
        Sampler::Fisher(f) => {
            chi(rt, f.numer)?;
            chi(rt, f.denom)?;
            rows::floats(rt, &[f.dof_ratio])
        }
        Sampler::Student(t) => {
            chi(rt, t.chi)?;
            rows::floats(rt, &[t.dof])
        }
        Sampler::Pert(p) => {
            rows::floats(rt, &[p.min, p.range])?;
            beta(rt, p.beta)
        }
    }
}

pub fn printed(rt: &impl Print, made: Made) -> io::Result<()> {
    match made {
        Ok(s) => {
            rows::text(rt, b" fields")?;
            of_sampler(rt, s)
        }
        Err(n) => rows::numbered(rt, n),
    }
}
