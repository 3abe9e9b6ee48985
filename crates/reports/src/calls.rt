// The calls on plain numbers that every sampler has: an output filled, and its first element alone.
ghost use Rattle.draws.specs.Promises.{lent_by};
ghost use Rattle.reports.specs.Calls.{ready, FillCallBy, SampleCallBy};

use super::{SHORT, asked, filled, refused};
use draws::{Distribution, Lent, Named, Numbered};

// The report is looked at first, then what the constructor made, then the draws.
#[inline(always)]
pub fn fill<S: Distribution, E: Numbered>(
    made: Result<S, E>,
    lent: Lent,
    out: &mut [f64],
    report: &mut [usize],
) -> usize
    ensures { FillCallBy (ready S.drawn E.number made) (lent_by lent) out report result }
{
    let Some(at) = asked(report) else {
        return SHORT;
    };
    match made {
        Ok(sampler) => filled(draws::fill(sampler, lent, at, out), report),
        Err(e) => refused(Named::numbered(e.number(), 0), report),
    }
}

// The fill of an output of one element, the first.
#[inline(always)]
pub fn sample<S: Distribution, E: Numbered>(
    made: Result<S, E>,
    lent: Lent,
    out: &mut [f64],
    report: &mut [usize],
) -> usize
    ensures { SampleCallBy (ready S.drawn E.number made) (lent_by lent) out report result }
{
    if out.is_empty() {
        return SHORT;
    }
    fill(made, lent, &mut out[..1], report)
}
