// Chi-squared samples for C and Rust to link, on plain numbers and lent arrays: an output filled, and a single one.
#![tactic(auto)]

ghost use Rattle.chi_squared.specs.ChiSquared.{chi_made};
ghost use Rattle.reports.specs.Calls.{lent_of, FillCallBy, SampleCallBy};
ghost use Rattle.exports_chi_squared.specs.Ready.{chi_ready};

use chi_squared::ChiSquared;
use draws::Lent;

#[unsafe(no_mangle)]
pub extern "C" fn eweb_chi_squared_fill(
    k: f64,
    uniforms: &[f64],
    normals: &[f64],
    exponentials: &[f64],
    out: &mut [f64],
    report: &mut [usize],
) -> usize
    ensures { FillCallBy (chi_ready (chi_made k)) (lent_of uniforms normals exponentials) out report result }
{
    let lent = Lent {
        uniforms,
        normals,
        exponentials,
    };
    reports::fill(ChiSquared::new(k), lent, out, report)
}

// The fill of an output of one element, the first.
#[unsafe(no_mangle)]
pub extern "C" fn eweb_chi_squared_sample(
    k: f64,
    uniforms: &[f64],
    normals: &[f64],
    exponentials: &[f64],
    out: &mut [f64],
    report: &mut [usize],
) -> usize
    ensures { SampleCallBy (chi_ready (chi_made k)) (lent_of uniforms normals exponentials) out report result }
{
    let lent = Lent {
        uniforms,
        normals,
        exponentials,
    };
    reports::sample(ChiSquared::new(k), lent, out, report)
}
