// Dirichlet for C and Rust to link: one vector, on plain numbers and lent arrays.
#![tactic(auto)]

ghost use Rattle.reports.specs.Calls.{lent_of};
ghost use Rattle.exports_dirichlet.specs.Vectors.{VectorCallBy};

use draws::Lent;

// The output is as long as alpha, else the call is refused by 16.
#[unsafe(no_mangle)]
pub extern "C" fn eweb_dirichlet(
    alpha: &[f64],
    uniforms: &[f64],
    normals: &[f64],
    exponentials: &[f64],
    out: &mut [f64],
    report: &mut [usize],
) -> usize
    ensures { VectorCallBy alpha (lent_of uniforms normals exponentials) out report result }
{
    let Some(at) = reports::asked(report) else {
        return reports::SHORT;
    };
    let lent = Lent {
        uniforms,
        normals,
        exponentials,
    };
    match dirichlet::sample(alpha, lent, at, out) {
        Ok(q) => reports::done(q, report),
        Err((r, _)) => reports::refused(r.into(), report),
    }
}
