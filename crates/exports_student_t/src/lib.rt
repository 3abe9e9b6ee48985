// Student t samples for C and Rust to link, on plain numbers and lent arrays: an output filled, and a single one.
#![tactic(auto)]

ghost use Rattle.student_t.specs.StudentT.{student_made};
ghost use Rattle.reports.specs.Calls.{lent_of, FillCallBy, SampleCallBy};
ghost use Rattle.exports_student_t.specs.Ready.{student_ready};

use draws::Lent;
use student_t::StudentT;

#[unsafe(no_mangle)]
pub extern "C" fn eweb_student_t_fill(
    nu: f64,
    uniforms: &[f64],
    normals: &[f64],
    exponentials: &[f64],
    out: &mut [f64],
    report: &mut [usize],
) -> usize
    ensures { FillCallBy (student_ready (student_made nu)) (lent_of uniforms normals exponentials) out report result }
{
    let lent = Lent {
        uniforms,
        normals,
        exponentials,
    };
    reports::fill(StudentT::new(nu), lent, out, report)
}

// The fill of an output of one element, the first.
#[unsafe(no_mangle)]
pub extern "C" fn eweb_student_t_sample(
    nu: f64,
    uniforms: &[f64],
    normals: &[f64],
    exponentials: &[f64],
    out: &mut [f64],
    report: &mut [usize],
) -> usize
    ensures { SampleCallBy (student_ready (student_made nu)) (lent_of uniforms normals exponentials) out report result }
{
    let lent = Lent {
        uniforms,
        normals,
        exponentials,
    };
    reports::sample(StudentT::new(nu), lent, out, report)
}
