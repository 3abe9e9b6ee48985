// Fisher F samples for C and Rust to link, on plain numbers and lent arrays: an output filled, a single one, and what the constructor made.
#![tactic(auto)]

ghost use Rattle.std.specs.Prelude.{◌≡◌};
ghost use Rattle.fisher_f.specs.FisherF.{fisher_made};
ghost use Rattle.kept.specs.Kept.{chi_kept};
ghost use Rattle.reports.specs.Calls.{lent_of, FillCallBy, SampleCallBy};
ghost use Rattle.reports.specs.Shown.{ShowsBy};
ghost use Rattle.exports_fisher_f.specs.Ready.{fisher_ready};
ghost use Rattle.exports_fisher_f.specs.Shown.{fields_shown, fisher_shown};

use draws::Lent;
use fisher_f::FisherF;
use kept::GammaFields;

#[unsafe(no_mangle)]
pub extern "C" fn eweb_fisher_f_fill(
    m: f64,
    n: f64,
    uniforms: &[f64],
    normals: &[f64],
    exponentials: &[f64],
    out: &mut [f64],
    report: &mut [usize],
) -> usize
    ensures { FillCallBy (fisher_ready (fisher_made m n)) (lent_of uniforms normals exponentials) out report result }
{
    let lent = Lent {
        uniforms,
        normals,
        exponentials,
    };
    reports::fill(FisherF::new(m, n), lent, out, report)
}

// The fill of an output of one element, the first.
#[unsafe(no_mangle)]
pub extern "C" fn eweb_fisher_f_sample(
    m: f64,
    n: f64,
    uniforms: &[f64],
    normals: &[f64],
    exponentials: &[f64],
    out: &mut [f64],
    report: &mut [usize],
) -> usize
    ensures { SampleCallBy (fisher_ready (fisher_made m n)) (lent_of uniforms normals exponentials) out report result }
{
    let lent = Lent {
        uniforms,
        normals,
        exponentials,
    };
    reports::sample(FisherF::new(m, n), lent, out, report)
}

fn shown(f: FisherF) -> ([usize; 2], [f64; 11])
    ensures { result ≡ fields_shown f.dof_ratio (chi_kept f.numer) (chi_kept f.denom) }
{
    let top = GammaFields::from(f.numer);
    let bottom = GammaFields::from(f.denom);
    let fields = [
        top.lambda_inverse,
        top.inv_shape,
        top.scale,
        top.c,
        top.d,
        bottom.lambda_inverse,
        bottom.inv_shape,
        bottom.scale,
        bottom.c,
        bottom.d,
        f.dof_ratio,
    ];
    ([top.kind, bottom.kind], fields)
}

// The kinds of the numerator and of the denominator, and the fields, in the cells of `fisher_shown`.
#[unsafe(no_mangle)]
pub extern "C" fn eweb_fisher_f_made(
    m: f64,
    n: f64,
    kinds: &mut [usize],
    fields: &mut [f64],
) -> usize
    ensures { ShowsBy 2 11 (fisher_shown (fisher_made m n)) kinds fields result }
{
    reports::show(FisherF::new(m, n).map(shown), kinds, fields)
}
