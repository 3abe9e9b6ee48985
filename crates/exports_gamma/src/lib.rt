// Gamma samples for C and Rust to link, on plain numbers and lent arrays: an output filled, a single one, and what the constructor made.
#![tactic(auto)]

ghost use Rattle.std.specs.Prelude.{◌≡◌};
ghost use Rattle.gamma.specs.Gamma.{gamma_made};
ghost use Rattle.kept.specs.Kept.{gamma_kept};
ghost use Rattle.reports.specs.Calls.{lent_of, FillCallBy, SampleCallBy};
ghost use Rattle.reports.specs.Shown.{ShowsBy};
ghost use Rattle.exports_gamma.specs.Ready.{gamma_ready};
ghost use Rattle.exports_gamma.specs.Shown.{fields_shown, gamma_shown};

use draws::Lent;
use gamma::Gamma;
use kept::GammaFields;

#[unsafe(no_mangle)]
pub extern "C" fn eweb_gamma_fill(
    shape: f64,
    scale: f64,
    uniforms: &[f64],
    normals: &[f64],
    exponentials: &[f64],
    out: &mut [f64],
    report: &mut [usize],
) -> usize
    ensures { FillCallBy (gamma_ready (gamma_made shape scale)) (lent_of uniforms normals exponentials) out report result }
{
    let lent = Lent {
        uniforms,
        normals,
        exponentials,
    };
    reports::fill(Gamma::new(shape, scale), lent, out, report)
}

// The fill of an output of one element, the first.
#[unsafe(no_mangle)]
pub extern "C" fn eweb_gamma_sample(
    shape: f64,
    scale: f64,
    uniforms: &[f64],
    normals: &[f64],
    exponentials: &[f64],
    out: &mut [f64],
    report: &mut [usize],
) -> usize
    ensures { SampleCallBy (gamma_ready (gamma_made shape scale)) (lent_of uniforms normals exponentials) out report result }
{
    let lent = Lent {
        uniforms,
        normals,
        exponentials,
    };
    reports::sample(Gamma::new(shape, scale), lent, out, report)
}

fn shown(g: Gamma) -> ([usize; 1], [f64; 5])
    ensures { result ≡ fields_shown (gamma_kept g) }
{
    let k = GammaFields::from(g);
    ([k.kind], [k.lambda_inverse, k.inv_shape, k.scale, k.c, k.d])
}

// The kind, and the fields in the cells of `gamma_shown`.
#[unsafe(no_mangle)]
pub extern "C" fn eweb_gamma_made(
    shape: f64,
    scale: f64,
    kinds: &mut [usize],
    fields: &mut [f64],
) -> usize
    ensures { ShowsBy 1 5 (gamma_shown (gamma_made shape scale)) kinds fields result }
{
    reports::show(Gamma::new(shape, scale).map(shown), kinds, fields)
}
