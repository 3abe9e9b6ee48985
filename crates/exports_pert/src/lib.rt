// PERT samples for C and Rust to link, by a mode or by a mean, on plain numbers and lent arrays: an output filled, a single one, and what the
// constructor made.
#![tactic(auto)]

ghost use Rattle.std.specs.Prelude.{◌≡◌};
ghost use Rattle.kept.specs.Kept.{beta_kept};
ghost use Rattle.pert.specs.Pert.{builder, shaped, mode_made, mean_made};
ghost use Rattle.reports.specs.Calls.{lent_of, FillCallBy, SampleCallBy};
ghost use Rattle.reports.specs.Shown.{ShowsBy};
ghost use Rattle.exports_pert.specs.Ready.{pert_ready};
ghost use Rattle.exports_pert.specs.Shown.{fields_shown, pert_shown};

use draws::Lent;
use kept::BetaFields;
use pert::{Error, Pert};

fn by_mode(min: f64, max: f64, shape: f64, mode: f64) -> Result<Pert, Error>
    ensures { result ≡ mode_made (shaped (builder min max) shape) mode }
{
    Pert::new(min, max).with_shape(shape).with_mode(mode)
}

fn by_mean(min: f64, max: f64, shape: f64, mean: f64) -> Result<Pert, Error>
    ensures { result ≡ mean_made (shaped (builder min max) shape) mean }
{
    Pert::new(min, max).with_shape(shape).with_mean(mean)
}

#[unsafe(no_mangle)]
pub extern "C" fn eweb_pert_mode_fill(
    min: f64,
    max: f64,
    shape: f64,
    mode: f64,
    uniforms: &[f64],
    normals: &[f64],
    exponentials: &[f64],
    out: &mut [f64],
    report: &mut [usize],
) -> usize
    ensures { FillCallBy (pert_ready (mode_made (shaped (builder min max) shape) mode)) (lent_of uniforms normals exponentials) out report result }
{
    let lent = Lent {
        uniforms,
        normals,
        exponentials,
    };
    reports::fill(by_mode(min, max, shape, mode), lent, out, report)
}

#[unsafe(no_mangle)]
pub extern "C" fn eweb_pert_mean_fill(
    min: f64,
    max: f64,
    shape: f64,
    mean: f64,
    uniforms: &[f64],
    normals: &[f64],
    exponentials: &[f64],
    out: &mut [f64],
    report: &mut [usize],
) -> usize
    ensures { FillCallBy (pert_ready (mean_made (shaped (builder min max) shape) mean)) (lent_of uniforms normals exponentials) out report result }
{
    let lent = Lent {
        uniforms,
        normals,
        exponentials,
    };
    reports::fill(by_mean(min, max, shape, mean), lent, out, report)
}

// The fill of an output of one element, the first.
#[unsafe(no_mangle)]
pub extern "C" fn eweb_pert_mode_sample(
    min: f64,
    max: f64,
    shape: f64,
    mode: f64,
    uniforms: &[f64],
    normals: &[f64],
    exponentials: &[f64],
    out: &mut [f64],
    report: &mut [usize],
) -> usize
    ensures { SampleCallBy (pert_ready (mode_made (shaped (builder min max) shape) mode)) (lent_of uniforms normals exponentials) out report result }
{
    let lent = Lent {
        uniforms,
        normals,
        exponentials,
    };
    reports::sample(by_mode(min, max, shape, mode), lent, out, report)
}

#[unsafe(no_mangle)]
pub extern "C" fn eweb_pert_mean_sample(
    min: f64,
    max: f64,
    shape: f64,
    mean: f64,
    uniforms: &[f64],
    normals: &[f64],
    exponentials: &[f64],
    out: &mut [f64],
    report: &mut [usize],
) -> usize
    ensures { SampleCallBy (pert_ready (mean_made (shaped (builder min max) shape) mean)) (lent_of uniforms normals exponentials) out report result }
{
    let lent = Lent {
        uniforms,
        normals,
        exponentials,
    };
    reports::sample(by_mean(min, max, shape, mean), lent, out, report)
}

// The Beta's kind and switch, and the fields, in the cells of `pert_shown`.
fn shown(t: Pert) -> ([usize; 2], [f64; 9])
    ensures { result ≡ fields_shown t.min t.range (beta_kept t.beta) }
{
    let k = BetaFields::from(t.beta);
    let fields = [
        t.min, t.range, k.a, k.b, k.alpha, k.beta, k.gamma, k.kappa1, k.kappa2,
    ];
    ([k.kind, k.switched_params], fields)
}

#[unsafe(no_mangle)]
pub extern "C" fn eweb_pert_mode_made(
    min: f64,
    max: f64,
    shape: f64,
    mode: f64,
    kinds: &mut [usize],
    fields: &mut [f64],
) -> usize
    ensures { ShowsBy 2 9 (pert_shown (mode_made (shaped (builder min max) shape) mode)) kinds fields result }
{
    reports::show(by_mode(min, max, shape, mode).map(shown), kinds, fields)
}

#[unsafe(no_mangle)]
pub extern "C" fn eweb_pert_mean_made(
    min: f64,
    max: f64,
    shape: f64,
    mean: f64,
    kinds: &mut [usize],
    fields: &mut [f64],
) -> usize
    ensures { ShowsBy 2 9 (pert_shown (mean_made (shaped (builder min max) shape) mean)) kinds fields result }
{
    reports::show(by_mean(min, max, shape, mean).map(shown), kinds, fields)
}
