// Beta samples for C and Rust to link, on plain numbers and lent arrays: an output filled, a single one, and what the constructor made.
#![tactic(auto)]

ghost use Rattle.std.specs.Prelude.{◌≡◌};
ghost use Rattle.beta.specs.Beta.{beta_made};
ghost use Rattle.kept.specs.Kept.{beta_kept};
ghost use Rattle.reports.specs.Calls.{lent_of, FillCallBy, SampleCallBy};
ghost use Rattle.reports.specs.Shown.{ShowsBy};
ghost use Rattle.exports_beta.specs.Ready.{beta_ready};
ghost use Rattle.exports_beta.specs.Shown.{fields_shown, beta_shown};

use beta::Beta;
use draws::Lent;
use kept::BetaFields;

#[unsafe(no_mangle)]
pub extern "C" fn eweb_beta_fill(
    alpha: f64,
    beta: f64,
    uniforms: &[f64],
    normals: &[f64],
    exponentials: &[f64],
    out: &mut [f64],
    report: &mut [usize],
) -> usize
    ensures { FillCallBy (beta_ready (beta_made alpha beta)) (lent_of uniforms normals exponentials) out report result }
{
    let lent = Lent {
        uniforms,
        normals,
        exponentials,
    };
    reports::fill(Beta::new(alpha, beta), lent, out, report)
}

// The fill of an output of one element, the first.
#[unsafe(no_mangle)]
pub extern "C" fn eweb_beta_sample(
    alpha: f64,
    beta: f64,
    uniforms: &[f64],
    normals: &[f64],
    exponentials: &[f64],
    out: &mut [f64],
    report: &mut [usize],
) -> usize
    ensures { SampleCallBy (beta_ready (beta_made alpha beta)) (lent_of uniforms normals exponentials) out report result }
{
    let lent = Lent {
        uniforms,
        normals,
        exponentials,
    };
    reports::sample(Beta::new(alpha, beta), lent, out, report)
}

fn shown(b: Beta) -> ([usize; 2], [f64; 7])
    ensures { result ≡ fields_shown (beta_kept b) }
{
    let k = BetaFields::from(b);
    (
        [k.kind, k.switched_params],
        [k.a, k.b, k.alpha, k.beta, k.gamma, k.kappa1, k.kappa2],
    )
}

// The kind and the switch, and the fields, in the cells of `beta_shown`.
#[unsafe(no_mangle)]
pub extern "C" fn eweb_beta_made(
    alpha: f64,
    beta: f64,
    kinds: &mut [usize],
    fields: &mut [f64],
) -> usize
    ensures { ShowsBy 2 7 (beta_shown (beta_made alpha beta)) kinds fields result }
{
    reports::show(Beta::new(alpha, beta).map(shown), kinds, fields)
}
