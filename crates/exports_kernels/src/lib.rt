// The kernels for C and Rust to link, under names that clash with nothing of the C library's. Each takes any number, a NaN of
// any sign and payload included, and hands a NaN back only as the bits 7ff8000000000000.
#![tactic(auto)]

ghost use Rattle.std.specs.Prelude.{◌≡◌};
ghost use Rattle.kernels.specs.Ln.{ln_of};
ghost use Rattle.kernels.specs.Exp.{exp_of};
ghost use Rattle.kernels.specs.Powf.{powf_of};
ghost use Rattle.kernels.specs.Sqrt.{sqrt_of};

#[unsafe(no_mangle)]
pub extern "C" fn eweb_ln(x: f64) -> f64
    ensures { result ≡ ln_of x }
{
    kernels::ln(x)
}

#[unsafe(no_mangle)]
pub extern "C" fn eweb_exp(x: f64) -> f64
    ensures { result ≡ exp_of x }
{
    kernels::exp(x)
}

#[unsafe(no_mangle)]
pub extern "C" fn eweb_powf(u: f64, y: f64) -> f64
    ensures { result ≡ powf_of u y }
{
    kernels::powf(u, y)
}

#[unsafe(no_mangle)]
pub extern "C" fn eweb_sqrt(x: f64) -> f64
    ensures { result ≡ sqrt_of x }
{
    kernels::sqrt(x)
}
