// ln, exp, powf and sqrt in f64 by document 01's section Kernels: each operation rounds once, in the order written, so that
// a result is the same bits wherever it is computed. The rules are in specs/, and each function is proved equal to its rule.
#![tactic(auto)]

mod exponential;
mod logarithm;
mod root;

ghost use Rattle.std.specs.Prelude.{◌≡◌, ◌^◌, ◌<◌, ◌≤◌};
ghost use Rattle.kernels.specs.Inner.{Digits, infinite};

pub use exponential::{exp, powf};
pub use logarithm::ln;
pub use root::sqrt;

// ln 2 as HI + LO; HI's last 21 bits are 0, so that e * HI is exact.
const HI: f64 = 0.6931471803691238;

const LO: f64 = 1.9082149292705877e-10;

// x, and every NaN as the bits 7ff8000000000000: the last step before a value is handed out. (Logic has one NaN, so the promise is x.)
pub fn one_nan(x: f64) -> f64
    ensures { result ≡ x }
{
    if x.is_nan() { f64::NAN } else { x }
}

// A number above 0 is digits * 2^(places - 64) units of 2^-1074, and digits has 53 binary digits.
#[derive(Clone, Copy)]
struct Parts {
    digits: u64,
    places: u64,
    ghost low: { 2 ^ 52 ≤ digits },
    ghost high: { digits < 2 ^ 53 },
    ghost most: { places < 2110 },
}

fn split_normal(b: u64) -> Parts
    requires { (2 ^ 52 ≤ b) × (b < infinite) }
    ensures { Digits b result.digits result.places }
{
    Parts {
        digits: b % 0x10_0000_0000_0000 + 0x10_0000_0000_0000,
        places: b / 0x10_0000_0000_0000 + 63,
    }
}

// The leading digit of a subnormal moves up to the place of a normal's.
fn split_subnormal(b: u64) -> Parts
    requires { (0 < b) × (b < 2 ^ 52) }
    ensures { Digits b result.digits result.places }
{
    let z = b.leading_zeros() - 11;
    Parts {
        digits: b << z,
        places: 64 - z as u64,
    }
}

fn split(b: u64) -> Parts
    requires { (0 < b) × (b < infinite) }
    ensures { Digits b result.digits result.places }
{
    if b < 0x10_0000_0000_0000 {
        split_subnormal(b)
    } else {
        split_normal(b)
    }
}
