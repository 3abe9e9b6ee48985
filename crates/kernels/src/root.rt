// sqrt by IEEE 754: the whole-number root of the significand, which `roots` finds, rounded once.
ghost use Rattle.std.specs.Prelude.{◌≡◌, ◌-◌, ◌*◌, ◌^◌, ◌<◌, ◌≤◌};
ghost use Rattle.kernels.specs.Sqrt.{sqrt_of};

use super::{Parts, split};
use roots::rounded_root;

// A significand and its place, the exponent even: the root of significand * 2^52 stands `place` places above the unit 2^-1074.
#[derive(Clone, Copy)]
struct Scaled {
    significand: u64,
    place: u64,
    ghost low: { 2 ^ 52 ≤ significand },
    ghost high: { significand < 2 ^ 54 - 1 },
    ghost most: { place < 2040 },
}

#[inline(always)]
fn even(p: Parts) -> Scaled
    ensures { p.digits * 2 ^ p.places * 2 ^ 1010 ≡ result.significand * 2 ^ 52 * 2 ^ result.place * 2 ^ result.place }
{
    let place = p.places / 2 + 479;
    if p.places % 2 == 0 {
        Scaled {
            significand: p.digits,
            place,
        }
    } else {
        Scaled {
            significand: p.digits * 2,
            place,
        }
    }
}

// The square root of x.
pub fn sqrt(x: f64) -> f64
    ensures { result ≡ sqrt_of x }
{
    if 0.0 < x {
        let b = x.to_bits();
        if b < 0x7ff0_0000_0000_0000 {
            let s = even(split(b));
            let r = rounded_root(s.significand);
            f64::from_bits((s.place << 52) + r)
        } else {
            x
        }
    } else if x == 0.0 {
        x
    } else {
        f64::NAN
    }
}
