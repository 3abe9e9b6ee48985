// exp and powf. exp: x is k * ln 2 + r with r at most about ln 2 / 2 in size, so exp x is 2^k * exp r, and exp r the sum of its series.
ghost use Rattle.std.specs.Prelude.{◌≡◌, ◌≤◌};
ghost use Rattle.std.specs.Int.Signed.{mag};
ghost use Rattle.kernels.specs.Exp.{exp_at_lem, exp_between_lem, exp_of, exp_scaled_lem, exp_sum_lem};
ghost use Rattle.kernels.specs.Numbers.{pow2 as pow2_of};
ghost use Rattle.kernels.specs.Inner.{Cut, Within};
ghost use Rattle.kernels.specs.Powf.{powf_of};

use super::logarithm::ln;
use super::{HI, LO};

const INV: f64 = 1.4426950408889634;

const UPPER: f64 = 710.0;

const LOWER: f64 = -746.0;

// The coefficients are 1/13!, 1/12!, .. 1/0!, each rounded.
fn exp_sum(x: f64, k: f64) -> f64
    ensures { result ≡ exp_sum_lem x k }
{
    let r = (x - k * HI) - k * LO;
    let mut p = 1.6059043836821613e-10;
    p = 2.08767569878681e-09 + r * p;
    p = 2.505210838544172e-08 + r * p;
    p = 2.755731922398589e-07 + r * p;
    p = 2.7557319223985893e-06 + r * p;
    p = 2.48015873015873e-05 + r * p;
    p = 0.0001984126984126984 + r * p;
    p = 0.001388888888888889 + r * p;
    p = 0.008333333333333333 + r * p;
    p = 0.041666666666666664 + r * p;
    p = 0.16666666666666666 + r * p;
    p = 0.5 + r * p;
    p = 1.0 + r * p;
    p = 1.0 + r * p;
    p
}

// 2^h by its bits
fn pow2(h: i64) -> f64
    requires { mag h ≤ 1000 }
    ensures { result ≡ pow2_of h }
{
    f64::from_bits(((h + 1023) as u64) * 0x10_0000_0000_0000)
}

// p * 2^k in two steps, since 2^k alone may be out of range; k >> 1 is the floor of k / 2.
fn exp_scaled(p: f64, k: i64) -> f64
    requires { mag k ≤ 1078 }
    ensures { result ≡ exp_scaled_lem p k }
{
    let h = k >> 1;
    (p * pow2(h)) * pow2(k - h)
}

fn exp_at(x: f64, k: i64) -> f64
    requires { mag k ≤ 1078 }
    ensures { result ≡ exp_at_lem x k }
{
    let d = (k as i32) as f64;
    exp_scaled(exp_sum(x, d), k)
}

// y to the nearest whole number, halves away from zero.
fn cut(y: f64) -> i64
    requires { Within 1 1077 y }
    ensures { Cut y result }
{
    if y >= 0.0 {
        std::num::truncating_f64_to_i64(y + 0.5)
    } else {
        std::num::truncating_f64_to_i64(y - 0.5)
    }
}

// From about -708.4 down the second scaling rounds, into the subnormals: the first is exact.
fn exp_between(x: f64) -> f64
    requires { Within 1 746 x }
    ensures { result ≡ exp_between_lem x }
{
    exp_at(x, cut(x * INV))
}

pub fn exp(x: f64) -> f64
    ensures { result ≡ exp_of x }
{
    if x.is_nan() {
        return f64::NAN;
    }
    if x >= UPPER {
        return f64::INFINITY;
    }
    if x <= LOWER {
        return 0.0;
    }
    exp_between(x)
}

// exp(y * ln u) for any u and y: no case of its own, so that powf(1, inf) and powf(0, 0) are NaN.
pub fn powf(u: f64, y: f64) -> f64
    ensures { result ≡ powf_of u y }
{
    exp(y * ln(u))
}
