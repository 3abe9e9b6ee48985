// ln: x is m * 2^e with m within the root of 2 either way of 1, and ln m is 2 * artanh((m - 1) / (m + 1)), an odd series.
ghost use Rattle.std.specs.Prelude.{◌≡◌, ◌+◌, ◌≤◌, pos, ◌-ℤ◌, from_bits};
ghost use Rattle.std.specs.Int.Signed.{mag};
ghost use Rattle.std.specs.Float.{binary64};
ghost use Rattle.kernels.specs.Ln.{ln_at_lem, ln_of, ln_sum_lem};

use super::{HI, LO, Parts, split, split_normal};

const ROOT: f64 = 1.4142135623730951;

// The coefficients are 1/21, 1/19, .. 1/3, each rounded.
fn ln_sum(m: f64, e: f64) -> f64
    ensures { result ≡ ln_sum_lem m e }
{
    let s = (m - 1.0) / (m + 1.0);
    let q = s * s;
    let mut p = 0.047619047619047616;
    p = 0.05263157894736842 + q * p;
    p = 0.058823529411764705 + q * p;
    p = 0.06666666666666667 + q * p;
    p = 0.07692307692307693 + q * p;
    p = 0.09090909090909091 + q * p;
    p = 0.1111111111111111 + q * p;
    p = 0.14285714285714285 + q * p;
    p = 0.2 + q * p;
    p = 0.3333333333333333 + q * p;
    let t = s + s * (q * p);
    e * HI + (2.0 * t + e * LO)
}

// The logarithm of m * 2^e: an m above the root of 2 is halved first.
fn ln_at(m: f64, e: i64) -> f64
    requires { mag e ≤ 4096 }
    ensures { result ≡ ln_at_lem m e }
{
    if m > ROOT {
        ln_sum(m * 0.5, ((e + 1) as i32) as f64)
    } else {
        ln_sum(m, (e as i32) as f64)
    }
}

// The logarithm of a number above 0 by its parts: digits * 2^-52 is between 1 and 2.
#[inline(always)]
fn ln_digits(p: Parts) -> f64
    ensures { result ≡ ln_at_lem (from_bits binary64 (p.digits + 0x3fe0_0000_0000_0000)) (pos p.places -ℤ pos 1086) }
{
    ln_at(
        f64::from_bits(p.digits + 0x3fe0_0000_0000_0000),
        (p.places as i64) - 1086,
    )
}

// Any x: what is no normal number above 0 comes here.
fn ln_edge(x: f64) -> f64
    ensures { result ≡ ln_of x }
{
    if x == f64::INFINITY {
        x
    } else if 0.0 < x {
        ln_digits(split(x.to_bits()))
    } else if x == 0.0 {
        f64::NEG_INFINITY
    } else {
        f64::NAN
    }
}

// The normal numbers above 0 come first: they are what samplers ask for.
pub fn ln(x: f64) -> f64
    ensures { result ≡ ln_of x }
{
    if 0.0 < x {
        let b = x.to_bits();
        if 0x10_0000_0000_0000 <= b && b < 0x7ff0_0000_0000_0000 {
            return ln_digits(split_normal(b));
        }
    }
    ln_edge(x)
}
