// Roots of whole numbers, as sqrt needs them: of m * 2^52, rounded to the nearest. No float is here.
#![tactic(auto)]

mod entries;

ghost use Rattle.std.specs.Prelude.{◌≡◌, ◌+◌, ◌*◌, ◌^◌, ◌<◌, ◌≤◌};
ghost use Rattle.roots.specs.Roots.{Floor, Largest, Refinable, rounded_root_lem};

use entries::START;

// The root of 65536 * i, rounded down, between the powers 2^12 and 2^13: where the search for the root starts.
fn root_start(i: u64) -> u64
    requires { (256 ≤ i) × (i < 1024) }
    ensures { Largest (65536 * i) result }
{
    START[(i - 256) as usize] as u64
}

// A whole number's root, rounded down, and what is left.
#[derive(Clone, Copy)]
struct Root {
    root: u64,
    rest: u64,
}

impl Root {
    // From the root of a number, with the rest left, to the root of that number with two more digits, hi and lo, in the base b.
    #[inline(always)]
    fn refine(self, hi: u64, lo: u64, b: u64) -> Root
        requires { Refinable self.root self.rest hi lo b }
        ensures { Floor ((self.root * self.root + self.rest) * (b * b) + hi * b + lo) result.root result.rest }
    {
        let t = self.rest * b + hi;
        let q = t / (self.root * 2);
        let v = t % (self.root * 2) * b + lo;
        let r = self.root * b + q;
        if q * q <= v {
            Root {
                root: r,
                rest: v - q * q,
            }
        } else {
            Root {
                root: r - 1,
                rest: v + r * 2 - 1 - q * q,
            }
        }
    }
}

// The root of m * 2^52: 13 binary digits to start from, then 14, 27 and all 53.
fn floor_root(m: u64) -> Root
    requires { (2 ^ 52 ≤ m) × (m < 2 ^ 54) }
    ensures { Floor (m * 2 ^ 52) result.root result.rest }
{
    let e = root_start(m / 0x1000_0000_0000);
    let first = Root {
        root: e,
        rest: m / 0x1000_0000 - e * e,
    };
    first
        .refine(m / 0x800_0000 % 2, m / 0x400_0000 % 2, 2)
        .refine(m / 8192 % 8192, m % 8192, 8192)
        .refine(0, 0, 0x400_0000)
}

// The whole number nearest to the root of m * 2^52, for an m of 53 or 54 binary digits. The steps above hold for these alone, so any other m is
// answered by 0, and no caller owes a condition.
pub fn rounded_root(m: u64) -> u64
    ensures { result ≡ rounded_root_lem m }
{
    if 0x10_0000_0000_0000 <= m && m < 0x40_0000_0000_0000 {
        let r = floor_root(m);
        if r.root < r.rest { r.root + 1 } else { r.root }
    } else {
        0
    }
}
