// An f64 and the word of 64 bits that stands for it, both ways and at every value. `f64::from_bits` is undefined at a NaN's
// word and `f64::to_bits` at a NaN, so each is the library's function that looks for a NaN first.
#![tactic(auto)]

ghost use Rattle.std.specs.Prelude.{◌≡◌};
ghost use Rattle.std.specs.Float.{binary64};
ghost use Rattle.std.specs.Float.Ieee.{of_bits};
ghost use Rattle.words.specs.Words.{word_of_lem};

use std::num;

// Any word: one with a NaN's bits, whatever its sign and payload, reads as NaN.
pub fn float_of(w: u64) -> f64
    ensures { result ≡ of_bits binary64 w }
{
    num::f64_from_bits_with_nan(w)
}

// Any float: whatever bits a NaN has in the machine, its word is the one of document 01.
#[tactic(auto, using(crate::proofs::Back::is_pattern))]
pub fn word_of(x: f64) -> u64
    ensures { result ≡ word_of_lem x }
{
    num::f64_to_bits_with_nan(x)
}
