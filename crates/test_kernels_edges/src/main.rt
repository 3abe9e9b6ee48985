// Prints the kernels' answers at the edges of document 01, each as the 16 hexadecimal digits of its 64 bits; then the whole roots that sqrt rests on,
// at the ends of their range and of the table they start from.
#![tactic(auto)]

use roots::rounded_root;
use std::io;
use words::{float_of, word_of};

// 1 and its neighbours, both zeros, the ends of the subnormals, ROOT and one above, the largest number, infinities, -1, NaN.
const LN_EDGES: [u64; 15] = [
    0x3ff0_0000_0000_0000,
    0x3fef_ffff_ffff_ffff,
    0x3ff0_0000_0000_0001,
    0x0000_0000_0000_0000,
    0x8000_0000_0000_0000,
    0x0000_0000_0000_0001,
    0x000f_ffff_ffff_ffff,
    0x0010_0000_0000_0000,
    0x3ff6_a09e_667f_3bcd,
    0x3ff6_a09e_667f_3bce,
    0x7fef_ffff_ffff_ffff,
    0x7ff0_0000_0000_0000,
    0xfff0_0000_0000_0000,
    0xbff0_0000_0000_0000,
    0xfff4_0000_0000_0077,
];

// Both zeros, 1, -1, 710 and just inside, -708 and just above; the last normal answer and the first subnormal one, the last above 0 and the
// next; just inside -746 and -746, infinities, NaN.
const EXP_EDGES: [u64; 17] = [
    0x0000_0000_0000_0000,
    0x8000_0000_0000_0000,
    0x3ff0_0000_0000_0000,
    0xbff0_0000_0000_0000,
    0x4086_3000_0000_0000,
    0x4086_2fff_ffff_ffff,
    0xc086_2000_0000_0000,
    0xc086_1fff_ffff_ffff,
    0xc086_232b_dd7a_bcd2,
    0xc086_232b_dd7a_bcd3,
    0xc087_4910_d52d_3051,
    0xc087_4910_d52d_3052,
    0xc087_4fff_ffff_ffff,
    0xc087_5000_0000_0000,
    0x7ff0_0000_0000_0000,
    0xfff0_0000_0000_0000,
    0x7ff0_0000_0000_0001,
];

// (0.3, 2.5), (1, inf), (0, 0), (inf, 0), (-2, 2), (0.5, 0), (0.5, inf), the smallest subnormal and 1.
const POWF_EDGES: [(u64, u64); 8] = [
    (0x3fd3_3333_3333_3333, 0x4004_0000_0000_0000),
    (0x3ff0_0000_0000_0000, 0x7ff0_0000_0000_0000),
    (0x0000_0000_0000_0000, 0x0000_0000_0000_0000),
    (0x7ff0_0000_0000_0000, 0x0000_0000_0000_0000),
    (0xc000_0000_0000_0000, 0x4000_0000_0000_0000),
    (0x3fe0_0000_0000_0000, 0x0000_0000_0000_0000),
    (0x3fe0_0000_0000_0000, 0x7ff0_0000_0000_0000),
    (0x0000_0000_0000_0001, 0x3ff0_0000_0000_0000),
];

// Both zeros, the smallest and largest subnormals, 1, 2, 4, the largest number, infinities, -1, NaN.
const SQRT_EDGES: [u64; 12] = [
    0x0000_0000_0000_0000,
    0x8000_0000_0000_0000,
    0x0000_0000_0000_0001,
    0x000f_ffff_ffff_ffff,
    0x3ff0_0000_0000_0000,
    0x4000_0000_0000_0000,
    0x4010_0000_0000_0000,
    0x7fef_ffff_ffff_ffff,
    0x7ff0_0000_0000_0000,
    0xfff0_0000_0000_0000,
    0xbff0_0000_0000_0000,
    0xfff8_0000_0000_0000,
];

// 2^52, the first of the first entry's numbers, and the last of them; 2^53 - 1; 2^53 and the last of its entry's; the first of the last entry's;
// 2^54 - 2, the largest that sqrt asks for, and 2^54 - 1: from 2^53 on sqrt asks for no odd number. Outside the range: 0, 2^52 - 1, 2^54 and the
// largest number.
const ROOT_ENDS: [u64; 12] = [
    0x0010_0000_0000_0000,
    0x0010_0fff_ffff_ffff,
    0x001f_ffff_ffff_ffff,
    0x0020_0000_0000_0000,
    0x0020_0fff_ffff_ffff,
    0x003f_f000_0000_0000,
    0x003f_ffff_ffff_fffe,
    0x003f_ffff_ffff_ffff,
    0x0000_0000_0000_0000,
    0x000f_ffff_ffff_ffff,
    0x0040_0000_0000_0000,
    0xffff_ffff_ffff_ffff,
];

// A row for each word: the word and what `f` makes of it.
fn rows<F: Fn(u64) -> u64>(rt: &impl Print, name: &str, words: &[u64], f: F) -> io::Result<()>
    requires { F.IsAlwaysCallable f }
{
    for w in words {
        let answer = f(*w);
        println!(rt; "{name} {w:016x} -> {answer:016x}")?;
    }
    Ok(())
}

// The words of a kernel's arguments and answers.
fn kernel_rows<F: Fn(f64) -> f64>(
    rt: &impl Print,
    name: &str,
    words: &[u64],
    kernel: F,
) -> io::Result<()>
    requires { F.IsAlwaysCallable kernel }
{
    rows(rt, name, words, |w| word_of(kernel(float_of(w))))
}

// The two arguments stand one after the other.
fn powf_rows(rt: &impl Print) -> io::Result<()> {
    for (u, y) in POWF_EDGES {
        let answer = word_of(kernels::powf(float_of(u), float_of(y)));
        println!(rt; "powf {u:016x} {y:016x} -> {answer:016x}")?;
    }
    Ok(())
}

fn main(rt: HostRuntime) -> io::Result<()> {
    kernel_rows(&rt, "ln  ", &LN_EDGES, |x| kernels::ln(x))?;
    kernel_rows(&rt, "exp ", &EXP_EDGES, |x| kernels::exp(x))?;
    powf_rows(&rt)?;
    kernel_rows(&rt, "sqrt", &SQRT_EDGES, |x| kernels::sqrt(x))?;
    rows(&rt, "root", &ROOT_ENDS, rounded_root)
}
