// A line of the recorded list, and whether the proved kernels give its answer. Nothing is read or written here.
ghost use Rattle.std.specs.Prelude.{◌≡◌, false, unwrap_or, slice_index};
ghost use Rattle.test_kernels_replay.specs.Lines.{field_of, call_of, same_answer, told_of, spaced_of, agrees_of};

use words::float_of;

// The word of 16 hexadecimal digits at `at`.
#[tactic(auto, unfolding(crate::specs::Lines::field_of))]
fn hex(line: &[u8; 53], at: usize) -> Option<u64>
    ensures { result ≡ field_of at line.now }
{
    let (bits, _) = sheet_words::word(line, at).ok()?;
    Some(bits)
}

// What the kernel of a letter answers; one that takes one argument leaves the second alone.
#[tactic(auto, using(std::proofs::lemmas::Bool::Decides::nat_tests), unfolding(crate::specs::Lines::call_of))]
fn call(letter: u8, x: f64, y: f64) -> Option<f64>
    ensures { result ≡ call_of letter x y }
{
    match letter {
        b'l' => Some(kernels::ln(x)),
        b'e' => Some(kernels::exp(x)),
        b'p' => Some(kernels::powf(x, y)),
        b's' => Some(kernels::sqrt(x)),
        _ => None,
    }
}

// A recorded NaN's own bits don't count, so its word is read and written once more before the two are compared.
#[tactic(auto, unfolding(crate::specs::Lines::same_answer))]
fn same(told: u64, x: f64) -> bool
    ensures { result ≡ same_answer told x }
{
    words::word_of(float_of(told)) == words::word_of(x)
}

// The spaces before the three words, and the line feed.
#[tactic(auto, using(std::proofs::lemmas::Bool::Decides::nat_tests), unfolding(crate::specs::Lines::spaced_of))]
fn spaced(line: &[u8; 53]) -> bool
    ensures { result ≡ spaced_of line.now }
{
    line[1] == b' ' && line[18] == b' ' && line[35] == b' ' && line[52] == b'\n'
}

// Whether the recorded answer is the kernel's; none where a field is no word or the letter no kernel's.
#[tactic(auto, unfolding(crate::specs::Lines::told_of, crate::specs::Lines::answered_of))]
fn told(line: &[u8; 53]) -> Option<bool>
    ensures { unwrap_or result false ≡ told_of (slice_index line.now 0) (field_of 2 line.now) (field_of 19 line.now) (field_of 36 line.now) }
{
    let x = hex(line, 2)?;
    let y = hex(line, 19)?;
    let answer = hex(line, 36)?;
    let value = call(line[0], float_of(x), float_of(y))?;
    Some(same(answer, value))
}

// Whether the line is well formed and its answer the kernel's.
#[tactic(auto, unfolding(crate::specs::Lines::agrees_of))]
pub fn agrees(line: &[u8; 53]) -> bool
    ensures { result ≡ agrees_of line.now }
{
    spaced(line) && told(line).unwrap_or(false)
}
