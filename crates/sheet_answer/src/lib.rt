// The answer to a sheet, as an outcome and as bytes.
#![tactic(auto)]

ghost use Rattle.std.specs.Prelude.{◌≡◌, ◌≤◌, length, take};
ghost use Rattle.io.specs.Counts.{IsPrefixLen};
ghost use Rattle.sheet.specs.Whole.{parse};
ghost use Rattle.texts.specs.Laid.{Lays};
ghost use Rattle.sheet_answer.specs.Outcomes.{floats as floats_of, sheet_outcome, outcome_of_lem};
ghost use Rattle.sheet_answer.specs.Texts.{sample_text, refused_text, answer_text};

use draws::{Lent, Named, Positions};
use sheet_lines::Head;
use sheet_outcome::Outcome;

// The floats that words stand for, in the first cells.
fn floats(words: &[u64]) -> [f64; 64]
    requires { length words.now ≤ 64 }
    ensures { take (length words.now) result ≡ floats_of words.now }
{
    let mut out = [0.0; 64];
    for i in 0..words.len() {
        out[i] = words::float_of(words[i]);
    }
    out
}

// A sheet's outcome. Its lists have at most 64 words each.
fn outcome_of(h: Head, uniforms: &[u64], normals: &[u64], exponentials: &[u64]) -> Outcome
    requires uniforms_len_bound { length uniforms.now ≤ 64 }
    requires normals_len_bound { length normals.now ≤ 64 }
    requires exponentials_len_bound { length exponentials.now ≤ 64 }
    ensures { result ≡ sheet_outcome (record { head = h; lists = record { uniforms = uniforms.now; normals = normals.now; exponentials = exponentials.now } }) }
{
    let us = floats(uniforms);
    let ns = floats(normals);
    let es = floats(exponentials);
    let lent = Lent {
        uniforms: &us[..uniforms.len()],
        normals: &ns[..normals.len()],
        exponentials: &es[..exponentials.len()],
    };
    sheet_outcome::sampled(h.sampler, words::float_of(h.a), words::float_of(h.b), lent)
}

// What any bytes are answered by.
pub fn outcome(input: &[u8]) -> Outcome
    ensures { result ≡ outcome_of_lem (parse input.now) }
{
    let mut us = [0u64; 64];
    let mut ns = [0u64; 64];
    let mut es = [0u64; 64];
    match sheet::read(input, &mut us, &mut ns, &mut es) {
        Ok((head, counts)) => outcome_of(
            head,
            &us[..counts.uniforms],
            &ns[..counts.normals],
            &es[..counts.exponentials],
        ),
        Err(line) => Err(Named::numbered(20, line)),
    }
}

fn sample_lines(out: &mut [u8; 144], bits: u64, past: Positions) -> usize
    ensures { Lays out.old 0 (sample_text bits past.uniform.0 past.normal.0 past.exponential.0) result out.new }
{
    let a = texts::put(out, 0, b"answer=sample\n");
    let b = texts::hex_line(out, a, b"bits=", bits);
    let c = texts::decimal_line(out, b, b"uniforms-used=", past.uniform.0 as u64);
    let d = texts::decimal_line(out, c, b"normals-used=", past.normal.0 as u64);
    texts::decimal_line(out, d, b"exponentials-used=", past.exponential.0 as u64)
}

fn refused_lines(out: &mut [u8; 144], named: Named) -> usize
    ensures { Lays out.old 0 (refused_text named.number named.kind named.index) result out.new }
{
    let a = texts::put(out, 0, b"answer=refused\n");
    let b = texts::decimal_line(out, a, b"code=", named.number as u64);
    let c = texts::decimal_line(out, b, b"kind=", named.kind as u64);
    texts::decimal_line(out, c, b"at=", named.index as u64)
}

// No answer is longer than 144 bytes.
#[tactic(auto, unfolding(crate::specs::Texts::answer_text))]
fn lines(o: Outcome, out: &mut [u8; 144]) -> usize
    ensures { Lays out.old 0 (answer_text o) result out.new }
{
    match o {
        Ok((bits, past)) => sample_lines(out, bits, past),
        Err(named) => refused_lines(out, named),
    }
}

// The whole answer at the start of out, and its length; where out has no room for it, nothing and 0.
pub fn answer(input: &[u8], out: &mut [u8]) -> usize
    ensures lays { Lays out.old 0 (answer_text (outcome_of_lem (parse input.now))) result out.new }
    ensures prefix_len { IsPrefixLen result out.new }
{
    let mut text = [0u8; 144];
    let n = lines(outcome(input), &mut text);
    texts::put(out, 0, &text[..n])
}
