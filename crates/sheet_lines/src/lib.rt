// The sheet of document 01: seven lines of bytes, read from the front. Its lists are not stored: where each stands is told.
#![tactic(auto)]

ghost use Rattle.std.specs.Prelude.{◌≡◌, Ok, Err, drop, MatchResult};
ghost use Rattle.sheet_lines.specs.Keys.{lone as lone_lem, name_text};
ghost use Rattle.sheet_lines.specs.Lines.{any_name_lem, sampler_line_lem, second_line_lem, head_lines_lem, list_lines_lem, sheet_lines};
ghost use Rattle.sheet_words.specs.Inner.{counted_shown};
ghost use Rattle.sheet_lines.specs.Inner.{sampler_shown, head_shown, lists_shown, ListsIn, scanned_shown, ScannedIn};

use sheet_words::{Fault, Span, list_line, past, word_line};

#[derive(Clone, Copy)]
pub enum Sampler {
    Gamma,
    Beta,
    Chi,
    Fisher,
    Student,
}

// Lines 2 to 4: the sampler and the words of its parameters, b 0 where there is one only.
#[derive(Clone, Copy)]
pub struct Head {
    pub sampler: Sampler,
    pub a: u64,
    pub b: u64,
}

// One of a kind for each list.
#[derive(Clone, Copy)]
pub struct Each<T> {
    pub uniforms: T,
    pub normals: T,
    pub exponentials: T,
}

// How many numbers there are in each list, or how many there is room for.
pub type Counts = Each<usize>;

// The three lists, right and not yet stored.
pub type Spans = Each<Span>;

// Why and at which line, counted from 1, reading stops.
#[derive(Clone, Copy)]
pub struct WrongLine {
    pub fault: Fault,
    pub line: usize,
}

// A sampler's name, and the line feed after it.
fn name(k: Sampler) -> &'static [u8]
    ensures { result.now ≡ name_text k }
{
    match k {
        Sampler::Gamma => b"gamma\n",
        Sampler::Beta => b"beta\n",
        Sampler::Chi => b"chi\n",
        Sampler::Fisher => b"fisher\n",
        Sampler::Student => b"student\n",
    }
}

// The sampler whose name stands at `at`, and the line feed after it.
fn any_name(s: &[u8], at: usize) -> Result<(Sampler, usize), Fault>
    ensures { sampler_shown s.now result ≡ any_name_lem (drop at s.now) }
{
    let samplers = [
        Sampler::Gamma,
        Sampler::Beta,
        Sampler::Chi,
        Sampler::Fisher,
        Sampler::Student,
    ];
    for k in samplers {
        match past(s, at, name(k)) {
            Ok(end) => return Ok((k, end)),
            Err(Fault::Ended) => return Err(Fault::Ended),
            Err(Fault::Wrong) => {}
        }
    }
    Err(Fault::Wrong)
}

// Line 2.
fn sampler_line(s: &[u8], at: usize) -> Result<(Sampler, usize), Fault>
    ensures { sampler_shown s.now result ≡ sampler_line_lem (drop at s.now) }
{
    any_name(s, past(s, at, b"sampler=")?)
}

// Whether the sampler has one parameter.
fn lone(k: Sampler) -> bool
    ensures { result ≡ lone_lem k }
{
    matches!(k, Sampler::Chi | Sampler::Student)
}

// Line 4.
fn second_line(s: &[u8], at: usize, k: Sampler) -> Result<(u64, usize), Fault>
    ensures { counted_shown s.now result ≡ second_line_lem k (drop at s.now) }
{
    if lone(k) {
        let end = past(s, at, b"b=0000000000000000\n")?;
        Ok((0, end))
    } else {
        word_line(s, at, b"b=")
    }
}

// What is read in a line, which is named where that is not right.
fn in_line<T>(line: usize, read: Result<T, Fault>) -> Result<T, WrongLine>
    ensures { MatchResult result (λ v. read ≡ Ok v) (λ e. (read ≡ Err e.fault) × (e.line ≡ line)) }
{
    read.map_err(|fault| WrongLine { fault, line })
}

// Lines 1 to 4.
fn head_lines(s: &[u8]) -> Result<(Head, usize), WrongLine>
    ensures { head_shown s.now result ≡ head_lines_lem s.now }
{
    let at = in_line(1, past(s, 0, b"edition=1\n"))?;
    let (sampler, at) = in_line(2, sampler_line(s, at))?;
    let (a, at) = in_line(3, word_line(s, at, b"a="))?;
    let (b, at) = in_line(4, second_line(s, at, sampler))?;
    Ok((Head { sampler, a, b }, at))
}

// Lines 5 to 7.
fn list_lines(s: &[u8], at: usize, most: Counts) -> Result<(Spans, usize), WrongLine>
    ensures result_value { lists_shown s.now result ≡ list_lines_lem most (drop at s.now) }
    ensures lists_in { ListsIn s.now most (drop at s.now) result }
{
    let (uniforms, at) = in_line(5, list_line(s, at, b"uniforms=", most.uniforms))?;
    let (normals, at) = in_line(6, list_line(s, at, b"normals=", most.normals))?;
    let (exponentials, at) = in_line(7, list_line(s, at, b"exponentials=", most.exponentials))?;
    let lists = Spans {
        uniforms,
        normals,
        exponentials,
    };
    Ok((lists, at))
}

// The sheet at the front of s, its lists not yet stored, and the position past it.
pub fn scan(s: &[u8], most: Counts) -> Result<(Head, Spans, usize), WrongLine>
    ensures result_value { scanned_shown s.now result ≡ sheet_lines most s.now }
    ensures scanned_in { ScannedIn s.now most result }
{
    let (head, at) = head_lines(s)?;
    let (lists, end) = list_lines(s, at, most)?;
    Ok((head, lists, end))
}
