// What stands at a position of bytes: a fixed text, a number of 16 hex digits, a list of such numbers, and either of these after a key.
// Any position may be asked for: past the end nothing stands. What is read is answered with the position past it.
#![tactic(auto)]

ghost use Rattle.std.specs.Prelude.{◌≡◌, [], drop, IfOk, IfErr};
ghost use Rattle.sheet_words.specs.Bytes.{fixed, digit_value, word as word_lem, word_list, word_line, list_line_lem};
ghost use Rattle.sheet_words.specs.Inner.{passed_shown, counted_shown, listed_shown, ByteAt, ListedIn};

// Why reading stops: a byte that no right text has there, or the end of the bytes.
#[derive(Clone, Copy)]
pub enum Fault {
    Wrong,
    Ended,
}

// A list that is right and not yet stored: where its first number starts, and how many there are.
#[derive(Clone, Copy)]
pub struct Span {
    pub at: usize,
    pub count: usize,
}

// The byte at a position.
fn byte(s: &[u8], at: usize) -> Result<u8, Fault>
    ensures ok { IfOk result (λ b. ByteAt s.now at b) }
    ensures err { IfErr result (λ e. (e ≡ Fault.Ended) × (drop at s.now ≡ [])) }
{
    s.get(at).copied().ok_or(Fault::Ended)
}

// The position past the text, where it stands at `at`.
pub fn past(s: &[u8], at: usize, text: &[u8]) -> Result<usize, Fault>
    ensures { passed_shown s.now result ≡ fixed text.now (drop at s.now) }
{
    let mut end = at;
    for wanted in text {
        if byte(s, end)? != *wanted {
            return Err(Fault::Wrong);
        }
        end += 1;
    }
    Ok(end)
}

// What a lowercase hex digit stands for.
#[tactic(auto, using(std::proofs::lemmas::Bool::Decides::nat_tests), unfolding(crate::specs::Bytes::digit_value))]
fn digit(b: u8) -> Option<u64>
    ensures { result ≡ digit_value b }
{
    match b {
        b'0'..=b'9' => Some((b - b'0') as u64),
        b'a'..=b'f' => Some((b - b'a' + 10) as u64),
        _ => None,
    }
}

// The number of 16 hex digits at `at`.
pub fn word(s: &[u8], at: usize) -> Result<(u64, usize), Fault>
    ensures { counted_shown s.now result ≡ word_lem (drop at s.now) }
{
    let mut n = 0;
    let mut end = at;
    for _ in 0..16u32 {
        let d = digit(byte(s, end)?).ok_or(Fault::Wrong)?;
        n = n * 16 + d;
        end += 1;
    }
    Ok((n, end))
}

// The list of at most `most` numbers at `at`, to past its line feed.
fn list(s: &[u8], at: usize, most: usize) -> Result<(Span, usize), Fault>
    ensures result_value { listed_shown s.now result ≡ word_list most (drop at s.now) }
    ensures listed_in { ListedIn s.now [] (drop at s.now) most result }
{
    if byte(s, at)? == b'\n' {
        return Ok((Span { at, count: 0 }, at + 1));
    }
    let mut next = at;
    for met in 0..most {
        let (_, end) = word(s, next)?;
        match byte(s, end)? {
            b'\n' => return Ok((Span { at, count: met + 1 }, end + 1)),
            b',' => next = end + 1,
            _ => return Err(Fault::Wrong),
        }
    }
    Err(Fault::Wrong)
}

// A key and a number, to past the line feed.
pub fn word_line(s: &[u8], at: usize, key: &[u8]) -> Result<(u64, usize), Fault>
    ensures { counted_shown s.now result ≡ word_line key.now (drop at s.now) }
{
    let start = past(s, at, key)?;
    let (value, feed) = word(s, start)?;
    let end = past(s, feed, b"\n")?;
    Ok((value, end))
}

// A key and a list, to past the line feed.
pub fn list_line(s: &[u8], at: usize, key: &[u8], most: usize) -> Result<(Span, usize), Fault>
    ensures result_value { listed_shown s.now result ≡ list_line_lem key.now most (drop at s.now) }
    ensures listed_in { ListedIn s.now key.now (drop at s.now) most result }
{
    list(s, past(s, at, key)?, most)
}
