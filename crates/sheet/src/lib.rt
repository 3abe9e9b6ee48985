// The sheet of document 01, with its lists in lent buffers. Nothing is stored in them before all of what is asked for is right, so a refusal
// leaves them as they were lent.
#![tactic(auto)]

ghost use Rattle.std.specs.Prelude.{◌≡◌, length};
ghost use Rattle.sheet_words.specs.Inner.{words_of, Spanned};
ghost use Rattle.sheet.specs.Shown.{over, rooms, FrontsBy, ReadsBy};
ghost use Rattle.sheet.specs.Inner.{Stores};

use sheet_lines::{Counts, Head, Spans, WrongLine, scan};
use sheet_words::{Span, word};

// The numbers of a list into the first cells of out.
fn store(s: &[u8], p: Span, out: &mut [u64])
    requires { Spanned s.now p (length out.old) }
    ensures { out.new ≡ over (words_of s.now p) out.old }
{
    let mut next = p.at;
    for k in 0..p.count {
        let Ok((n, end)) = word(s, next) else {
            return;
        };
        out[k] = n;
        if s.len() <= end {
            return;
        }
        next = end + 1;
    }
}

// The three lists into their buffers; how many numbers each has.
fn store_all(
    s: &[u8],
    p: Spans,
    uniforms: &mut [u64],
    normals: &mut [u64],
    exponentials: &mut [u64],
) -> Counts
    requires spanned { Spanned s.now p.uniforms (length uniforms.old) }
    requires spanned_2 { Spanned s.now p.normals (length normals.old) }
    requires spanned_3 { Spanned s.now p.exponentials (length exponentials.old) }
    ensures { Stores s.now uniforms.old normals.old exponentials.old p result uniforms.new normals.new exponentials.new }
{
    store(s, p.uniforms, uniforms);
    store(s, p.normals, normals);
    store(s, p.exponentials, exponentials);
    Counts {
        uniforms: p.uniforms.count,
        normals: p.normals.count,
        exponentials: p.exponentials.count,
    }
}

// How many numbers each buffer has room for.
fn room(uniforms: &[u64], normals: &[u64], exponentials: &[u64]) -> Counts
    ensures { result ≡ rooms uniforms.now normals.now exponentials.now }
{
    Counts {
        uniforms: uniforms.len(),
        normals: normals.len(),
        exponentials: exponentials.len(),
    }
}

// The sheet at the front of s and the position past it, its lists in the buffers, each of at most as many numbers as its buffer has room
// for. A stream of sheets is read by it, and so is one that comes in pieces: `Ended` says that more bytes could still make it right.
pub fn front(
    s: &[u8],
    uniforms: &mut [u64],
    normals: &mut [u64],
    exponentials: &mut [u64],
) -> Result<(Head, Counts, usize), WrongLine>
    ensures { FrontsBy s uniforms normals exponentials result }
{
    let most = room(uniforms, normals, exponentials);
    let (head, lists, end) = scan(s, most)?;
    let counts = store_all(s, lists, uniforms, normals, exponentials);
    Ok((head, counts, end))
}

// A whole sheet, nothing after it and at most 4,096 bytes; or the line that refusal 20 names.
#[tactic(auto, using(std::proofs::lemmas::Bool::Decides::nat_tests), unfolding(crate::specs::Whole::parse_in))]
pub fn read(
    s: &[u8],
    uniforms: &mut [u64],
    normals: &mut [u64],
    exponentials: &mut [u64],
) -> Result<(Head, Counts), usize>
    ensures { ReadsBy s uniforms normals exponentials result }
{
    if 4096 < s.len() {
        return Err(0);
    }
    let most = room(uniforms, normals, exponentials);
    let (head, lists, end) = scan(s, most).map_err(|wrong| wrong.line)?;
    if end < s.len() {
        return Err(8);
    }
    let counts = store_all(s, lists, uniforms, normals, exponentials);
    Ok((head, counts))
}
