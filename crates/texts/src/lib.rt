// Text laid into a lent buffer at a place, and numbers as text. Where a text doesn't fit from its place on, nothing is written
// and the place is answered again, so that no function here asks anything of its caller.
#![tactic(auto)]

ghost use Rattle.std.specs.Prelude.{◌≡◌, ◌+◌, leb};
ghost use Rattle.texts.specs.Laid.{Lays};
ghost use Rattle.texts.specs.Numbers.{hex_text, decimal_text, line_text, hex_line_lem, decimal_line_lem};

// Whether `size` bytes fit from `at` on; no sum, for it could be too large for the machine.
fn room(length: usize, at: usize, size: usize) -> bool
    ensures { result ≡ leb (at + size) length }
{
    at <= length && size <= length - at
}

// The text at `at`; the place past it.
#[tactic(auto, using(std::proofs::lemmas::Bool::Decides::nat_tests), unfolding(crate::specs::Laid::laid, crate::specs::Laid::place_past))]
pub fn put(out: &mut [u8], at: usize, text: &[u8]) -> usize
    ensures { Lays out.old at text.now result out.new }
{
    if !room(out.len(), at, text.len()) {
        return at;
    }
    let end = at + text.len();
    out[at..end].copy_from_slice(text);
    end
}

// 16 lowercase hex digits, made in the digits lent.
fn hex_digits(n: u64, digits: &mut [u8; 16]) -> &[u8]
    ensures { result.now ≡ hex_text n }
{
    let k = io::hex(n, 16, digits);
    &digits[..k]
}

// Decimal digits without leading zeros, made in the digits lent.
fn decimal_digits(n: u64, digits: &mut [u8; 20]) -> &[u8]
    ensures { result.now ≡ decimal_text n }
{
    let k = io::decimal(n, digits);
    &digits[..k]
}

// 16 lowercase hex digits.
pub fn put_hex(out: &mut [u8], at: usize, n: u64) -> usize
    ensures { Lays out.old at (hex_text n) result out.new }
{
    put(out, at, hex_digits(n, &mut [0; 16]))
}

// Decimal digits without leading zeros.
pub fn put_decimal(out: &mut [u8], at: usize, n: u64) -> usize
    ensures { Lays out.old at (decimal_text n) result out.new }
{
    put(out, at, decimal_digits(n, &mut [0; 20]))
}

// A key, a text and a line feed, all three or none.
fn line(out: &mut [u8], at: usize, key: &[u8], text: &[u8]) -> usize
    ensures { Lays out.old at (line_text key.now text.now) result out.new }
{
    if !room(out.len(), at, key.len() + text.len() + 1) {
        return at;
    }
    let value = put(out, at, key);
    let end = put(out, value, text);
    put(out, end, b"\n")
}

// A key, 16 hex digits and a line feed, or nothing.
pub fn hex_line(out: &mut [u8], at: usize, key: &[u8], n: u64) -> usize
    ensures { Lays out.old at (hex_line_lem key.now n) result out.new }
{
    line(out, at, key, hex_digits(n, &mut [0; 16]))
}

// A key, a decimal number and a line feed, or nothing.
pub fn decimal_line(out: &mut [u8], at: usize, key: &[u8], n: u64) -> usize
    ensures { Lays out.old at (decimal_line_lem key.now n) result out.new }
{
    line(out, at, key, decimal_digits(n, &mut [0; 20]))
}
