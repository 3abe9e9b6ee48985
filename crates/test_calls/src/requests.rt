// The words of a request, read from the bytes of its line one after the other. None is what can't be read, and then the line is no request.
use std::str;
use words::float_of;

// Counts end below it.
const COUNTS_END: usize = 1_000_000_000_000_000_000;

// The bytes of a line that are still to be read. A caller may go on where `past`, `suffix` or `hex` answers None: they have read nothing then.
#[derive(Clone, Copy)]
pub struct Words<'a> {
    rest: &'a [u8],
}

impl<'a> Words<'a> {
    pub fn of(line: &'a [u8]) -> Words<'a> {
        Words { rest: line }
    }

    pub fn ended(&self) -> Option<()> {
        self.rest.is_empty().then_some(())
    }

    // A text that has to stand there.
    pub fn past(&mut self, text: &[u8]) -> Option<()> {
        self.rest = self.rest.strip_prefix(text)?;
        Some(())
    }

    // The bytes up to the first that is no part of it, at least one.
    fn longest<F: Fn(u8) -> bool>(&mut self, is_part: F) -> Option<&'a [u8]>
        requires { F.IsAlwaysCallable is_part }
    {
        let line = self.rest;
        let n = line.iter().position(|b| !is_part(*b)).unwrap_or(line.len());
        if n == 0 {
            return None;
        }
        let (read, rest) = line.split_at_checked(n)?;
        self.rest = rest;
        Some(read)
    }

    pub fn letters(&mut self) -> Option<&'a [u8]> {
        self.longest(|b| b'a' <= b)
    }

    fn digits(&mut self) -> Option<usize> {
        let digits = self.longest(|b| b.is_ascii_digit())?;
        let n = str::from_utf8(digits).ok()?.parse::<usize>().ok()?;
        (n < COUNTS_END).then_some(n)
    }

    // The 16 digits of a number's bits, as a sheet has them.
    fn hex(&mut self) -> Option<f64> {
        let (bits, end) = sheet_words::word(self.rest, 0).ok()?;
        self.rest = self.rest.get(end..)?;
        Some(float_of(bits))
    }

    // What -WORD stands for, where one stands there that is a T.
    pub fn suffix<T: TryFrom<&'a [u8], Error = ()>>(&mut self) -> Option<T> {
        let mut words = *self;
        words.past(b"-")?;
        let meant = T::try_from(words.letters()?).ok()?;
        *self = words;
        Some(meant)
    }

    pub fn word(&mut self) -> Option<&'a [u8]> {
        self.past(b" ")?;
        self.letters()
    }

    pub fn float(&mut self) -> Option<f64> {
        self.past(b" ")?;
        self.hex()
    }

    pub fn count(&mut self) -> Option<usize> {
        self.past(b" ")?;
        self.digits()
    }

    // A number, or COUNT*NUMBER: how many there are of it.
    fn run(&mut self) -> Option<(usize, f64)> {
        if let Some(x) = self.hex() {
            return Some((1, x));
        }
        let times = self.digits()?;
        self.past(b"*")?;
        let x = self.hex()?;
        Some((times, x))
    }

    // Runs with commas between them, or - for none: how many numbers they put at the start of out.
    fn runs(&mut self, out: &mut [f64]) -> Option<usize> {
        if self.past(b" -").is_some() {
            return Some(0);
        }
        self.past(b" ")?;
        let mut n = 0;
        // A proved loop has to end: as many turns as bytes, since each run has some.
        for _ in 0..self.rest.len() {
            let (times, x) = self.run()?;
            n = put(out, n, times, x)?;
            if self.past(b",").is_none() {
                return Some(n);
            }
        }
        None
    }

    // A list at the start of the store, and the store that is left.
    pub fn list<'s>(&mut self, store: &'s mut [f64]) -> Option<(&'s mut [f64], &'s mut [f64])> {
        let n = self.runs(store)?;
        store.split_at_mut_checked(n)
    }

    // COUNT NUMBER: as many cells at the start of out, each with that number.
    pub fn cells<'s>(&mut self, out: &'s mut [f64]) -> Option<&'s mut [f64]> {
        let count = self.count()?;
        let x = self.float()?;
        let n = put(out, 0, count, x)?;
        out.get_mut(..n)
    }
}

// Puts x times over from an index on, and answers the index past them.
fn put(out: &mut [f64], from: usize, times: usize, x: f64) -> Option<usize> {
    let end = from.checked_add(times)?;
    out.get_mut(from..end)?.fill(x);
    Some(end)
}
