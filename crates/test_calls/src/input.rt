// Standard input a line at a time, by way of a block of it.
use std::io;
use std::io::Read;
use std::ops::Range;

#[derive(Drop)]
pub struct Source<R: Read> {
    input: R,
    block: [u8; 65536],
    // The bytes of the block that are still to be taken.
    left: Range<usize>,
}

pub enum Line<'b> {
    Read(&'b [u8]),
    // The buffer has no room for it.
    TooLong,
    // There is none left.
    Ended,
}

impl<R: Read> Source<R> {
    pub fn new(input: R) -> Source<R> {
        Source {
            input,
            block: [0; 65536],
            left: 0..0,
        }
    }

    fn next_byte(&mut self) -> io::Result<Option<u8>> {
        if self.left.is_empty() {
            let end = self.input.read(&mut self.block)?;
            self.left = 0..end;
        }
        Ok(self.left.next().and_then(|i| self.block.get(i).copied()))
    }

    // Into the buffer. A last line may have no line feed. A proved loop has to end, and nothing says that a line does, so the turns are counted.
    pub fn next_line<'b>(&mut self, buffer: &'b mut [u8]) -> io::Result<Line<'b>> {
        // How many bytes stand in the buffer, while they find room.
        let mut n = Some(0);
        for _ in 0..u32::MAX {
            match self.next_byte()? {
                None if n == Some(0) => {
                    return Ok(Line::Ended);
                }
                None | Some(b'\n') => {
                    return Ok(stood(buffer, n));
                }
                Some(b) => {
                    n = n.and_then(|n| kept(buffer, n, b));
                }
            }
        }
        Ok(Line::Ended)
    }
}

fn kept(buffer: &mut [u8], n: usize, b: u8) -> Option<usize> {
    *buffer.get_mut(n)? = b;
    Some(n + 1)
}

fn stood(buffer: &[u8], n: Option<usize>) -> Line<'_> {
    match n.and_then(|n| buffer.get(..n)) {
        Some(line) => Line::Read(line),
        None => Line::TooLong,
    }
}
