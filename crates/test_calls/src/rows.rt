// An outcome as words, in the form that the Rust side answers. A number is the 16 hexadecimal digits of its 64 bits. A list has commas, is - where
// it is empty, and has COUNT*NUMBER for equal numbers next to each other.
use draws::{Drawn, Named, Positions};
use std::io;
use words::word_of;

pub fn text(rt: &impl Print, t: &[u8]) -> io::Result<()> {
    rt.write_all(t)
}

pub fn counts(rt: &impl Print, ns: &[usize]) -> io::Result<()> {
    for n in ns {
        print!(rt; " {n}")?;
    }
    Ok(())
}

pub fn floats(rt: &impl Print, xs: &[f64]) -> io::Result<()> {
    for x in xs {
        print!(rt; " {:016x}", word_of(*x))?;
    }
    Ok(())
}

// Equal numbers, as one of them.
fn run(rt: &impl Print, xs: &[f64]) -> io::Result<()> {
    let times = xs.len();
    if 1 < times {
        print!(rt; "{times}*")?;
    }
    if let Some(x) = xs.first() {
        print!(rt; "{:016x}", word_of(*x))?;
    }
    Ok(())
}

pub fn list(rt: &impl Print, xs: &[f64]) -> io::Result<()> {
    if xs.is_empty() {
        return text(rt, b" -");
    }
    let mut before = b" ";
    for equal in xs.chunk_by(|x, y| word_of(*x) == word_of(*y)) {
        text(rt, before)?;
        run(rt, equal)?;
        before = b",";
    }
    Ok(())
}

fn places(rt: &impl Print, p: Positions) -> io::Result<()> {
    counts(rt, &[p.uniform.0, p.normal.0, p.exponential.0])
}

pub fn numbered(rt: &impl Print, n: Named) -> io::Result<()> {
    text(rt, b" refused")?;
    counts(rt, &[n.number, n.kind, n.index])
}

pub fn refused(rt: &impl Print, n: Named, at: Positions) -> io::Result<()> {
    numbered(rt, n)?;
    places(rt, at)
}

pub fn outcome(rt: &impl Print, d: Drawn) -> io::Result<()> {
    match d {
        Ok((v, q)) => {
            text(rt, b" sample")?;
            floats(rt, &[v])?;
            places(rt, q)
        }
        Err((r, q)) => refused(rt, r.into(), q),
    }
}

// With the cells, which a refusal too may have changed.
pub fn filled<R: Into<Named>>(
    rt: &impl Print,
    f: Result<Positions, (R, Positions)>,
    cells: &[f64],
) -> io::Result<()> {
    match f {
        Ok(q) => {
            text(rt, b" filled")?;
            places(rt, q)?;
        }
        Err((r, q)) => refused(rt, r.into(), q)?,
    }
    list(rt, cells)
}
