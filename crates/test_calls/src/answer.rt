// What a request comes to, printed behind its arrow.
use super::asked::Head;
use super::names::{Asked, Form, Name};
use super::requests::Words;
use super::samplers::Made;
use super::{asked, fields, made, raw, rows, samplers};
use draws::{Lent, Positions};
use std::io;

// What a line asks, with the cells that are to be filled.
#[derive(Drop)]
enum Request<'s> {
    Fields(Made),
    Sample(Made, Lent<'s>, Positions),
    Fill(Made, Lent<'s>, Positions, &'s mut [f64]),
    // A Dirichlet's alphas, whose only sample fills its cells.
    Vector(&'s [f64], Lent<'s>, Positions, &'s mut [f64]),
}

fn read_sampler(words: &mut Words, h: Head) -> Option<Made> {
    match (h.form, h.name) {
        (Form::Arguments, name) => made::of_arguments(words, name),
        (Form::Raw, name) => Some(Ok(raw::of_fields(words, name)?)),
        (Form::Mode, Name::Pert) => made::pert_by_mode(words),
        (Form::Mean, Name::Pert) => made::pert_by_mean(words),
        (Form::Mode | Form::Mean, _) => None,
    }
}

// None where the line is no request: the words of one stand in the order of these arguments.
fn read<'s>(line: &[u8], store: &'s mut [f64], out: &'s mut [f64]) -> Option<Request<'s>> {
    let mut words = Words::of(line);
    let h = asked::read_head(&mut words)?;
    let request = match (h.name, h.form, h.asked) {
        (Name::Dirichlet, Form::Arguments, Asked::Sample) => {
            let (alphas, store) = words.list(store)?;
            let lent = asked::lent(&mut words, store)?;
            let at = asked::positions(&mut words)?;
            Request::Vector(alphas, lent, at, words.cells(out)?)
        }
        (_, _, Asked::Fields) => Request::Fields(read_sampler(&mut words, h)?),
        (_, _, Asked::Sample) => {
            let made = read_sampler(&mut words, h)?;
            let lent = asked::lent(&mut words, store)?;
            Request::Sample(made, lent, asked::positions(&mut words)?)
        }
        (_, _, Asked::Fill) => {
            let made = read_sampler(&mut words, h)?;
            let lent = asked::lent(&mut words, store)?;
            let at = asked::positions(&mut words)?;
            Request::Fill(made, lent, at, words.cells(out)?)
        }
    };
    words.ended()?;
    Some(request)
}

fn print(rt: &impl Print, request: Request) -> io::Result<()> {
    match request {
        Request::Fields(made) => fields::printed(rt, made),
        Request::Sample(Ok(s), lent, at) => rows::outcome(rt, samplers::sample(s, lent, at)),
        Request::Sample(Err(n), _, at) => rows::refused(rt, n, at),
        Request::Fill(Ok(s), lent, at, cells) => {
            rows::filled(rt, samplers::fill(s, lent, at, cells), cells)
        }
        Request::Fill(Err(n), _, at, cells) => rows::filled(rt, Err((n, at)), cells),
        Request::Vector(alphas, lent, at, cells) => {
            rows::filled(rt, dirichlet::sample(alphas, lent, at, cells), cells)
        }
    }
}

// The lists of a request stand one after the other in one store: 8,192 numbers of each kind of draw, and as many alphas and cells.
pub fn printed(rt: &impl Print, line: &[u8]) -> io::Result<()> {
    let mut store = [0.0; 32768];
    let mut out = [0.0; 8192];
    match read(line, &mut store, &mut out) {
        Some(request) => print(rt, request),
        None => rows::text(rt, b" unreadable"),
    }
}
