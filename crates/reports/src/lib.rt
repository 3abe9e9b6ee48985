// What an exported call reads of a report and writes into it: a lent array whose first six cells are the refusal's number, kind and
// index, 0 where there is none, and the positions in the uniforms, the normals and the exponentials.
#![tactic(auto)]

mod calls;
mod shown;

ghost use Rattle.std.specs.Prelude.{◌≡◌};
ghost use Rattle.reports.specs.Reports.{cramped, lent_in, start_by, numbered, TellsBy, filled_named, filled_at};

pub use calls::{fill, sample};
use draws::{Filled, Named, Positions};
pub use shown::{made, show, unmade};

// Returned where a lent array is too short, and nothing is touched; no number of document 01.
pub const SHORT: usize = 255;

// The report's cells that a call reads or writes.
const CELLS: usize = 6;

// The positions that a report lends, if the call has room for its answer.
pub fn asked(report: &[usize]) -> Option<Positions>
    ensures { result ≡ start_by (cramped report.now) report.now }
{
    if report.len() < CELLS {
        return None;
    }
    Some(draws::places(report[3], report[4], report[5]))
}

// Cells from 6 on stay as they were.
fn told(named: Named, at: Positions, report: &mut [usize]) -> usize
    ensures { TellsBy named at report result }
{
    if report.len() < CELLS {
        return SHORT;
    }
    let cells = [
        named.number,
        named.kind,
        named.index,
        at.uniform.0,
        at.normal.0,
        at.exponential.0,
    ];
    report[..CELLS].copy_from_slice(&cells);
    named.number
}

pub fn done(q: Positions, report: &mut [usize]) -> usize
    ensures { TellsBy (numbered 0) q report result }
{
    told(Named::numbered(0, 0), q, report)
}

// A refusal has the positions as lent.
pub fn refused(named: Named, report: &mut [usize]) -> usize
    ensures { TellsBy named (lent_in report) report result }
{
    match asked(report) {
        Some(at) => told(named, at, report),
        None => SHORT,
    }
}

pub fn filled(f: Filled, report: &mut [usize]) -> usize
    ensures { TellsBy (filled_named f) (filled_at (lent_in report) f) report result }
{
    match f {
        Ok(q) => done(q, report),
        Err((r, _)) => refused(r.into(), report),
    }
}
