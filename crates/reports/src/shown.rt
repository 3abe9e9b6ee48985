// What a call writes that shows what a constructor made: its kinds and its fields by plain numbers, into the first of the cells lent.
ghost use Rattle.std.specs.Prelude.{◌≡◌, cond, length, Ok};
ghost use Rattle.reports.specs.Reports.{short};
ghost use Rattle.reports.specs.Shown.{few, shown, ShowsBy};

use super::SHORT;
use draws::Numbered;

// The kinds and the fields of a sampler that was made.
pub fn made(
    its_kinds: &[usize],
    its_fields: &[f64],
    kinds: &mut [usize],
    fields: &mut [f64],
) -> usize
    ensures { ShowsBy (length its_kinds.now) (length its_fields.now) (Ok (its_kinds.now, its_fields.now)) kinds fields result }
{
    if kinds.len() < its_kinds.len() || fields.len() < its_fields.len() {
        return SHORT;
    }
    kinds[..its_kinds.len()].copy_from_slice(its_kinds);
    fields[..its_fields.len()].copy_from_slice(its_fields);
    0
}

// A refused constructor's number; the cells are as lent.
pub fn unmade(
    number: usize,
    kind_count: usize,
    field_count: usize,
    kinds: &[usize],
    fields: &[f64],
) -> usize
    ensures { result ≡ cond (few kind_count field_count kinds.now fields.now) short number }
{
    if kinds.len() < kind_count || fields.len() < field_count {
        return SHORT;
    }
    number
}

// What a constructor answers, of any that has as many kinds and fields.
pub fn show<E: Numbered, const K: usize, const F: usize>(
    answer: Result<([usize; K], [f64; F]), E>,
    kinds: &mut [usize],
    fields: &mut [f64],
) -> usize
    ensures { ShowsBy K F (shown (λ s. s) E.number answer) kinds fields result }
{
    match answer {
        Ok(its) => {
            let (its_kinds, its_fields) = its;
            made(&its_kinds, &its_fields, kinds, fields)
        }
        Err(e) => unmade(e.number(), K, F, kinds, fields),
    }
}
