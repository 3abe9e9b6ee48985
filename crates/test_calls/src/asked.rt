// What a line of standard input asks: its first word, and the draws and positions that it lends.
use super::names::{Asked, Form, Name};
use super::requests::Words;
use draws::{Lent, Positions};

#[derive(Clone, Copy)]
pub struct Head {
    pub name: Name,
    pub form: Form,
    pub asked: Asked,
}

// The first word: NAME, NAME-FORM, NAME-ASKED or NAME-FORM-ASKED.
pub fn read_head(words: &mut Words) -> Option<Head> {
    let name = Name::try_from(words.letters()?).ok()?;
    let form = words.suffix::<Form>().unwrap_or_default();
    let asked = words.suffix::<Asked>().unwrap_or_default();
    Some(Head { name, form, asked })
}

// The lists of uniforms, normals and exponentials, one after the other in the store.
pub fn lent<'s>(words: &mut Words, store: &'s mut [f64]) -> Option<Lent<'s>> {
    let (uniforms, store) = words.list(store)?;
    let (normals, store) = words.list(store)?;
    let (exponentials, _) = words.list(store)?;
    Some(Lent {
        uniforms,
        normals,
        exponentials,
    })
}

pub fn positions(words: &mut Words) -> Option<Positions> {
    let uniform = words.count()?;
    let normal = words.count()?;
    let exponential = words.count()?;
    Some(draws::places(uniform, normal, exponential))
}
