// Document 01's numbers of refusals: of a constructor's, and of those of draws with their kind and index.
ghost use Rattle.std.specs.Prelude.{◌≡◌, ℕ};
ghost use Rattle.draws.specs.Refusals.{named as named_of, numbered as numbered_of, number_by};

use super::Refusal;

// A refusal in document 01's numbers; kind and index are 0 where its table names none.
#[derive(Clone, Copy)]
pub struct Named {
    pub number: usize,
    pub kind: usize,
    pub index: usize,
}

impl Named {
    // A refusal of no draw has no kind, and an index where it is an element's.
    pub fn numbered(number: usize, index: usize) -> Named
        ensures { result ≡ numbered_of number index }
    {
        Named {
            number,
            kind: 0,
            index,
        }
    }
}

// A constructor's refusal has a number alone.
pub trait Numbered: Copy {
    ghost number: { Self → ℕ };

    fn number(self) -> usize
        ensures { result ≡ number self };
}

// The number of what a constructor answers: 0 where the sampler was made.
pub fn number<T: Copy, E: Numbered>(made: Result<T, E>) -> usize
    ensures { result ≡ number_by E.number made }
{
    match made {
        Ok(_) => 0,
        Err(e) => e.number(),
    }
}

// The number, kind and index of a refusal of draws.
impl From<Refusal> for Named {
    ghost from_gives = { λ r n. n ≡ named_of r };

    fn from(r: Refusal) -> Named {
        match r {
            Refusal::Above => Named::numbered(17, 0),
            Refusal::Unusable(kind, index) => Named {
                number: 18,
                kind: kind as usize,
                index,
            },
            Refusal::Absent(kind, index) => Named {
                number: 19,
                kind: kind as usize,
                index,
            },
        }
    }
}
