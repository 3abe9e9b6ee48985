// What the parts of a request's first word stand for.

#[derive(Clone, Copy, PartialEq, Eq)]
pub enum Name {
    Gamma,
    Beta,
    Chi,
    Fisher,
    Student,
    Pert,
    Dirichlet,
}

// What the words after it make a sampler of: a constructor's arguments, where the first word doesn't say.
#[derive(Clone, Copy, PartialEq, Eq, Default)]
pub enum Form {
    #[default]
    Arguments,
    Raw,
    Mode,
    Mean,
}

// What is asked of the sampler: a sample, where the first word doesn't say.
#[derive(Clone, Copy, PartialEq, Eq, Default)]
pub enum Asked {
    #[default]
    Sample,
    Fill,
    Fields,
}

impl TryFrom<&[u8]> for Name {
    type Error = ();

    // A Dirichlet is told by its last eight letters.
    fn try_from(word: &[u8]) -> Result<Name, ()> {
        match word {
            b"gamma" => Ok(Name::Gamma),
            b"beta" => Ok(Name::Beta),
            b"chi" => Ok(Name::Chi),
            b"fisher" => Ok(Name::Fisher),
            b"student" => Ok(Name::Student),
            b"pert" => Ok(Name::Pert),
            [.., b'i', b'r', b'i', b'c', b'h', b'l', b'e', b't'] => Ok(Name::Dirichlet),
            _ => Err(()),
        }
    }
}

impl TryFrom<&[u8]> for Form {
    type Error = ();

    fn try_from(word: &[u8]) -> Result<Form, ()> {
        match word {
            b"raw" => Ok(Form::Raw),
            b"mode" => Ok(Form::Mode),
            b"mean" => Ok(Form::Mean),
            _ => Err(()),
        }
    }
}

impl TryFrom<&[u8]> for Asked {
    type Error = ();

    fn try_from(word: &[u8]) -> Result<Asked, ()> {
        match word {
            b"fill" => Ok(Asked::Fill),
            b"fields" => Ok(Asked::Fields),
            _ => Err(()),
        }
    }
}
