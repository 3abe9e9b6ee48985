// Lent draws: three slices, a position in each, the reading of the draw needed next, and what a sampler over them is.
#![tactic(auto)]

mod distribution;
mod numbers;
pub mod outputs;

ghost use Rattle.std.specs.Prelude.{◌≡◌};
ghost use Rattle.draws.specs.Draws.{origin as origin_of, places as places_of, placed as placed_of, slice as slice_of, place as place_of, to as to_of, read, usable as usable_of};
ghost use Rattle.draws.specs.Promises.{lent_by};

pub use distribution::{Distribution, fill};
pub use numbers::{Named, Numbered, number};

// One type for the position in each slice, so that a count of uniforms is never taken for a count of normals.
#[derive(Clone, Copy)]
pub struct UniformAt(pub usize);

#[derive(Clone, Copy)]
pub struct NormalAt(pub usize);

#[derive(Clone, Copy)]
pub struct ExponentialAt(pub usize);

#[derive(Clone, Copy)]
pub struct Positions {
    pub uniform: UniformAt,
    pub normal: NormalAt,
    pub exponential: ExponentialAt,
}

// The start of every slice.
pub fn origin() -> Positions
    ensures { result ≡ origin_of }
{
    places(0, 0, 0)
}

// The positions that a caller lends as plain numbers.
pub fn places(u: usize, n: usize, e: usize) -> Positions
    ensures { result ≡ places_of u n e }
{
    Positions {
        uniform: UniformAt(u),
        normal: NormalAt(n),
        exponential: ExponentialAt(e),
    }
}

#[derive(Clone, Copy)]
pub enum Kind {
    Uniform = 1,
    Normal = 2,
    Exponential = 3,
}

// Numbers 17, 18 and 19 of document 01; the others are their modules' own.
#[derive(Clone, Copy)]
pub enum Refusal {
    Above,
    Unusable(Kind, usize),
    Absent(Kind, usize),
}

// A value and the positions past its draws, or why a draw of it can't be had.
pub type Draw = Result<(f64, Positions), Refusal>;

// One trial of a search: its value, where it is accepted, and the positions past its draws; or why a draw of it can't be had.
pub type Trial = Result<(Option<f64>, Positions), Refusal>;

// A sample and the positions past its draws, or a refusal and the positions as lent.
pub type Drawn = Result<(f64, Positions), (Refusal, Positions)>;

// The positions past a filled output's draws, or a refusal and the positions as lent.
pub type Filled = Result<Positions, (Refusal, Positions)>;

// The refusal alone, for a caller that answers with positions of its own.
impl From<(Refusal, Positions)> for Refusal {
    ghost from_gives = { λ a r. r ≡ a.0 };

    fn from((r, _): (Refusal, Positions)) -> Refusal {
        r
    }
}

// The draws that a caller lends.
#[derive(Clone, Copy)]
pub struct Lent<'a> {
    pub uniforms: &'a [f64],
    pub normals: &'a [f64],
    pub exponentials: &'a [f64],
}

impl Kind {
    // x - x is 0 for a finite x, and NaN for any other.
    #[inline(always)]
    fn usable(self, x: f64) -> bool
        ensures { result ≡ usable_of self x }
    {
        match self {
            Kind::Uniform => 0.0 < x && x < 1.0,
            Kind::Normal => x - x == 0.0,
            Kind::Exponential => x - x == 0.0 && 0.0 < x,
        }
    }
}

impl Positions {
    #[inline(always)]
    fn place(self, kind: Kind) -> usize
        ensures { result ≡ place_of kind self }
    {
        match kind {
            Kind::Uniform => self.uniform.0,
            Kind::Normal => self.normal.0,
            Kind::Exponential => self.exponential.0,
        }
    }

    // Moved to draw i of a kind.
    #[inline(always)]
    fn to(self, kind: Kind, i: usize) -> Positions
        ensures { result ≡ to_of kind i self }
    {
        match kind {
            Kind::Uniform => Positions {
                uniform: UniformAt(i),
                ..self
            },
            Kind::Normal => Positions {
                normal: NormalAt(i),
                ..self
            },
            Kind::Exponential => Positions {
                exponential: ExponentialAt(i),
                ..self
            },
        }
    }
}

impl<'a> Lent<'a> {
    #[inline(always)]
    fn slice(self, kind: Kind) -> &'a [f64]
        ensures { result.now ≡ slice_of kind (lent_by self) }
    {
        match kind {
            Kind::Uniform => self.uniforms,
            Kind::Normal => self.normals,
            Kind::Exponential => self.exponentials,
        }
    }

    // The draw of a kind needed next; where there is none, the position is at its slice's end or above it.
    #[inline(always)]
    pub fn read(self, kind: Kind, at: Positions) -> Draw
        ensures { result ≡ read kind (slice_of kind (lent_by self)) at }
    {
        let xs = self.slice(kind);
        let i = at.place(kind);
        if i < xs.len() {
            let x = xs[i];
            if kind.usable(x) {
                return Ok((x, at.to(kind, i + 1)));
            }
            return Err(Refusal::Unusable(kind, i));
        }
        if i == xs.len() {
            Err(Refusal::Absent(kind, i))
        } else {
            Err(Refusal::Above)
        }
    }

    // No position is above its slice's length.
    #[inline(always)]
    pub fn placed(self, at: Positions) -> bool
        ensures { result ≡ placed_of (lent_by self) at }
    {
        at.uniform.0 <= self.uniforms.len()
            && at.normal.0 <= self.normals.len()
            && at.exponential.0 <= self.exponentials.len()
    }
}
