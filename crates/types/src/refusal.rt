// Why a routine refuses what it is given.
ghost use Rattle.std.specs.Prelude.{◌≡◌};

use thiserror::Error;

#[derive(Clone, Copy, Debug, PartialEq, Eq, Error)]
pub enum Refusal {
    #[error("a lent list is shorter than what is to be written")]
    Room = 1,
    #[error("both ends of a stroke are equal")]
    SameEnds = 2,
    #[error("a coordinate is above its limit in size, or for tiles not finite")]
    Coordinate = 3,
    #[error("a side of an image or a sheet is too large, or a tile size is 0 or too large")]
    Size = 4,
    #[error("a range is not ordered: low is not at most high")]
    Order = 5,
    #[error("a radius is not at least 0")]
    Radius = 6,
    #[error("a length to the turned box is NaN")]
    NanLength = 7,
    #[error("a corner has no image")]
    NoImage = 8,
    #[error("an index is not below the number of boxes")]
    Index = 9,
    #[error("a hatch list does not begin with its mark")]
    Mark = 10,
    #[error("a hatch list has an unknown version")]
    Version = 11,
    #[error("a hatch list has too many records")]
    Count = 12,
    #[error("the bytes of a hatch list are too few or too many")]
    Length = 13,
    #[error("a list of lines is not a multiple of four floats")]
    Lines = 14,
    #[error("a coordinate of a stroke is not finite")]
    NotFinite = 15,
    #[error("a corner's projection is NaN on an axis that is reached, whether it separates the boxes or not")]
    NanProjection = 16,
    #[error("the number of a corner is above 7")]
    Corner = 17,
}

impl Refusal {
    ghost use Rattle.types.specs.Refusal.{number_of, refusal_at};

    // The number by which C knows the refusal. A method and not `u32::from`: its name says which number.
    pub fn number(self) -> u32
        ensures { result ≡ number_of self }
    {
        self as u32
    }

    pub fn at(self, place: usize) -> RefusalAt
        ensures { result ≡ refusal_at self place }
    {
        RefusalAt {
            refusal: self,
            place,
        }
    }
}

// A refusal with its place: a stroke's coordinate, 0 to 3, or a byte of a hatch list. One that tells no place has 0 and not a `None`: which refusals
// tell one is known by the refusal, and C's structs have the 0.
#[derive(Clone, Copy, Debug, PartialEq, Eq, Error)]
#[error("{refusal}")]
pub struct RefusalAt {
    pub refusal: Refusal,
    pub place: usize,
}

impl From<Refusal> for RefusalAt {
    ghost use Rattle.types.specs.Refusal.{nowhere};

    ghost from_gives = { λ refusal at. at ≡ nowhere refusal };

    fn from(refusal: Refusal) -> RefusalAt {
        refusal.at(0)
    }
}
