// What a refusal is. The page's number and place of each are read off it; another refusal is another case here.
#![tactic(auto)]

ghost use Rattle.std.specs.Prelude.{◌≡◌};
ghost use Rattle.refusals.specs.Page.{number_of, place_of};

// The page gives a place where one position is at fault.
#[derive(Clone, Copy, Debug, PartialEq, Eq)]
pub enum Refusal {
    NoClasses,
    UnknownClass(usize),
    TooLong,
    // B or CR before the last position, and no CR that a last B follows.
    EarlySeparator(usize),
    // A request above 2, a default above 1, or in Order a base above 1.
    BadBase,
    ShortLevels,
    BadLevel(usize),
    BadLine,
    ShortOrder,
    BadEnds,
    // Any other buffer that has too few places.
    ShortBuffer,
}

impl Refusal {
    // The page's number.
    pub fn number(self) -> u8
        ensures { result ≡ number_of self }
    {
        match self {
            Refusal::NoClasses => 1,
            Refusal::UnknownClass(_) => 2,
            Refusal::TooLong => 3,
            Refusal::EarlySeparator(_) => 4,
            Refusal::BadBase => 5,
            Refusal::ShortLevels => 6,
            Refusal::BadLevel(_) => 7,
            Refusal::BadLine => 8,
            Refusal::ShortOrder => 9,
            Refusal::BadEnds => 10,
            Refusal::ShortBuffer => 16,
        }
    }

    // The first faulty position, or 0 where the page gives no place.
    pub fn place(self) -> usize
        ensures { result ≡ place_of self }
    {
        match self {
            Refusal::UnknownClass(at) | Refusal::EarlySeparator(at) | Refusal::BadLevel(at) => at,
            _ => 0,
        }
    }
}
