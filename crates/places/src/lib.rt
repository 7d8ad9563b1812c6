// A position in memory order and a place on the display are counted apart, each by its own type: what is known of
// a position of the text cannot be taken for a place of the order. The functions here are the only ones of a line's
// crates that read or write one element by either. Each asks for an index within its slice, which whoever counts by them
// has: a test at each access would cost what the order costs. A position counts from the start of the slice that is lent, the paragraph's or the
// line's; a place from the line's first.
#![tactic(auto)]

ghost use Rattle.std.specs.Prelude.{◌≡◌, ◌<◌, ℕ, length, get_or, set};

// Where a buffer is read or written, by whichever of the two counts it.
pub trait Spot: Copy {
    ghost number: { Self → ℕ };

    fn number(self) -> usize
        ensures { result ≡ number self };
}

// In memory order: classes, and levels before they are packed.
#[derive(Debug, Clone, Copy, PartialEq, Eq, PartialOrd, Ord)]
pub struct Position(pub usize);

// From left to right: the order, and the kept positions' levels.
#[derive(Debug, Clone, Copy, PartialEq, Eq, PartialOrd, Ord)]
pub struct Place(pub usize);

impl Spot for Position {
    ghost number = { λ at. at.0 };

    fn number(self) -> usize {
        let Position(number) = self;
        number
    }
}

impl Spot for Place {
    ghost number = { λ at. at.0 };

    fn number(self) -> usize {
        let Place(number) = self;
        number
    }
}

// A class or level at a position, or the level of what stood at a place before any pass.
pub fn byte_at<At: Spot>(bytes: &[u8], at: At) -> u8
    requires { At.number at < length bytes.now }
    ensures { result ≡ get_or bytes.now (At.number at) 0 }
{
    bytes[at.number()]
}

// A level, written at a position, or packed to a place.
pub fn put_byte<At: Spot>(bytes: &mut [u8], at: At, byte: u8)
    requires { At.number at < length bytes.old }
    ensures { bytes.new ≡ set bytes.old (At.number at) byte }
{
    bytes[at.number()] = byte;
}

pub fn put(order: &mut [u16], at: Place, what: Position)
    requires at_in_bounds { at.0 < length order.old }
    requires what_bound { what.0 < 65536 }
    ensures { order.new ≡ set order.old at.0 what.0 }
{
    order[at.0] = what.0 as u16; // it fits, as the clause says: no `From` narrows
}

pub fn position_of(order: &[u16], at: Place) -> Position
    requires { at.0 < length order.now }
    ensures { (result.0 ≡ get_or order.now at.0 0) × (result.0 < 65536) }
{
    Position(usize::from(order[at.0]))
}
