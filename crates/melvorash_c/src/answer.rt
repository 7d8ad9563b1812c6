// The answers that C and Rust read, and the way to them from what the jobs answer.
ghost use Rattle.melvorash_c.specs.Boundary.{NumbersOf, BaseNumbersOf, OrderNumbersOf};

use melvorash::{Placed, Refusal};

// Accepted: refusal 0, place 0 and what the job answers. Refused: the page's number and place, value 0.
// Numbers of one width leave no padding, so every byte of an answer is determined.
#[repr(C)]
#[derive(Clone, Copy, Debug, PartialEq, Eq)]
pub struct Answer {
    pub refusal: usize,
    pub place: usize,
    pub value: usize,
}

// The answer of an order: how many positions were reversed, too. Refused: value and reversed 0. C's header has both structs,
// and a refusal that is 0 where there is none.
#[repr(C)]
#[derive(Clone, Copy, Debug, PartialEq, Eq)]
pub struct OrderAnswer {
    pub refusal: usize,
    pub place: usize,
    pub value: usize,
    pub reversed: usize,
}

// The value where Base finds no level: C has no Option.
const NONE_FOUND: usize = 2;

// The paragraph's length, or the count of characters drawn.
impl From<Result<usize, Refusal>> for Answer {
    ghost from_gives = { NumbersOf };

    fn from(answer: Result<usize, Refusal>) -> Answer {
        match answer {
            Ok(value) => Answer {
                refusal: 0,
                place: 0,
                value,
            },
            Err(refusal) => Answer {
                refusal: usize::from(refusal.number()),
                place: refusal.place(),
                value: 0, // there is no value
            },
        }
    }
}

// The base level used.
impl From<Result<u8, Refusal>> for Answer {
    ghost from_gives = { NumbersOf };

    fn from(answer: Result<u8, Refusal>) -> Answer {
        Answer::from(answer.map(usize::from))
    }
}

// The base level by the text, or none found.
impl From<Result<Option<u8>, Refusal>> for Answer {
    ghost from_gives = { BaseNumbersOf };

    fn from(answer: Result<Option<u8>, Refusal>) -> Answer {
        Answer::from(answer.map(|level| level.map_or(NONE_FOUND, usize::from)))
    }
}

// The counts of positions placed and reversed.
impl From<Result<Placed, Refusal>> for OrderAnswer {
    ghost from_gives = { OrderNumbersOf };

    fn from(answer: Result<Placed, Refusal>) -> OrderAnswer {
        match answer {
            Ok(placed) => OrderAnswer {
                refusal: 0,
                place: 0,
                value: placed.count,
                reversed: placed.reversed,
            },
            Err(refusal) => OrderAnswer {
                refusal: usize::from(refusal.number()),
                place: refusal.place(),
                value: 0,
                reversed: 0,
            },
        }
    }
}
