// The classes by name, and each question that the rules ask of a class: one function for each test
// of the definitions. Other code compares names; where it goes by their numbers, in a table or a range, a law says why.
// They are numbers and no enum: C lends them as bytes, of which any may come, and levels are bytes in the same buffers.
#![tactic(auto, using(laws::proofs::Tests::tests))]

ghost use Rattle.std.specs.Prelude.{◌≡◌, ◌<◌, min};
ghost use Rattle.rules.specs.Classes.{is_unknown, is_paragraph_end, is_opening, is_removed, is_strong, is_neutral, is_separator, is_blank, last_place, row_width};

pub const L: u8 = 0;

pub const LRE: u8 = 1;

pub const LRO: u8 = 2;

pub const R: u8 = 3;

pub const AL: u8 = 4;

pub const RLE: u8 = 5;

pub const RLO: u8 = 6;

pub const PDF: u8 = 7;

pub const EN: u8 = 8;

pub const ES: u8 = 9;

pub const ET: u8 = 10;

pub const AN: u8 = 11;

pub const CS: u8 = 12;

pub const NSM: u8 = 13;

pub const BN: u8 = 14;

pub const B: u8 = 15;

pub const S: u8 = 16;

pub const WS: u8 = 17;

pub const ON: u8 = 18;

pub const CR: u8 = 19;

pub const HIGHEST: u8 = CR;

// A table by class has a place for each class, and behind them one for every other number.
pub const ROW_WIDTH: usize = HIGHEST as usize + 2;

// What a level buffer holds at a removed position: C lends levels as bytes.
pub const REMOVED_LEVEL: u8 = 255;

// The most positions of a paragraph, and the highest levels before and after the implicit rules.
pub const LONGEST: usize = 4096;

pub const HIGHEST_EXPLICIT: u8 = 61;

pub const HIGHEST_RESOLVED: u8 = 62;

// A number above the highest class is no class.
#[tactic(auto, using(laws::proofs::Tests::tests), unfolding(rules::specs::Classes::is_unknown))]
pub fn is_unknown(c: u8) -> bool
    ensures { result ≡ is_unknown c }
{
    HIGHEST < c
}

#[tactic(auto, using(laws::proofs::Tests::tests), unfolding(rules::specs::Classes::is_paragraph_end))]
pub fn is_paragraph_end(c: u8) -> bool
    ensures { result ≡ is_paragraph_end c }
{
    matches!(c, B | CR)
}

#[tactic(auto, using(laws::proofs::Tests::tests), unfolding(rules::specs::Classes::is_opening))]
pub fn is_opening(c: u8) -> bool
    ensures { result ≡ is_opening c }
{
    matches!(c, LRE | LRO | RLE | RLO)
}

#[tactic(auto, using(laws::proofs::Tests::tests), unfolding(rules::specs::Classes::is_removed))]
pub fn is_removed(c: u8) -> bool
    ensures { result ≡ is_removed c }
{
    is_opening(c) || matches!(c, PDF | BN)
}

#[tactic(auto, using(laws::proofs::Tests::tests), unfolding(rules::specs::Classes::is_strong))]
pub fn is_strong(c: u8) -> bool
    ensures { result ≡ is_strong c }
{
    matches!(c, L | R | AL)
}

// One comparison each and no pattern, which may not name a number twice: the must-fail edits of S and WS give two classes one.
#[tactic(auto, using(laws::proofs::Tests::tests), unfolding(rules::specs::Classes::is_neutral))]
pub fn is_neutral(c: u8) -> bool
    ensures { result ≡ is_neutral c }
{
    is_paragraph_end(c) || c == S || c == WS || c == ON
}

#[tactic(auto, using(laws::proofs::Tests::tests), unfolding(rules::specs::Classes::is_separator))]
pub fn is_separator(c: u8) -> bool
    ensures { result ≡ is_separator c }
{
    c == S || is_paragraph_end(c)
}

#[tactic(auto, using(laws::proofs::Tests::tests), unfolding(rules::specs::Classes::is_blank))]
pub fn is_blank(c: u8) -> bool
    ensures { result ≡ is_blank c }
{
    c == WS
}

// Where a class stands in a table by class: at its own number, and all that is no class at the last place.
pub fn place_of(c: u8) -> usize
    ensures value { result ≡ min c last_place }
    ensures upper_bound { result < row_width }
{
    usize::from(c.min(HIGHEST + 1))
}
