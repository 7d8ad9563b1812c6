// Reads the printing program's input: where a line or a word ends, what a word names, and what a line asks.
#![tactic(auto)]

ghost use Rattle.std.specs.Prelude.{◌≡◌};
ghost use Rattle.words.specs.Words.{part_end, request_of, fallback_of};
ghost use Rattle.words.specs.Read.{ClassesRead};

mod names;

pub use names::{Asked, UNKNOWN_NAME, class_named, request_named};

pub const LINE_FEED: u8 = 10;

pub const SPACE: u8 = 32;

// Where the line or the word ends that begins at `from`: at the next separator, or where the bytes end. Past their end
// that is `from` itself.
#[tactic(auto, using(crate::proofs::PartLaws::search_laws))]
pub fn part_end(bytes: &[u8], separator: u8, from: usize) -> usize
    ensures { result ≡ part_end separator bytes.now from }
{
    for i in from..bytes.len() {
        if bytes[i] == separator {
            return i;
        }
    }
    from.max(bytes.len())
}

// What a line's first word asks.
#[tactic(auto, using(crate::proofs::LineLaws::first_word_laws))]
pub fn read_request(line: &[u8]) -> Asked
    ensures request_value { result.request ≡ request_of line.now }
    ensures fallback_value { result.fallback ≡ fallback_of line.now }
{
    let end = part_end(line, SPACE, 0);
    request_named(&line[..end])
}

// The classes that the further words name, as many as the buffer holds, and how many that is. Whether more words
// follow is not looked at, so a buffer with one place more than is wanted shows a line that is too long.
#[tactic(auto, using(crate::proofs::LineLaws::reading_laws))]
pub fn read_classes(line: &[u8], classes: &mut [u8]) -> usize
    ensures { ClassesRead line.now classes.old result classes.new }
{
    let mut end = part_end(line, SPACE, 0);
    for count in 0..classes.len() {
        if end >= line.len() {
            return count;
        }
        let start = end + 1;
        end = part_end(line, SPACE, start);
        classes[count] = class_named(&line[start..end]);
    }
    classes.len()
}
