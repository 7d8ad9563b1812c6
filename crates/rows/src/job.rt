// The jobs of a row.

// A job of the library, and what is told of it.
#[derive(Clone, Copy, Debug, PartialEq, Eq)]
pub(crate) enum Job {
    Base,
    Cut,
    Explicit,
    Resolve,
    // Resolve, and nothing told.
    QuietResolve,
    // Order of one line.
    Line,
    // The same, and its last places told.
    LineEnd,
    // Order of all lines.
    Lines,
    // The drawing order of marks.
    Marks,
    // The same, and its count told.
    MarksCount,
    // The same, told as the order of a line.
    MarksAsLine,
}

// A letter each. Any other letter is the drawing order, too, so none is refused.
impl From<u8> for Job {
    fn from(letter: u8) -> Job {
        match letter {
            b'B' => Job::Base,
            b'C' => Job::Cut,
            b'E' => Job::Explicit,
            b'R' => Job::Resolve,
            b'Q' => Job::QuietResolve,
            b'O' => Job::Line,
            b'T' => Job::LineEnd,
            b'A' => Job::Lines,
            b'M' => Job::Marks,
            b'D' => Job::MarksCount,
            _ => Job::MarksAsLine,
        }
    }
}
