// Writes the printing program's output into a lent buffer.
#![tactic(auto)]

mod number;
mod row;
mod text;

// A lent buffer and the place that is written to next: each text goes behind the one before it, as far as the buffer goes.
// A place past the buffer's end stands for the end.
#[derive(Drop)]
pub struct Output<'a> {
    pub out: &'a mut [u8],
    pub at: usize,
}
