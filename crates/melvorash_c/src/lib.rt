// The jobs for C and Rust. Each exported function is one job of `melvorash` or `marks`: it asks nothing of its
// input, promises what the job promises, and hands the answer over in three numbers, or four for an order.
// A slice is a pointer and a length there.
#![tactic(auto)]

mod answer;

ghost use Rattle.std.specs.Prelude.{◌≡◌};
ghost use Rattle.rules.specs.Jobs.{cut_answer, base_answer, levels_answer, explicit_buffer, resolve_buffer};
ghost use Rattle.marks.specs.Answers.{DrawsMarks};
ghost use Rattle.melvorash.specs.Answers.{Leaves, OrdersLine, OrdersLines};
ghost use Rattle.melvorash_c.specs.Boundary.{level_or_none, numbers_of, read_off, order_numbers_of, order_read_off, Exports};

pub use answer::{Answer, OrderAnswer};

// The first paragraph's length.
#[unsafe(no_mangle)]
pub extern "C" fn melvorash_cut(classes: &[u8]) -> Answer
    ensures { Exports numbers_of read_off (λ a. a ≡ cut_answer classes.now) result }
{
    let paragraph = melvorash::cut(classes);
    Answer::from(paragraph)
}

// The base level of one paragraph, by its text, or 2 where it decides none.
#[unsafe(no_mangle)]
pub extern "C" fn melvorash_base(classes: &[u8]) -> Answer
    ensures { Exports numbers_of read_off (λ a. a ≡ level_or_none (base_answer classes.now)) result }
{
    let by_text = melvorash::base(classes);
    Answer::from(by_text)
}

// The levels after X1 to X9, and the base level used: with request 2 that of the text, or else `fallback`.
#[unsafe(no_mangle)]
pub extern "C" fn melvorash_explicit(
    classes: &[u8],
    request: u8,
    fallback: u8,
    levels: &mut [u8],
) -> Answer
    ensures { Exports numbers_of read_off (λ a. Leaves (levels_answer classes.now request fallback levels.old) (explicit_buffer classes.now request fallback levels.old) a levels.new) result }
{
    let explicit = melvorash::explicit_levels(classes, request, fallback, levels);
    Answer::from(explicit)
}

// The levels after I1 and I2, and the base level used, as above.
#[unsafe(no_mangle)]
pub extern "C" fn melvorash_resolve(
    classes: &[u8],
    request: u8,
    fallback: u8,
    levels: &mut [u8],
) -> Answer
    ensures { Exports numbers_of read_off (λ a. Leaves (levels_answer classes.now request fallback levels.old) (resolve_buffer classes.now request fallback levels.old) a levels.new) result }
{
    let resolved = melvorash::resolve_levels(classes, request, fallback, levels);
    Answer::from(resolved)
}

// One line's positions from left to right, how many, and how many the passes reversed.
#[unsafe(no_mangle)]
pub extern "C" fn melvorash_order_line(
    classes: &[u8],
    levels: &[u8],
    base: u8,
    from: usize,
    to: usize,
    order: &mut [u16],
) -> OrderAnswer
    ensures { Exports order_numbers_of order_read_off (λ a. OrdersLine classes.now levels.now base from to order.old a order.new) result }
{
    let line = melvorash::order_line(classes, levels, base, from, to, order);
    OrderAnswer::from(line)
}

// The positions of all lines, each line's following the last one's, how many, and how many the passes reversed, both added
// over the lines.
#[unsafe(no_mangle)]
pub extern "C" fn melvorash_order_lines(
    classes: &[u8],
    levels: &[u8],
    base: u8,
    ends: &[u16],
    order: &mut [u16],
) -> OrderAnswer
    ensures { Exports order_numbers_of order_read_off (λ a. OrdersLines classes.now levels.now base ends.now order.old a order.new) result }
{
    let lines = melvorash::order_lines(classes, levels, base, ends, order);
    OrderAnswer::from(lines)
}

// The order in which the characters are drawn, and how many.
#[unsafe(no_mangle)]
pub extern "C" fn melvorash_marks(classes: &[u8], flags: &[u8], order: &mut [u16]) -> Answer
    ensures { Exports numbers_of read_off (λ a. DrawsMarks classes.now flags.now order.old a order.new) result }
{
    let drawing = marks::drawing_order(classes, flags, order);
    Answer::from(drawing)
}
