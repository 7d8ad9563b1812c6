// Order: the positions of one line, or of all lines, from left to right, and how many positions the passes reversed.
ghost use Rattle.melvorash.specs.Answers.{order_page, OrdersLine, OrdersLines};

use line::Placed;
use refusals::Refusal;

// The line from one position up to, not including, another.
pub fn order_line(
    classes: &[u8],
    levels: &[u8],
    base: u8,
    from: usize,
    to: usize,
    order: &mut [u16],
) -> Result<Placed, Refusal>
    ensures { OrdersLine classes.now levels.now base from to order.old (order_page result) order.new }
{
    order_checks::check_line(classes, levels, base, from, to, order.len())?;
    let placed = line::order_line(classes, levels, base, from, to, order);
    Ok(placed)
}

// All lines of the paragraph, given by their ends; each line's order follows the last one's.
pub fn order_lines(
    classes: &[u8],
    levels: &[u8],
    base: u8,
    ends: &[u16],
    order: &mut [u16],
) -> Result<Placed, Refusal>
    ensures { OrdersLines classes.now levels.now base ends.now order.old (order_page result) order.new }
{
    order_checks::check_lines(classes, levels, base, ends, order.len())?;
    let total = line::order_lines(classes, levels, base, ends, order);
    Ok(total)
}
