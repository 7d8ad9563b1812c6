// The order of one line and of all lines: the line's own reset (L1), its kept positions, then the passes of reversal (L2).
#![tactic(auto)]

ghost use Rattle.std.specs.Prelude.{◌≡◌, true, ◌+◌, ◌-◌, ◌≤◌, length};
ghost use Rattle.rules.specs.Line.{line_order, all_orders};
ghost use Rattle.rules.specs.Refusals.{longest_paragraph, ends_rise_to};
ghost use Rattle.rules.specs.Reversals.{line_reversed, all_reversed};
ghost use Rattle.line.specs.Items.{line_items};
ghost use Rattle.line.specs.Ordered.{Ordered, OrderedItems};

use classes::LONGEST;
use parts::SHORT;
use places::Position;

// What ordering did: how many positions it placed, and how many the passes reversed, added over all passes.
#[derive(Debug, Clone, Copy, PartialEq, Eq)]
pub struct Placed {
    pub count: usize,
    pub reversed: usize,
}

// A line with its own classes and levels, and where it begins in its paragraph. Nothing compares or prints one.
#[derive(Clone, Copy)]
struct Line<'a> {
    classes: &'a [u8],
    levels: &'a [u8],
    base: u8,
    from: usize,
    ghost levels_len: { length levels.now ≡ length classes.now },
    ghost len_bound: { length classes.now ≤ longest_paragraph },
    ghost end_bound: { from + length classes.now ≤ 65536 },
}

impl Line<'_> {
    // The order of the line, with a work buffer for its levels.
    fn order_with(&self, work: &mut [u8], order: &mut [u16]) -> Placed
        requires in_work { length self.now.classes.now ≤ length work.old }
        requires in_order { length self.now.classes.now ≤ length order.old }
        ensures { OrderedItems (line_items self.now.base self.now.from self.now.classes.now self.now.levels.now) order.old result order.new }
    {
        reset::reset(self.classes, self.levels, self.base, work);
        // Packed in the lent work buffer, with their count: no heap.
        let count = kept::gather(self.classes, Position(self.from), work, order);
        let packed = &work[..count];
        let top = level_range::highest_level(packed);
        let lowest = level_range::lowest_odd_level(packed);
        // Without an odd level memory order stands, and nothing is reversed.
        if top < lowest {
            return Placed { count, reversed: 0 };
        }
        reversal::reversal_pass(top, lowest, packed, order);
        let reversed = slots::reversed(packed, lowest);
        Placed { count, reversed }
    }

    // The same, with room for so many levels.
    fn order_within<const ROOM: usize>(&self, order: &mut [u16]) -> Placed
        requires in_room { length self.now.classes.now ≤ ROOM }
        requires room_bound { ROOM ≤ longest_paragraph }
        requires in_order { length self.now.classes.now ≤ length order.old }
        ensures { OrderedItems (line_items self.now.base self.now.from self.now.classes.now self.now.levels.now) order.old result order.new }
    {
        let mut work = [0u8; ROOM];
        self.order_with(&mut work, order)
    }
}

// What is asked of the lent slices and of the line's two ends stays clauses in both functions: the job's checks give each
// by itself, and a struct of them would be opened at once.
//
// The order of the line from one position up to, not including, another. The work buffer is chosen by
// the line's length, so that a short label does not pay for the longest line.
pub fn order_line(
    classes: &[u8],
    levels: &[u8],
    base: u8,
    from: usize,
    to: usize,
    order: &mut [u16],
) -> Placed
    requires from_le_to { from ≤ to }
    requires to_in_bounds { to ≤ length classes.now }
    requires classes_in_bounds { length classes.now ≤ length levels.now }
    requires classes_len_bound { length classes.now ≤ longest_paragraph }
    requires from_in_bounds { to - from ≤ length order.old }
    ensures { Ordered (line_order base classes.now levels.now from to) (line_reversed base classes.now levels.now from to) order.old result order.new }
{
    let line = Line {
        classes: &classes[from..to],
        levels: &levels[from..to],
        base,
        from,
    };
    if to - from <= SHORT {
        line.order_within::<SHORT>(order)
    } else {
        line.order_within::<LONGEST>(order)
    }
}

// The orders of all lines, each following the last one's.
pub fn order_lines(
    classes: &[u8],
    levels: &[u8],
    base: u8,
    ends: &[u16],
    order: &mut [u16],
) -> Placed
    requires classes_in_bounds { length classes.now ≤ length levels.now }
    requires classes_len_bound { length classes.now ≤ longest_paragraph }
    requires classes_value { ends_rise_to 0 ends.now (length classes.now) ≡ true }
    requires classes_in_bounds_2 { length classes.now ≤ length order.old }
    ensures { Ordered (all_orders base classes.now levels.now 0 ends.now) (all_reversed base classes.now levels.now 0 ends.now) order.old result order.new }
{
    let mut from = 0;
    let mut count = 0;
    let mut reversed = 0;
    for end in ends {
        let to = usize::from(*end);
        let line = order_line(classes, levels, base, from, to, &mut order[count..]);
        count += line.count;
        reversed += line.reversed;
        from = to;
    }
    Placed { count, reversed }
}
