// The kept positions of a line, in memory order, with their levels.
#![tactic(auto)]

ghost use Rattle.std.specs.Prelude.{◌≡◌, ◌+◌, ◌≤◌, length};
ghost use Rattle.laws.specs.Choice.{up_from};
ghost use Rattle.laws.specs.Parts.{over};
ghost use Rattle.rules.specs.Line.{items};
ghost use Rattle.kept.specs.LaidOut.{LaidOut};

use places::{Place, Position};

// One position at a time: a removed one is passed over. The three functions ask for room in the lent buffers and for positions
// of 16 bits: `line` has all of it, and a struct of two lent buffers would be opened at once.
fn gather_kept(classes: &[u8], from: Position, levels: &mut [u8], order: &mut [u16]) -> usize
    requires classes_in_bounds { length classes.now ≤ length levels.old }
    requires classes_in_bounds_2 { length classes.now ≤ length order.old }
    requires classes_bound { from.0 + length classes.now ≤ 65536 }
    ensures { LaidOut (items from.0 classes.now levels.old) levels.old order.old result levels.new order.new }
{
    let mut k = 0;
    for (i, class) in classes.iter().enumerate() {
        if classes::is_removed(*class) {
            continue;
        }
        let level = places::byte_at(levels, Position(i));
        places::put_byte(levels, Place(k), level);
        places::put(order, Place(k), Position(from.0 + i));
        k += 1;
    }
    k
}

// So many positions in a row, to the first places. A straight loop, so that many places are written at once.
fn number_all(from: Position, count: usize, order: &mut [u16])
    requires count_in_bounds { count ≤ length order.old }
    requires count_bound { from.0 + count ≤ 65536 }
    ensures { order.new ≡ over (up_from from.0 count) order.old }
{
    for i in 0..count {
        places::put(order, Place(i), Position(from.0 + i));
    }
}

// The kept positions of a line in memory order, to the first places, and their levels to the front. Where nothing is
// removed the levels stand at the front already.
pub fn gather(classes: &[u8], from: Position, levels: &mut [u8], order: &mut [u16]) -> usize
    requires classes_in_bounds { length classes.now ≤ length levels.old }
    requires classes_in_bounds_2 { length classes.now ≤ length order.old }
    requires classes_bound { from.0 + length classes.now ≤ 65536 }
    ensures { LaidOut (items from.0 classes.now levels.old) levels.old order.old result levels.new order.new }
{
    if parts::any_removed(classes) {
        gather_kept(classes, from, levels, order)
    } else {
        number_all(from, classes.len(), order);
        classes.len()
    }
}
