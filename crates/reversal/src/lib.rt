// L2: the passes of reversal, from the highest level of a line down to its lowest odd one. The order is moved; the
// levels are read by place, as they were before any pass.
#![tactic(auto)]

ghost use Rattle.std.specs.Prelude.{◌≡◌, ℕ, ◌+◌, ◌≤◌, ◌<◌, Bool, true, leb};
ghost use Rattle.std.specs.Prelude.{[], ◌++◌, length, get_or, set, take, drop, reverse};
ghost use Rattle.std.specs.List.{between};
ghost use Rattle.laws.specs.Stretches.{span};
ghost use Rattle.reversal.specs.Passes.{below, Skipped, pass_by, passes_by};

use places::Place;

// What stands at two places is exchanged: both are read before either is written.
fn swap(order: &mut [u16], a: Place, b: Place)
    requires a_in_bounds { a.0 < length order.old }
    requires b_in_bounds { b.0 < length order.old }
    ensures { order.new ≡ set (set order.old a.0 (get_or order.old b.0 0)) b.0 (get_or order.old a.0 0) }
{
    let left = places::position_of(order, a);
    let right = places::position_of(order, b);
    places::put(order, a, right);
    places::put(order, b, left);
}

// Turns round what stands from one place up to, not including, another. Positions are read and written by their
// places: the library's `reverse` takes a part of the order by bare numbers.
fn reverse(order: &mut [u16], from: Place, to: Place)
    requires from_le_to { from.0 ≤ to.0 }
    requires to_in_bounds { to.0 ≤ length order.old }
    ensures { order.new ≡ take from.0 order.old ++ (reverse (between from.0 to.0 order.old) ++ drop to.0 order.old) }
{
    for n in 0..(to.0 - from.0) / 2 {
        let i = from.0 + n;
        let j = to.0 - 1 - n;
        swap(order, Place(i), Place(j));
    }
}

// How many places are asked for at once where stretches are long.
const BLOCK: usize = 16;

// With fewer places left they are looked at one by one: on a short line a block gains nothing.
const FAR: usize = 64;

// On which side of a pass's level a place is.
trait Side {
    ghost test: { ℕ → ℕ → Bool };

    fn holds(level: u8, here: u8) -> bool
        ensures { result ≡ test level here };

    // Of all places of a block at once.
    fn holds_in(level: u8, block: &[u8]) -> bool
        ensures { result ≡ true → span (test level) block.now ≡ length block.now };
}

// What a pass leaves where it is.
struct Below;

// What a pass turns round.
struct AtOrAbove;

impl Side for Below {
    ghost test = { below };

    fn holds(level: u8, here: u8) -> bool {
        here < level
    }

    #[tactic(auto, using(crate::proofs::BlockLaws::all_below))]
    fn holds_in(level: u8, block: &[u8]) -> bool {
        level_range::highest_level(block) < level
    }
}

impl Side for AtOrAbove {
    ghost test = { leb };

    fn holds(level: u8, here: u8) -> bool {
        level <= here
    }

    #[tactic(auto, using(crate::proofs::BlockLaws::none_below))]
    fn holds_in(level: u8, block: &[u8]) -> bool {
        level <= level_range::lowest_level(block)
    }
}

// Passes over whole blocks on one side.
fn blocks<S: Side>(level: u8, levels: &[u8]) -> usize
    ensures { Skipped (S.test level) levels.now 0 result }
{
    if levels.len() < FAR {
        return 0;
    }
    let count = levels.len() / BLOCK;
    for i in 0..count {
        let at = i * BLOCK;
        if !S::holds_in(level, &levels[at..at + BLOCK]) {
            return at;
        }
    }
    count * BLOCK
}

// The first place from `from` on that is not on that side, or the end.
fn stretch<S: Side>(level: u8, levels: &[u8], from: Place) -> Place
    requires { from.0 ≤ length levels.now }
    ensures { result.0 ≡ from.0 + span (S.test level) (drop from.0 levels.now) }
{
    let part = &levels[from.0..];
    let near = blocks::<S>(level, part);
    let rest = &part[near..];
    let more = rest.iter().position(|here| !S::holds(level, *here));
    Place(from.0 + near + more.unwrap_or(rest.len()))
}

// What one pass does: every longest stretch at the level or above is turned round.
#[tactic(auto, using(crate::proofs::PassLaws::bounds))]
fn reverse_stretches(level: u8, levels: &[u8], order: &mut [u16])
    requires { length levels.now ≤ length order.old }
    ensures { order.new ≡ pass_by level [] levels.now order.old }
{
    let mut at = 0;
    // A `while`: it goes from stretch to stretch. std's `split` by a test does so too, and took 4 to 20 times as long.
    while at < levels.len() {
        let start = stretch::<Below>(level, levels, Place(at));
        let end = stretch::<AtOrAbove>(level, levels, start);
        reverse(order, start, end);
        at = end.0;
    }
}

// L2: one reversal pass, which calls the next with the level one lower.
#[tactic(auto, using(crate::proofs::PassLaws::from_level_on))]
pub fn reversal_pass(level: u8, lowest: u8, levels: &[u8], order: &mut [u16])
    requires { length levels.now ≤ length order.old }
    ensures { order.new ≡ passes_by level lowest levels.now order.old }
{
    if level == 0 || level < lowest {
        return;
    }
    reverse_stretches(level, levels, order);
    reversal_pass(level - 1, lowest, levels, order);
}
