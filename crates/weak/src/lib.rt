// Weak types: rules W1 to W7 on the types of one run, in place, in two passes: W1 to W4, then W5 to W7.
#![tactic(auto)]

ghost use Rattle.std.specs.Prelude.{◌≡◌, false, ◌≤◌, length, drop};
ghost use Rattle.rules.specs.Weak.{W1, W2, W3, W4, W5, W6, W7, weak};
ghost use Rattle.laws.specs.Any.{any_of};
ghost use Rattle.weak_steps.specs.Tables.{early_steps, late_steps};
ghost use Rattle.weak.specs.Touched.{is_touched};

use parts::Sides;
use weak_steps::Table;

// W1 to W4 in one pass. W4 asks for the next type as W3 left it, so a type is written when the next one is known; the
// type before is the one before W4, carried since its place is written already.
fn w1_to_w4(table: &Table, types: &mut [u8], sides: Sides)
    requires { table.now ≡ early_steps }
    ensures { types.new ≡ W4 sides.sor sides.eor (W3 (W2 sides.sor (W1 sides.sor types.old))) }
{
    if types.is_empty() {
        return;
    }
    // of the place last read: its type after W1, after W3, and the strong type for what follows; of the one before it:
    // its type after W3
    let mut own = weak_steps::change_w1(sides.sor, types[0]);
    let mut here = table.change(sides.sor, own);
    let mut strong = table.carry(sides.sor, own);
    let mut before = sides.sor;
    for i in 1..types.len() {
        own = weak_steps::change_w1(own, types[i]);
        let next = table.change(strong, own);
        strong = table.carry(strong, own);
        types[i - 1] = weak_steps::change_w4(before, here, next);
        before = here;
        here = next;
    }
    let last = types.len() - 1;
    types[last] = weak_steps::change_w4(before, here, sides.eor);
}

// W5 to W7 in one pass: where a stretch of ET ends, all of it is filled with what the three make of it.
fn w5_to_w7(table: &Table, types: &mut [u8], sides: Sides)
    requires { table.now ≡ late_steps }
    ensures { types.new ≡ W7 sides.sor (W6 (W5 sides.sor sides.eor types.old)) }
{
    let mut before = sides.sor;
    let mut strong = sides.sor;
    // from here on nothing is written yet: up to the place at hand, ET
    let mut from = 0;
    for i in 0..types.len() {
        let t = types[i];
        if t == classes::ET {
            continue;
        }
        // before the fill, which is quicker than behind it
        let own = table.change(strong, t);
        if from < i {
            let changed = weak_steps::change_w5(before, t);
            parts::fill(&mut types[from..i], table.change(strong, changed));
        }
        types[i] = own;
        strong = table.carry(strong, t);
        before = t;
        from = i + 1;
    }
    if from < types.len() {
        let changed = weak_steps::change_w5(before, sides.eor);
        parts::fill(&mut types[from..], table.change(strong, changed));
    }
}

// AL, and the range from EN to NSM: AN in it is only looked at, but one range is asked sooner than five names.
#[tactic(auto, using(laws::proofs::Tests::tests), unfolding(crate::specs::Touched::is_touched))]
fn is_touched(t: u8) -> bool
    ensures { result ≡ is_touched t }
{
    matches!(t, classes::AL | classes::EN..=classes::NSM)
}

// How many types are asked for at once at a run's end.
const BLOCK: usize = 64;

// Where, at a run's end, the whole blocks begin in which no rule asks for a type. Letters and blanks fill many blocks, and a
// block is read at once. Out of line, so that a short run does not pay for it.
#[inline(never)]
fn blocks_begin(types: &[u8]) -> usize
    ensures upper_bound { result ≤ length types.now }
    ensures types_value { any_of is_touched (drop result types.now) ≡ false }
{
    let count = types.len() / BLOCK;
    for n in 0..count {
        let end = types.len() - n * BLOCK;
        if parts::any(&types[end - BLOCK..end], is_touched) {
            return end;
        }
    }
    types.len() - count * BLOCK
}

// Where the last type that a rule asks for ends.
#[tactic(auto, using(crate::proofs::TouchedLaws::none_touched))]
fn last_touched(types: &[u8]) -> usize
    ensures upper_bound { result ≤ length types.now }
    ensures types_value { any_of is_touched (drop result types.now) ≡ false }
{
    match types.iter().rposition(|t| is_touched(*t)) {
        Some(last) => last + 1,
        None => 0,
    }
}

// The same: behind it the run stays as it is. Where whole blocks at the run's end have no such type, as letters and blanks
// have none, the walk from type to type begins before them.
fn touched_end(types: &[u8]) -> usize
    ensures upper_bound { result ≤ length types.now }
    ensures types_value { any_of is_touched (drop result types.now) ≡ false }
{
    if types.len() < BLOCK {
        return last_touched(types);
    }
    let begin = blocks_begin(types);
    last_touched(&types[..begin])
}

// The two passes, each lent its table.
#[tactic(auto, using(crate::proofs::WeakLaws::weak_in_turn))]
fn both_passes(types: &mut [u8], sides: Sides)
    ensures { types.new ≡ weak sides.sor sides.eor types.old }
{
    let early = weak_steps::early_table();
    let late = weak_steps::late_table();
    w1_to_w4(&early, types, sides);
    w5_to_w7(&late, types, sides);
}

// The rules see of what is behind the last touched type only the first type: to them it is the end type.
#[tactic(auto, using(crate::proofs::TouchedLaws::weak_of_none, crate::proofs::TouchedLaws::weak_of_front))]
pub fn weak(types: &mut [u8], sides: Sides)
    ensures { types.new ≡ weak sides.sor sides.eor types.old }
{
    let end = touched_end(types);
    if end == 0 {
        return;
    }
    let seen = Sides {
        eor: parts::element_or(types, end, sides.eor),
        ..sides
    };
    both_passes(&mut types[..end], seen);
}
