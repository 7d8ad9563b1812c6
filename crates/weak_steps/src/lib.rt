// What the rules make of one type: W1, W4 and W5 by their tests. W2 with W3, and W6 with W7, carry a strong type along
// and go by tables: which class comes next cannot be foreseen, and a wrong guess at a branch costs more than the rule.
#![tactic(auto)]

ghost use Rattle.std.specs.Prelude.{◌≡◌, eqb, ◌≤◌, if◌then◌else◌};
ghost use Rattle.rules.specs.Classes.{row_width};
ghost use Rattle.rules.specs.Weak.{change_W1, change_W4, change_W5};
ghost use Rattle.weak_steps.specs.Tables.{early_steps, late_steps, becomes, follows};

use classes::{AL, AN, CS, EN, ES, ET, L, NSM, ON, R, ROW_WIDTH};

// A table has six rows, each with an entry for each class and one for all other numbers.
pub const ENTRIES: usize = 6 * ROW_WIDTH;

#[tactic(auto, using(laws::proofs::Tests::tests), unfolding(rules::specs::Weak::change_W1))]
pub fn change_w1(before: u8, t: u8) -> u8
    ensures { result ≡ change_W1 before t }
{
    if t == NSM { before } else { t }
}

// Most types are no separators: that is asked first.
#[tactic(auto, using(laws::proofs::Tests::tests), unfolding(rules::specs::Weak::change_W4))]
pub fn change_w4(before: u8, t: u8, next: u8) -> u8
    ensures { result ≡ change_W4 before t next }
{
    match (t, before, next) {
        (ES | CS, EN, EN) => EN,
        (CS, AN, AN) => AN,
        _ => t,
    }
}

// What a stretch of ET between two types becomes.
#[tactic(auto, using(laws::proofs::Tests::tests), unfolding(rules::specs::Weak::change_W5))]
pub fn change_w5(before: u8, next: u8) -> u8
    ensures { result ≡ change_W5 before next ET }
{
    if before == EN || next == EN { EN } else { ET }
}

// The table of a pass, and the one strong type that makes a difference to it. Two entries say what becomes of a type:
// 255 where it stays, or else 0 and the new type.
#[derive(Clone, Copy, Debug, PartialEq, Eq)]
pub struct Table {
    pub wanted: u8,
    pub entries: [u8; ENTRIES],
}

impl Table {
    // The second row of two is for what stands behind the strong type that is wanted.
    #[tactic(auto, using(laws::proofs::Tests::tests))]
    fn row_behind(&self, strong: u8) -> usize
        ensures value { result ≡ (if eqb strong self.now.wanted then row_width else 0) }
        ensures upper_bound { result ≤ row_width }
    {
        if strong == self.wanted { ROW_WIDTH } else { 0 }
    }

    // What a type becomes.
    #[tactic(auto, using(crate::proofs::TableLaws::changed_at))]
    pub fn change(&self, strong: u8, t: u8) -> u8
        ensures { result ≡ becomes self.now strong t }
    {
        let at = self.row_behind(strong) + classes::place_of(t);
        t & self.entries[at] | self.entries[2 * ROW_WIDTH + at]
    }

    // The strong type for what follows.
    #[tactic(auto, using(crate::proofs::TableLaws::carried_at))]
    pub fn carry(&self, strong: u8, t: u8) -> u8
        ensures { result ≡ follows self.now strong t }
    {
        let at = 4 * ROW_WIDTH + classes::place_of(t);
        strong & self.entries[at] | self.entries[ROW_WIDTH + at]
    }
}

// The rows: whether a type stays behind any other strong type, and behind the one that is wanted; what it becomes
// behind any other, and behind that one; whether the strong type before stays, behind a type; and what it becomes.
// The entries: L LRE LRO R AL, RLE RLO PDF EN ES, ET AN CS NSM BN, B S WS ON CR, and all other numbers.

// W2, then W3, and the strong type that W2 carries: AL makes a difference.
const EARLY: [u8; ENTRIES] = [
    // All stay but AL.
    255, 255, 255, 255, 0, 255, 255, 255, 255, 255, 255, 255, 255, 255, 255, 255, 255, 255, 255,
    255, 255,
    // Behind AL: all but AL and EN.
    255, 255, 255, 255, 0, 255, 255, 255, 0, 255, 255, 255, 255, 255, 255, 255, 255, 255, 255, 255,
    255,
    // AL becomes R.
    0, 0, 0, 0, R, 0, 0, 0, 0, 0, 0, 0, 0, 0, 0, 0, 0, 0, 0, 0, 0,
    // Behind AL: AL becomes R, and EN AN.
    0, 0, 0, 0, R, 0, 0, 0, AN, 0, 0, 0, 0, 0, 0, 0, 0, 0, 0, 0, 0,
    // L, R and AL are strong.
    0, 255, 255, 0, 0, 255, 255, 255, 255, 255, 255, 255, 255, 255, 255, 255, 255, 255, 255, 255,
    255,
    // They are carried themselves.
    L, 0, 0, R, AL, 0, 0, 0, 0, 0, 0, 0, 0, 0, 0, 0, 0, 0, 0, 0, 0,
];

// W6, then W7, and the strong type that W7 carries: L makes a difference.
const LATE: [u8; ENTRIES] = [
    // All stay but ES, ET and CS.
    255, 255, 255, 255, 255, 255, 255, 255, 255, 0, 0, 255, 0, 255, 255, 255, 255, 255, 255, 255,
    255,
    // Behind L: all but EN, ES, ET and CS.
    255, 255, 255, 255, 255, 255, 255, 255, 0, 0, 0, 255, 0, 255, 255, 255, 255, 255, 255, 255,
    255,
    // ES, ET and CS become ON.
    0, 0, 0, 0, 0, 0, 0, 0, 0, ON, ON, 0, ON, 0, 0, 0, 0, 0, 0, 0, 0,
    // Behind L: EN becomes L, and ES, ET and CS ON.
    0, 0, 0, 0, 0, 0, 0, 0, L, ON, ON, 0, ON, 0, 0, 0, 0, 0, 0, 0, 0,
    // L and R are strong.
    0, 255, 255, 0, 255, 255, 255, 255, 255, 255, 255, 255, 255, 255, 255, 255, 255, 255, 255, 255,
    255,
    // They are carried themselves.
    L, 0, 0, R, 0, 0, 0, 0, 0, 0, 0, 0, 0, 0, 0, 0, 0, 0, 0, 0, 0,
];

// Tables are answered by value: a pass is lent its own, so that it is made once a run.
#[tactic(auto, unfolding(crate::specs::Tables::early, laws::specs::Tables::table_of, laws::specs::Tables::row_of, laws::specs::Choice::up_from, rules::specs::Classes::is_strong, rules::specs::Weak::change_W2, rules::specs::Weak::change_W3))]
pub fn early_table() -> Table
    ensures { result ≡ early_steps }
{
    Table {
        wanted: AL,
        entries: EARLY,
    }
}

#[tactic(auto, unfolding(crate::specs::Tables::late, laws::specs::Tables::table_of, laws::specs::Tables::row_of, laws::specs::Choice::up_from, rules::specs::Weak::is_side, rules::specs::Weak::change_W6, rules::specs::Weak::change_W7))]
pub fn late_table() -> Table
    ensures { result ≡ late_steps }
{
    Table {
        wanted: L,
        entries: LATE,
    }
}
