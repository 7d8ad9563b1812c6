// L1: the line's own reset of blanks and separators, on the classes and levels of one line.
#![tactic(auto)]

ghost use Rattle.std.specs.Prelude.{◌≡◌, true, ◌≤◌, length};
ghost use Rattle.laws.specs.Parts.{over};
ghost use Rattle.rules.specs.Line.{L1};
ghost use Rattle.reset.specs.Steps.{back_to, Steps};

use places::Position;

// What a step of the walk gives: the level here, and whether only blanks stand between the position before this one and a
// separator or the line's end.
#[derive(Debug, Clone, Copy, PartialEq, Eq)]
struct Stepped {
    level: u8,
    ahead: bool,
}

// Blanks and separators go back to the base, and what comes before them has only blanks ahead.
fn back(base: u8) -> Stepped
    ensures { result ≡ back_to base }
{
    Stepped {
        level: base,
        ahead: true,
    }
}

// Only blanks stand ahead of this position. A removed one leaves the flag as it is. Both tests are asked with no branch
// between them, which is a fifth faster.
fn step_in_blanks(class: u8, level: u8, base: u8) -> Stepped
    ensures { Steps base class level true result }
{
    if classes::is_blank(class) | classes::is_separator(class) {
        back(base)
    } else {
        Stepped {
            level,
            ahead: classes::is_removed(class),
        }
    }
}

// The flag is asked first, since it seldom changes: where it is not set only a separator counts.
#[tactic(auto, using(crate::proofs::StepLaws::set_by_separator))]
fn step(class: u8, level: u8, base: u8, ahead: bool) -> Stepped
    ensures { Steps base class level ahead result }
{
    if ahead {
        step_in_blanks(class, level, base)
    } else if classes::is_separator(class) {
        back(base)
    } else {
        Stepped {
            level,
            ahead: false,
        }
    }
}

// One walk from the line's end towards its start, so that no blank is looked ahead from: each class and level is read once
// and each level written once.
pub fn reset(classes: &[u8], levels: &[u8], base: u8, out: &mut [u8])
    requires levels_len { length levels.now ≡ length classes.now }
    requires classes_in_bounds { length classes.now ≤ length out.old }
    ensures { out.new ≡ over (L1 base classes.now levels.now) out.old }
{
    let mut ahead = true;
    for i in (0..classes.len()).rev() {
        let class = places::byte_at(classes, Position(i));
        let level = places::byte_at(levels, Position(i));
        let stepped = step(class, level, base, ahead);
        places::put_byte(out, Position(i), stepped.level);
        ahead = stepped.ahead;
    }
}
