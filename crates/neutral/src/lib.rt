// Neutral types and implicit levels: rules N1 and N2, I1 and I2 on one run.
#![tactic(auto, using(laws::proofs::Tests::tests))]

ghost use Rattle.std.specs.Prelude.{◌≡◌, map, ℕ, ◌+◌, ◌<◌, ◌||◌, eqb, length, if◌then◌else◌};
ghost use Rattle.laws.specs.Choice.{is_odd};
ghost use Rattle.rules.specs.Classes.{EN, AN, ON};
ghost use Rattle.rules.specs.Neutral.{direction, level_direction, change_N1, change_N2, N1, N2};
ghost use Rattle.rules.specs.Implicit.{implicit_level};
ghost use Rattle.neutral.specs.Finals.{final_level};

use parts::Sides;

fn is_number(t: u8) -> bool
    ensures { result ≡ (eqb t EN || eqb t AN) }
{
    matches!(t, classes::EN | classes::AN)
}

fn is_odd(level: u8) -> bool
    ensures { result ≡ is_odd level }
{
    level % 2 == 1
}

#[tactic(auto, using(laws::proofs::Tests::tests), unfolding(rules::specs::Neutral::direction))]
fn direction(t: u8) -> u8
    ensures { result ≡ direction t }
{
    if is_number(t) { classes::R } else { t }
}

// The direction of a level, which a boundary of runs takes too.
#[tactic(auto, using(laws::proofs::Tests::tests), unfolding(rules::specs::Neutral::level_direction))]
pub fn level_direction(level: u8) -> u8
    ensures { result ≡ level_direction level }
{
    if is_odd(level) {
        classes::R
    } else {
        classes::L
    }
}

#[tactic(auto, using(laws::proofs::Tests::tests), unfolding(rules::specs::Neutral::change_N2))]
fn change_n2(level: u8, t: u8) -> u8
    ensures { result ≡ change_N2 level t }
{
    if classes::is_neutral(t) {
        level_direction(level)
    } else {
        t
    }
}

// What N2 after N1 makes of a stretch of neutrals between two types, whichever neutrals they are.
#[tactic(auto, using(crate::proofs::NeutralLaws::N_equal, crate::proofs::NeutralLaws::N_apart))]
fn change_neutral(level: u8, before: u8, next: u8) -> u8
    ensures { result ≡ change_N2 level (change_N1 before next ON) }
{
    let d = direction(before);
    if d == direction(next) {
        change_n2(level, d)
    } else {
        level_direction(level)
    }
}

// Both are known already, so that there is no branch: which type comes next cannot be foreseen. It is a function of its
// own: with an `if` over two fields in place of it the pass takes a fifth longer, with a `match` twice as long.
fn pick(test: bool, one: u8, other: u8) -> u8
    ensures { result ≡ (if test then one else other) }
{
    if test { one } else { other }
}

// The levels that the types of a run come to: one for each type that I1 and I2 raise, and the run's own for any other.
// Nothing compares or prints them.
#[derive(Clone, Copy)]
struct Finals {
    l: u8,
    r: u8,
    en: u8,
    an: u8,
    own: u8,
}

impl Finals {
    // I1 and I2, once a run.
    #[tactic(auto, using(crate::proofs::ImplicitLaws::finals_odd, crate::proofs::ImplicitLaws::finals_even))]
    fn of(level: u8) -> Finals
        requires { level + 2 < 256 }
        ensures own { result.own ≡ level }
        ensures levels { (t : ℕ) → final_level result t ≡ implicit_level level t }
    {
        if is_odd(level) {
            Finals {
                l: level + 1,
                r: level,
                en: level + 1,
                an: level + 1,
                own: level,
            }
        } else {
            Finals {
                l: level,
                r: level + 1,
                en: level + 2,
                an: level + 2,
                own: level,
            }
        }
    }

    #[tactic(auto, using(laws::proofs::Tests::tests), unfolding(crate::specs::Finals::final_level))]
    fn of_type(self, t: u8) -> u8
        ensures { result ≡ final_level self t }
    {
        let number = pick(t == classes::AN, self.an, self.own);
        let other = pick(t == classes::EN, self.en, number);
        let right = pick(t == classes::R, self.r, other);
        pick(t == classes::L, self.l, right)
    }
}

// N1, N2 and I of a short run in one pass from the types to the levels: where a stretch of neutrals ends, all of it is filled. W5 to
// W7 go the same way, but in place and with a strong type carried along: one function for both would be no plainer.
fn spread_short(types: &[u8], finals: Finals, sides: Sides, levels: &mut [u8])
    requires { length types.now ≡ length levels.old }
    ensures { levels.new ≡ map (final_level finals) (N2 finals.own (N1 sides.sor sides.eor types.now)) }
{
    let mut before = sides.sor;
    // from here on nothing is written yet: up to the place at hand, neutrals
    let mut from = 0;
    for (i, t) in types.iter().enumerate() {
        if classes::is_neutral(*t) {
            continue;
        }
        if from < i {
            let changed = change_neutral(finals.own, before, *t);
            parts::fill(&mut levels[from..i], finals.of_type(changed));
        }
        levels[i] = finals.of_type(*t);
        before = *t;
        from = i + 1;
    }
    if from < types.len() {
        let changed = change_neutral(finals.own, before, sides.eor);
        parts::fill(&mut levels[from..], finals.of_type(changed));
    }
}

// I1 and I2 of each type as it stands. A straight loop with no branch, so that many types are read at once.
fn own_levels(types: &[u8], finals: Finals, levels: &mut [u8])
    requires { length types.now ≡ length levels.old }
    ensures { levels.new ≡ map (final_level finals) types.now }
{
    for (i, t) in types.iter().enumerate() {
        levels[i] = finals.of_type(*t);
    }
}

// N1, N2 and I on the stretches of neutrals, where every other type has its level.
fn fill_stretches(types: &[u8], finals: Finals, sides: Sides, levels: &mut [u8])
    requires { levels.old ≡ map (final_level finals) types.now }
    ensures { levels.new ≡ map (final_level finals) (N2 finals.own (N1 sides.sor sides.eor types.now)) }
{
    let mut before = sides.sor;
    let mut at = 0;
    // A `while`: it goes from stretch to stretch; `parts::leading` seeks where each begins and where it ends.
    while at < types.len() {
        let from = at + parts::leading(&types[at..], |t| !classes::is_neutral(t));
        let end = from + parts::leading(&types[from..], classes::is_neutral);
        if at < from {
            before = types[from - 1];
        }
        let next = parts::element_or(types, end, sides.eor);
        let changed = change_neutral(finals.own, before, next);
        parts::fill(&mut levels[from..end], finals.of_type(changed));
        at = end;
    }
}

// The two passes of a long run. Out of line, so that the pass of a short one keeps its registers.
#[inline(never)]
fn spread_long(types: &[u8], finals: Finals, sides: Sides, levels: &mut [u8])
    requires { length types.now ≡ length levels.old }
    ensures { levels.new ≡ map (final_level finals) (N2 finals.own (N1 sides.sor sides.eor types.now)) }
{
    own_levels(types, finals, levels);
    fill_stretches(types, finals, sides, levels);
}

// N1, N2 and I from the types to the levels. A long run goes by two passes, of which the first has no branch and the second
// skips what is no neutral; a short one would not pay for both.
fn spread_levels(types: &[u8], finals: Finals, sides: Sides, levels: &mut [u8])
    requires { length types.now ≡ length levels.old }
    ensures { levels.new ≡ map (final_level finals) (N2 finals.own (N1 sides.sor sides.eor types.now)) }
{
    if types.len() <= parts::SHORT {
        spread_short(types, finals, sides, levels);
    } else {
        spread_long(types, finals, sides, levels);
    }
}

// A struct of types and levels would be taken apart at once, since the rules on types need no levels; so two clauses stay.
#[tactic(auto, using(crate::proofs::ImplicitLaws::finals_levels))]
pub fn neutral_levels(types: &[u8], level: u8, sides: Sides, levels: &mut [u8])
    requires types_len { length types.now ≡ length levels.old }
    requires level_bound { level + 2 < 256 }
    ensures { levels.new ≡ map (implicit_level level) (N2 level (N1 sides.sor sides.eor types.now)) }
{
    spread_levels(types, Finals::of(level), sides, levels);
}
