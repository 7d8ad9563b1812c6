// The machine of rules X1 to X9: a state by value, which takes one class and hands back the next state. Its fields are
// its own: a machine is made by `new` and changed by `step` alone.
#![tactic(auto, using(crate::proofs::MachineLaws::steps))]

ghost use Rattle.std.specs.Prelude.{◌≡◌, ◌≤◌, ◌<◌, ◌+◌, ◌^◌};
ghost use Rattle.rules.specs.Explicit.{X1, highest_explicit, opening, closing, verdict, after, step};
ghost use Rattle.rules.specs.Explicit.{level_here, type_here};
ghost use Rattle.rules.specs.Explicit as rules;
ghost use Rattle.machine.specs.Asked.{level_asked, override_asked};
ghost use Rattle.machine.specs.Fields.{SoundFields};

// Where a code that asks for an even level is invalid too.
const NEXT_TO_HIGHEST: u8 = classes::HIGHEST_EXPLICIT - 1;

// How many pairs can be remembered: their levels rise from 0 or 1.
const MOST: usize = classes::HIGHEST_EXPLICIT as usize;

// A level and the override there (ON where there is none, as the definitions write it): what a valid code takes, and
// what its PDF goes back to.
#[derive(Clone, Copy, Debug, PartialEq, Eq)]
pub struct Pair {
    pub level: u8,
    pub over: u8,
}

// What a class does in a state. A verdict that opens or closes validly names the level and override to take.
#[derive(Clone, Copy, Debug, PartialEq, Eq)]
pub enum Verdict {
    OpensValid(Pair),
    OpensInvalid,
    ClosesValid(Pair),
    ClosesInvalid,
    ClosesNothing,
    Plain,
}

// The pairs not yet matched lie in two arrays, of which the first `depth` places count: no heap, and the form that
// document 01 names (docs/DECISIONS.md). Invalid codes need no places of their own: only at levels 60 and 61 can there be
// any, and they are matched before what is remembered below. Nothing compares or prints a machine.
#[derive(Clone, Copy)]
pub struct Machine {
    levels: [u8; MOST],
    overrides: [u8; MOST],
    depth: usize,
    level: u8,
    over: u8,
    invalid60: usize,
    invalid61: usize,
    ghost sound: { ∥ SoundFields levels overrides depth level invalid60 invalid61 ∥₁ },
}

// X2 to X5: the level that a code asks for, in one place.
fn level_asked(class: u8, level: u8) -> u8
    requires { level ≤ highest_explicit }
    ensures { result ≡ level_asked class level }
{
    let odd = level % 2;
    match class {
        classes::RLE | classes::RLO => level + 1 + odd, // the least greater odd level
        _ => level + 2 - odd, // the least greater even one
    }
}

// RLE and LRE end the override around them.
#[tactic(auto, using(crate::proofs::MachineLaws::steps), unfolding(crate::specs::Asked::override_asked))]
fn override_asked(class: u8) -> u8
    ensures { result ≡ override_asked class }
{
    match class {
        classes::RLO => classes::R,
        classes::LRO => classes::L,
        _ => classes::ON,
    }
}

impl Machine {
    ghost use Rattle.machine.specs.Steps.{Shown, Judged, Recounted};
    ghost use Rattle.machine.specs.Meaning.{meaning, invalid_here};
    ghost use Rattle.machine.specs.Sound.{counts, Stands};
    ghost use Rattle.machine.specs.Fields.{next_to_highest};

    // X1. What the arrays hold before anything is remembered does not matter.
    pub fn new(base: u8) -> Machine
        requires { base ≤ 1 }
        ensures { Stands result (X1 base) 0 }
    {
        Machine {
            levels: [0; MOST],
            overrides: [0; MOST],
            depth: 0,
            level: base,
            over: classes::ON,
            invalid60: 0,
            invalid61: 0,
        }
    }

    // How many invalid codes wait to be matched before the pair remembered last.
    #[tactic(auto, using(crate::proofs::MachineLaws::steps), unfolding(crate::specs::Meaning::invalid_at))]
    fn invalid_here(self) -> usize
        ensures { result ≡ invalid_here self }
    {
        match self.level {
            classes::HIGHEST_EXPLICIT => self.invalid61,
            NEXT_TO_HIGHEST => self.invalid60,
            _ => 0,
        }
    }

    // The count of the present level set anew: both ways of changing it go through here.
    fn counted(mut self, n: usize) -> Machine
        requires { next_to_highest ≤ self.level }
        ensures { Recounted self n result }
    {
        if self.level == classes::HIGHEST_EXPLICIT {
            self.invalid61 = n;
            return self;
        }
        self.invalid60 = n;
        self
    }

    // X2 to X5.
    fn opening(self, class: u8) -> Verdict
        ensures { Judged self (opening (level_asked class self.level) (override_asked class)) result }
    {
        let level = level_asked(class, self.level);
        if level > classes::HIGHEST_EXPLICIT {
            return Verdict::OpensInvalid;
        }
        let over = override_asked(class);
        Verdict::OpensValid(Pair { level, over })
    }

    // X7. The one place where a remembered pair is read.
    fn closing(self) -> Verdict
        ensures { Judged self (closing (meaning self).unmatched) result }
    {
        if self.invalid_here() != 0 {
            return Verdict::ClosesInvalid;
        }
        if self.depth == 0 {
            return Verdict::ClosesNothing;
        }
        let last = self.depth - 1;
        Verdict::ClosesValid(Pair {
            level: self.levels[last],
            over: self.overrides[last],
        })
    }

    // Kept apart from what follows it: nothing is changed before the whole answer is known.
    fn verdict(self, class: u8) -> Verdict
        ensures { Judged self (verdict (meaning self) class) result }
    {
        if classes::is_opening(class) {
            self.opening(class)
        } else if class == classes::PDF {
            self.closing()
        } else {
            Verdict::Plain
        }
    }

    // The one place where a pair is remembered.
    fn remember(mut self, new: Pair) -> Machine
        requires { Shown self (Verdict.OpensValid new) }
        ensures { Stands result (after (meaning self) (rules.opens_valid new.level new.over)) (counts self) }
    {
        let depth = self.depth;
        self.levels[depth] = self.level;
        self.overrides[depth] = self.over;
        self.depth = depth + 1;
        self.level = new.level;
        self.over = new.over;
        self
    }

    // The pair that a verdict read is taken back; its places are free again.
    fn restore(mut self, back: Pair) -> Machine
        requires { Shown self (Verdict.ClosesValid back) }
        ensures { Stands result (after (meaning self) (rules.closes_valid back.level back.over)) (counts self) }
    {
        self.depth -= 1;
        self.level = back.level;
        self.over = back.over;
        self
    }

    // An invalid code leaves a count alone, for its PDF to find.
    #[tactic(auto, using(crate::proofs::MachineLaws::steps), unfolding(crate::specs::Meaning::invalid_at))]
    fn count_more(self) -> Machine
        requires { Shown self Verdict.OpensInvalid × (counts self < 2 ^ 63) }
        ensures { Stands result (after (meaning self) rules.opens_invalid) (counts self + 1) }
    {
        let n = self.invalid_here();
        self.counted(n + 1)
    }

    // The PDF of an invalid code changes nothing else.
    #[tactic(auto, using(crate::proofs::MachineLaws::steps), unfolding(crate::specs::Meaning::invalid_at))]
    fn count_less(self) -> Machine
        requires { Shown self Verdict.ClosesInvalid }
        ensures { Stands result (after (meaning self) rules.closes_invalid) (counts self) }
    {
        let n = self.invalid_here();
        self.counted(n - 1)
    }

    // One class taken: every change of state goes through the verdict.
    pub fn step(self, class: u8) -> Machine
        requires { counts self < 2 ^ 63 }
        ensures { Stands result (step (meaning self) class) (counts self + 1) }
    {
        match self.verdict(class) {
            Verdict::OpensValid(new) => self.remember(new),
            Verdict::OpensInvalid => self.count_more(),
            Verdict::ClosesValid(back) => self.restore(back),
            Verdict::ClosesInvalid => self.count_less(),
            Verdict::ClosesNothing | Verdict::Plain => self,
        }
    }

    // X6a, X8 and X9: the level of a position of this class.
    #[tactic(auto, unfolding(rules::specs::Explicit::level_here, rules::specs::Explicit::X6_level))]
    pub fn level_here(self, base: u8, class: u8) -> u8
        ensures { result ≡ level_here base (meaning self) class }
    {
        if classes::is_removed(class) {
            classes::REMOVED_LEVEL
        } else if classes::is_paragraph_end(class) {
            base // X8
        } else {
            self.level
        }
    }

    // X6b and X8: the type of a kept position of this class.
    #[tactic(auto, unfolding(rules::specs::Explicit::type_here, rules::specs::Explicit::X6_type))]
    pub fn type_here(self, class: u8) -> u8
        ensures { result ≡ type_here (meaning self) class }
    {
        if classes::is_paragraph_end(class) {
            return class; // X8
        }
        match self.over {
            classes::ON => class,
            over => over,
        }
    }
}
