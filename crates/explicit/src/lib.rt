// Explicit levels and directions, rules X1 to X9: two walks along a paragraph. A kept position leaves the machine as it
// is, so they step it at the removed ones alone.
#![tactic(auto)]

ghost use Rattle.std.specs.Prelude.{◌≡◌, ◌≤◌, length};
ghost use Rattle.rules.specs.Explicit.{X1, explicit_levels};
ghost use Rattle.laws.specs.Parts.{over};
ghost use Rattle.explicit.specs.Promises.{Gathered};

use machine::Machine;

// A level for every position, 255 where it is removed: what the job Explicit writes. That the base is 0 or 1 stays a clause:
// it is written to the levels as the byte that it is, and a type for it would be opened at each use.
pub fn explicit_levels(classes: &[u8], base: u8, levels: &mut [u8])
    requires { (base ≤ 1) × (length classes.now ≤ length levels.old) }
    ensures { levels.new ≡ over (explicit_levels base (X1 base) classes.now) levels.old }
{
    let mut machine = Machine::new(base);
    for (at, &class) in classes.iter().enumerate() {
        levels[at] = machine.level_here(base, class);
        if classes::is_removed(class) {
            machine = machine.step(class);
        }
    }
}

// The levels and types of the kept positions alone, packed at the front: the later phases work on neighbours, and X9
// makes neighbours of what stands around a removed position. Returns how many are kept.
pub fn gather(classes: &[u8], base: u8, levels: &mut [u8], types: &mut [u8]) -> usize
    requires { (base ≤ 1) × (length classes.now ≤ length levels.old) × (length classes.now ≤ length types.old) }
    ensures { Gathered base classes.now levels.old types.old levels.new types.new result }
{
    let mut machine = Machine::new(base);
    let mut k = 0;
    for &class in classes {
        if classes::is_removed(class) {
            machine = machine.step(class);
        } else {
            levels[k] = machine.level_here(base, class);
            types[k] = machine.type_here(class);
            k += 1;
        }
    }
    k
}
