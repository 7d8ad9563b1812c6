// X10: the runs, the types at their boundaries, and W, N and I over each run.
#![tactic(auto)]

ghost use Rattle.std.specs.Prelude.{◌≡◌, ℕ, ◌+◌, ◌<◌, length, get_or};
ghost use Rattle.rules.specs.Runs.{boundary_type};
ghost use Rattle.rules.specs.Resolve.{resolve_run, resolve_kept};
ghost use Rattle.runs.specs.RunEnd.{RunEnd};

use parts::Sides;

// The end of the run that begins at `from`.
fn run_end(levels: &[u8], from: usize) -> usize
    requires { from < length levels.now }
    ensures { RunEnd levels.now from result }
{
    let level = levels[from];
    from + parts::leading(&levels[from..], |l| l == level)
}

// The type at a boundary of runs: the direction of the higher of the two levels.
#[tactic(auto, using(crate::proofs::RunLaws::boundary_is))]
pub fn boundary_type(level: u8, other: u8) -> u8
    ensures { result ≡ boundary_type level other }
{
    neutral::level_direction(level.max(other))
}

// W, N and I on one run.
#[tactic(auto, using(crate::proofs::RunLaws::run_in_turn))]
pub fn resolve_run(types: &mut [u8], levels: &mut [u8], level: u8, sides: Sides)
    requires types_len { length types.old ≡ length levels.old }
    requires level_bound { level + 2 < 256 }
    ensures { levels.new ≡ resolve_run level sides.sor sides.eor types.old }
{
    weak::weak(types, sides);
    neutral::neutral_levels(types, level, sides, levels);
}

// Each run in turn. `before` is the level of the run before it, at first the base. It is a `while`, since it goes from
// run to run: a `for` over the positions would first have to tell a run's last one.
pub fn resolve_kept(types: &mut [u8], levels: &mut [u8], base: u8)
    requires types_len { length types.old ≡ length levels.old }
    requires by_index { (k : ℕ) → get_or levels.old k 0 + 2 < 256 }
    ensures { levels.new ≡ resolve_kept base levels.old types.old }
{
    let mut before = base;
    let mut i = 0;
    while i < levels.len() {
        let level = levels[i];
        let end = run_end(levels, i);
        let next = parts::element_or(levels, end, base);
        let sor = boundary_type(before, level);
        let eor = boundary_type(level, next);
        let sides = Sides { sor, eor };
        resolve_run(&mut types[i..end], &mut levels[i..end], level, sides);
        before = level;
        i = end;
    }
}
