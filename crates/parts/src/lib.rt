// What the passes of several crates share, over plain slices.
#![tactic(auto)]

ghost use Rattle.std.specs.Prelude.{◌≡◌, ℕ, Bool, ◌≤◌, length, get_or, replicate};
ghost use Rattle.rules.specs.Classes.{is_removed};
ghost use Rattle.laws.specs.Parts.{over};
ghost use Rattle.laws.specs.Any.{any_of};
ghost use Rattle.laws.specs.Stretches.{span};
ghost use Rattle.parts.specs.Computes.{Computes};

// So many positions are worked on in a small buffer: a label does not pay for the longest paragraph.
pub const SHORT: usize = 64;

// The types at the two sides of a run: at its start and at its end.
#[derive(Clone, Copy, Debug, PartialEq, Eq)]
pub struct Sides {
    pub sor: u8,
    pub eor: u8,
}

// The element at `i`; past the end, what stands there: for the types of a run its end type, for levels the base.
pub fn element_or(types: &[u8], i: usize, end: u8) -> u8
    ensures { result ≡ get_or types.now i end }
{
    types.get(i).copied().unwrap_or(end)
}

// Takes the part alone, so that it asks nothing of its caller.
pub fn fill(part: &mut [u8], t: u8)
    ensures { part.new ≡ replicate (length part.old) t }
{
    part.fill(t);
}

// The rest of the longer one stays as it was. Byte by byte: the library's `copy_from_slice` would have whoever links the
// archive bring a `memcpy`, where it asks for `memset` alone (`resolve::resolve_in` has the rest of this).
pub fn copy(from: &[u8], to: &mut [u8])
    requires { length from.now ≤ length to.old }
    ensures { to.new ≡ over from.now to.old }
{
    for (at, byte) in from.iter().enumerate() {
        to[at] = *byte;
    }
}

// Whether any byte passes a test. It looks at every one: a walk that could stop at the first would read them one by one.
pub fn any<F: Fn(u8) -> bool>(bytes: &[u8], passes: F) -> bool
    requires { F.IsAlwaysCallable passes }
    ensures { (test : ℕ → Bool) → Computes (F.post passes) test → result ≡ any_of test bytes.now }
{
    let mut found = false;
    for byte in bytes {
        found |= passes(*byte);
    }
    found
}

// A paragraph or line without codes and BN is spared all that they ask for.
pub fn any_removed(classes: &[u8]) -> bool
    ensures { result ≡ any_of is_removed classes.now }
{
    any(classes, classes::is_removed)
}

// How many types come first that belong to one stretch.
pub fn leading<F: Fn(u8) -> bool>(types: &[u8], belongs: F) -> usize
    requires { F.IsAlwaysCallable belongs }
    ensures { (test : ℕ → Bool) → Computes (F.post belongs) test → result ≡ span test types.now }
{
    for (i, t) in types.iter().enumerate() {
        if !belongs(*t) {
            return i;
        }
    }
    types.len()
}
