// The pair that P1 does not cut apart; and the base level of a paragraph: rules P2 and P3, the request that may stand in
// their place, and the default for a text that decides nothing.
#![tactic(auto, using(crate::proofs::BaseLaws::base_laws), unfolding(rules::specs::Paragraph::P3, rules::specs::Paragraph::base_by_text, rules::specs::Paragraph::base_of))]

ghost use Rattle.std.specs.Prelude.{◌≡◌, ◌+◌, get_or, drop};
ghost use Rattle.rules.specs.Paragraph.{is_pair, P2, P3, base_by_text, base_of};

// The request that leaves the base to the text. A request is a byte, as C gives it, and any may come.
pub const BY_TEXT: u8 = 2;

// Whether a CR stands at a position and a B directly after it. Behind the classes nothing stands.
pub fn is_pair(classes: &[u8], at: usize) -> bool
    ensures { result ≡ is_pair (get_or classes.now at 0) (drop (at + 1) classes.now) }
{
    if classes.len() <= at {
        return false;
    }
    classes[at] == classes::CR && parts::element_or(classes, at + 1, classes::CR) == classes::B
}

// P2. That nothing was found is an answer of its own, before a base is chosen.
pub(crate) fn first_strong(classes: &[u8]) -> Option<u8>
    ensures { result ≡ P2 classes.now }
{
    for class in classes {
        if classes::is_strong(*class) {
            return Some(*class);
        }
    }
    None
}

// P3.
pub(crate) fn level_of(found: Option<u8>) -> Option<u8>
    ensures { result ≡ P3 found }
{
    let class = found?;
    Some(u8::from(matches!(class, classes::R | classes::AL)))
}

// What the text says of its base level: none where it has no strong class.
pub fn base_by_text(classes: &[u8]) -> Option<u8>
    ensures { result ≡ base_by_text classes.now }
{
    level_of(first_strong(classes))
}

// The base level that a request asks for: itself, or what the text says, or else the default.
pub fn base_of(request: u8, fallback: u8, classes: &[u8]) -> u8
    ensures { result ≡ base_of request fallback classes.now }
{
    if request == BY_TEXT {
        return base_by_text(classes).unwrap_or(fallback);
    }
    request
}
