// What a word names: a class, or at the beginning of a line a request and its default.
ghost use Rattle.std.specs.Prelude.{◌≡◌};
ghost use Rattle.words.specs.Words.{class_named, request_named, fallback_named};

// The class of a word that names none: a byte like every class, so that a job refuses it with 2.
pub const UNKNOWN_NAME: u8 = 255;

// The class that a word names.
#[tactic(auto, using(crate::proofs::NameLaws::no_names), unfolding(crate::specs::Words::class_named, crate::specs::Words::place_among, crate::specs::Words::same_word))]
pub fn class_named(word: &[u8]) -> u8
    ensures { result ≡ class_named word.now }
{
    match word {
        b"L" => classes::L,
        b"LRE" => classes::LRE,
        b"LRO" => classes::LRO,
        b"R" => classes::R,
        b"AL" => classes::AL,
        b"RLE" => classes::RLE,
        b"RLO" => classes::RLO,
        b"PDF" => classes::PDF,
        b"EN" => classes::EN,
        b"ES" => classes::ES,
        b"ET" => classes::ET,
        b"AN" => classes::AN,
        b"CS" => classes::CS,
        b"NSM" => classes::NSM,
        b"BN" => classes::BN,
        b"B" => classes::B,
        b"S" => classes::S,
        b"WS" => classes::WS,
        b"ON" => classes::ON,
        b"CR" => classes::CR,
        _ => UNKNOWN_NAME,
    }
}

// What a line's first word asks: a request, and the default that goes with it.
#[derive(Clone, Copy, Debug, PartialEq, Eq)]
pub struct Asked {
    pub request: u8,
    pub fallback: u8,
}

// Three words leave the base to the text, the default being 1 with the last alone; 3 is no request that the library takes.
#[tactic(auto, using(crate::proofs::NameLaws::no_first_words), unfolding(crate::specs::Words::request_named, crate::specs::Words::fallback_named, crate::specs::Words::first_word_place, crate::specs::Words::place_among, crate::specs::Words::same_word))]
pub fn request_named(word: &[u8]) -> Asked
    ensures request_value { result.request ≡ request_named word.now }
    ensures fallback_value { result.fallback ≡ fallback_named word.now }
{
    let (request, fallback) = match word {
        b"0" => (0, 0),
        b"1" => (1, 0),
        b"2" | b"20" => (2, 0),
        b"21" => (2, 1),
        _ => (3, 0),
    };
    Asked { request, fallback }
}
