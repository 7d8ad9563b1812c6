// Bytes and words.
ghost use Rattle.std.specs.Prelude.{[], ◌∷◌};
ghost use Rattle.writing.specs.Writes.{Writes};

use crate::Output;

impl<'a> Output<'a> {
    // Past the buffer's end there is no place to write to.
    #[tactic(auto, using(crate::proofs::TextLaws::puts_byte, crate::proofs::TextLaws::puts_past))]
    pub(crate) fn put_byte(&mut self, byte: u8)
        ensures { Writes (byte ∷ []) self.old self.new }
    {
        if self.at < self.out.len() {
            self.out[self.at] = byte;
            self.at += 1;
        } else {
            self.at = self.out.len();
        }
    }

    pub(crate) fn put_text(&mut self, text: &[u8])
        ensures { Writes text.now self.old self.new }
    {
        self.at = self.at.min(self.out.len());
        for byte in text {
            self.put_byte(*byte);
        }
    }
}
