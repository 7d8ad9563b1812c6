// Numbers and levels, alone and behind a space.
ghost use Rattle.std.specs.Prelude.{◌∷◌};
ghost use Rattle.words.specs.Words.{space};
ghost use Rattle.writing.specs.Text.{number_text, level_text};
ghost use Rattle.writing.specs.Writes.{Writes};

use crate::Output;

impl<'a> Output<'a> {
    pub fn put_number(&mut self, n: usize)
        ensures { Writes (number_text n) self.old self.new }
    {
        let mut buffer = itoa::Buffer::new();
        self.put_text(buffer.format(n).as_bytes());
    }

    pub(crate) fn put_spaced_number(&mut self, n: usize)
        ensures { Writes (space ∷ number_text n) self.old self.new }
    {
        self.put_byte(b' ');
        self.put_number(n);
    }

    #[tactic(auto, using(laws::proofs::Tests::tests), unfolding(crate::specs::Text::level_text))]
    pub(crate) fn put_level(&mut self, level: u8)
        ensures { Writes (level_text level) self.old self.new }
    {
        if level == classes::REMOVED_LEVEL {
            self.put_byte(b'-');
        } else {
            self.put_number(usize::from(level));
        }
    }
}
