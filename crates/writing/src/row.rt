// The rows of the output: a name, each value behind a space, and the line feed. Levels and positions have a loop each: one
// loop over any values would take the writing of a value as a closure over the output, which is longer than the two.
ghost use Rattle.writing.specs.Text.{base_row, levels_row, order_row, refused_row};
ghost use Rattle.writing.specs.Writes.{Writes};

use crate::Output;

impl<'a> Output<'a> {
    pub fn put_base_row(&mut self, base: u8)
        ensures { Writes (base_row base) self.old self.new }
    {
        self.put_text(b"base");
        self.put_spaced_number(usize::from(base));
        self.put_byte(b'\n');
    }

    pub fn put_levels_row(&mut self, levels: &[u8])
        ensures { Writes (levels_row levels.now) self.old self.new }
    {
        self.put_text(b"levels");
        for level in levels {
            self.put_byte(b' ');
            self.put_level(*level);
        }
        self.put_byte(b'\n');
    }

    pub fn put_order_row(&mut self, order: &[u16])
        ensures { Writes (order_row order.now) self.old self.new }
    {
        self.put_text(b"order");
        for position in order {
            self.put_spaced_number(usize::from(*position));
        }
        self.put_byte(b'\n');
    }

    // The refusal's number, then its place.
    pub fn put_refused_row(&mut self, number: u8, place: usize)
        ensures { Writes (refused_row number place) self.old self.new }
    {
        self.put_text(b"refused");
        self.put_spaced_number(usize::from(number));
        self.put_spaced_number(place);
        self.put_byte(b'\n');
    }
}
