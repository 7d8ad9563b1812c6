// Tells what a job answered and what it left in the lent buffers.
use crate::job::Job;
use crate::lent::{LEVEL, Lent, PLACE};
use crate::say;
use classes::LONGEST;
use melvorash_c::OrderAnswer;
use std::io;

// As many of the first as there are.
fn front<T>(list: &[T], count: usize) -> &[T] {
    list.get(..count).unwrap_or(list)
}

// Those from a place on, none past the end.
fn rest<T>(list: &[T], from: usize) -> &[T] {
    list.get(from..).unwrap_or(&[])
}

impl Lent<'_> {
    // Answers the base for an order that follows.
    pub(crate) fn tell(
        &self,
        rt: &impl Print,
        job: Job,
        answer: OrderAnswer,
    ) -> io::Result<Option<u8>> {
        if job == Job::Marks {
            self.tell_marks(rt)?;
        }
        if answer.refusal > 0 {
            tell_refusal(rt, answer)?;
            self.tell_left(rt, job)?;
            return Ok(None);
        }
        self.tell_value(rt, job, answer)?;
        Ok(Some((answer.value % 256) as u8)) // a base is a byte
    }

    // The levels are the marks' flags.
    fn tell_marks(&self, rt: &impl Print) -> io::Result<()> {
        print!(rt; " classes")?;
        say::numbers(rt, self.classes)?;
        print!(rt; " flags")?;
        say::numbers(rt, self.levels)
    }

    // What a refused job left: an empty part, or the buffer as it was.
    fn tell_left(&self, rt: &impl Print, job: Job) -> io::Result<()> {
        match job {
            Job::Cut => self.tell_part(rt),
            Job::Explicit | Job::Resolve => {
                let not = say::not_unless_all(self.levels, LEVEL);
                print!(rt; ", levels{not} as they were")
            }
            Job::Line | Job::Lines => {
                let not = say::not_unless_all(self.order, PLACE);
                print!(rt; ", order{not} as it was")
            }
            Job::Marks | Job::MarksCount => self.tell_rest(rt, 0),
            Job::Base | Job::QuietResolve | Job::LineEnd | Job::MarksAsLine => Ok(()),
        }
    }

    fn tell_value(&self, rt: &impl Print, job: Job, answer: OrderAnswer) -> io::Result<()> {
        let value = answer.value;
        match job {
            Job::Base => print!(rt; " base {value}"),
            Job::Cut => {
                print!(rt; " length {value}")?;
                self.tell_part(rt)
            }
            Job::Explicit | Job::Resolve => {
                print!(rt; " base {value} levels")?;
                say::levels(rt, front(self.levels, self.classes.len()))
            }
            Job::QuietResolve => Ok(()),
            Job::Marks => {
                tell_order(rt, front(self.order, value))?;
                self.tell_rest(rt, value)
            }
            Job::MarksCount => {
                print!(rt; " drawn {value}")?;
                self.tell_rest(rt, value)
            }
            Job::LineEnd => {
                print!(rt; " ordered {value}, the last place and the one after:")?;
                tell_order(rt, front(rest(self.order, LONGEST - 1), 2))?;
                tell_reversed(rt, answer)
            }
            Job::Line | Job::Lines | Job::MarksAsLine => {
                tell_order(rt, front(self.order, value))?;
                tell_reversed(rt, answer)
            }
        }
    }

    // How long the part that Cut gives is, and its first four classes.
    fn tell_part(&self, rt: &impl Print) -> io::Result<()> {
        let part = melvorash::cut_part(self.classes);
        print!(rt; ", part {}:", part.len())?;
        say::numbers(rt, front(part, 4))
    }

    // The places behind those that were written.
    fn tell_rest(&self, rt: &impl Print, written: usize) -> io::Result<()> {
        let not = say::not_unless_all(rest(self.order, written), PLACE);
        print!(rt; ", the rest{not} as it was")
    }
}

fn tell_refusal(rt: &impl Print, answer: OrderAnswer) -> io::Result<()> {
    print!(rt; " refused {} {}", answer.refusal, answer.place)?;
    tell_stray(rt, answer.value)?;
    tell_stray(rt, answer.reversed)
}

// A refusal's value and count are 0; any other is shown.
fn tell_stray(rt: &impl Print, number: usize) -> io::Result<()> {
    if number > 0 {
        return print!(rt; ", with {number}");
    }
    Ok(())
}

fn tell_order(rt: &impl Print, places: &[u16]) -> io::Result<()> {
    print!(rt; " order")?;
    say::numbers(rt, places)
}

fn tell_reversed(rt: &impl Print, answer: OrderAnswer) -> io::Result<()> {
    print!(rt; ", reversed {}", answer.reversed)
}
