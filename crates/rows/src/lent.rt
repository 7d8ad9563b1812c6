// What a row lends its jobs. They are called on it as they are called from C, so that every answer is three numbers,
// or four for an order.
use crate::job::Job;
use melvorash_c::{Answer, OrderAnswer};
use std::io;
use words::Asked;

// What lent levels and lent places hold before a call.
pub(crate) const LEVEL: u8 = 77;

pub(crate) const PLACE: u16 = 7777;

// What an order is given where the job before it was refused, for it to refuse too: its base is a number, as C has it.
const NO_BASE: u8 = 255;

#[derive(Drop)]
pub(crate) struct Lent<'a> {
    pub(crate) classes: &'a [u8],
    pub(crate) levels: &'a mut [u8],
    pub(crate) order: &'a mut [u16],
    pub(crate) ends: &'a [u16],
    pub(crate) asked: Asked,
}

impl Lent<'_> {
    // An order goes by the base that was answered before it, or else by the row's own.
    pub(crate) fn run(&mut self, rt: &impl Print, jobs: &[u8]) -> io::Result<()> {
        let mut base = Some(self.asked.request);
        for &letter in jobs {
            let job = Job::from(letter);
            let answer = self.called(job, base.unwrap_or(NO_BASE));
            base = self.tell(rt, job, answer)?;
        }
        Ok(())
    }

    fn called(&mut self, job: Job, base: u8) -> OrderAnswer {
        let Asked { request, fallback } = self.asked;
        let classes = self.classes;
        let levels = &mut *self.levels;
        let order = &mut *self.order;
        let answer = match job {
            Job::Base => melvorash_c::melvorash_base(classes),
            Job::Cut => melvorash_c::melvorash_cut(classes),
            Job::Explicit => { melvorash_c::melvorash_explicit(classes, request, fallback, levels) }
            Job::Resolve | Job::QuietResolve => {
                melvorash_c::melvorash_resolve(classes, request, fallback, levels)
            }
            Job::Marks | Job::MarksCount | Job::MarksAsLine => {
                melvorash_c::melvorash_marks(classes, levels, order)
            }
            Job::Line | Job::LineEnd => {
                let from = line_end(self.ends, 0);
                let to = line_end(self.ends, 1);
                return melvorash_c::melvorash_order_line(classes, levels, base, from, to, order);
            }
            Job::Lines => {
                return melvorash_c::melvorash_order_lines(classes, levels, base, self.ends, order);
            }
        };
        with_none_reversed(answer)
    }
}

// Of two numbers, a line's beginning and its end.
fn line_end(ends: &[u16], i: usize) -> usize {
    ends.get(i).copied().map_or(0, usize::from)
}

// A job that orders no line has no count: 0 stands for it.
fn with_none_reversed(answer: Answer) -> OrderAnswer {
    OrderAnswer {
        refusal: answer.refusal,
        place: answer.place,
        value: answer.value,
        reversed: 0,
    }
}
