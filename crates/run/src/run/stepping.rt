//! Advance.

ghost use Rattle.std.specs.Prelude.{◌≡◌, ◌<◌, true, false, not, length, drop, ◌==◌, nat_lt};
ghost use Rattle.rules.specs.Routine.{end};
ghost use Rattle.rules.specs.Run.{line, step};
ghost use Rattle.rules.specs.Run.Call.{Advance};
ghost use Rattle.listing.specs.Forms.{routine_of};
ghost use Rattle.run.specs.Views.{leak_line};
ghost use Rattle.run.specs.Runs.{terms_in, state_of, answer_to, state_past, advanced};

use super::Run;
use crate::memory::{Advanced, LeakLine};
use crate::step::Step;
use leakage::LeakageModel;

impl<M: LeakageModel> Run<'_, M> {
    // Whether the run stands at the end.
    fn at_end(&self) -> bool
        ensures ended { result ≡ (self.now.point == end (routine_of self.now.exam.now.routine.listing)) }
        ensures going { nat_lt self.now.point (end (routine_of self.now.exam.now.routine.listing)) ≡ not result }
    {
        self.point == self.exam.routine().listing().counts.nodes
    }

    // One step, and its leak line.
    fn step(&mut self) -> LeakLine
        requires { self.old.point < end (routine_of self.old.exam.now.routine.listing) }
        ensures line { result ≡ leak_line (line (terms_in M.leakage self.old).model (terms_in M.leakage self.old).routine (state_of self.old)) }
        ensures state { state_of self.new ≡ step (terms_in M.leakage self.old).routine (state_of self.old) }
        ensures exam { self.new.exam.now ≡ self.old.exam.now }
    {
        let step = Step::at(self.exam.routine(), self.point);
        let line = LeakLine {
            node: self.point,
            mark: step.mark(self.exam.model(), &self.memory),
        };
        self.point = step.next(&self.memory);
        step.change(&mut self.memory);
        line
    }

    // What advance answers where the run stands now.
    fn report(&self, count: usize) -> Advanced
        ensures count { result.count ≡ count }
        ensures ended { result.at_end ≡ (self.now.point == end (routine_of self.now.exam.now.routine.listing)) }
    {
        Advanced {
            count,
            at_end: self.at_end(),
        }
    }

    // One step for each place, until the places or the routine end; how many.
    fn fill(&mut self, lines: &mut [LeakLine]) -> usize
        ensures answer { advanced (record { count = result; at_end = self.new.point == end (routine_of self.new.exam.now.routine.listing) }) lines.new ≡ answer_to M.leakage self.old (Advance (length lines.old)) }
        ensures rest { drop result lines.new ≡ drop result lines.old }
        ensures state { state_of self.new ≡ state_past self.old (Advance (length lines.old)) }
        ensures exam { self.new.exam.now ≡ self.old.exam.now }
    {
        for (count, line) in lines.iter_mut().enumerate() {
            if self.at_end() {
                return count;
            }
            *line = self.step();
        }
        lines.len()
    }

    /// One step for each place of `lines`, until the places or the routine end. Places past the count are left as they were.
    pub fn advance(&mut self, lines: &mut [LeakLine]) -> Advanced
        ensures answer { advanced result lines.new ≡ answer_to M.leakage self.old (Advance (length lines.old)) }
        ensures rest { drop result.count lines.new ≡ drop result.count lines.old }
        ensures state { state_of self.new ≡ state_past self.old (Advance (length lines.old)) }
        ensures exam { self.new.exam.now ≡ self.old.exam.now }
    {
        let count = self.fill(lines);
        self.report(count)
    }
}
