// One step of a processor, from a table's bytes, the counts of iterations done and a memory.
#![tactic(auto)]

ghost use Rattle.std.specs.Prelude.{◌≡◌, ◌<◌, length};
ghost use Rattle.model.specs.Table.{iteration};
ghost use Rattle.model.specs.declared.Iteration.{Iteration};
ghost use Rattle.refusals.specs.Answers.{accepted};
ghost use Rattle.reader.specs.Store.{table_in};
ghost use Rattle.iterations.specs.Memory.{element_total, remembered};
ghost use Rattle.turns.specs.Turn as turns;
ghost use Rattle.turns.specs.Turn.{Work};
ghost use Rattle.plans.specs.Code.{Laid, planned_in};
ghost use Rattle.stepping.specs.Step.{report_of, elements, stepped_by, step};
ghost use Rattle.steps.specs.Called.{called};
ghost use Rattle.steps.specs.Leaves.{Leaves};
ghost use Rattle.steps.specs.Refusing.{refusing};

use barriers::{Barriers, NO_ENDS};
use blocks::Axis;
use bodies::Placed;
use layouts::Lists;
use plans::Settings;
use ranges::PHASES;
use records::Store;
use refusals::{Ground, Refusal};
use stepping::Report;

// How many iterations each processor has done.
#[derive(Clone, Copy)]
pub struct Counts {
    pub done: [u32; 64],
}

// The counts after a step, and what it reports.
#[derive(Clone, Copy)]
pub struct Stepped {
    pub counts: Counts,
    pub report: Report,
}

// A plan that is laid out, for all steps of a run: where its phases end, the lists of its processors, and its table with where each array begins.
#[derive(Clone, Copy)]
pub struct Layout<'a> {
    pub barriers: &'a Barriers<'a>,
    pub lists: &'a [Lists],
    pub store: &'a Store,
    pub bases: &'a [u32; 17],
    ghost in_two_phases: { barriers.now.phases ≡ 2 },
}

impl Layout<'_> {
    ghost use Rattle.steps.specs.Lent.{PhasedIn, ListedIn};

    // What processor b's next call reports. Its lists stand at `at`.
    fn next_of(&self, counts: &[u32; 64], b: u32, at: usize) -> Report
        requires { ((w : Work Iteration) × PhasedIn w self.now × ListedIn w b self.now at) × (b < self.now.barriers.now.processors) }
        ensures { (w : Work Iteration) → PhasedIn w self.now → ListedIn w b self.now at → result ≡ report_of (turns.next (iteration 0 0) w b counts.now) }
    {
        let barriers = self.barriers;
        let done = counts[b as usize];
        let phase = barriers.phase_of(b, done);
        if barriers.is_closed(counts, phase) {
            return Report::Waiting;
        }
        if barriers.before(phase + 1, b) <= done {
            return Report::Finished;
        }
        let loops = reader::loops_in(self.store);
        let ranges = self.lists[at].of(phase);
        let n = done - barriers.before(phase, b);
        let x = ranges::nth_of(phase, loops, ranges, n as usize);
        Report::Performed {
            number: x.number,
            index: x.index,
        }
    }
}

impl Counts {
    ghost use Rattle.steps.specs.Lent.{LentIn};

    // A refused call hands back the counts as found.
    fn refused(self, r: Refusal) -> Stepped
        ensures { result ≡ refusing self r }
    {
        Stepped {
            counts: self,
            report: Report::Refused(r),
        }
    }

    // One step of a plan that is laid out, whatever number b it names: 10 if that is not below P, else what processor b reports, performed.
    // The public step makes it, and so does every call of a run.
    pub fn step_laid(mut self, layout: &Layout, b: u32, at: usize, memory: &mut [f64]) -> Stepped
        requires { ((w : Work Iteration) × LentIn w b layout.now at) × (length memory.old ≡ element_total (table_in layout.now.store.now)) }
        ensures { (w : Work Iteration) → LentIn w b layout.now at → Leaves (called w (table_in layout.now.store.now) b self.done memory.old) result.counts.done memory.new result.report }
    {
        if layout.barriers.processors <= b {
            return self.refused(Ground::Processors.met(0));
        }
        let report = layout.next_of(&self.done, b, at);
        if let Report::Performed { number, index } = report {
            let table = Placed {
                store: layout.store,
                bases: layout.bases,
            };
            iterations::iterate(&table, number, index, memory);
            self.done[b as usize] += 1;
        }
        Stepped {
            counts: self,
            report,
        }
    }

    // One step of processor b of an accepted plan: 12, 15, then the step of the plan as it is laid out.
    fn step_planned(self, a: Axis, b: u32, store: &Store, memory: &mut [f64]) -> Stepped
        requires { Laid a store.now × (b < a.blocks) }
        ensures { Leaves (stepped_by b self.done memory.old (remembered elements (length memory.old) (accepted (planned_in a store.now)))) result.counts.done memory.new result.report }
    {
        let bases = iterations::bases_of(store);
        if memory.len() != bases.total() {
            return self.refused(Ground::Memory.met(0));
        }
        let mut ends = NO_ENDS;
        layouts::put_ends(a, store, &mut ends);
        let barriers = Barriers {
            ends: &ends,
            processors: a.blocks,
            phases: PHASES,
        };
        if barriers.wrong_state(&self.done) {
            return self.refused(Ground::State.met(0));
        }
        let mut lists = [Lists::new(); 1];
        layouts::put_lists(a, b, store, &mut lists[0]);
        let layout = Layout {
            barriers: &barriers,
            lists: &lists[..],
            store,
            bases: &bases.firsts,
        };
        self.step_laid(&layout, b, 0, memory)
    }

    // One step of a processor.
    pub fn step(self, s: &[u8], w: Settings, processor: u32, memory: &mut [f64]) -> Stepped
        ensures { Leaves (step s.now w processor self.done memory.old) result.counts.done memory.new result.report }
    {
        let mut store = Store::new();
        match plans::plan_for(s, w, processor, &mut store) {
            Ok(a) => self.step_planned(a, processor, &store, memory),
            Err(r) => self.refused(r),
        }
    }
}
