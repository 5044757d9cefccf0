// Whole runs.
ghost use Rattle.std.specs.Prelude.{◌≡◌, IfOk, List};
ghost use Rattle.class_table.specs.View.{image_of};
ghost use Rattle.class_table.specs.Valid.{IsOrderly};
ghost use Rattle.run_model.specs.Values.{Name, nil_value};
ghost use Rattle.run_model.specs.Store.{Store as run_store, leaves, start};
ghost use Rattle.run_model.specs.Acts.{acts};
ghost use Rattle.run_model.specs.Eval.{evaluates};
ghost use Rattle.run_model.specs.Runs.{does_doits, outcome_of, seen, run as run_of};
ghost use Rattle.st_meaning.specs.StoreView.{store_of};
ghost use Rattle.st_interp.specs.Machine.{exit_of, ended};
ghost use Rattle.st_interp.specs.Report.{report_of};

use crate::report::RunReport;
use crate::state::{Ending, Exit, Machine};
use class_table::Image;
use rb_base::Memory;
use st_meaning::{Event, Heap, Outcome, OutcomeKind, RunError, RunErrorKind, Store, Value};
use st_program::Program;
use std::alloc::Global;
use std::mem;

impl<'p> Machine<'p> {
    /// A machine that has done nothing and has so many ticks.
    fn new(alloc: Global, ticks: u32) -> Machine<'p>
        ensures { (names : List Name) → store_of names result.store ≡ start ticks }
    {
        Machine {
            stack: Vec::new(alloc),
            store: Store::new(alloc, ticks),
        }
    }

    /// Runs the do-its of the program in order, up to the first that does not come to a value.
    #[tactic(auto, using(crate::proofs::Ordered::doit_done, crate::proofs::Ordered::doit_left, crate::proofs::Ordered::doits_over, crate::proofs::Ordered::doits_missing))]
    fn run_doits(&mut self, program: &Program<'p>) -> Result<Ending, Memory>
        ensures { IfOk result (λ e. ended e (store_of program.now.names self.new.store) ≡ does_doits acts (image_of program.now) (evaluates (image_of program.now)) nil_value (image_of program.now).doits (store_of program.now.names self.old.store)) }
    {
        let mut value = Value::nil();
        for number in 0..program.doits() {
            let Some(body) = program.doit(number) else {
                return Ok(Ending::Value(value));
            };
            let class = program.doit_class()?;
            match self.run_doit(program, class, body)? {
                Ending::Value(answer) => value = answer,
                Ending::Exit(exit) => return Ok(Ending::Exit(exit)),
            }
        }
        Ok(Ending::Value(value))
    }

    /// What is seen of a run that has ended.
    #[tactic(auto, using(crate::proofs::Ordered::seen_at))]
    fn report(&mut self, ending: Ending, budget: u32) -> Result<RunReport, Memory>
        ensures { IfOk result (λ report. (names : List Name) → report_of report ≡ seen budget (ended ending (store_of names self.old.store))) }
    {
        let outcome = outcome_in(&self.store.heap, ending)?;
        let ticks = budget.saturating_sub(self.store.ticks);
        let alloc = self.store.alloc;
        let events = taken(alloc, &mut self.store.events);
        Ok(RunReport {
            events,
            outcome,
            ticks,
        })
    }
}

/// The events, of which none is left.
fn taken(alloc: Global, events: &mut Vec<Event>) -> Vec<Event>
    ensures { result.items ≡ events.old.items }
{
    mem::replace(events, Vec::new(alloc))
}

/// How a run comes out that left off.
fn left_off(exit: Exit) -> Outcome
    ensures { (s : run_store) → result ≡ outcome_of (leaves (exit_of exit) s) }
{
    match exit {
        Exit::Back { home: _, value: _ } => {
            Outcome::new(OutcomeKind::Failed(RunError::new(RunErrorKind::CannotReturn)))
        }
        Exit::Failed(error) => Outcome::new(OutcomeKind::Failed(error)),
        Exit::Spent => Outcome::new(OutcomeKind::Spent),
    }
}

/// How a run comes out.
fn outcome_in(heap: &Heap, ending: Ending) -> Result<Outcome, Memory>
    ensures { IfOk result (λ outcome. (s : run_store) → s.memory.heap ≡ heap.now → outcome ≡ outcome_of (ended ending s)) }
{
    match ending {
        Ending::Value(value) => Ok(Outcome::new(OutcomeKind::Done(heap.view_of(&value)?))),
        Ending::Exit(exit) => Ok(left_off(exit)),
    }
}

/// Runs the do-its of an image in order within so many ticks, and tells what is seen of the run: the events, how it comes
/// out, and how many ticks were taken. A run that wants more ticks than there are is spent. Want of memory is an error,
/// and then nothing is told.
#[tactic(auto, using(crate::proofs::Ordered::all_run))]
pub fn run(alloc: Global, image: &Image, budget: u32) -> Result<RunReport, Memory>
    requires { IsOrderly image.now }
    ensures { IfOk result (λ report. report_of report ≡ run_of (image_of image.now) budget) }
{
    let program = Program::new(alloc, image)?;
    let mut machine = Machine::new(alloc, budget);
    let ending = machine.run_doits(&program)?;
    machine.report(ending, budget)
}
