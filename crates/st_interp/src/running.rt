// All steps of a do-it.
ghost use Rattle.std.specs.Prelude.{◌≡◌, ◌+◌, ◌<◌, ◌≤◌, List, IfOk};
ghost use Rattle.image_model.specs.Image.{ImageOf};
ghost use Rattle.class_table.specs.View.{image_of};
ghost use Rattle.run_model.specs.Values.{Name};
ghost use Rattle.run_model.specs.Store.{fine, leaves};
ghost use Rattle.st_meaning.specs.StoreView.{store_of};
ghost use Rattle.st_interp.specs.Trees.{sequence_at};
ghost use Rattle.st_interp.specs.Machine.{IsAtNode, exit_of, ended, runs_doit, goes_on_with, rest, load, machine_load};

use crate::state::{Ending, Exit, Machine, Next};
use rb_base::Memory;
use st_meaning::{SharedText, Value};
use st_program::Program;
use st_tree::Sequence;

impl<'p> Machine<'p> {
    /// Gives a value to the innermost that waits.
    #[tactic(auto, using(crate::proofs::Plug::plug_pushed, crate::proofs::Plug::load_push, crate::proofs::Plug::plug_empty))]
    fn give(&mut self, program: &Program<'p>, value: Value) -> Result<Next<'p>, Memory>
        ensures rest { IfOk result (λ n. rest (image_of program.now) program.now.names self.new n ≡ goes_on_with (image_of program.now) program.now.names self.old (λ s. fine value s)) }
        ensures load { IfOk result (λ n. load self.new n < machine_load self.old + 4) }
        ensures ticks { IfOk result (λ n. self.new.store.ticks ≤ self.old.store.ticks) }
    {
        match self.stack.pop() {
            Some(pending) => self.resume(program, pending, value),
            None => Ok(Next::Over(Ending::Value(value))),
        }
    }

    /// Tells an exit to the innermost that waits.
    #[tactic(auto, using(crate::proofs::Plug::plug_pushed, crate::proofs::Plug::load_push, crate::proofs::Plug::plug_empty))]
    fn pass(&mut self, exit: Exit) -> Next<'p>
        ensures rest { (i : ImageOf Name) (names : List Name) → rest i names self.new result ≡ goes_on_with i names self.old (λ s. leaves (exit_of exit) s) }
        ensures load { load self.new result < machine_load self.old + 4 }
        ensures ticks { self.new.store.ticks ≤ self.old.store.ticks }
    {
        match self.stack.pop() {
            Some(pending) => self.unwind(&pending, exit),
            None => Next::Over(Ending::Exit(exit)),
        }
    }

    /// Gives or passes on until a node is next, or nothing.
    fn settle(&mut self, program: &Program<'p>, next: Next<'p>) -> Result<Next<'p>, Memory>
        ensures rest { IfOk result (λ n. rest (image_of program.now) program.now.names self.new n ≡ rest (image_of program.now) program.now.names self.old next.entry) }
        ensures ticks { IfOk result (λ n. self.new.store.ticks ≤ self.old.store.ticks) }
        ensures at_node { IfOk result IsAtNode }
    {
        let mut next = next;
        loop {
            match next {
                Next::Evaluate(node, context) => return Ok(Next::Evaluate(node, context)),
                Next::Over(ending) => return Ok(Next::Over(ending)),
                Next::Give(value) => next = self.give(program, value)?,
                Next::Leave(exit) => next = self.pass(exit),
            }
        }
    }

    /// All steps.
    #[tactic(auto, using(crate::proofs::Begun::out_of_ticks_at))]
    pub fn finish(&mut self, program: &Program<'p>, next: Next<'p>) -> Result<Ending, Memory>
        ensures { IfOk result (λ e. ended e (store_of program.now.names self.new.store) ≡ rest (image_of program.now) program.now.names self.old next.entry) }
    {
        let mut next = next;
        loop {
            match self.settle(program, next)? {
                Next::Over(ending) => return Ok(ending),
                Next::Evaluate(node, context) => {
                    if self.store.ticks == 0 {
                        return Ok(Ending::Exit(Exit::Spent));
                    }
                    next = self.evaluate(program, node, context)?;
                }
                _ => unreachable!(),
            }
        }
    }

    /// Runs a do-it; what waited before is dropped.
    pub fn run_doit(
        &mut self,
        program: &Program<'p>,
        class: Option<SharedText>,
        body: &'p Sequence,
    ) -> Result<Ending, Memory>
        ensures { IfOk result (λ e. ended e (store_of program.now.names self.new.store) ≡ runs_doit (image_of program.now) class (sequence_at program.now.names body.now) (store_of program.now.names self.old.store)) }
    {
        self.stack = Vec::new(self.store.alloc);
        let context = self.open_home(class, false, Value::nil())?;
        let next = self.in_place(program, &context, body)?;
        self.finish(program, next)
    }
}
