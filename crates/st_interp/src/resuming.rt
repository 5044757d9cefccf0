// What goes on with a value, and what passes an exit on.
ghost use Rattle.std.specs.Prelude.{◌≡◌, ◌+◌, ◌*◌, ◌<◌, ◌≤◌, ◌++◌, [], List, IfOk, length};
ghost use Rattle.image_model.specs.Image.{ImageOf};
ghost use Rattle.class_table.specs.View.{image_of};
ghost use Rattle.run_model.specs.Values.{Name};
ghost use Rattle.run_model.specs.Store.{fine, leaves};
ghost use Rattle.run_model.specs.Acts.{acts, out_of_home};
ghost use Rattle.run_model.specs.Eval.{messages as does_messages, takes, chooses, evaluates};
ghost use Rattle.st_meaning.specs.StoreView.{store_of};
ghost use Rattle.st_interp.specs.Trees.{messages_at};
ghost use Rattle.st_interp.specs.Shapes.{branch_from};
ghost use Rattle.st_interp.specs.Booleans.{boolean_of};
ghost use Rattle.st_interp.specs.Machine.{exit_of, completes, returned, tested as does_tested, resume as resumed, plug, goes_on_with, rest, pending_load, load, machine_load};

use crate::machine::{after, fails, hold};
use crate::reading::assign;
use crate::state::{Branch, Ending, Exit, Loop, Machine, Next, Pending, Purpose};
use rb_base::Memory;
use st_meaning::{Context, RunErrorKind, Value, ValueKind, Values};
use st_program::Program;
use st_tree::{Message, Node};
use std::rc::Rc;

/// The truth value that the value is.
fn boolean(value: &Value) -> Option<bool>
    ensures { result ≡ boolean_of value.now }
{
    match &value.kind {
        ValueKind::True => Some(true),
        ValueKind::False => Some(false),
        _ => None,
    }
}

impl<'p> Machine<'p> {
    /// Evaluates the trees that are left, and does what their values are wanted for.
    #[tactic(auto, using(crate::proofs::Values::arguments_none))]
    pub fn arguments(
        &mut self,
        program: &Program<'p>,
        purpose: Purpose<'p>,
        done: Values,
        left: &'p [Node],
        context: Rc<Context>,
    ) -> Result<Next<'p>, Memory>
        ensures rest { IfOk result (λ n. rest (image_of program.now) program.now.names self.new n ≡ goes_on_with (image_of program.now) program.now.names self.old (completes (image_of program.now) program.now.names purpose.entry context.value done left.now)) }
        ensures load { IfOk result (λ n. load self.new n ≤ machine_load self.old + 6) }
        ensures ticks { IfOk result (λ n. self.new.store.ticks ≤ self.old.store.ticks) }
    {
        match left.split_first() {
            None => self.complete(program, purpose, done, &context),
            Some((first, left)) => {
                let shared = Rc::clone(&context)?;
                let pending = Pending::Arguments {
                    purpose,
                    done,
                    left,
                    context: shared,
                };
                self.wait(pending, first, context)
            }
        }
    }

    /// Sends the messages of a cascade that are left.
    #[tactic(auto, using(crate::proofs::Values::message_next, crate::proofs::Plug::load_push), unfolding(run_model::specs::Acts::gives))]
    fn messages(
        &mut self,
        program: &Program<'p>,
        receiver: Value,
        value: Value,
        left: &'p [Message],
        context: Rc<Context>,
    ) -> Result<Next<'p>, Memory>
        ensures rest { IfOk result (λ n. rest (image_of program.now) program.now.names self.new n ≡ goes_on_with (image_of program.now) program.now.names self.old (does_messages acts (image_of program.now) (evaluates (image_of program.now)) context.value receiver value (messages_at program.now.names left.now))) }
        ensures load { IfOk result (λ n. load self.new n ≤ machine_load self.old + 3 * length left.now + 4) }
        ensures ticks { IfOk result (λ n. self.new.store.ticks ≤ self.old.store.ticks) }
    {
        match left.split_first() {
            None => Ok(Next::Give(value)),
            Some((message, left)) => {
                let pending = Pending::Cascaded {
                    receiver: receiver.share()?,
                    left,
                    context: Rc::clone(&context)?,
                };
                hold(&mut self.stack, pending)?;
                let purpose = Purpose::Message {
                    receiver,
                    selector: message.selector,
                };
                let done = Values::new(self.store.alloc);
                self.arguments(
                    program,
                    purpose,
                    done,
                    message.arguments.as_slice(),
                    context,
                )
            }
        }
    }

    /// Takes a way of a control send.
    #[tactic(auto, unfolding(run_model::specs::Acts::gives))]
    fn take(
        &mut self,
        program: &Program<'p>,
        branch: Branch<'p>,
        context: &Rc<Context>,
    ) -> Result<Next<'p>, Memory>
        ensures rest { IfOk result (λ n. (i : ImageOf Name) → rest i program.now.names self.new n ≡ goes_on_with i program.now.names self.old (takes acts (evaluates i) context.now.value (branch_from program.now.names branch.entry))) }
        ensures load { IfOk result (λ n. load self.new n ≤ machine_load self.old + 4) }
        ensures ticks { IfOk result (λ n. self.new.store.ticks ≤ self.old.store.ticks) }
    {
        match branch {
            Branch::Runs(body) => self.in_place(program, context, body),
            Branch::Nil => Ok(Next::Give(Value::nil())),
            Branch::True => Ok(Next::Give(Value::new(ValueKind::True))),
            Branch::False => Ok(Next::Give(Value::new(ValueKind::False))),
        }
    }

    /// Chooses a way of a control send.
    #[tactic(auto, using(crate::proofs::Values::chooses_yes, crate::proofs::Values::chooses_no, crate::proofs::Values::chooses_fails))]
    fn choose(
        &mut self,
        program: &Program<'p>,
        value: &Value,
        yes: Branch<'p>,
        no: Branch<'p>,
        context: &Rc<Context>,
    ) -> Result<Next<'p>, Memory>
        ensures rest { IfOk result (λ n. (i : ImageOf Name) → rest i program.now.names self.new n ≡ goes_on_with i program.now.names self.old (chooses acts value.now (takes acts (evaluates i) context.now.value (branch_from program.now.names yes.entry)) (takes acts (evaluates i) context.now.value (branch_from program.now.names no.entry)))) }
        ensures load { IfOk result (λ n. load self.new n ≤ machine_load self.old + 4) }
        ensures ticks { IfOk result (λ n. self.new.store.ticks ≤ self.old.store.ticks) }
    {
        let Some(holds) = boolean(value) else {
            return Ok(fails(RunErrorKind::NonBoolean));
        };
        if holds {
            self.take(program, yes, context)
        } else {
            self.take(program, no, context)
        }
    }

    /// Goes on with a loop, or ends it.
    #[tactic(auto, using(crate::proofs::Values::loop_goes_on, crate::proofs::Values::loop_ends, crate::proofs::Values::loop_fails, crate::proofs::Plug::load_push))]
    fn tested(
        &mut self,
        program: &Program<'p>,
        value: &Value,
        blocks: Loop<'p>,
        context: Rc<Context>,
    ) -> Result<Next<'p>, Memory>
        ensures rest { IfOk result (λ n. (i : ImageOf Name) → rest i program.now.names self.new n ≡ goes_on_with i program.now.names self.old (does_tested i program.now.names context.value blocks.entry value.now)) }
        ensures load { IfOk result (λ n. load self.new n ≤ machine_load self.old + 5) }
        ensures ticks { IfOk result (λ n. self.new.store.ticks ≤ self.old.store.ticks) }
    {
        let Some(holds) = boolean(value) else {
            return Ok(fails(RunErrorKind::NonBoolean));
        };
        if holds != blocks.sense {
            return Ok(Next::Give(Value::nil()));
        }
        let body = blocks.body;
        let shared = Rc::clone(&context)?;
        hold(&mut self.stack, Pending::Turned { blocks, context })?;
        self.in_place(program, &shared, body)
    }

    /// Returns a value to the home of a context.
    #[tactic(auto, unfolding(run_model::specs::Acts::fails, run_model::specs::Acts::goes_home, run_model::specs::Acts::and_then, run_model::specs::Acts::with_memory))]
    fn leave(&mut self, context: &Context, value: Value) -> Next<'p>
        ensures rest { (i : ImageOf Name) (names : List Name) → rest i names self.new result ≡ goes_on_with i names self.old (returned context.now value) }
        ensures load { load self.new result ≤ machine_load self.old + 4 }
        ensures ticks { self.new.store.ticks ≤ self.old.store.ticks }
    {
        let home = context.home();
        if self.store.lives(home) {
            Next::Leave(Exit::Back { home, value })
        } else {
            fails(RunErrorKind::CannotReturn)
        }
    }

    /// Gives a value to what waited for it.
    #[tactic(auto, using(crate::proofs::Begun::rest_after, crate::proofs::Begun::load_after), unfolding(run_model::specs::Acts::gives))]
    pub fn resume(
        &mut self,
        program: &Program<'p>,
        pending: Pending<'p>,
        value: Value,
    ) -> Result<Next<'p>, Memory>
        ensures rest { IfOk result (λ n. rest (image_of program.now) program.now.names self.new n ≡ goes_on_with (image_of program.now) program.now.names self.old (λ s. resumed (image_of program.now) program.now.names pending.entry (fine value s))) }
        ensures load { IfOk result (λ n. load self.new n < machine_load self.old + pending_load pending.entry + 4) }
        ensures ticks { IfOk result (λ n. self.new.store.ticks ≤ self.old.store.ticks) }
    {
        match pending {
            Pending::Receiver {
                node,
                selector,
                arguments,
                context,
            } => {
                let purpose = Purpose::Send {
                    receiver: value,
                    node,
                    selector,
                };
                let done = Values::new(self.store.alloc);
                self.arguments(program, purpose, done, arguments, context)
            }
            Pending::Arguments {
                purpose,
                mut done,
                left,
                context,
            } => {
                done.push(value)?;
                self.arguments(program, purpose, done, left, context)
            }
            Pending::Assign { name, context } => Ok(after(assign(
                &mut self.store,
                program,
                &context,
                name,
                value,
            )?)),
            Pending::Return { context } => Ok(self.leave(&context, value)),
            Pending::Cascade { messages, context } => {
                self.messages(program, value, Value::nil(), messages, context)
            }
            Pending::Cascaded {
                receiver,
                left,
                context,
            } => self.messages(program, receiver, value, left, context),
            Pending::Sequence { left, context } => self.begin(value, left, context),
            Pending::Answer { value: answer } => Ok(Next::Give(answer)),
            Pending::Home { home } => {
                self.store.end_home(home);
                Ok(Next::Give(value))
            }
            Pending::Branch { yes, no, context } => {
                self.choose(program, &value, yes, no, &context)
            }
            Pending::Tested { blocks, context } => self.tested(program, &value, blocks, context),
            Pending::Turned { blocks, context } => self.turn(program, blocks, context),
        }
    }

    /// Passes an exit on out of a home, which a return to it or past it ends.
    #[tactic(auto, using(crate::proofs::Exits::exit_home, crate::proofs::Exits::exit_passed))]
    fn leave_home(&mut self, home: usize, exit: Exit) -> Next<'p>
        ensures rest { (i : ImageOf Name) (names : List Name) → rest i names self.new result ≡ goes_on_with i names self.old (λ s. out_of_home home (leaves (exit_of exit) s)) }
        ensures load { load self.new result ≤ machine_load self.old + 4 }
        ensures ticks { self.new.store.ticks ≤ self.old.store.ticks }
    {
        match exit {
            Exit::Back { home: to, value } => {
                self.store.end_home(home);
                if to == home {
                    Next::Give(value)
                } else {
                    Next::Leave(Exit::Back { home: to, value })
                }
            }
            other => Next::Leave(other),
        }
    }

    /// Passes an exit on.
    pub fn unwind(&mut self, pending: &Pending<'p>, exit: Exit) -> Next<'p>
        ensures rest { (i : ImageOf Name) (names : List Name) → rest i names self.new result ≡ goes_on_with i names self.old (λ s. resumed i names pending.now (leaves (exit_of exit) s)) }
        ensures load { load self.new result < machine_load self.old + pending_load pending.now + 4 }
        ensures ticks { self.new.store.ticks ≤ self.old.store.ticks }
    {
        match pending {
            Pending::Home { home } => self.leave_home(*home, exit),
            _ => Next::Leave(exit),
        }
    }
}
