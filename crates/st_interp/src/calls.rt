// Messages.
ghost use Rattle.std.specs.Prelude.{◌≡◌, ◌+◌, ◌≤◌, List, None, IfOk, option_map};
ghost use Rattle.rb_base.specs.Names.{name_at};
ghost use Rattle.image_model.specs.Image.{ImageOf};
ghost use Rattle.class_table.specs.View.{image_of};
ghost use Rattle.run_model.specs.Values.{Name, Value as run_value};
ghost use Rattle.run_model.specs.Acts.{acts};
ghost use Rattle.run_model.specs.Eval.{is_super, does_primitive, runs_found, message, super_message, makes_brace, evaluates};
ghost use Rattle.st_program.specs.Found.{entry_from};
ghost use Rattle.st_interp.specs.Trees.{tree_at};
ghost use Rattle.st_interp.specs.Machine.{completed, goes_on_with, rest, load, machine_load};

use crate::machine::fails;
use crate::state::{Exit, Machine, Next, Purpose};
use prim_calls::PrimResult;
use rb_base::{Memory, NameId};
use st_meaning::{Context, RunErrorKind, SharedText, Value, Values, same_text};
use st_prims::primitive;
use st_program::{Found, Program};
use st_tree::{Node, NodeKind};

/// Whether the node is the name `super`.
fn is_super_node(program: &Program<'_>, node: &Node) -> bool
    ensures { result ≡ is_super (tree_at program.now.names node.now) }
{
    match &node.kind {
        NodeKind::Var { name } => same_text(program.names().as_slice(*name), b"super"),
        _ => false,
    }
}

impl<'p> Machine<'p> {
    /// Does the primitive of a number.
    fn primitive(
        &mut self,
        program: &Program<'p>,
        number: u16,
        receiver: &Value,
        arguments: &[Value],
    ) -> Result<Next<'p>, Memory>
        ensures rest { IfOk result (λ n. rest (image_of program.now) program.now.names self.new n ≡ goes_on_with (image_of program.now) program.now.names self.old (does_primitive acts (image_of program.now) (evaluates (image_of program.now)) number receiver.now arguments.now)) }
        ensures load { IfOk result (λ n. load self.new n ≤ machine_load self.old + 6) }
        ensures ticks { IfOk result (λ n. self.new.store.ticks ≤ self.old.store.ticks) }
    {
        let alloc = self.store.alloc;
        let image = program.image();
        match primitive(alloc, number, receiver, arguments, image, &mut self.store)? {
            PrimResult::Answer(value) => Ok(Next::Give(value)),
            PrimResult::Fault(error) => Ok(Next::Leave(Exit::Failed(error))),
            PrimResult::Spent => Ok(Next::Leave(Exit::Spent)),
            PrimResult::Enter(closure) => self.enter(program, closure, arguments),
        }
    }

    /// The end of a message that no method is for.
    fn not_understood(
        &mut self,
        program: &Program<'p>,
        receiver: &Value,
        selector: NameId,
    ) -> Result<Next<'p>, Memory>
        ensures rest { IfOk result (λ n. (i : ImageOf Name) (args : List run_value) → rest i program.now.names self.new n ≡ goes_on_with i program.now.names self.old (runs_found acts i (evaluates i) None receiver.now (name_at program.now.names selector) args)) }
        ensures load { IfOk result (λ n. load self.new n ≤ machine_load self.old + 6) }
        ensures ticks { IfOk result (λ n. self.new.store.ticks ≤ self.old.store.ticks) }
    {
        let class = self.store.heap.class_name(receiver);
        let class = SharedText::from_slice(self.store.alloc, class)?;
        Ok(fails(RunErrorKind::DoesNotUnderstand {
            class,
            meta: receiver.is_class(),
            selector: program.names().text(selector)?,
        }))
    }

    /// Runs the method that was found for a message.
    fn run_found(
        &mut self,
        program: &Program<'p>,
        found: Option<Found<'p>>,
        receiver: Value,
        selector: NameId,
        arguments: &[Value],
    ) -> Result<Next<'p>, Memory>
        ensures rest { IfOk result (λ n. rest (image_of program.now) program.now.names self.new n ≡ goes_on_with (image_of program.now) program.now.names self.old (runs_found acts (image_of program.now) (evaluates (image_of program.now)) (option_map (entry_from program.now.names) found.entry) receiver (name_at program.now.names selector) arguments.now)) }
        ensures load { IfOk result (λ n. load self.new n ≤ machine_load self.old + 6) }
        ensures ticks { IfOk result (λ n. self.new.store.ticks ≤ self.old.store.ticks) }
    {
        match found {
            None => self.not_understood(program, &receiver, selector),
            Some(found) => match found.tree.primitive {
                Some(number) => self.primitive(program, number, &receiver, arguments),
                None => self.activate(program, found, receiver, arguments),
            },
        }
    }

    /// Sends a message to a value.
    pub fn message(
        &mut self,
        program: &Program<'p>,
        receiver: Value,
        selector: NameId,
        arguments: &[Value],
    ) -> Result<Next<'p>, Memory>
        ensures rest { IfOk result (λ n. rest (image_of program.now) program.now.names self.new n ≡ goes_on_with (image_of program.now) program.now.names self.old (message acts (image_of program.now) (evaluates (image_of program.now)) receiver (name_at program.now.names selector) arguments.now)) }
        ensures load { IfOk result (λ n. load self.new n ≤ machine_load self.old + 6) }
        ensures ticks { IfOk result (λ n. self.new.store.ticks ≤ self.old.store.ticks) }
    {
        let class = self.store.heap.class_name(&receiver);
        let found = program.method_for(class, receiver.is_class(), selector)?;
        self.run_found(program, found, receiver, selector, arguments)
    }

    /// Sends a message to a value, above the class and side of the running method.
    fn super_message(
        &mut self,
        program: &Program<'p>,
        context: &Context,
        receiver: Value,
        selector: NameId,
        arguments: &[Value],
    ) -> Result<Next<'p>, Memory>
        ensures rest { IfOk result (λ n. rest (image_of program.now) program.now.names self.new n ≡ goes_on_with (image_of program.now) program.now.names self.old (super_message acts (image_of program.now) (evaluates (image_of program.now)) context.now receiver (name_at program.now.names selector) arguments.now)) }
        ensures load { IfOk result (λ n. load self.new n ≤ machine_load self.old + 6) }
        ensures ticks { IfOk result (λ n. self.new.store.ticks ≤ self.old.store.ticks) }
    {
        let found = program.super_method_for(context, selector)?;
        self.run_found(program, found, receiver, selector, arguments)
    }

    /// Makes an array of the values of a brace.
    #[tactic(auto, unfolding(run_model::specs::Acts::fails, run_model::specs::Acts::with_memory))]
    fn brace(&mut self, values: Values) -> Result<Next<'p>, Memory>
        ensures rest { IfOk result (λ n. (i : ImageOf Name) (names : List Name) → rest i names self.new n ≡ goes_on_with i names self.old (makes_brace acts values)) }
        ensures load { IfOk result (λ n. load self.new n ≤ machine_load self.old + 6) }
        ensures ticks { IfOk result (λ n. self.new.store.ticks ≤ self.old.store.ticks) }
    {
        if values.len() > 65535 {
            return Ok(fails(RunErrorKind::TooLong));
        }
        Ok(Next::Give(self.store.new_array(values)?))
    }

    /// Does what the values of trees were wanted for.
    pub fn complete(
        &mut self,
        program: &Program<'p>,
        purpose: Purpose<'p>,
        done: Values,
        context: &Context,
    ) -> Result<Next<'p>, Memory>
        ensures rest { IfOk result (λ n. rest (image_of program.now) program.now.names self.new n ≡ goes_on_with (image_of program.now) program.now.names self.old (completed (image_of program.now) program.now.names purpose.entry context.now done)) }
        ensures load { IfOk result (λ n. load self.new n ≤ machine_load self.old + 6) }
        ensures ticks { IfOk result (λ n. self.new.store.ticks ≤ self.old.store.ticks) }
    {
        match purpose {
            Purpose::Send {
                receiver,
                node,
                selector,
            } => {
                if is_super_node(program, node) {
                    self.super_message(program, context, receiver, selector, done.as_slice())
                } else {
                    self.message(program, receiver, selector, done.as_slice())
                }
            }
            Purpose::Message { receiver, selector } => {
                self.message(program, receiver, selector, done.as_slice())
            }
            Purpose::Brace => self.brace(done),
        }
    }
}
