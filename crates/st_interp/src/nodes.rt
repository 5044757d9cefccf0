// What begins a node.
ghost use Rattle.std.specs.Prelude.{◌≡◌, ◌+◌, ◌<◌, ◌≤◌, [], List, IfOk};
ghost use Rattle.rb_base.specs.Names.{name_at};
ghost use Rattle.image_model.specs.Image.{ImageOf};
ghost use Rattle.class_table.specs.View.{image_of};
ghost use Rattle.run_model.specs.Values.{Name};
ghost use Rattle.run_model.specs.Acts.{acts};
ghost use Rattle.run_model.specs.Shapes.{shape_of};
ghost use Rattle.run_model.specs.Eval.{node as at_node, literal_value, makes_closure, does_send, does_node, evaluates};
ghost use Rattle.st_interp.specs.Trees.{texts_at, literal_at, tree_at, trees_at, sequence_at};
ghost use Rattle.st_interp.specs.Shapes.{shape_from};
ghost use Rattle.st_interp.specs.Machine.{turns, goes_on_with, rest, load, machine_load};

use crate::literals::literal;
use crate::machine::{after, fails, hold};
use crate::reading::read;
use crate::shape::{Shape, shape_at};
use crate::state::{Loop, Machine, Next, Pending, Purpose};
use rb_base::{Ids, Memory, NameId};
use st_meaning::{Closure, Context, RunErrorKind, Value, Values};
use st_program::Program;
use st_tree::{Literal, Node, NodeKind, Sequence};
use std::rc::Rc;

/// What a send is.
fn shape_in<'p>(
    program: &Program<'p>,
    selector: NameId,
    receiver: &'p Node,
    arguments: &'p [Node],
) -> Shape<'p>
    ensures { shape_from program.now.names result ≡ shape_of (name_at program.now.names selector) (tree_at program.now.names receiver.now) (trees_at program.now.names arguments.now) }
{
    shape_at(program.names(), selector, receiver, arguments)
}

impl<'p> Machine<'p> {
    /// Makes a closure.
    #[tactic(auto, using(crate::proofs::Begun::closure_made))]
    fn close(
        &mut self,
        parameters: &'p Ids,
        body: &'p Sequence,
        context: Rc<Context>,
    ) -> Result<Next<'p>, Memory>
        ensures rest { IfOk result (λ n. (i : ImageOf Name) (names : List Name) → rest i names self.new n ≡ goes_on_with i names self.old (makes_closure acts (texts_at names parameters.now) (sequence_at names body.now) context.value)) }
        ensures ticks { IfOk result (λ n. self.new.store.ticks ≤ self.old.store.ticks) }
    {
        let closure = Closure {
            parameters,
            body,
            context,
        };
        Ok(Next::Give(self.store.new_closure(closure)?))
    }

    /// Gives the value of a literal.
    #[tactic(auto, using(crate::proofs::Begun::rest_after))]
    fn literal(&mut self, program: &Program<'p>, value: &'p Literal) -> Result<Next<'p>, Memory>
        ensures rest { IfOk result (λ n. (i : ImageOf Name) → rest i program.now.names self.new n ≡ goes_on_with i program.now.names self.old (literal_value acts (literal_at program.now.names value.now))) }
        ensures ticks { IfOk result (λ n. self.new.store.ticks ≤ self.old.store.ticks) }
    {
        Ok(after(literal(&mut self.store, program, value)?))
    }

    /// Begins a turn of a loop.
    #[tactic(auto, using(crate::proofs::Plug::load_push))]
    pub fn turn(
        &mut self,
        program: &Program<'p>,
        blocks: Loop<'p>,
        context: Rc<Context>,
    ) -> Result<Next<'p>, Memory>
        ensures rest { IfOk result (λ n. (i : ImageOf Name) → rest i program.now.names self.new n ≡ goes_on_with i program.now.names self.old (turns i program.now.names context.value blocks.entry)) }
        ensures load { IfOk result (λ n. load self.new n ≤ machine_load self.old + 4) }
        ensures ticks { IfOk result (λ n. self.new.store.ticks ≤ self.old.store.ticks) }
    {
        let test = blocks.test;
        if test.statements.len() == 0 {
            return self.empty_turn(program, blocks, &context);
        }
        let shared = Rc::clone(&context)?;
        hold(&mut self.stack, Pending::Tested { blocks, context })?;
        self.in_place(program, &shared, test)
    }

    /// A turn of a loop whose test has no statements.
    fn empty_turn(
        &mut self,
        program: &Program<'p>,
        blocks: Loop<'p>,
        context: &Rc<Context>,
    ) -> Result<Next<'p>, Memory>
        requires { blocks.test.now.statements ≡ [] }
        ensures rest { IfOk result (λ n. (i : ImageOf Name) → rest i program.now.names self.new n ≡ goes_on_with i program.now.names self.old (turns i program.now.names context.now.value blocks.entry)) }
        ensures load { IfOk result (λ n. load self.new n ≤ machine_load self.old + 4) }
        ensures ticks { IfOk result (λ n. self.new.store.ticks ≤ self.old.store.ticks) }
    {
        let none = Ids::new(self.store.alloc);
        self.store.open(
            context,
            program.names(),
            &none,
            &[],
            &blocks.test.temporaries,
        )?;
        Ok(fails(RunErrorKind::NonBoolean))
    }

    /// Begins a send.
    #[tactic(auto, using(crate::proofs::Begun::two_ways_begun, crate::proofs::Begun::loop_begun, crate::proofs::Begun::message_begun))]
    fn send(
        &mut self,
        program: &Program<'p>,
        receiver: &'p Node,
        selector: NameId,
        arguments: &'p [Node],
        context: Rc<Context>,
    ) -> Result<Next<'p>, Memory>
        ensures rest { IfOk result (λ n. (i : ImageOf Name) → rest i program.now.names self.new n ≡ goes_on_with i program.now.names self.old (does_send acts i (evaluates i) context.value (tree_at program.now.names receiver.now) (name_at program.now.names selector) (trees_at program.now.names arguments.now) (shape_of (name_at program.now.names selector) (tree_at program.now.names receiver.now) (trees_at program.now.names arguments.now)))) }
        ensures ticks { IfOk result (λ n. self.new.store.ticks ≤ self.old.store.ticks) }
    {
        match shape_in(program, selector, receiver, arguments) {
            Shape::TwoWays { yes, no } => {
                let pending = Pending::Branch {
                    yes,
                    no,
                    context: Rc::clone(&context)?,
                };
                self.wait(pending, receiver, context)
            }
            Shape::Loops(blocks) => self.turn(program, blocks, context),
            Shape::Message => {
                let pending = Pending::Receiver {
                    node: receiver,
                    selector,
                    arguments,
                    context: Rc::clone(&context)?,
                };
                self.wait(pending, receiver, context)
            }
        }
    }

    /// Begins a node whose tick was taken.
    #[tactic(auto, using(crate::proofs::Begun::rest_after), unfolding(run_model::specs::Acts::and_then))]
    fn open_node(
        &mut self,
        program: &Program<'p>,
        node: &'p Node,
        context: Rc<Context>,
    ) -> Result<Next<'p>, Memory>
        ensures rest { IfOk result (λ n. rest (image_of program.now) program.now.names self.new n ≡ goes_on_with (image_of program.now) program.now.names self.old (does_node acts (image_of program.now) (evaluates (image_of program.now)) context.value (tree_at program.now.names node.now))) }
        ensures ticks { IfOk result (λ n. self.new.store.ticks ≤ self.old.store.ticks) }
    {
        match &node.kind {
            NodeKind::Var { name } => Ok(after(read(&self.store, program, &context, *name)?)),
            NodeKind::Literal { value } => self.literal(program, value),
            NodeKind::Send {
                receiver,
                selector,
                arguments,
            } => self.send(program, receiver, *selector, arguments.as_slice(), context),
            NodeKind::Cascade { receiver, messages } => {
                let pending = Pending::Cascade {
                    messages: messages.as_slice(),
                    context: Rc::clone(&context)?,
                };
                self.wait(pending, receiver, context)
            }
            NodeKind::Assign { name, value } => {
                let pending = Pending::Assign {
                    name: *name,
                    context: Rc::clone(&context)?,
                };
                self.wait(pending, value, context)
            }
            NodeKind::Block { parameters, body } => self.close(parameters, body, context),
            NodeKind::Brace { items } => {
                let done = Values::new(self.store.alloc);
                self.arguments(program, Purpose::Brace, done, items.as_slice(), context)
            }
            NodeKind::Return { value } => {
                let pending = Pending::Return {
                    context: Rc::clone(&context)?,
                };
                self.wait(pending, value, context)
            }
        }
    }

    /// Takes a tick and begins a node.
    #[tactic(auto, using(crate::proofs::Begun::node_ticked))]
    pub fn evaluate(
        &mut self,
        program: &Program<'p>,
        node: &'p Node,
        context: Rc<Context>,
    ) -> Result<Next<'p>, Memory>
        requires { 0 < self.old.store.ticks }
        ensures rest { IfOk result (λ n. rest (image_of program.now) program.now.names self.new n ≡ goes_on_with (image_of program.now) program.now.names self.old (evaluates (image_of program.now) (at_node context.value (tree_at program.now.names node.now)))) }
        ensures ticks { IfOk result (λ n. self.new.store.ticks < self.old.store.ticks) }
    {
        self.store.ticks -= 1;
        self.open_node(program, node, context)
    }
}
