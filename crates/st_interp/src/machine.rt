// Statements, sequences and methods: each step does what one word of the definition of runs says.
ghost use Rattle.std.specs.Prelude.{◌≡◌, ◌+◌, ◌<◌, ◌≤◌, ◌++◌, [], ◌∷◌, List, IfOk, length};
ghost use Rattle.image_model.specs.Image.{ImageOf};
ghost use Rattle.run_model.specs.Values.{Name};
ghost use Rattle.run_model.specs.Acts.{acts};
ghost use Rattle.run_model.specs.Calls.{enters};
ghost use Rattle.run_model.specs.Store.{with_home};
ghost use Rattle.run_model.specs.Eval.{node as at_node, outermost, statements, sequence, in_place, follows, does_body, evaluates};
ghost use Rattle.st_meaning.specs.ErrorView.{error_of};
ghost use Rattle.st_meaning.specs.StoreView.{store_of, changed_by};
ghost use Rattle.st_program.specs.Found.{entry_from};
ghost use Rattle.st_interp.specs.Trees.{texts_at, tree_at, statements_at, sequence_at};
ghost use Rattle.st_interp.specs.Machine.{next_of, resume as resumed, goes_on_with, rest, pending_load, load, machine_load};

use crate::state::{Ending, Exit, Machine, Next, Pending};
use rb_base::{Ids, Memory};
use st_meaning::{Context, RunError, RunErrorKind, SharedText, Value};
use st_program::{Found, Program};
use st_tree::{Node, Sequence, Statement};
use std::rc::Rc;

/// The end by an error, which the stack may have to know.
pub(crate) fn fails<'p>(kind: RunErrorKind) -> Next<'p>
    ensures { result ≡ Next.Leave (Exit.Failed (error_of kind)) }
{
    Next::Leave(Exit::Failed(RunError::new(kind)))
}

/// What comes after an ending that the stack may have to know.
pub(crate) fn after<'p>(ending: Ending) -> Next<'p>
    ensures { result ≡ next_of ending }
{
    match ending {
        Ending::Value(value) => Next::Give(value),
        Ending::Exit(exit) => Next::Leave(exit),
    }
}

/// Puts what waits for a value on the stack; on want of memory it is dropped.
pub(crate) fn hold<'p>(stack: &mut Vec<Pending<'p>>, pending: Pending<'p>) -> Result<(), Memory>
    ensures { IfOk result (λ _. stack.new.items ≡ stack.old.items ++ pending.entry ∷ []) }
{
    stack.push(pending)?;
    Ok(())
}

impl<'p> Machine<'p> {
    /// Evaluates a node, for whose value the frame waits.
    #[tactic(auto, using(crate::proofs::Plug::plug_push, crate::proofs::Plug::load_push))]
    pub fn wait(
        &mut self,
        pending: Pending<'p>,
        node: &'p Node,
        context: Rc<Context>,
    ) -> Result<Next<'p>, Memory>
        ensures rest { IfOk result (λ n. (i : ImageOf Name) (names : List Name) → rest i names self.new n ≡ goes_on_with i names self.old (λ s. resumed i names pending.entry (evaluates i (at_node context.value (tree_at names node.now)) s))) }
        ensures load { IfOk result (λ n. load self.new n ≡ machine_load self.old + pending_load pending.entry + 1) }
        ensures ticks { IfOk result (λ n. self.new.store.ticks ≤ self.old.store.ticks) }
    {
        hold(&mut self.stack, pending)?;
        Ok(Next::Evaluate(node, context))
    }

    /// Runs statements; where there is none left, the value is that of the last one.
    #[tactic(auto, unfolding(run_model::specs::Acts::gives))]
    pub fn begin(
        &mut self,
        value: Value,
        left: &'p [Statement],
        context: Rc<Context>,
    ) -> Result<Next<'p>, Memory>
        ensures rest { IfOk result (λ n. (i : ImageOf Name) (names : List Name) → rest i names self.new n ≡ goes_on_with i names self.old (statements acts (evaluates i) context.value value (statements_at names left.now))) }
        ensures load { IfOk result (λ n. load self.new n ≤ machine_load self.old + 4) }
        ensures ticks { IfOk result (λ n. self.new.store.ticks ≤ self.old.store.ticks) }
        ensures begun { IfOk result (λ n. 0 < length left.now → load self.new n ≤ machine_load self.old + 2) }
    {
        match left.split_first() {
            None => Ok(Next::Give(value)),
            Some((first, left)) => {
                let pending = Pending::Sequence {
                    left,
                    context: Rc::clone(&context)?,
                };
                self.wait(pending, &first.node, context)
            }
        }
    }

    /// Runs a sequence inside a context, with parameters that hold arguments and temporaries of its own.
    #[tactic(auto, using(crate::proofs::Plug::sequence_opened))]
    pub fn sequence(
        &mut self,
        program: &Program<'p>,
        context: &Rc<Context>,
        parameters: &Ids,
        arguments: &[Value],
        body: &'p Sequence,
    ) -> Result<Next<'p>, Memory>
        ensures rest { IfOk result (λ n. (i : ImageOf Name) → rest i program.now.names self.new n ≡ goes_on_with i program.now.names self.old (sequence acts (evaluates i) context.now.value (texts_at program.now.names parameters.now) arguments.now (sequence_at program.now.names body.now))) }
        ensures load { IfOk result (λ n. load self.new n ≤ machine_load self.old + 4) }
        ensures ticks { IfOk result (λ n. self.new.store.ticks ≤ self.old.store.ticks) }
        ensures begun { IfOk result (λ n. 0 < length body.now.statements → load self.new n ≤ machine_load self.old + 2) }
    {
        let inner = self.store.open(
            context,
            program.names(),
            parameters,
            arguments,
            &body.temporaries,
        )?;
        self.begin(Value::nil(), body.statements.as_slice(), inner)
    }

    /// Runs a block in place.
    pub fn in_place(
        &mut self,
        program: &Program<'p>,
        context: &Rc<Context>,
        body: &'p Sequence,
    ) -> Result<Next<'p>, Memory>
        ensures rest { IfOk result (λ n. (i : ImageOf Name) → rest i program.now.names self.new n ≡ goes_on_with i program.now.names self.old (in_place acts (evaluates i) context.now.value (sequence_at program.now.names body.now))) }
        ensures load { IfOk result (λ n. load self.new n ≤ machine_load self.old + 4) }
        ensures ticks { IfOk result (λ n. self.new.store.ticks ≤ self.old.store.ticks) }
        ensures begun { IfOk result (λ n. 0 < length body.now.statements → load self.new n ≤ machine_load self.old + 2) }
    {
        let none = Ids::new(self.store.alloc);
        self.sequence(program, context, &none, &[], body)
    }

    /// Enters the closure of a number.
    pub fn enter(
        &mut self,
        program: &Program<'p>,
        closure: usize,
        arguments: &[Value],
    ) -> Result<Next<'p>, Memory>
        ensures rest { IfOk result (λ n. (i : ImageOf Name) → rest i program.now.names self.new n ≡ goes_on_with i program.now.names self.old (follows acts (evaluates i) arguments.now (enters closure))) }
        ensures load { IfOk result (λ n. load self.new n ≤ machine_load self.old + 4) }
        ensures ticks { IfOk result (λ n. self.new.store.ticks ≤ self.old.store.ticks) }
    {
        let Some(code) = self.store.closure(closure) else {
            return Ok(fails(RunErrorKind::BadArgument { primitive: 50 }));
        };
        let parameters = code.parameters;
        let body = code.body;
        let context = Rc::clone(&code.context)?;
        self.sequence(program, &context, parameters, arguments, body)
    }

    /// Opens a home, which ends behind what comes next, and gives the context of its statements.
    pub fn open_home(
        &mut self,
        class: Option<SharedText>,
        meta: bool,
        me: Value,
    ) -> Result<Rc<Context>, Memory>
        ensures context { IfOk result (λ c. c.value ≡ outermost class meta me (length self.old.store.homes.items)) }
        ensures stack { IfOk result (λ _. self.new.stack.items ≡ self.old.stack.items ++ Pending.Home (length self.old.store.homes.items) ∷ []) }
        ensures store { IfOk result (λ _. (names : List Name) → store_of names self.new.store ≡ changed_by with_home (store_of names self.old.store)) }
        ensures ticks { IfOk result (λ _. self.new.store.ticks ≤ self.old.store.ticks) }
    {
        let alloc = self.store.alloc;
        let home = self.store.new_home()?;
        hold(&mut self.stack, Pending::Home { home })?;
        Ok(Rc::new(alloc, Context::outermost(alloc, class, meta, me, home))?)
    }

    /// Runs the statements of a method in a new home.
    #[tactic(auto, using(crate::proofs::Plug::load_push))]
    pub fn activate(
        &mut self,
        program: &Program<'p>,
        found: Found<'p>,
        receiver: Value,
        arguments: &[Value],
    ) -> Result<Next<'p>, Memory>
        ensures rest { IfOk result (λ n. (i : ImageOf Name) → rest i program.now.names self.new n ≡ goes_on_with i program.now.names self.old (does_body acts (evaluates i) (entry_from program.now.names found.entry) receiver arguments.now)) }
        ensures load { IfOk result (λ n. load self.new n ≤ machine_load self.old + 6) }
        ensures ticks { IfOk result (λ n. self.new.store.ticks ≤ self.old.store.ticks) }
    {
        let tree = found.tree;
        let value = receiver.share()?;
        let context = self.open_home(found.class, found.meta, receiver)?;
        hold(&mut self.stack, Pending::Answer { value })?;
        self.sequence(program, &context, &tree.arguments, arguments, &tree.body)
    }
}
