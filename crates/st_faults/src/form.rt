// What a text is to be, and the stack before it.
ghost use Rattle.std.specs.Prelude.{◌≡◌, IfOk};
ghost use Rattle.grammar_model.specs.Machine.{start, is_user};
ghost use Rattle.st_faults.specs.Stacks.{stack_of};
ghost use Rattle.st_faults.specs.Forms.{form_of};

use crate::part::{ClosingPart, ExpressionPart, MethodPart, Part, SequencePart};
use rb_base::Memory;
use std::alloc::Global;

/// How many parts a stack has room for at once.
const PARTS: usize = 32;

/// What a text is to be.
#[derive(Clone, Copy)]
pub enum TextForm {
    /// A do-it.
    DoIt,
    /// A method, of the kernel or not.
    Method(bool),
    /// A pattern: one expression, in which metavariables may stand.
    Pattern,
}

/// The stack before a text.
pub fn start(alloc: Global, form: TextForm) -> Result<Vec<Part>, Memory>
    ensures { IfOk result (λ stack. stack_of stack.items ≡ start (form_of form)) }
{
    let first = match form {
        TextForm::DoIt => Part::Sequence(SequencePart::Whole),
        TextForm::Method(kernel) => Part::Method(MethodPart::Pattern(kernel)),
        TextForm::Pattern => Part::Expression(ExpressionPart::Whole),
    };
    let mut stack = Vec::with_capacity(alloc, PARTS)?;
    stack.push(Part::Awaits(ClosingPart::Text))?;
    stack.push(first)?;
    Ok(stack)
}

/// Whether the text is a user's.
pub fn is_user(form: TextForm) -> bool
    ensures { result ≡ is_user (form_of form) }
{
    match form {
        TextForm::DoIt | TextForm::Pattern => true,
        TextForm::Method(kernel) => !kernel,
    }
}
