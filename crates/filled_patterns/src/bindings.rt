// Bindings out of which parts are taken.
ghost use Rattle.std.specs.Prelude.{◌≡◌, ℕ, IfOk};
ghost use Rattle.pattern_model.specs.Bindings.{BindingOf};
ghost use Rattle.pattern_match.specs.Bound.{bound_of};
ghost use Rattle.filled_patterns.specs.Left.{HoldsOne};

use pattern_match::Bound;
use patterns::Meta;
use rb_base::Memory;
use st_tree::Message;
use std::alloc::Global;

/// A metavariable and what it is bound to.
#[derive(Drop)]
pub struct Binding {
    pub meta: Meta,
    /// Whether what it is bound to is wanted at one place only, and moves there.
    pub single: bool,
    /// None once it is taken.
    pub bound: Option<Bound>,
}

/// A copy of what is bound.
fn copied(alloc: Global, bound: &Bound) -> Result<Bound, Memory>
    ensures { IfOk result (λ copied. bound_of copied ≡ bound_of bound.now) }
{
    match bound {
        Bound::Part(node) => Ok(Bound::Part(Box::new(alloc, node.try_copy(alloc)?)?)),
        Bound::Run(run) => Ok(Bound::Run(run.try_copy(alloc)?)),
        Bound::Selector(selector) => Ok(Bound::Selector(*selector)),
        Bound::Keyword(keyword) => Ok(Bound::Keyword(keyword.try_copy(alloc)?)),
        Bound::Whole(message) => Ok(Bound::Whole(Message {
            selector: message.selector,
            arguments: message.arguments.try_copy(alloc)?,
        })),
    }
}

/// Takes out what is bound where it is wanted once, and copies it otherwise; an error where it is taken already.
pub(crate) fn take_part(alloc: Global, binding: &mut Binding) -> Result<Bound, Memory>
    ensures part { IfOk result (λ part. (b : BindingOf ℕ) → HoldsOne b binding.old → bound_of part ≡ b.bound) }
    ensures left { (b : BindingOf ℕ) → HoldsOne b binding.old → HoldsOne b binding.new }
{
    if binding.single {
        return binding.bound.take().ok_or(Memory);
    }
    match &binding.bound {
        Some(bound) => copied(alloc, bound),
        None => Err(Memory),
    }
}
