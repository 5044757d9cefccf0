// The values of literals.
ghost use Rattle.std.specs.Prelude.{◌≡◌, IfOk};
ghost use Rattle.run_model.specs.Acts.{acts};
ghost use Rattle.run_model.specs.Eval.{literal_value};
ghost use Rattle.st_meaning.specs.StoreView.{store_of};
ghost use Rattle.st_interp.specs.Trees.{literal_at};
ghost use Rattle.st_interp.specs.Machine.{ended};

use crate::reading::failed;
use crate::state::Ending;
use rb_base::Memory;
use st_meaning::{RunErrorKind, Store};
use st_program::Program;
use st_tree::Literal;

/// The value of a literal, and the failure where it is only kept.
pub(crate) fn literal(
    store: &mut Store<'_>,
    program: &Program<'_>,
    value: &Literal,
) -> Result<Ending, Memory>
    ensures ended { IfOk result (λ e. ended e (store_of program.now.names store.new) ≡ literal_value acts (literal_at program.now.names value.now) (store_of program.now.names store.old)) }
    ensures ticks { IfOk result (λ e. store.new.ticks ≡ store.old.ticks) }
{
    match st_literals::literal(store, program.names(), value)? {
        Some(value) => Ok(Ending::Value(value)),
        None => Ok(failed(RunErrorKind::Unsupported)),
    }
}
