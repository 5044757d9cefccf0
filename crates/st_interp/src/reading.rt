// Names that are read and assigned.
ghost use Rattle.std.specs.Prelude.{◌≡◌, List, Some, IfOk};
ghost use Rattle.rb_base.specs.Names.{name_at};
ghost use Rattle.image_model.specs.Image.{ImageOf};
ghost use Rattle.class_table.specs.View.{image_of};
ghost use Rattle.scope_model.specs.SpecialNames.{is_pseudo_variable};
ghost use Rattle.run_model.specs.Values.{Name};
ghost use Rattle.run_model.specs.Store.{Store as run_store, Frame, fine};
ghost use Rattle.run_model.specs.Acts.{acts};
ghost use Rattle.run_model.specs.Reading.{reads_pseudo, reads_meaning, reads_binding, reads, assigns_meaning, assigns_binding, assigns};
ghost use Rattle.st_meaning.specs.ErrorView.{error_of};
ghost use Rattle.st_meaning.specs.StoreView.{store_of};
ghost use Rattle.st_program.specs.Meaning.{meaning_from};
ghost use Rattle.st_interp.specs.Machine.{ended};

use crate::state::{Ending, Exit};
use rb_base::{Memory, NameId};
use st_meaning::{
    Binding, BindingKind, Context, RunError, RunErrorKind, SharedText, Store, Value, ValueKind,
    same_text,
};
use st_program::{Meaning, Program};

/// The end by an error.
pub(crate) fn failed(kind: RunErrorKind) -> Ending
    ensures { result ≡ Ending.Exit (Exit.Failed (error_of kind)) }
{
    Ending::Exit(Exit::Failed(RunError::new(kind)))
}

/// Whether the text is a pseudo-variable's name.
#[tactic(auto, unfolding(scope_model::specs::SpecialNames::is_pseudo_variable))]
fn is_pseudo(text: &[u8]) -> bool
    ensures { result ≡ is_pseudo_variable text.now }
{
    same_text(text, b"self")
        || same_text(text, b"super")
        || same_text(text, b"nil")
        || same_text(text, b"true")
        || same_text(text, b"false")
        || same_text(text, b"thisContext")
}

#[tactic(auto, unfolding(run_model::specs::Acts::gives, run_model::specs::Acts::fails))]
fn read_pseudo(context: &Context, name: &[u8]) -> Result<Ending, Memory>
    ensures { IfOk result (λ e. (s : run_store) → ended e s ≡ reads_pseudo acts context.now name.now s) }
{
    if same_text(name, b"nil") {
        Ok(Ending::Value(Value::nil()))
    } else if same_text(name, b"true") {
        Ok(Ending::Value(Value::new(ValueKind::True)))
    } else if same_text(name, b"false") {
        Ok(Ending::Value(Value::new(ValueKind::False)))
    } else if same_text(name, b"thisContext") {
        Ok(failed(RunErrorKind::Reflective))
    } else {
        Ok(Ending::Value(context.me().share()?))
    }
}

#[tactic(auto, unfolding(run_model::specs::Acts::gives, run_model::specs::Acts::with_memory))]
fn read_binding(store: &Store<'_>, binding: &Binding) -> Result<Value, Memory>
    ensures { IfOk result (λ v. (names : List Name) (i : ImageOf Name) (f : Frame) (n : Name) → fine v (store_of names store.now) ≡ reads_binding acts i f n (Some binding.now) (store_of names store.now)) }
{
    match &binding.kind {
        BindingKind::Holds(value) => value.share(),
        BindingKind::InCell(cell) => store.cell(*cell),
    }
}

#[tactic(auto, unfolding(run_model::specs::Acts::gives, run_model::specs::Acts::fails, run_model::specs::Acts::with_memory))]
fn read_meaning(
    store: &Store<'_>,
    context: &Context,
    name: SharedText,
    meaning: Meaning,
) -> Result<Ending, Memory>
    ensures { IfOk result (λ e. (names : List Name) → ended e (store_of names store.now) ≡ reads_meaning acts context.now name (meaning_from meaning) (store_of names store.now)) }
{
    match meaning {
        Meaning::Instance { definer: _ } => {
            Ok(Ending::Value(store.field(context.me(), name.as_slice())?))
        }
        Meaning::ClassSide { definer: _ } => Ok(Ending::Value(store.class_side_field(
            context.me(),
            name.as_slice(),
        )?)),
        Meaning::Shared { definer } => Ok(Ending::Value(store.shared_variable(
            definer.as_slice(),
            name.as_slice(),
        )?)),
        Meaning::Class { name } => Ok(Ending::Value(Value::new(ValueKind::Class(name)))),
        Meaning::Transcript => Ok(Ending::Value(Value::new(ValueKind::Transcript))),
        Meaning::Undeclared => Ok(failed(RunErrorKind::Undeclared { name })),
    }
}

/// The value of a name, or why there is none.
pub(crate) fn read(
    store: &Store<'_>,
    program: &Program<'_>,
    context: &Context,
    name: NameId,
) -> Result<Ending, Memory>
    ensures { IfOk result (λ e. ended e (store_of program.now.names store.now) ≡ reads acts (image_of program.now) context.now (name_at program.now.names name) (store_of program.now.names store.now)) }
{
    let text = program.names().as_slice(name);
    if is_pseudo(text) {
        return read_pseudo(context, text);
    }
    match context.binding(text) {
        Some(binding) => Ok(Ending::Value(read_binding(store, binding)?)),
        None => {
            let meaning = program.meaning(context, name)?;
            read_meaning(store, context, program.names().text(name)?, meaning)
        }
    }
}

#[tactic(auto, unfolding(run_model::specs::Acts::fails, run_model::specs::Acts::with_memory))]
fn assign_binding(
    store: &mut Store<'_>,
    binding: &Binding,
    name: SharedText,
    value: Value,
) -> Result<Ending, Memory>
    ensures ended { IfOk result (λ e. (names : List Name) (i : ImageOf Name) (f : Frame) → ended e (store_of names store.new) ≡ assigns_binding acts i f name value (Some binding.now) (store_of names store.old)) }
    ensures ticks { IfOk result (λ e. store.new.ticks ≡ store.old.ticks) }
{
    match &binding.kind {
        BindingKind::Holds(_) => Ok(failed(RunErrorKind::NotAssignable { name })),
        BindingKind::InCell(cell) => {
            store.set_cell(*cell, value.share()?);
            Ok(Ending::Value(value))
        }
    }
}

#[tactic(auto, unfolding(run_model::specs::Acts::fails, run_model::specs::Acts::with_memory))]
fn assign_meaning(
    store: &mut Store<'_>,
    context: &Context,
    name: SharedText,
    value: Value,
    meaning: &Meaning,
) -> Result<Ending, Memory>
    ensures ended { IfOk result (λ e. (names : List Name) → ended e (store_of names store.new) ≡ assigns_meaning acts context.now name value (meaning_from meaning.now) (store_of names store.old)) }
    ensures ticks { IfOk result (λ e. store.new.ticks ≡ store.old.ticks) }
{
    match meaning {
        Meaning::Instance { definer: _ } => {
            store.set_field(context.me(), &name, value.share()?)?;
            Ok(Ending::Value(value))
        }
        Meaning::ClassSide { definer: _ } => {
            store.set_class_side_field(context.me(), &name, value.share()?)?;
            Ok(Ending::Value(value))
        }
        Meaning::Shared { definer } => {
            store.set_shared_variable(definer, &name, value.share()?)?;
            Ok(Ending::Value(value))
        }
        Meaning::Class { name: _ } => Ok(failed(RunErrorKind::NotAssignable { name })),
        Meaning::Transcript => Ok(failed(RunErrorKind::NotAssignable { name })),
        Meaning::Undeclared => Ok(failed(RunErrorKind::Undeclared { name })),
    }
}

/// Stores a value under a name and answers it, or tells why it cannot be stored.
#[tactic(auto, unfolding(run_model::specs::Acts::fails))]
pub(crate) fn assign(
    store: &mut Store<'_>,
    program: &Program<'_>,
    context: &Context,
    name: NameId,
    value: Value,
) -> Result<Ending, Memory>
    ensures ended { IfOk result (λ e. ended e (store_of program.now.names store.new) ≡ assigns acts (image_of program.now) context.now (name_at program.now.names name) value (store_of program.now.names store.old)) }
    ensures ticks { IfOk result (λ e. store.new.ticks ≡ store.old.ticks) }
{
    let text = program.names().text(name)?;
    if is_pseudo(text.as_slice()) {
        return Ok(failed(RunErrorKind::NotAssignable { name: text }));
    }
    match context.binding(text.as_slice()) {
        Some(binding) => assign_binding(store, binding, text, value),
        None => {
            let meaning = program.meaning(context, name)?;
            assign_meaning(store, context, text, value, &meaning)
        }
    }
}
