// Where code runs.
ghost use Rattle.std.specs.Prelude.{◌≡◌, ◌++◌, ◌∷◌, [], find, option_map, IfOk};
ghost use Rattle.std.specs.Option.{option_copied, option_map_or};
ghost use Rattle.rb_base.specs.Names.{text_eq};
ghost use Rattle.run_model.specs.Store.{Slot as run_slot};
ghost use Rattle.run_model.specs.Reading.{binding_of};
ghost use Rattle.run_model.specs.Eval.{outermost, inside};

use crate::text::{SharedText, same_text};
use crate::value::Value;
use rb_base::Memory;
use std::alloc::Global;
use std::marker::Model;
use std::rc::Rc;

/// What a name of an environment stands for. Contracts see a `Binding` of runs.
#[derive(Drop)]
pub struct Binding {
    /// What the binding is.
    pub kind: BindingKind,
}

/// What a binding is.
#[derive(Drop)]
pub enum BindingKind {
    /// The value of an argument or parameter.
    Holds(Value),
    /// The cell of a temporary, by its number in the store, from 0.
    InCell(usize),
}

impl Model for Binding {
    ghost use Rattle.run_model.specs.Store as run;

    ghost Value = { run.Binding };

    ghost use Rattle.st_meaning.specs.BindingView.{binding_from};

    ghost view = { λ a. binding_from a.kind };
}

/// A name of an environment. Contracts see a `Slot` of runs.
#[derive(Drop)]
pub(crate) struct Slot {
    pub(crate) name: SharedText,
    pub(crate) binding: Binding,
}

impl Model for Slot {
    ghost use Rattle.run_model.specs.Store as run;

    ghost Value = { run.Slot };

    ghost view = { λ a. record { name = a.name; binding = a.binding } };
}

impl Slot {
    fn is_named(&self, name: &[u8]) -> bool
        ensures { result ≡ text_eq name.now self.now.name }
    {
        same_text(name, self.name.as_slice())
    }

    fn binding(&self) -> &Binding
        ensures { result.now ≡ self.now.binding }
    {
        &self.binding
    }
}

/// The names that one sequence or block declares, and those outside it, which all that are inside share. Contracts see the
/// slots of each, the innermost first.
#[derive(Drop)]
pub(crate) struct Scope {
    // The first of a name counts.
    slots: Vec<Slot>,
    outer: Option<Rc<Scope>>,
}

impl Model for Scope {
    ghost use Rattle.std.specs.Prelude.{List};
    ghost use Rattle.run_model.specs.Store as run;

    ghost Value = { List (List run.Slot) };

    ghost use Rattle.std.specs.Prelude.{◌∷◌, [], length};
    ghost use Rattle.std.specs.Option.{option_map_or};

    ghost view = { λ a. a.slots.items ∷ option_map_or (λ r. r.value) a.outer [] };

    ghost size = { length };
}

/// Where code runs: its environment, what `self` is, and its home, the one running of a method or do-it. Contracts see a
/// `Frame` of runs.
#[derive(Drop)]
pub struct Context {
    scope: Option<Rc<Scope>>,
    me: Value,
    home: usize,
    class: Option<SharedText>,
    meta: bool,
}

impl Model for Context {
    ghost use Rattle.run_model.specs.Store as run;

    ghost Value = { run.Frame };

    ghost use Rattle.std.specs.Prelude.{List, []};
    ghost use Rattle.std.specs.List.{flat_map};
    ghost use Rattle.std.specs.Option.{option_map_or};

    ghost view = { λ a. record { slots = flat_map (λ (s : List run.Slot). s) (option_map_or (λ r. r.value) a.scope []); me = a.me; home = record { number = a.home; class = a.class; meta = a.meta } } };
}

fn found<'a>(slots: &'a [Slot], name: &[u8]) -> Option<&'a Slot>
    ensures { option_copied result ≡ find (λ (e : run_slot). text_eq name.now e.name) slots.now }
{
    slots.iter().find(|slot| slot.is_named(name))
}

fn shared(scope: &Option<Rc<Scope>>) -> Result<Option<Rc<Scope>>, Memory>
    ensures { IfOk result (λ shared. option_map_or (λ r. r.value) shared [] ≡ option_map_or (λ r. r.value) scope.now []) }
{
    match scope {
        Some(scope) => Ok(Some(Rc::clone(scope)?)),
        None => Ok(None),
    }
}

fn class_shared(class: &Option<SharedText>) -> Result<Option<SharedText>, Memory>
    ensures { IfOk result (λ shared. shared ≡ class.now) }
{
    match class {
        Some(name) => Ok(Some(name.share()?)),
        None => Ok(None),
    }
}

impl Context {
    /// Where the statements of a method or do-it run: no names yet; the class and side of the method, `self`, and the
    /// number of the home.
    pub fn outermost(
        alloc: Global,
        class: Option<SharedText>,
        meta: bool,
        me: Value,
        home: usize,
    ) -> Context
        ensures { result ≡ outermost class meta me home }
    {
        Context {
            scope: None,
            me,
            home,
            class,
            meta,
        }
    }

    /// What `self` is.
    pub fn me(&self) -> &Value
        ensures { result.now ≡ self.now.me }
    {
        &self.me
    }

    /// The number of the home, from 0.
    pub fn home(&self) -> usize
        ensures { result ≡ self.now.home.number }
    {
        self.home
    }

    /// The name of the class of the home's method.
    pub fn class(&self) -> Option<&SharedText>
        ensures { option_copied result ≡ self.now.home.class }
    {
        self.class.as_ref()
    }

    /// Whether the home's method is one of the class side.
    pub fn meta(&self) -> bool
        ensures { result ≡ self.now.home.meta }
    {
        self.meta
    }

    /// What the innermost declaration of a name stands for.
    pub fn binding(&self, name: &[u8]) -> Option<&Binding>
        ensures { option_copied result ≡ binding_of self.now name.now }
    {
        let mut at = &self.scope;
        while let Some(scope) = at {
            let Scope { slots, outer } = scope.as_ref();
            match found(slots, name) {
                Some(slot) => return Some(slot.binding()),
                None => at = outer,
            }
        }
        None
    }

    /// The same home and `self`, with more names inside the environment, which is shared.
    pub(crate) fn inside(&self, alloc: Global, slots: Vec<Slot>) -> Result<Context, Memory>
        ensures { IfOk result (λ context. context ≡ inside self.now slots.items) }
    {
        let outer = shared(&self.scope)?;
        let scope = Rc::new(alloc, Scope { slots, outer })?;
        Ok(Context {
            scope: Some(scope),
            me: self.me.share()?,
            home: self.home,
            class: class_shared(&self.class)?,
            meta: self.meta,
        })
    }
}
