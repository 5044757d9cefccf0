// Chains on which no variable can stand twice where a class is changed.
ghost use Rattle.std.specs.Prelude.{◌≡◌, ◌&&◌, ◌||◌, true};
ghost use Rattle.image_model.specs.Means.{of_instance, of_class_side};
ghost use Rattle.image_draft.specs.Once.{KeepsChains, KeepsSide};

use crate::class_draft::{ClassDraft, Definition};
use crate::class_list::ClassList;
use rb_base::NameId;

/// Of which kinds no variable can stand twice on the chain of a class that is defined and on those below it.
#[derive(Clone, Copy)]
pub struct KeptChains {
    /// Whether it is so of the instance variables.
    pub instance: bool,
    /// Whether it is so of the class-instance variables.
    pub class_side: bool,
}

impl KeptChains {
    /// The kinds of these and of others.
    pub fn or(self, others: KeptChains) -> KeptChains
        ensures instance { result.instance ≡ (self.instance || others.instance) }
        ensures class_side { result.class_side ≡ (self.class_side || others.class_side) }
    {
        KeptChains {
            instance: self.instance || others.instance,
            class_side: self.class_side || others.class_side,
        }
    }
}

/// Whether these are the same names in the same order.
fn are_same(names: &[NameId], others: &[NameId]) -> bool
    ensures { result ≡ true → names.now ≡ others.now }
{
    names == others
}

/// Whether a class has a superclass, or none where none is asked for.
pub fn has_superclass(class: &ClassDraft, superclass: Option<NameId>) -> bool
    ensures { result ≡ true → class.now.superclass ≡ superclass }
{
    class.superclass == superclass
}

/// Which variables stay on chains where a definition keeps the superclass of its class.
fn kept_under(class: &ClassDraft, definition: &Definition) -> KeptChains
    ensures instance { result.instance ≡ true → class.now.instance ≡ definition.now.instance }
    ensures under { result.instance ≡ true → class.now.superclass ≡ definition.now.superclass }
    ensures class_side { result.class_side ≡ true → class.now.superclass ≡ definition.now.superclass }
{
    let same_superclass = has_superclass(class, definition.superclass);
    let same_instance = are_same(class.instance.as_slice(), definition.instance.as_slice());
    KeptChains {
        instance: same_superclass && same_instance,
        class_side: same_superclass,
    }
}

/// Which variables stay on chains where a definition is made: those of a class that keeps its superclass, where it keeps them.
pub fn kept_chains(classes: &ClassList, definition: &Definition) -> KeptChains
    ensures instance { result.instance ≡ true → KeepsChains classes.now definition.now of_instance }
    ensures class_side { result.class_side ≡ true → KeepsChains classes.now definition.now of_class_side }
{
    match classes.find(definition.name) {
        None => KeptChains {
            instance: false,
            class_side: false,
        },
        Some(class) => kept_under(class, definition),
    }
}

/// Whether the class of a name has these class-instance variables.
pub fn keeps_side(classes: &ClassList, name: NameId, names: &[NameId]) -> bool
    ensures { result ≡ true → KeepsSide classes.now name names.now }
{
    match classes.find(name) {
        None => false,
        Some(class) => are_same(class.class_side.as_slice(), names),
    }
}
