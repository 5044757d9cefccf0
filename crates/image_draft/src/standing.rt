// What is known of the class of a definition before it is made.
ghost use Rattle.std.specs.Prelude.{◌≡◌, ◌&&◌, ◌||◌, [], false, true, nat_eq, IfSome};
ghost use Rattle.image_model.specs.Chain.{class_named};
ghost use Rattle.file_model.specs.Hierarchy.{has_subclass};
ghost use Rattle.image_draft.specs.Alone.{IsChildless};
ghost use Rattle.image_draft.specs.Names.{AreOrdered};
ghost use Rattle.image_draft.specs.Once.{StaysUnder};
ghost use Rattle.image_draft.specs.Owners.{AreOwned};

use crate::class_draft::{ClassDraft, Definition};
use crate::class_list::ClassList;
use crate::found::has_subclass;
use crate::kept::{KeptChains, has_superclass};
use crate::owners::Owners;
use rb_base::NameId;

/// How the class of a definition stands among the classes before it.
#[derive(Clone, Copy)]
pub struct Standing {
    /// Whether it is new, or keeps its superclass.
    pub stays: bool,
    /// Whether it is there, gets another superclass and is the superclass of none.
    pub childless: bool,
    /// Whether it has no class-instance variables.
    pub plain: bool,
}

/// Whether a class has no class-instance variables.
fn is_plain(class: &ClassDraft) -> bool
    ensures { result ≡ true → class.now.class_side ≡ [] }
{
    class.class_side.as_slice().is_empty()
}

/// Whether a class is the superclass of none: none is searched for where none was noted.
fn is_childless(classes: &ClassList, owners: &Owners, name: NameId) -> bool
    requires order { AreOrdered classes.now }
    requires owned { AreOwned owners.now classes.now }
    ensures { result ≡ true → has_subclass nat_eq classes.now name ≡ false }
{
    if !owners.is_superclass(name) {
        return true;
    }
    !has_subclass(classes, name)
}

/// How the class of a definition stands among the classes.
pub fn standing_of(classes: &ClassList, owners: &Owners, definition: &Definition) -> Standing
    requires order { AreOrdered classes.now }
    requires owned { AreOwned owners.now classes.now }
    ensures stays { result.stays ≡ true → StaysUnder classes.now definition.now }
    ensures childless { result.childless ≡ true → IsChildless classes.now definition.now.name }
    ensures plain { result.plain ≡ true → IfSome (class_named nat_eq classes.now definition.now.name) (λ c. c.class_side ≡ []) }
{
    let Some(class) = classes.find(definition.name) else {
        return Standing {
            stays: true,
            childless: false,
            plain: true,
        };
    };
    let plain = is_plain(class);
    if has_superclass(class, definition.superclass) {
        return Standing {
            stays: true,
            childless: false,
            plain,
        };
    }
    Standing {
        stays: false,
        childless: is_childless(classes, owners, definition.name),
        plain,
    }
}

/// The kinds of variables of a definition whose class stands so, where it is known whether no other class has its instance
/// variables. Class-instance variables stay as they were.
pub fn kept_alone(standing: Standing, alone: bool) -> KeptChains
    ensures instance { result.instance ≡ ((standing.stays || standing.childless) && alone) }
    ensures class_side { result.class_side ≡ (standing.stays || (standing.childless && standing.plain)) }
{
    KeptChains {
        instance: (standing.stays || standing.childless) && alone,
        class_side: standing.stays || (standing.childless && standing.plain),
    }
}
