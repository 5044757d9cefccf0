// What is renamed in one method or do-it.
ghost use Rattle.std.specs.Prelude.{◌≡◌, [], false, nat_eq, ◌||◌, IfOk, OnOk};
ghost use Rattle.image_model.specs.Uses.{same_kind, is_variable, is_that_class};
ghost use Rattle.name_meanings.specs.Meanings.{kind_of, meaning_of};
ghost use Rattle.renamed_code.specs.ChangedCode.{renamed_of};
ghost use Rattle.renamed_code.specs.Standing.{beneath};
ghost use Rattle.renamed_code.specs.Renamings.{meaning_in, has_name, is_meant_by, is_the_selector, IsReadable, is_named_at, is_sent_by, name_after, selector_after};

use crate::renamed::Renamed;
use class_table::{ClassId, Image};
use name_meanings::{Meaning, VariableKind, doit_meaning, method_meaning};
use rb_base::{Memory, NameId};
use st_tree::{Method, Path, Sequence};
use std::alloc::Global;

/// A method or a do-it.
#[derive(Drop)]
pub(crate) enum Code<'a> {
    Method {
        class: ClassId,
        /// Whether it is a method of the class side.
        meta: bool,
        tree: &'a Method,
    },
    DoIt {
        body: &'a Sequence,
    },
}

/// A renaming in one method or do-it of an image.
#[derive(Drop)]
pub(crate) struct Renaming<'a> {
    pub image: &'a Image,
    pub code: Code<'a>,
    pub what: Renamed,
    /// The new name.
    pub to: NameId,
}

/// The steps down to a node, and whether what is renamed was found so far.
#[derive(Drop)]
pub(crate) struct Walk {
    pub steps: Vec<usize>,
    pub found: bool,
}

impl Walk {
    /// No steps, and nothing found.
    pub(crate) fn new(alloc: Global) -> Walk
        ensures steps { result.steps.items ≡ [] }
        ensures found { result.found ≡ false }
    {
        Walk {
            steps: Vec::new(alloc),
            found: false,
        }
    }
}

/// Whether two kinds are one.
fn same_kind(kind: VariableKind, other: VariableKind) -> bool
    ensures { result ≡ same_kind (kind_of kind) (kind_of other) }
{
    match kind {
        VariableKind::Instance => matches!(other, VariableKind::Instance),
        VariableKind::ClassSide => matches!(other, VariableKind::ClassSide),
        VariableKind::Shared => matches!(other, VariableKind::Shared),
    }
}

/// Whether a meaning is the variable of a kind that the class of a name defines.
fn is_variable(meaning: Meaning, kind: VariableKind, class: NameId) -> bool
    ensures { result ≡ is_variable nat_eq (kind_of kind) class (meaning_of meaning) }
{
    match meaning {
        Meaning::Variable {
            kind: found,
            definer,
        } => same_kind(kind, found) && class == definer,
        _ => false,
    }
}

/// Whether a meaning is the class of a name.
fn is_class(meaning: Meaning, name: NameId) -> bool
    ensures { result ≡ is_that_class nat_eq name (meaning_of meaning) }
{
    match meaning {
        Meaning::Class(found) => name == found,
        _ => false,
    }
}

/// Whether a meaning is the class or the variable that is renamed.
fn is_meant_by(what: Renamed, meaning: Meaning) -> bool
    ensures { result ≡ is_meant_by (renamed_of what) (meaning_of meaning) }
{
    match what {
        Renamed::Class(class) => is_class(meaning, class),
        Renamed::Variable { kind, class, .. } => is_variable(meaning, kind, class),
        Renamed::Selector(_) => false,
    }
}

/// Whether a name is spelled as the class or the variable that is renamed.
pub(crate) fn has_name(what: &Renamed, name: NameId) -> bool
    ensures { result ≡ has_name (renamed_of what.now) name }
{
    match what {
        Renamed::Class(class) => *class == name,
        Renamed::Variable { variable, .. } => *variable == name,
        Renamed::Selector(_) => false,
    }
}

/// Whether a selector is renamed.
pub(crate) fn is_the_selector(what: &Renamed, selector: NameId) -> bool
    ensures { result ≡ is_the_selector (renamed_of what.now) selector }
{
    match what {
        Renamed::Selector(renamed) => *renamed == selector,
        Renamed::Class(_) | Renamed::Variable { .. } => false,
    }
}

impl Renaming<'_> {
    /// What a name stands for at the place to which a path leads.
    fn meaning(&self, path: &Path, name: NameId) -> Meaning
        requires { IsReadable self.now }
        ensures { meaning_of result ≡ meaning_in self.now.image.now self.now.code path.now name }
    {
        match &self.code {
            Code::Method { class, meta, tree } => {
                method_meaning(self.image, *class, *meta, *tree, path, name)
            }
            Code::DoIt { body } => doit_meaning(self.image, *body, path, name),
        }
    }

    /// Whether a name means what is renamed at the place to which the steps lead.
    #[tactic(auto, unfolding(crate::specs::Renamings::is_named_at))]
    fn is_named(&self, alloc: Global, steps: &[usize], name: NameId) -> Result<bool, Memory>
        requires { IsReadable self.now }
        ensures { IfOk result (λ found. found ≡ is_named_at self.now steps.now name) }
    {
        if !has_name(&self.what, name) {
            return Ok(false);
        }
        let path = Path::from_vec(Vec::from_slice(alloc, steps)?);
        Ok(is_meant_by(self.what, self.meaning(&path, name)))
    }

    /// What a name becomes at the end of the walk.
    pub(crate) fn name_after(
        &self,
        alloc: Global,
        walk: &mut Walk,
        name: NameId,
    ) -> Result<NameId, Memory>
        requires { IsReadable self.now }
        ensures name { IfOk result (λ after. after ≡ beneath walk.old.steps.items (name_after self.now) [] name) }
        ensures found { OnOk result (walk.new.found ≡ (walk.old.found || beneath walk.old.steps.items (is_named_at self.now) [] name)) }
        ensures steps { walk.new.steps.items ≡ walk.old.steps.items }
    {
        if self.is_named(alloc, walk.steps.as_slice(), name)? {
            walk.found = true;
            return Ok(self.to);
        }
        Ok(name)
    }

    /// What a selector becomes.
    #[tactic(auto, unfolding(crate::specs::Renamings::is_sent_by))]
    pub(crate) fn selector_after(&self, walk: &mut Walk, selector: NameId) -> NameId
        ensures selector { result ≡ selector_after self.now selector }
        ensures found { walk.new.found ≡ (walk.old.found || is_sent_by self.now selector) }
        ensures steps { walk.new.steps.items ≡ walk.old.steps.items }
    {
        if is_the_selector(&self.what, selector) {
            walk.found = true;
            return self.to;
        }
        selector
    }
}
