// Chains of classes while a file-out is read, and the variables on them.
ghost use Rattle.std.specs.Prelude.{◌≡◌, ℕ, ◌||◌, [], drop, not, false, true, nat_eq, option_copied, unwrap_or, IfNone, IfSome, IfOk};
ghost use Rattle.std.specs.List.{list_any};
ghost use Rattle.std.specs.Option.{option_map_or};
ghost use Rattle.image_model.specs.Chain.{chain_from, chain, class_of_name, superclass_of};
ghost use Rattle.image_model.specs.Means as means;
ghost use Rattle.file_model.specs.Hierarchy as hierarchy;
ghost use Rattle.file_model.specs.Hierarchy.{stands_in};
ghost use Rattle.image_draft.specs.Kinds.{kind_of};
ghost use Rattle.image_draft.specs.Names.{AreOrdered};
ghost use Rattle.image_draft.specs.NameSets.{comes_again, has, with_names};
ghost use Rattle.image_draft.specs.Parts as parts;
ghost use Rattle.image_draft.specs.Parts.{PartsOnce, is_marked, marked};
ghost use Rattle.image_draft.specs.Table.{place_in};

use crate::boxed_class::BoxedClass;
use crate::class_draft::ClassDraft;
use crate::class_list::ClassList;
use crate::name_set::NameSet;
use rb_base::{Memory, NameId};
use std::alloc::Global;

/// How many names are compared with one another at most; where there are more, a set is faster.
const FEW_NAMES: usize = 64;

/// The kinds of variables of which no two of one name may stand on a chain.
#[derive(Clone, Copy)]
pub enum ChainKind {
    Instance,
    ClassSide,
}

/// The class of a name, if there is a name.
fn class_of_name(classes: &ClassList, name: Option<NameId>) -> Option<&ClassDraft>
    ensures { option_copied result ≡ class_of_name nat_eq classes.now name }
{
    classes.find(name?)
}

/// The superclass of a class.
fn superclass_of<'a>(classes: &'a ClassList, class: &ClassDraft) -> Option<&'a ClassDraft>
    ensures { option_copied result ≡ superclass_of nat_eq classes.now class.now }
{
    class_of_name(classes, class.superclass)
}

/// Whether a class of a name is this class or stands above it.
fn is_on_chain(classes: &ClassList, name: NameId, from: Option<&ClassDraft>) -> bool
    ensures { result ≡ stands_in nat_eq name (chain_from nat_eq classes.now (option_copied from.entry)) }
{
    let mut at = from;
    let mut left = classes.len();
    while left > 0 {
        let Some(class) = at else {
            return false;
        };
        if name == class.name {
            return true;
        }
        at = superclass_of(classes, class);
        left -= 1;
    }
    false
}

/// Whether a class of a name is the class of another name or stands above it.
pub fn stands_above(classes: &ClassList, name: NameId, from: Option<NameId>) -> bool
    ensures { result ≡ stands_in nat_eq name (chain nat_eq classes.now from) }
{
    is_on_chain(classes, name, class_of_name(classes, from))
}

/// The variables of a kind that a class defines itself.
fn variables(class: &ClassDraft, kind: ChainKind) -> &[NameId]
    ensures { result.now ≡ means.variables (kind_of kind) class.now }
{
    match kind {
        ChainKind::Instance => class.instance.as_slice(),
        ChainKind::ClassSide => class.class_side.as_slice(),
    }
}

/// Puts names into a set one after the other, up to the first that is there, and tells whether there was none.
fn note_all(set: &mut NameSet, names: &[NameId]) -> Result<bool, Memory>
    ensures fresh { IfOk result (λ fresh. fresh ≡ not (comes_again (has set.old) names.now)) }
    ensures noted { IfOk result (λ fresh. fresh ≡ true → (m : ℕ) → has set.new m ≡ with_names names.now (has set.old) m) }
{
    let mut rest = names;
    while let Some((name, others)) = rest.split_first() {
        if !set.note(*name)? {
            return Ok(false);
        }
        rest = others;
    }
    Ok(true)
}

/// Whether a name stands among these.
fn stands_among(name: NameId, names: &[NameId]) -> bool
    ensures { result ≡ list_any (nat_eq name) names.now }
{
    names.iter().any(|other| name == *other)
}

/// Whether a name stands twice among these, which are compared with one another.
fn repeats_among(names: &[NameId]) -> bool
    ensures { result ≡ hierarchy.has_repeat nat_eq names.now }
{
    let mut rest = names;
    while let Some((name, others)) = rest.split_first() {
        if stands_among(*name, others) {
            return true;
        }
        rest = others;
    }
    false
}

/// Whether a name stands twice among these, each of which is looked for among those before it.
fn repeats_behind(alloc: Global, names: &[NameId]) -> Result<bool, Memory>
    ensures { IfOk result (λ found. found ≡ hierarchy.has_repeat nat_eq names.now) }
{
    let mut seen = NameSet::new(alloc);
    let fresh = note_all(&mut seen, names)?;
    Ok(!fresh)
}

/// Whether a name stands twice among these.
pub fn has_repeat(alloc: Global, names: &[NameId]) -> Result<bool, Memory>
    ensures { IfOk result (λ found. found ≡ hierarchy.has_repeat nat_eq names.now) }
{
    if names.len() <= FEW_NAMES {
        return Ok(repeats_among(names));
    }
    repeats_behind(alloc, names)
}

/// The names of the variables of a kind on the chain of a class, unless one stands there twice.
fn chain_names(
    alloc: Global,
    classes: &ClassList,
    kind: ChainKind,
    class: &ClassDraft,
) -> Result<Option<NameSet>, Memory>
    ensures twice { IfOk result (λ names. IfNone names (hierarchy.has_repeat nat_eq (hierarchy.chain_variables nat_eq classes.now (kind_of kind) class.now) ≡ true)) }
    ensures once { IfOk result (λ names. IfSome names (λ _. hierarchy.has_repeat nat_eq (hierarchy.chain_variables nat_eq classes.now (kind_of kind) class.now) ≡ false)) }
    ensures names { IfOk result (λ names. IfSome names (λ set. (m : ℕ) → has set m ≡ list_any (nat_eq m) (hierarchy.chain_variables nat_eq classes.now (kind_of kind) class.now))) }
{
    let mut names = NameSet::new(alloc);
    let mut at = Some(class);
    let mut left = classes.len();
    while left > 0 {
        let Some(class) = at else {
            return Ok(Some(names));
        };
        if !note_all(&mut names, variables(class, kind))? {
            return Ok(None);
        }
        at = superclass_of(classes, class);
        left -= 1;
    }
    Ok(Some(names))
}

/// Whether the superclass of a class was noted.
fn is_under(class: &ClassDraft, names: &NameSet) -> bool
    ensures { result ≡ option_map_or (has names.now) class.now.superclass false }
{
    match class.superclass {
        None => false,
        Some(above) => names.has(above),
    }
}

/// Whether a class is that of a name, or its superclass was noted.
fn is_marked(name: NameId, names: &NameSet, class: &ClassDraft) -> bool
    ensures { result ≡ is_marked name (has names.now) class.now }
{
    name == class.name || is_under(class, names)
}

/// Whether one of these names is in a set.
pub fn meets(names: &[NameId], set: &NameSet) -> bool
    ensures { result ≡ list_any (has set.now) names.now }
{
    names.iter().any(|name| set.has(*name))
}

/// Whether a class of another name than this one defines a variable of a kind that is in a set.
fn brings(name: NameId, kind: ChainKind, above: &NameSet, class: &ClassDraft) -> bool
    ensures { result ≡ parts.brings name (kind_of kind) (has above.now) class.now }
{
    name != class.name && meets(variables(class, kind), above)
}

/// Whether one of the classes below that of a name defines a variable of a kind that is in a set. Since each superclass
/// stands before its subclasses, one pass finds those below; where the set is empty there is nothing to find.
fn meets_below(
    alloc: Global,
    classes: &[BoxedClass],
    kind: ChainKind,
    name: NameId,
    above: &NameSet,
) -> Result<bool, Memory>
    ensures { IfOk result (λ found. found ≡ list_any (parts.brings name (kind_of kind) (has above.now)) (marked name (has []) classes.now)) }
{
    if above.is_empty() {
        return Ok(false);
    }
    let mut below = NameSet::new(alloc);
    let mut rest = classes;
    while let Some((class, others)) = rest.split_first() {
        if is_marked(name, &below, class.class()) {
            if brings(name, kind, above, class.class()) {
                return Ok(true);
            }
            below.note(class.name())?;
        }
        rest = others;
    }
    Ok(false)
}

/// The classes from that of a name on, or all of them.
pub fn from_class(classes: &ClassList, name: NameId) -> &[BoxedClass]
    ensures { result.now ≡ drop (unwrap_or (place_in classes.now name) 0) classes.now }
{
    classes.behind(classes.place(name).unwrap_or(0))
}

/// Whether a variable of a kind stands twice on the chain of a class or of one below it, where none does on the parts of
/// chains below that class: then one stands twice on its chain, or a class below it defines one that stands there.
pub fn stands_twice(
    alloc: Global,
    classes: &ClassList,
    kind: ChainKind,
    name: NameId,
) -> Result<bool, Memory>
    requires order { AreOrdered classes.now }
    requires parts { PartsOnce classes.now (kind_of kind) name }
    ensures { IfOk result (λ found. found ≡ hierarchy.stands_twice nat_eq classes.now (kind_of kind) name) }
{
    let Some(class) = classes.find(name) else {
        return Ok(false);
    };
    let Some(above) = chain_names(alloc, classes, kind, class)? else {
        return Ok(true);
    };
    meets_below(alloc, from_class(classes, name), kind, name, &above)
}
