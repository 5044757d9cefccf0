// Witnesses at the end of a list.
ghost use Rattle.std.specs.Prelude.{◌≡◌, ◌++◌, [], ◌∷◌, OnOk};
ghost use Rattle.class_table.specs.Slots.{Slots};
ghost use Rattle.name_meanings.specs.Meanings.{meaning_of};
ghost use Rattle.part_questions.specs.Parts.{part_of};
ghost use Rattle.refusal_witnesses.specs.InlineWitnesses.{above};
ghost use Rattle.refusal_witnesses.specs.Witnesses.{APart, TwoMeanings, a_node, where_true};
ghost use Rattle.witness_lists.specs.Views.{owner_of, shown};

use name_meanings::Meaning;
use rb_base::{Memory, NameId, Span};
use st_tree::{Part, Path};
use std::alloc::Global;
use witness_lists::{Owner, Witness, push_if, push_node_if};

/// Appends the part, which stands at the span, if a test is true.
pub(crate) fn push_part_if(
    alloc: Global,
    test: bool,
    owner: &Owner,
    part: &Part,
    span: Span,
    found: &mut Vec<Witness>,
) -> Result<(), Memory>
    ensures { (s : Slots) → OnOk result (shown s found.new.items ≡ shown s found.old.items ++ where_true test (APart (owner_of s owner.now) (part_of part.now))) }
{
    match part {
        Part::Expression { path } => push_node_if(alloc, test, owner, path, found),
        Part::Run { path, first, count } => {
            let statements = Witness::Statements {
                owner: *owner,
                path: path.try_copy(alloc)?,
                first: *first,
                count: *count,
                span,
            };
            push_if(test, statements, found)
        }
    }
}

/// Appends the node to which one step more leads, if a test is true.
pub(crate) fn push_child_if(
    alloc: Global,
    test: bool,
    owner: &Owner,
    path: &Path,
    step: usize,
    found: &mut Vec<Witness>,
) -> Result<(), Memory>
    ensures { (s : Slots) → OnOk result (shown s found.new.items ≡ shown s found.old.items ++ where_true test (a_node (owner_of s owner.now) (path.now ++ step ∷ []))) }
{
    let mut path = path.try_copy(alloc)?;
    path.push(step)?;
    let owner = *owner;
    push_if(test, Witness::Node { owner, path }, found)
}

/// Appends the node above a place, if a test is true.
pub(crate) fn push_above_if(
    alloc: Global,
    test: bool,
    owner: &Owner,
    path: &Path,
    found: &mut Vec<Witness>,
) -> Result<(), Memory>
    ensures { (s : Slots) → OnOk result (shown s found.new.items ≡ shown s found.old.items ++ where_true test (a_node (owner_of s owner.now) (above path.now))) }
{
    let steps = path.as_slice();
    let count = steps.len().saturating_sub(1);
    let owner = *owner;
    let path = Path::from_vec(Vec::from_slice(alloc, &steps[..count])?);
    push_if(test, Witness::Node { owner, path }, found)
}

/// A name at a place of the method of an owner, with two meanings: there or elsewhere.
#[derive(Clone, Copy)]
pub(crate) struct Named<'a> {
    pub owner: Owner,
    pub path: &'a Path,
    pub name: NameId,
    pub one: Meaning,
    pub other: Meaning,
}

/// Appends the name with its two meanings, if a test is true.
pub(crate) fn push_meanings_if(
    alloc: Global,
    test: bool,
    named: &Named<'_>,
    found: &mut Vec<Witness>,
) -> Result<(), Memory>
    ensures { (s : Slots) → OnOk result (shown s found.new.items ≡ shown s found.old.items ++ where_true test (TwoMeanings (owner_of s named.now.owner) named.now.path.now named.now.name (meaning_of named.now.one) (meaning_of named.now.other))) }
{
    let witness = Witness::Meanings {
        owner: named.owner,
        path: named.path.try_copy(alloc)?,
        name: named.name,
        one: named.one,
        other: named.other,
    };
    push_if(test, witness, found)
}
