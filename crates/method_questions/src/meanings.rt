// Whether names mean the same in two methods.
ghost use Rattle.std.specs.Prelude.{◌≡◌, [], true, nat_eq, IfOk};
ghost use Rattle.std.specs.List.{list_all};
ghost use Rattle.image_model.specs.Words.{number_words};
ghost use Rattle.scope_model.specs.FreeNames.{free_names_of_run};
ghost use Rattle.scope_model.specs.NameTests.{is_pseudo_in};
ghost use Rattle.same_trees.specs.SameTrees.{same_code};
ghost use Rattle.st_tree.specs.View.{method_of};
ghost use Rattle.class_table.specs.Valid.{IsLive, IsOrderly};
ghost use Rattle.class_table.specs.View.{number_image};
ghost use Rattle.name_meanings.specs.Meanings.{meaning_of};
ghost use Rattle.command_model.specs.MethodConditions as model;
ghost use Rattle.command_model.specs.SameMethods.{same_meaning, means_same_in};
ghost use Rattle.commands.specs.Views.{asked_by};
ghost use Rattle.method_questions.specs.Found.{as_entry};
ghost use Rattle.method_questions.specs.Meanings.{means_same_at};

use crate::found::{Found, opened_named};
use class_table::Image;
use commands::MethodName;
use name_meanings::{Meaning, method_meaning};
use rb_base::{Ids, Memory, NameId, Names, Steps};
use st_scope::free_names;
use st_tree::{Method, Part, Path};
use std::alloc::Global;
use std::sync::ledger::Ledger;

/// Whether two meanings are one.
fn same_meaning(meaning: Meaning, other: Meaning) -> bool
    ensures { result ≡ same_meaning nat_eq (meaning_of meaning) (meaning_of other) }
{
    meaning == other
}

/// Whether a name means the same at the top of both methods.
fn means_same_at(
    image: &Image,
    method: &Found<'_>,
    other: &Found<'_>,
    top: &Path,
    name: NameId,
) -> bool
    requires orderly { IsOrderly image.now }
    requires live { IsLive image.now.class_order method.now.class }
    requires other_live { IsLive image.now.class_order other.now.class }
    requires top { top.now ≡ [] }
    ensures { result ≡ means_same_at image.now method.now other.now name }
{
    let meaning = method_meaning(image, method.class, method.meta, method.tree, top, name);
    let again = method_meaning(image, other.class, other.meta, other.tree, top, name);
    same_meaning(meaning, again)
}

/// The names in the method that its blocks do not declare.
fn free_names_of(alloc: Global, names: &Names, tree: &Method) -> Result<Ids, Memory>
    ensures { IfOk result (λ found. found ≡ free_names_of_run nat_eq (is_pseudo_in names.now) (method_of tree.now).body.statements) }
{
    let whole = Part::Run {
        path: Path::new(alloc),
        first: 0,
        count: tree.body.statements.len(),
    };
    let mut found = Ids::new(alloc);
    free_names(alloc, tree, &whole, names, &mut found)?;
    Ok(found)
}

/// Whether these names mean the same at the top of both methods.
fn all_mean_same(
    image: &Image,
    method: &Found<'_>,
    other: &Found<'_>,
    top: &Path,
    names: &[NameId],
) -> bool
    requires orderly { IsOrderly image.now }
    requires live { IsLive image.now.class_order method.now.class }
    requires other_live { IsLive image.now.class_order other.now.class }
    requires top { top.now ≡ [] }
    ensures { result ≡ list_all (means_same_at image.now method.now other.now) names.now }
{
    for name in names {
        if !means_same_at(image, method, other, top, *name) {
            return false;
        }
    }
    true
}

/// Whether each name in one method means the same at its place in the other, where both have the same code.
pub(crate) fn means_same(
    alloc: Global,
    image: &Image,
    method: &Found<'_>,
    other: &Found<'_>,
) -> Result<bool, Memory>
    requires orderly { IsOrderly image.now }
    requires live { IsLive image.now.class_order method.now.class }
    requires other_live { IsLive image.now.class_order other.now.class }
    requires code { same_code nat_eq (method_of method.now.tree.now) (method_of other.now.tree.now) ≡ true }
    ensures { IfOk result (λ is. is ≡ means_same_in (number_words image.now.names) (number_image image.now) (as_entry image.now.classes method.now) (number_image image.now) (as_entry image.now.classes other.now)) }
{
    let names = free_names_of(alloc, image.names(), method.tree)?;
    let top = Path::new(alloc);
    Ok(all_mean_same(image, method, other, &top, names.as_slice()))
}

/// Whether there is such a class and such a method, and each name in the method means what it would mean if the method were
/// one of the class. Want of memory, if there is not enough of it to look.
pub fn means_same_in_class<L: Ledger>(
    alloc: Global,
    image: &Image,
    method: MethodName,
    to: NameId,
    steps: &mut Steps<L>,
) -> Result<bool, Memory>
    requires { IsOrderly image.now }
    ensures { IfOk result (λ is. is ≡ model.means_same_in_class (number_words image.now.names) (asked_by image.now.names).is_super (number_image image.now) method.class method.meta method.selector to) }
{
    let Some(class) = image.class_named(to) else {
        return Ok(false);
    };
    match opened_named(image, method, steps) {
        None => Ok(false),
        Some(found) => means_same(alloc, image, &found, &Found { class, ..found }),
    }
}
