// Whether names mean the same where a temporary is read as where it is assigned.
ghost use Rattle.std.specs.Prelude.{◌≡◌, IfOk};
ghost use Rattle.std.specs.List.{list_all};
ghost use Rattle.class_table.specs.Valid.{IsLive, IsOrderly};
ghost use Rattle.class_table.specs.View.{number_image};
ghost use Rattle.command_model.specs.Asked.{no_parts};
ghost use Rattle.command_model.specs.LetConditions as model;
ghost use Rattle.command_model.specs.Numbers.{number_asked};
ghost use Rattle.let_code.specs.Lets.{let_as};
ghost use Rattle.part_questions.specs.Codes.{entry_of};
ghost use Rattle.let_questions.specs.Places.{is_name_kept, are_names_kept};

use crate::form::let_path;
use crate::question::LetCode;
use class_table::Image;
use inline_questions::{free_names_of, same_meaning};
use let_code::reads_of;
use name_meanings::method_meaning;
use rb_base::{Memory, NameId};
use st_tree::Path;
use std::alloc::Global;

/// Whether the name means the same at the read as at the assignment, which stands at a path.
fn is_name_kept(
    image: &Image,
    question: &LetCode<'_>,
    assignment: &Path,
    read: &Path,
    name: NameId,
) -> bool
    requires orderly { IsOrderly image.now }
    requires live { IsLive image.now.class_order question.now.code.class }
    requires assignment { assignment.now ≡ model.let_path (let_as question.now.assignment.now) }
    ensures { result ≡ is_name_kept image.now question.now read.now name }
{
    let code = &question.code;
    let before = method_meaning(image, code.class, code.meta, code.tree, assignment, name);
    let after = method_meaning(image, code.class, code.meta, code.tree, read, name);
    same_meaning(before, after)
}

/// Whether each of the names does.
fn are_names_kept(
    image: &Image,
    question: &LetCode<'_>,
    assignment: &Path,
    read: &Path,
    names: &[NameId],
) -> bool
    requires orderly { IsOrderly image.now }
    requires live { IsLive image.now.class_order question.now.code.class }
    requires assignment { assignment.now ≡ model.let_path (let_as question.now.assignment.now) }
    ensures { result ≡ are_names_kept image.now question.now names.now read.now }
{
    for name in names {
        if !is_name_kept(image, question, assignment, read, *name) {
            return false;
        }
    }
    true
}

/// Whether each of the names does at each of the reads.
fn is_kept_at(
    image: &Image,
    question: &LetCode<'_>,
    assignment: &Path,
    reads: &[Path],
    names: &[NameId],
) -> bool
    requires orderly { IsOrderly image.now }
    requires live { IsLive image.now.class_order question.now.code.class }
    requires assignment { assignment.now ≡ model.let_path (let_as question.now.assignment.now) }
    ensures { result ≡ list_all (are_names_kept image.now question.now names.now) reads.now }
{
    for read in reads {
        if !are_names_kept(image, question, assignment, read, names) {
            return false;
        }
    }
    true
}

/// Whether each free name of the value means the same at each read as at the assignment. Want of memory, if there is not enough
/// of it to look.
pub fn is_value_kept(alloc: Global, image: &Image, question: &LetCode<'_>) -> Result<bool, Memory>
    requires orderly { IsOrderly image.now }
    requires live { IsLive image.now.class_order question.now.code.class }
    ensures { IfOk result (λ is. is ≡ model.is_value_kept (number_asked image.now.names 0 no_parts) (number_image image.now) (entry_of image.now question.now.code) question.now.variable (let_as question.now.assignment.now)) }
{
    let names = image.names();
    let reads = reads_of(alloc, names, question.code.tree, question.variable)?;
    let free = free_names_of(alloc, names, question.assignment.value)?;
    let path = let_path(alloc, question.assignment)?;
    Ok(is_kept_at(image, question, &path, reads.as_slice(), free.as_slice()))
}
