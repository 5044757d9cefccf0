// Whether what is assigned to a temporary may be evaluated where the temporary is read.
ghost use Rattle.std.specs.Prelude.{◌≡◌, suc, nat_lt, IfOk, not};
ghost use Rattle.std.specs.List.{list_any};
ghost use Rattle.tree_model.specs.Path.{count, statement_trees};
ghost use Rattle.scope_model.specs.FreeNames.{statements_at};
ghost use Rattle.class_table.specs.Valid.{IsLive, IsOrderly};
ghost use Rattle.class_table.specs.View.{number_image};
ghost use Rattle.st_tree.specs.View.{method_of};
ghost use Rattle.command_model.specs.Asked.{no_parts};
ghost use Rattle.command_model.specs.Numbers.{number_asked};
ghost use Rattle.command_model.specs.LetConditions as model;
ghost use Rattle.let_code.specs.Lets.{let_as};
ghost use Rattle.part_questions.specs.Codes.{entry_of};
ghost use Rattle.let_questions.specs.Places.{is_before, is_in_next, is_plain_let, is_let_for, is_let_for_one};

use crate::question::LetCode;
use class_table::Image;
use let_code::{Let, reads_of};
use part_questions::{innermost, is_first_evaluated, is_plain, statements_at};
use rb_base::{Memory, NameId};
use st_tree::{Method, Part, Path};
use std::alloc::Global;

/// The path of the assignment. Want of memory, if there is not enough of it for that path.
pub fn let_path(alloc: Global, assignment: &Let<'_>) -> Result<Path, Memory>
    ensures { IfOk result (λ path. path ≡ model.let_path (let_as assignment.now)) }
{
    let mut path = assignment.sequence.try_copy(alloc)?;
    path.push(assignment.number)?;
    Ok(path)
}

/// Whether the sequence of the assignment has a statement behind it.
fn is_followed(tree: &Method, assignment: &Let<'_>) -> bool
    ensures { result ≡ nat_lt (suc assignment.now.number) (count (statement_trees (statements_at (method_of tree.now).body assignment.now.sequence))) }
{
    let statements = statements_at(tree, &assignment.sequence);
    assignment.number < statements.len().saturating_sub(1)
}

/// Whether the place stands in a statement of the sequence before the assignment.
fn is_before(assignment: &Let<'_>, path: &Path) -> bool
    ensures { result ≡ is_before (let_as assignment.now) path.now }
{
    match path.as_slice().get(assignment.sequence.len()) {
        None => false,
        Some(step) => *step < assignment.number,
    }
}

/// Whether the place stands in the statement of the sequence behind the assignment.
fn is_in_next(assignment: &Let<'_>, path: &Path) -> bool
    ensures { result ≡ is_in_next (let_as assignment.now) path.now }
{
    match path.as_slice().get(assignment.sequence.len()) {
        None => false,
        Some(step) => *step != 0 && *step - 1 == assignment.number,
    }
}

/// Whether one of the places stands before the assignment.
fn is_any_before(assignment: &Let<'_>, reads: &[Path]) -> bool
    ensures { result ≡ list_any (is_before (let_as assignment.now)) reads.now }
{
    for read in reads {
        if is_before(assignment, read) {
            return true;
        }
    }
    false
}

/// Whether the value is plain, and none of the reads stands before the assignment.
fn is_plain_let(
    alloc: Global,
    image: &Image,
    self_name: NameId,
    question: &LetCode<'_>,
    reads: &[Path],
) -> Result<bool, Memory>
    requires orderly { IsOrderly image.now }
    requires live { IsLive image.now.class_order question.now.code.class }
    ensures { IfOk result (λ is. is ≡ is_plain_let image.now question.now self_name reads.now) }
{
    let assignment = question.assignment;
    let path = let_path(alloc, assignment)?;
    let plain = is_plain(image, self_name, &question.code, &path, assignment.value);
    Ok(plain && !is_any_before(assignment, reads))
}

/// Whether the read stands in the statement behind the assignment, which is its innermost one and evaluates nothing but plain
/// expressions before it.
fn is_let_for(
    alloc: Global,
    image: &Image,
    self_name: NameId,
    question: &LetCode<'_>,
    read: &Path,
) -> Result<bool, Memory>
    requires orderly { IsOrderly image.now }
    requires live { IsLive image.now.class_order question.now.code.class }
    ensures { IfOk result (λ is. is ≡ is_let_for image.now question.now self_name read.now) }
{
    let assignment = question.assignment;
    let scope = innermost(question.code.tree, read);
    if scope != assignment.sequence.len() || !is_in_next(assignment, read) {
        return Ok(false);
    }
    let path = read.try_copy(alloc)?;
    is_first_evaluated(
        alloc,
        image,
        self_name,
        &question.code,
        &Part::Expression { path },
    )
}

/// Whether there is but one read, and that does.
fn is_let_for_one(
    alloc: Global,
    image: &Image,
    self_name: NameId,
    question: &LetCode<'_>,
    reads: &[Path],
) -> Result<bool, Memory>
    requires orderly { IsOrderly image.now }
    requires live { IsLive image.now.class_order question.now.code.class }
    ensures { IfOk result (λ is. is ≡ is_let_for_one image.now question.now self_name reads.now) }
{
    if reads.len() != 1 {
        return Ok(false);
    }
    is_let_for(alloc, image, self_name, question, &reads[0])
}

/// Whether the assignment is not the last statement of its sequence; and its value is plain and no read stands before it, or
/// there is one read, in the next statement, which evaluates nothing but plain expressions before the read. `self_name` is the
/// name `self`. Want of memory, if there is not enough of it to look.
pub fn is_let_form(
    alloc: Global,
    image: &Image,
    self_name: NameId,
    question: &LetCode<'_>,
) -> Result<bool, Memory>
    requires orderly { IsOrderly image.now }
    requires live { IsLive image.now.class_order question.now.code.class }
    ensures { IfOk result (λ is. is ≡ model.is_let_form (number_asked image.now.names self_name no_parts) (number_image image.now) (entry_of image.now question.now.code) question.now.variable (let_as question.now.assignment.now)) }
{
    let tree = question.code.tree;
    if !is_followed(tree, question.assignment) {
        return Ok(false);
    }
    let found = reads_of(alloc, image.names(), tree, question.variable)?;
    let reads = found.as_slice();
    if is_plain_let(alloc, image, self_name, question, reads)? {
        return Ok(true);
    }
    is_let_for_one(alloc, image, self_name, question, reads)
}
