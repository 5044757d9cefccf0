// What commands ask of code that means a class or a variable.
ghost use Rattle.std.specs.Prelude.{◌≡◌, ℕ, false, not, nat_eq, IfOk};
ghost use Rattle.scope_model.specs.Control.{is_empty};
ghost use Rattle.image_model.specs.Image.{EntryOf, ImageOf};
ghost use Rattle.image_model.specs.Words.{number_words};
ghost use Rattle.image_model.specs.Uses.{class_uses};
ghost use Rattle.class_table.specs.Valid.{IsOrderly};
ghost use Rattle.class_table.specs.View.{number_image};
ghost use Rattle.command_model.specs.Commands as model;
ghost use Rattle.command_model.specs.ClassConditions.{is_not_referenced};
ghost use Rattle.command_model.specs.VariableConditions.{is_looked_through, is_unused_for};
ghost use Rattle.commands.specs.Views.{move_command};
ghost use Rattle.name_meanings.specs.Meanings.{kind_of};
ghost use Rattle.reference_index.specs.Mentioned.{IsIndexOf};
ghost use Rattle.use_questions.specs.Questions.{is_asked, are_doits_asked};

use crate::places::is_found;
use crate::question::{Meant, Question, Whose};
use class_questions::{has_variable, is_class};
use class_table::Image;
use commands::VariableMove;
use name_meanings::VariableKind;
use rb_base::{Memory, NameId, Steps};
use reference_index::Index;
use std::alloc::Global;
use std::sync::ledger::Ledger;

/// Whether some node of a method or a do-it means the class of the name. Want of memory, if there is not enough of it to look.
pub fn is_class_used<L: Ledger>(
    alloc: Global,
    image: &Image,
    index: &Index,
    class: NameId,
    steps: &mut Steps<L>,
) -> Result<bool, Memory>
    requires orderly { IsOrderly image.now }
    requires index { IsIndexOf image.now index.now }
    ensures { IfOk result (λ is. is ≡ not (is_empty (class_uses (number_words image.now.names) (number_image image.now) class))) }
{
    let question = Question {
        whose: Whose::Everyone,
        what: Meant::Class(class),
    };
    is_found(alloc, image, index, &question, steps)
}

/// Whether there is a class of the name, and no node but those in methods of the class itself means it. Want of memory, if
/// there is not enough of it to look.
pub fn is_not_referenced<L: Ledger>(
    alloc: Global,
    image: &Image,
    index: &Index,
    class: NameId,
    steps: &mut Steps<L>,
) -> Result<bool, Memory>
    requires orderly { IsOrderly image.now }
    requires index { IsIndexOf image.now index.now }
    ensures { IfOk result (λ is. is ≡ is_not_referenced (number_words image.now.names) (number_image image.now) class) }
{
    if !is_class(image, class) {
        return Ok(false);
    }
    let question = Question {
        whose: Whose::Outside(class),
        what: Meant::Class(class),
    };
    Ok(!is_found(alloc, image, index, &question, steps)?)
}

/// The kind of the variable that comes or goes.
pub fn kind_of(change: &VariableMove) -> VariableKind
    ensures { kind_of result ≡ model.kind_of (move_command change.now) }
{
    match change {
        VariableMove::Add { kind, .. } | VariableMove::Remove { kind, .. } => *kind,
        VariableMove::InstanceUp { .. } | VariableMove::InstanceDown { .. } => {
            VariableKind::Instance
        }
        VariableMove::SharedUp { .. } | VariableMove::SharedDown { .. } => VariableKind::Shared,
    }
}

/// In whose code the command looks for a variable of the class.
pub fn looked_through(change: &VariableMove, class: NameId) -> Whose
    ensures methods { (i : ImageOf ℕ) (m : EntryOf ℕ) → is_asked i result m ≡ is_looked_through nat_eq i.classes (move_command change.now) class m }
    ensures doits { are_doits_asked result ≡ false }
{
    match change {
        VariableMove::InstanceDown { .. } => Whose::Of(class),
        VariableMove::SharedDown { to, .. } => Whose::BelowBut { class, except: *to },
        VariableMove::Add { .. } | VariableMove::Remove { .. } => Whose::Below(class),
        VariableMove::InstanceUp { .. } | VariableMove::SharedUp { .. } => Whose::Below(class),
    }
}

/// Whether the class has the variable of which the command speaks, and no node of the methods that the command looks through
/// means it. Want of memory, if there is not enough of it to look.
pub fn is_unused<L: Ledger>(
    alloc: Global,
    image: &Image,
    index: &Index,
    change: &VariableMove,
    class: NameId,
    variable: NameId,
    steps: &mut Steps<L>,
) -> Result<bool, Memory>
    requires orderly { IsOrderly image.now }
    requires index { IsIndexOf image.now index.now }
    ensures { IfOk result (λ is. is ≡ is_unused_for (number_words image.now.names) (number_image image.now) (move_command change.now) class variable) }
{
    let kind = kind_of(change);
    if !has_variable(image, kind, class, variable) {
        return Ok(false);
    }
    let what = Meant::Variable {
        kind,
        class,
        variable,
    };
    let question = Question {
        whose: looked_through(change, class),
        what,
    };
    Ok(!is_found(alloc, image, index, &question, steps)?)
}
