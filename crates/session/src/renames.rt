// What a command renames, in a short form, and what commands rename one after the other.
ghost use Rattle.std.specs.Prelude.{◌≡◌, ◌<◌, ◌++◌, length, flat_map, nat_eq, OnOk, IfOk};
ghost use Rattle.rb_base.specs.Names.{name_at};
ghost use Rattle.class_table.specs.Valid.{IsOrderly};
ghost use Rattle.class_table.specs.View.{number_image, image_of};
ghost use Rattle.command_model.specs.Commands.{PushUpClassVar};
ghost use Rattle.command_model.specs.Hierarchy as hierarchy;
ghost use Rattle.command_model.specs.Renamings.{renaming_of};
ghost use Rattle.command_numbers.specs.CommandNames.{CommandNames};
ghost use Rattle.command_numbers.specs.MappedCommands.{map_command};
ghost use Rattle.commands.specs.Views.{command_of};
ghost use Rattle.session.specs.History.{renaming_in};
ghost use Rattle.session.specs.Log.{RenamesNames};
ghost use Rattle.session.specs.Called.{class_named, selector_named, classes_called, selectors_called};

use class_table::Image;
use commands::{Command, MethodName, NewParameter, Renaming, VariableMove};
use new_names::{NewName, composed};
use rb_base::{Memory, NameId};
use std::alloc::Global;

/// What a command renames.
#[derive(Clone, Copy, Debug)]
pub enum Renames {
    /// It renames nothing.
    Nothing,
    /// Something gets another name.
    Renaming(Renaming),
    /// The class variable becomes one of the class `to`.
    Moved {
        class: NameId,
        variable: NameId,
        to: NameId,
    },
    /// The argument, parameter or temporary of the method is called `to`.
    Temporary {
        method: MethodName,
        variable: NameId,
        to: NameId,
    },
}

/// What commands rename one after the other.
#[derive(Drop)]
pub struct AllRenames {
    /// Each name of a class that is replaced, with what the class that had it first is called now.
    pub classes: Vec<NewName>,
    /// The same of selectors.
    pub selectors: Vec<NewName>,
    /// What each command renames, in order, variables and temporaries among it.
    pub commands: Vec<Renames>,
}

/// Puts the classes and the selectors that get other names behind others.
fn put_names(
    commands: &[Renames],
    classes: &mut Vec<NewName>,
    selectors: &mut Vec<NewName>,
) -> Result<(), Memory>
    ensures classes { OnOk result (classes.new.items ≡ classes.old.items ++ flat_map class_named commands.now) }
    ensures selectors { OnOk result (selectors.new.items ≡ selectors.old.items ++ flat_map selector_named commands.now) }
{
    for command in commands {
        match *command {
            Renames::Renaming(Renaming::Class { class, to }) => {
                classes.push(NewName { from: class, to })?;
            }
            Renames::Renaming(Renaming::Selector { selector, to }) => {
                selectors.push(NewName { from: selector, to })?;
            }
            _ => {}
        }
    }
    Ok(())
}

impl AllRenames {
    /// What these commands rename, the first one first.
    pub(crate) fn by(alloc: Global, commands: Vec<Renames>) -> Result<AllRenames, Memory>
        ensures classes { IfOk result (λ r. r.classes.items ≡ classes_called commands.items) }
        ensures selectors { IfOk result (λ r. r.selectors.items ≡ selectors_called commands.items) }
        ensures commands { IfOk result (λ r. r.commands.items ≡ commands.items) }
    {
        let mut classes = Vec::new(alloc);
        let mut selectors = Vec::new(alloc);
        put_names(&commands, &mut classes, &mut selectors)?;
        Ok(AllRenames {
            classes: composed(alloc, &classes)?,
            selectors: composed(alloc, &selectors)?,
            commands,
        })
    }
}

/// The name of the superclass; none where there is no class of the name, or it has none.
fn superclass_name(image: &Image, class: NameId) -> Option<NameId>
    requires { IsOrderly image.now }
    ensures { result ≡ hierarchy.superclass_name nat_eq (number_image image.now) class }
{
    let Some(id) = image.class_named(class) else {
        return None;
    };
    let Some(rec) = image.class_rec(id) else {
        return None;
    };
    let Some(above) = rec.superclass else {
        return None;
    };
    match image.class_rec(above) {
        Some(superclass) => Some(superclass.name),
        None => None,
    }
}

/// What the class variable becomes that goes to the superclass.
fn renames_up(image: &Image, class: NameId, variable: NameId) -> Renames
    requires orderly { IsOrderly image.now }
    requires class { class < length image.now.names }
    requires variable { variable < length image.now.names }
    ensures renaming { renaming_in image.now.names (image_of image.now) result ≡ renaming_of (image_of image.now) (PushUpClassVar (name_at image.now.names class) (name_at image.now.names variable)) }
    ensures known { RenamesNames (λ n. n < length image.now.names) result }
{
    match superclass_name(image, class) {
        Some(to) => Renames::Moved {
            class,
            variable,
            to,
        },
        None => Renames::Nothing,
    }
}

/// What the command renames in the image.
pub(crate) fn renames_of(image: &Image, command: &Command) -> Renames
    requires orderly { IsOrderly image.now }
    requires known { CommandNames (λ n. n < length image.now.names) (command_of command.now) }
    ensures renaming { renaming_in image.now.names (image_of image.now) result ≡ renaming_of (image_of image.now) (map_command (name_at image.now.names) (command_of command.now)) }
    ensures known { RenamesNames (λ n. n < length image.now.names) result }
{
    match command {
        Command::Rename(renaming) => Renames::Renaming(*renaming),
        Command::Variable(change) => match *change {
            VariableMove::SharedUp { class, variable } => renames_up(image, class, variable),
            VariableMove::SharedDown {
                class,
                variable,
                to,
            } => Renames::Moved {
                class,
                variable,
                to,
            },
            _ => Renames::Nothing,
        },
        Command::AddParameter(new) => Renames::Renaming(Renaming::Selector {
            selector: new.selector,
            to: new.to,
        }),
        Command::RemoveParameter { selector, to, .. } => Renames::Renaming(Renaming::Selector {
            selector: *selector,
            to: *to,
        }),
        Command::RenameTemporary {
            method,
            variable,
            to,
        } => Renames::Temporary {
            method: *method,
            variable: *variable,
            to: *to,
        },
        _ => Renames::Nothing,
    }
}
