// Getters and setters.
ghost use Rattle.std.specs.Prelude.{◌≡◌, ◌<◌, ◌++◌, ◌∷◌, [], nat_eq, length, map, IfOk, OnOk};
ghost use Rattle.tree_model.specs.AllNames.{MethodNames};
ghost use Rattle.st_tree.specs.View.{method_of};
ghost use Rattle.command_model.specs.Numbers.{number_writing};
ghost use Rattle.session_model.specs.Actions.{CreateAccessors};
ghost use Rattle.session_model.specs.Steps.{accessor, steps_of};
ghost use Rattle.commands.specs.Actions.{ActionNames};
ghost use Rattle.commands.specs.Views.{command_of};
ghost use Rattle.class_table.specs.View.{number_image};

use crate::pushes::put;
use abstracted_code::{getter, setter};
use class_table::Image;
use commands::{Command, NewMethod};
use rb_base::{Memory, NameId, Text};
use st_formatter::format_method;
use st_tree::Method;
use std::alloc::Global;

/// The protocol of getters and setters.
const PROTOCOL: &[u8] = b"accessing";

/// Puts the command at the end by which the class gets an instance method that gives access to a variable, in canonical text.
fn put_accessor(
    alloc: Global,
    image: &Image,
    class: NameId,
    tree: Method,
    commands: &mut Vec<Command>,
) -> Result<(), Memory>
    requires { MethodNames (λ n. n < length image.now.names) (method_of tree) }
    ensures { OnOk result (map command_of commands.new.items ≡ map command_of commands.old.items ++ accessor (number_writing image.now.names) class (method_of tree) ∷ []) }
{
    let mut source = Text::new(alloc);
    format_method(alloc, &tree, image.names(), &mut source)?;
    let new = NewMethod {
        class,
        meta: false,
        protocol: Text::from_slice(alloc, PROTOCOL)?,
        source,
        tree,
    };
    put(Command::AddMethod(new), commands)
}

/// The commands by which the class gets a getter and a setter of the variable, of this selector and this name of its
/// parameter.
pub(crate) fn accessors(
    alloc: Global,
    image: &Image,
    class: NameId,
    variable: NameId,
    selector: NameId,
    parameter: NameId,
) -> Result<Vec<Command>, Memory>
    requires { ActionNames (λ n. n < length image.now.names) (CreateAccessors class variable selector parameter) }
    ensures { IfOk result (λ found. map command_of found.items
        ≡ steps_of nat_eq (number_image image.now) (number_writing image.now.names) (CreateAccessors class variable selector parameter)) }
{
    let mut commands = Vec::new(alloc);
    let reads = getter(alloc, variable)?;
    put_accessor(alloc, image, class, reads, &mut commands)?;
    let writes = setter(alloc, variable, selector, parameter)?;
    put_accessor(alloc, image, class, writes, &mut commands)?;
    Ok(commands)
}
