// What the program says of itself, and of words that it cannot answer.
ghost use Rattle.std.specs.Prelude.{◌≡◌, [], IfOk, OnOk};
ghost use Rattle.image_forms.specs.declared.status.Status.{Status};
ghost use Rattle.image_forms.specs.Answers.{help, version, usage};

use crate::loading::push_line;
use crate::status::Status;
use rb_base::{Memory, Text};

/// The forms as they are typed, each with what it does.
const FORMS: &str = "usage: browse COMMAND ARGUMENTS
apply IMAGE SCRIPT: prints the file-out IMAGE as the commands of SCRIPT change it
changes IMAGE SCRIPT: prints what to file in after IMAGE to have it as the commands of SCRIPT change it
why IMAGE SCRIPT: prints what stands in the way of the first command of SCRIPT that is refused
team IMAGE LOG: prints what the sessions of LOG are answered, and IMAGE as they change it
run IMAGE EXPRESSION [BUDGET]: runs the do-its of IMAGE and then EXPRESSION, for at most BUDGET ticks
find IMAGE KIND NAME: lists what sends or implements a selector, or means a class or a variable
format IMAGE: prints IMAGE with each source in canonical text
import FILE: prints FILE, a file-out of Squeak, Pharo or VisualWorks, in the form that the others read
strip IMAGE EXPRESSION [sets]: prints IMAGE without what its do-its and EXPRESSION cannot reach, or what they reach
search IMAGE PATTERN: lists the nodes that PATTERN matches
rewrite IMAGE PATTERN REPLACEMENT: prints IMAGE with each node that PATTERN matches replaced
demo NUMBER: makes an image of NUMBER classes, runs it, renames in it, and runs it again
--help: prints these lines
--version: prints the version of the program and of the logic that proves it";

/// The kinds of `find`, each with what it lists.
const KINDS: &str = "kinds of find, each with its NAME:
  senders SELECTOR: the messages of the selector
  implementors SELECTOR: the methods of the selector
  class CLASS: where code means the class
  inst CLASS.VARIABLE: where code reads or assigns the instance variable
  shared CLASS.VARIABLE: where code reads or assigns the class variable
  classInst CLASS.VARIABLE: where code reads or assigns the class-instance variable";

/// The commands of a script, each with its arguments and what it does.
const COMMANDS: &str =
    "commands of a SCRIPT, one a line; a SIDE is instance or class, and FROM and TO are offsets as find and search print them:
  renameClass CLASS NEW: renames a class
  renameInstVar CLASS VARIABLE NEW: renames an instance variable
  renameClassVar CLASS VARIABLE NEW: renames a class variable
  renameClassSideVar CLASS VARIABLE NEW: renames a class-instance variable
  renameSelector SELECTOR NEW: renames a message and its methods, in all classes
  renameTemp CLASS SIDE SELECTOR VARIABLE NEW: renames an argument, a block parameter or a temporary
  addClass NEW SUPERCLASS [CLASS ..]: adds a class, also between a class and its subclasses
  addInstVar CLASS NEW: adds an instance variable
  addClassVar CLASS NEW: adds a class variable
  addClassSideVar CLASS NEW: adds a class-instance variable
  addMethod CLASS SIDE PROTOCOL METHOD: adds a method, which stands on the same line
  addParameter SELECTOR NEW VARIABLE LITERAL: gives a message one more argument
  removeClass CLASS: removes a class that nothing names
  removeInstVar CLASS VARIABLE: removes an instance variable that nothing uses
  removeClassVar CLASS VARIABLE: removes a class variable that nothing uses
  removeClassSideVar CLASS VARIABLE: removes a class-instance variable that nothing uses
  removeMethod CLASS SIDE SELECTOR: removes a method that nothing sends, or that repeats the inherited one
  removeParameter SELECTOR NUMBER NEW: takes an argument from a message
  pushUpInstVar CLASS VARIABLE: moves an instance variable to the superclass
  pushUpClassVar CLASS VARIABLE: moves a class variable to the superclass
  pushUpMethod CLASS SIDE SELECTOR: moves a method to the superclass
  pushUpWithMethods CLASS VARIABLE: moves an instance variable and its methods to the superclass
  pushDownInstVar CLASS VARIABLE: moves an instance variable to the subclasses
  pushDownClassVar CLASS VARIABLE SUBCLASS: moves a class variable to one subclass
  pushDownMethod CLASS SIDE SELECTOR: moves a method to the subclasses
  extractMethod CLASS SIDE SELECTOR FROM TO NEW: makes a method of a part of a method
  extractTemp CLASS SIDE SELECTOR FROM TO NEW: makes a temporary of an expression
  extractSuperclass NEW SUPERCLASS CLASS ..: makes a superclass of several classes
  inlineMethod CLASS SIDE SELECTOR FROM TO: puts the body of a method in place of a message
  inlineTemp CLASS SIDE SELECTOR VARIABLE: puts what is assigned to a temporary in its place
  abstractInstVar CLASS VARIABLE: reads and assigns an instance variable by messages alone
  createAccessors CLASS VARIABLE: adds a getter and a setter
  applyRule STEPS PATTERN ==> REPLACEMENT: rewrites all code by a rule that the laws in STEPS derive
  undo: takes the last command back
  redo: does it again";

/// Where the guides are.
const GUIDES: &str =
    "guides: README.md and the folder docs of the repository; docs/commands.md has the commands, docs/conditions.md what refuses them";

/// The answer to `--help`.
pub fn help(out: &mut Text) -> Result<Status, Memory>
    requires { out.old ≡ [] }
    ensures status { IfOk result (λ status. status ≡ Status.Done) }
    ensures text { OnOk result (out.new ≡ help) }
{
    push_line(out, FORMS, b"")?;
    push_line(out, KINDS, b"")?;
    push_line(out, COMMANDS, b"")?;
    push_line(out, GUIDES, b"")?;
    Ok(Status::Done)
}

/// The answer to `--version`.
pub fn version(out: &mut Text) -> Result<Status, Memory>
    requires { out.old ≡ [] }
    ensures status { IfOk result (λ status. status ≡ Status.Done) }
    ensures text { OnOk result (out.new ≡ version) }
{
    push_line(out, "browse 1.0 rattle-kit-13f logic dac8208d650f15bf", b"")?;
    Ok(Status::Done)
}

/// The answer to words in no form.
pub fn usage(out: &mut Text) -> Result<Status, Memory>
    requires { out.old ≡ [] }
    ensures status { IfOk result (λ status. status ≡ Status.Usage) }
    ensures text { OnOk result (out.new ≡ usage) }
{
    push_line(out, "usage: browse COMMAND ARGUMENTS", b"")?;
    Ok(Status::Usage)
}
