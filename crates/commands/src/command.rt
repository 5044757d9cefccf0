// Commands, and what the lines of a script ask for.

use name_meanings::VariableKind;
use rb_base::{Ids, NameId, Text};
use st_tree::{Literal, Method};

/// What gets another name. Each name is a number of the image's table of names, here and in all commands.
#[derive(Clone, Copy, Debug)]
pub enum Renaming {
    /// The class is called `to`.
    Class {
        class: NameId,
        to: NameId,
    },
    /// The variable of a kind that the class defines is called `to`.
    Variable {
        kind: VariableKind,
        class: NameId,
        variable: NameId,
        to: NameId,
    },
    /// The selector becomes `to` in each method that has it and each message of it.
    Selector {
        selector: NameId,
        to: NameId,
    },
}

/// Where a variable comes or goes.
#[derive(Clone, Copy, Debug)]
pub enum VariableMove {
    /// The class has one more variable of the kind, its last.
    Add {
        kind: VariableKind,
        class: NameId,
        variable: NameId,
    },
    /// The variable of the kind leaves the class.
    Remove {
        kind: VariableKind,
        class: NameId,
        variable: NameId,
    },
    /// The instance variable leaves each direct subclass of the superclass, and is the superclass's last.
    InstanceUp {
        class: NameId,
        variable: NameId,
    },
    /// The instance variable leaves the class, and is the last of each direct subclass.
    InstanceDown {
        class: NameId,
        variable: NameId,
    },
    /// The class variable leaves the class, and is the last of the superclass.
    SharedUp {
        class: NameId,
        variable: NameId,
    },
    /// The class variable leaves the class, and is the last of the direct subclass `to`.
    SharedDown {
        class: NameId,
        variable: NameId,
        to: NameId,
    },
}

/// A method by its class, its side and its selector.
#[derive(Clone, Copy, Debug)]
pub struct MethodName {
    pub class: NameId,
    /// Whether it is a method of the class side.
    pub meta: bool,
    pub selector: NameId,
}

/// A part of a method: from one place of its source up to another, in bytes.
#[derive(Clone, Copy, Debug)]
pub struct MethodPart {
    pub method: MethodName,
    /// The first byte of the part.
    pub from: usize,
    /// The first byte behind it.
    pub to: usize,
}

/// What moves code from one place to another.
#[derive(Clone, Copy, Debug)]
pub enum CodeMove {
    /// The instance variable is read and assigned by messages: `setter` is the selector of the one that assigns, and
    /// `parameter` what its argument is called.
    AbstractVariable {
        class: NameId,
        variable: NameId,
        setter: NameId,
        parameter: NameId,
    },
    /// The part becomes a message of `to`, and a method.
    ExtractMethod {
        part: MethodPart,
        to: NameId,
    },
    /// The message that the part is becomes the body of the method that it finds.
    InlineMethod(MethodPart),
    /// The part becomes the temporary.
    ExtractTemporary {
        part: MethodPart,
        variable: NameId,
    },
    /// The temporary becomes what is assigned to it.
    InlineTemporary {
        method: MethodName,
        variable: NameId,
    },
}

/// A class that comes under another one, and the direct subclasses of that one that come under it.
#[derive(Drop)]
pub struct NewClass {
    pub name: NameId,
    pub superclass: NameId,
    pub under: Ids,
}

/// A method that a class gets, with the text that spells it.
#[derive(Drop)]
pub struct NewMethod {
    pub class: NameId,
    /// Whether it is a method of the class side.
    pub meta: bool,
    pub protocol: Text,
    pub source: Text,
    pub tree: Method,
}

/// A selector that takes one more argument.
#[derive(Drop)]
pub struct NewParameter {
    pub selector: NameId,
    /// The selector with the new argument.
    pub to: NameId,
    /// What the argument is called in the methods; it is their last.
    pub parameter: NameId,
    /// What each message passes for it. A word is `nil`, `true` or `false`.
    pub passed: Literal,
}

/// A command.
#[derive(Drop)]
pub enum Command {
    /// Something gets another name.
    Rename(Renaming),
    /// There is one more class.
    AddClass(NewClass),
    /// The class goes with its methods.
    RemoveClass {
        class: NameId,
    },
    /// A variable comes or goes.
    Variable(VariableMove),
    /// There is one more method.
    AddMethod(NewMethod),
    /// The method goes.
    RemoveMethod(MethodName),
    /// The method goes up to the superclass.
    PushUpMethod(MethodName),
    /// The method goes down to the direct subclasses.
    PushDownMethod(MethodName),
    /// The methods of a selector take one more argument, and each message of it passes a literal.
    AddParameter(NewParameter),
    /// The argument of the selector goes, counted from 1, and the selector is `to`.
    RemoveParameter {
        selector: NameId,
        argument: usize,
        to: NameId,
    },
    /// The argument, parameter or temporary of the method is called `to`.
    RenameTemporary {
        method: MethodName,
        variable: NameId,
        to: NameId,
    },
    /// Code moves.
    MoveCode(CodeMove),
}

/// A single command, or a composite, which is several of them.
#[derive(Drop)]
pub enum Action {
    Single(Command),
    /// The class gets a getter and a setter of its instance variable, with the setter's selector and the name of its parameter.
    CreateAccessors {
        class: NameId,
        variable: NameId,
        setter: NameId,
        parameter: NameId,
    },
    /// There is one more class, and what instance variables the classes under it all have go up to it.
    ExtractSuperclass(NewClass),
    /// The instance variable goes up, and with it the instance methods of the class that name it.
    PushUpWithMethods {
        class: NameId,
        variable: NameId,
    },
}

/// What a line of a script asks for.
#[derive(Drop)]
pub enum Request {
    Perform(Action),
    /// The command that was done last is undone.
    Undo,
    /// The command that was undone last is done again.
    Redo,
}
