// Conditions of commands.

use crate::command::{MethodName, MethodPart};
use rb_base::NameId;

/// What a new name is for.
#[derive(Clone, Copy, Debug)]
pub enum NameKind {
    Class,
    ClassVariable,
    /// An instance variable or a class-instance variable.
    Variable,
    Selector,
}

/// Where code is put in a method, as it is printed.
#[derive(Clone, Copy, Debug)]
pub enum Spot {
    /// In place of a part, from one place of the source up to another.
    Part { from: usize, to: usize },
    /// Where a temporary is read.
    Name(NameId),
}

/// A condition of a command, with what is printed of it. Which kind a variable has, and which classes and methods are looked
/// at, the command says.
#[derive(Clone, Copy)]
pub enum Condition {
    /// No code of a user looks at the program itself.
    NoReflection,
    /// The class is one of the user.
    IsUserClass {
        class: NameId,
    },
    /// The name may be given to such a thing; the kind is not printed.
    GoodName {
        name: NameId,
        kind: NameKind,
    },
    /// No class and no variable has the name, and no code reads, assigns or declares it.
    NameUnused {
        name: NameId,
    },
    /// No method has the selector, and no code sends it.
    SelectorFresh {
        selector: NameId,
    },
    /// The kernel does not speak of the selector, and it has no meaning of its own.
    NotKernelSelector {
        selector: NameId,
    },
    /// The selector takes so many arguments.
    Arity {
        selector: NameId,
        count: usize,
    },
    /// The user has the method.
    Implements(MethodName),
    /// There is no such method.
    NotImplements(MethodName),
    /// The method may go.
    Removable(MethodName),
    /// No class is under the class.
    NoSubclasses {
        class: NameId,
    },
    /// Nothing but its own methods means the class.
    NotReferenced {
        class: NameId,
    },
    /// The class itself defines the variable.
    HasVariable {
        class: NameId,
        variable: NameId,
    },
    /// The variable can come into the class.
    VariableFree {
        class: NameId,
        variable: NameId,
    },
    /// The methods that are looked at do not mean the variable.
    VariableUnused {
        class: NameId,
        variable: NameId,
    },
    /// The superclass of the class is one of the user.
    ParentIsUser {
        class: NameId,
    },
    /// The method does not name `super`.
    NoSuper(MethodName),
    /// Each name in the method means the same in the class `to`.
    MeansSame {
        method: MethodName,
        to: NameId,
    },
    /// The selector is sent nowhere, or no class that finds another method for it than before is reached.
    Unreached {
        selector: NameId,
    },
    /// The selector has such an argument, counted from 1, and no method of the user reads it.
    ParameterUnused {
        selector: NameId,
        argument: usize,
    },
    /// Each message passes an atom literal for the argument, counted from 1, or a name that is declared.
    PlainArguments {
        selector: NameId,
        argument: usize,
    },
    /// The literal that the command passes is an atom.
    AtomLiteral,
    /// The part is an expression or neighbouring statements, neither `super` nor a block of a control message.
    PartIs(MethodPart),
    /// There is no return in the part.
    NoReturn(MethodPart),
    /// The part assigns no argument and no temporary that is declared outside it.
    AssignsNoOuter(MethodPart),
    /// The part may be given the values of the temporaries that it names: none of them changes while it runs.
    TempsSteady(MethodPart),
    /// The part is an expression, or statements whose last value nobody uses.
    ValueUnused(MethodPart),
    /// The part is a message to `self` that is no message of a cascade.
    SelfSend(MethodPart),
    /// The class finds a method of the user for the selector, and no class below it has another one.
    OneTarget(MethodName),
    /// The body of the method may stand in place of the message of the command.
    Inlinable(MethodName),
    /// What the message passes may be evaluated at other places, and any number of times.
    PlainActuals(MethodPart),
    /// Each name that is moved means the same where it comes.
    NoCapture {
        method: MethodName,
        spot: Spot,
    },
    /// No block that is moved comes where it is a block of a control message.
    NoNewControl {
        method: MethodName,
        spot: Spot,
    },
    /// Just one place of the method declares the name.
    Declared {
        method: MethodName,
        variable: NameId,
    },
    /// The method neither declares the name nor reads nor assigns it.
    NotIn {
        method: MethodName,
        variable: NameId,
    },
    /// The temporary is assigned once, and may be read as what is assigned to it.
    LetForm {
        method: MethodName,
        variable: NameId,
    },
    /// The part is an expression before which its statement evaluates nothing that could change.
    FirstEvaluated(MethodPart),
    /// No method of the user and no do-it is higher than 200 nodes afterwards.
    Shallow,
    /// There is such a class.
    IsClass {
        class: NameId,
    },
    /// The class is one of the user, directly under the superclass.
    ChildOf {
        class: NameId,
        superclass: NameId,
    },
    /// The class itself defines no variable of the name, of any kind.
    LacksVariable {
        class: NameId,
        variable: NameId,
    },
    /// The user has a method of the selector.
    KnownSelector {
        selector: NameId,
    },
    /// There is a command to undo.
    UndoLeft,
    /// There is a command to do again.
    RedoLeft,
}
