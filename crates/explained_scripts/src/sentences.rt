// One sentence for each condition: what must be so.
ghost use Rattle.std.specs.Prelude.{◌≡◌};
ghost use Rattle.commands.specs.Views.{condition_of, name_kind_of};
ghost use Rattle.refusal_witnesses.specs.Sentences.{name_sentence, sentence};

use commands::{Condition, NameKind};

/// What must be so of a new name of a kind.
fn name_sentence(kind: NameKind) -> &'static [u8]
    ensures { result.now ≡ name_sentence (name_kind_of kind) }
{
    match kind {
        NameKind::Class => {
            b"The name of a class begins upper case, has at most 200 bytes and none of the language's own meanings."
        }
        NameKind::ClassVariable => {
            b"The name of a class variable begins upper case, has at most 200 bytes and none of the language's own meanings."
        }
        NameKind::Variable => {
            b"The name of such a variable does not begin upper case, has at most 200 bytes and none of the language's own meanings."
        }
        NameKind::Selector => b"The new selector is spelled as one and has at most 200 bytes.",
    }
}

/// What must be so, in one sentence.
pub(crate) fn sentence(condition: &Condition) -> &'static [u8]
    ensures { result.now ≡ sentence (condition_of condition.now) }
{
    match condition {
        Condition::NoReflection => b"No code of the file looks at the program itself.",
        Condition::IsUserClass { .. } => b"The file defines the class.",
        Condition::GoodName { kind, .. } => name_sentence(*kind),
        Condition::NameUnused { .. } =>
            b"No class and no variable of a class has the name, and no code reads, assigns or declares it.",
        Condition::SelectorFresh { .. } => b"No method has the selector, and no code sends it.",
        Condition::NotKernelSelector { .. } =>
            b"No method of the kernel has the selector or sends it, and it has no meaning of its own.",
        Condition::Arity { .. } => b"The new selector takes so many arguments.",
        Condition::Implements(_) =>
            b"The class itself has the method on that side, and the file gives it.",
        Condition::NotImplements(_) => b"The class itself has no such method on that side.",
        Condition::Removable(_) =>
            b"No code sends the selector, or the method that is inherited in its place is the same.",
        Condition::NoSubclasses { .. } => b"No class is directly under the class.",
        Condition::NotReferenced { .. } =>
            b"No code means the class but methods of the class itself.",
        Condition::HasVariable { .. } =>
            b"The class itself defines the variable, as one of the kind that the command names.",
        Condition::VariableFree { .. } =>
            b"No class above or below defines the variable, and no method of the class and of those below it reads, assigns or declares the name.",
        Condition::VariableUnused { .. } =>
            b"No method that loses the variable reads or assigns it.",
        Condition::ParentIsUser { .. } => b"The file defines the superclass of the class.",
        Condition::NoSuper(_) => b"The method does not name super.",
        Condition::MeansSame { .. } =>
            b"Each name in the method means the same in the other class.",
        Condition::Unreached { .. } =>
            b"The selector is sent nowhere, or no class that would find another method for it is reached.",
        Condition::ParameterUnused { .. } =>
            b"No method of the file of the selector reads the argument.",
        Condition::PlainArguments { .. } =>
            b"Each message of the selector passes an atom, self or a declared name as the argument.",
        Condition::AtomLiteral =>
            b"The literal is a number of 64 bits, a string, a symbol, a character, nil, true or false.",
        Condition::PartIs(_) =>
            b"Between the offsets stands an expression, or two or more neighbouring statements.",
        Condition::NoReturn(_) => b"No ^ stands in the part.",
        Condition::AssignsNoOuter(_) =>
            b"The part assigns no temporary that is declared outside it.",
        Condition::TempsSteady(_) =>
            b"A temporary from outside that the part names is assigned outside of closures, and read outside of those of the part.",
        Condition::ValueUnused(_) =>
            b"The part is an expression, or statements that do not end a block.",
        Condition::SelfSend(_) => b"The part is a message to self, and none of a cascade.",
        Condition::OneTarget(_) =>
            b"The class finds a method of the file for the selector, and no class below it has another one.",
        Condition::Inlinable(_) =>
            b"The method that is found has no temporaries, no ^ in a block and no super of another class, and its body is one answer or the message is a whole statement.",
        Condition::PlainActuals(_) =>
            b"Each thing that is passed is an atom, self, an argument, a block parameter, a class, or a temporary that no closure changes.",
        Condition::NoCapture { .. } => b"Each name that moves means the same at its new place.",
        Condition::NoNewControl { .. } =>
            b"No literal block comes into a place where it makes a control message.",
        Condition::Declared { .. } => b"Exactly one place of the method declares the name.",
        Condition::NotIn { .. } =>
            b"The method neither declares the name nor reads nor assigns it.",
        Condition::LetForm { .. } =>
            b"The temporary has one assignment, a whole statement and not the last, whose value is the same at each read.",
        Condition::FirstEvaluated(_) =>
            b"The part is an expression, and its statement evaluates nothing that matters before it.",
        Condition::Shallow =>
            b"No code that the command changes or adds is higher than 200 nodes afterwards.",
        Condition::IsClass { .. } => b"There is such a class.",
        Condition::ChildOf { .. } => b"The file defines the class, directly under the other one.",
        Condition::LacksVariable { .. } => b"The class itself defines no variable of the name.",
        Condition::KnownSelector { .. } => b"A method of the file has the selector.",
        Condition::UndoLeft => b"There is a command to take back.",
        Condition::RedoLeft => b"There is a command that was taken back and can be done again.",
    }
}
