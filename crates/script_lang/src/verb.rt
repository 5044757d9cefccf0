// The words of commands.
ghost use Rattle.std.specs.Prelude.{◌≡◌, ℕ, List, ◌∷◌, Err, IfSome, IfNone};
ghost use Rattle.script_model.specs.Commands.{UnknownCommand, said_by};
ghost use Rattle.script_lang.specs.Shown.{word_of, FindsVerb};
ghost use Rattle.script_lang.specs.Read.{BeginsWith, BeginsWithNone};

use crate::bytes::same_text;
use name_meanings::VariableKind;

/// A command by what stands behind its word.
#[derive(Clone, Copy)]
pub(crate) enum LineVerb {
    /// A certificate and the texts of a rule.
    ApplyRule,
    /// The text of a method.
    AddMethod,
    /// The text of a literal.
    AddParameter,
    /// Words.
    Words(Verb),
}

/// A command by its word alone, sorted by what stands behind the word. `applyRule`, `addMethod` and `addParameter` are none of
/// these, since a text stands behind them.
#[derive(Clone, Copy)]
pub(crate) enum Verb {
    /// A class.
    RemoveClass,
    /// A class and a variable, or its new name.
    Pair(PairVerb),
    /// A class, a variable, and its new name or a subclass.
    Triple(TripleVerb),
    /// A new class, its superclass, and the classes that come under it.
    NewClass(NewClassVerb),
    /// A class and an instance variable, which gets a setter.
    Accessors(AccessorVerb),
    /// A selector and its new one.
    RenameSelector,
    /// A class, a side and a selector.
    Method(MethodVerb),
    /// A selector, the number of an argument and the selector without it.
    RemoveParameter,
    /// A method, a variable in it and its new name.
    RenameTemporary,
    /// A part of a method, and the name of what it becomes.
    Extract(ExtractVerb),
    /// A part of a method.
    InlineMethod,
    /// A method and a variable in it.
    InlineTemporary,
    /// Nothing.
    Undo,
    Redo,
}

/// A command of a class and a variable, or of a class and its new name.
#[derive(Clone, Copy)]
pub(crate) enum PairVerb {
    RenameClass,
    AddVariable(VariableKind),
    RemoveVariable(VariableKind),
    InstanceUp,
    InstanceDown,
    SharedUp,
    UpWithMethods,
}

/// A command of a class, a variable and one more name.
#[derive(Clone, Copy)]
pub(crate) enum TripleVerb {
    /// With the new name of the variable of a kind.
    RenameVariable(VariableKind),
    /// With the subclass into which it goes.
    SharedDown,
}

/// A command that makes a class.
#[derive(Clone, Copy)]
pub(crate) enum NewClassVerb {
    Add,
    /// At least one class comes under it.
    Extract,
}

/// A command of a method.
#[derive(Clone, Copy)]
pub(crate) enum MethodVerb {
    Remove,
    PushUp,
    PushDown,
}

/// A command of the getter and the setter of an instance variable.
#[derive(Clone, Copy)]
pub(crate) enum AccessorVerb {
    Create,
    /// The variable is read and assigned by them.
    Abstract,
}

/// A command that puts a part of a method elsewhere.
#[derive(Clone, Copy)]
pub(crate) enum ExtractVerb {
    /// With the selector of the new method.
    Method,
    /// With the new temporary.
    Temporary,
}

/// The words of the commands that are performed.
const VERBS: [(&[u8], Verb); 32] = [
    (b"addClass", Verb::NewClass(NewClassVerb::Add)),
    (b"renameClass", Verb::Pair(PairVerb::RenameClass)),
    (b"removeClass", Verb::RemoveClass),
    (
        b"addInstVar",
        Verb::Pair(PairVerb::AddVariable(VariableKind::Instance)),
    ),
    (
        b"renameInstVar",
        Verb::Triple(TripleVerb::RenameVariable(VariableKind::Instance)),
    ),
    (
        b"removeInstVar",
        Verb::Pair(PairVerb::RemoveVariable(VariableKind::Instance)),
    ),
    (b"pushUpInstVar", Verb::Pair(PairVerb::InstanceUp)),
    (b"pushDownInstVar", Verb::Pair(PairVerb::InstanceDown)),
    (
        b"addClassVar",
        Verb::Pair(PairVerb::AddVariable(VariableKind::Shared)),
    ),
    (
        b"renameClassVar",
        Verb::Triple(TripleVerb::RenameVariable(VariableKind::Shared)),
    ),
    (
        b"removeClassVar",
        Verb::Pair(PairVerb::RemoveVariable(VariableKind::Shared)),
    ),
    (b"pushUpClassVar", Verb::Pair(PairVerb::SharedUp)),
    (b"pushDownClassVar", Verb::Triple(TripleVerb::SharedDown)),
    (
        b"addClassSideVar",
        Verb::Pair(PairVerb::AddVariable(VariableKind::ClassSide)),
    ),
    (
        b"renameClassSideVar",
        Verb::Triple(TripleVerb::RenameVariable(VariableKind::ClassSide)),
    ),
    (
        b"removeClassSideVar",
        Verb::Pair(PairVerb::RemoveVariable(VariableKind::ClassSide)),
    ),
    (b"renameSelector", Verb::RenameSelector),
    (b"removeMethod", Verb::Method(MethodVerb::Remove)),
    (b"pushUpMethod", Verb::Method(MethodVerb::PushUp)),
    (b"pushDownMethod", Verb::Method(MethodVerb::PushDown)),
    (b"removeParameter", Verb::RemoveParameter),
    (b"renameTemp", Verb::RenameTemporary),
    (b"abstractInstVar", Verb::Accessors(AccessorVerb::Abstract)),
    (b"extractMethod", Verb::Extract(ExtractVerb::Method)),
    (b"inlineMethod", Verb::InlineMethod),
    (b"extractTemp", Verb::Extract(ExtractVerb::Temporary)),
    (b"inlineTemp", Verb::InlineTemporary),
    (b"createAccessors", Verb::Accessors(AccessorVerb::Create)),
    (b"extractSuperclass", Verb::NewClass(NewClassVerb::Extract)),
    (b"pushUpWithMethods", Verb::Pair(PairVerb::UpWithMethods)),
    (b"undo", Verb::Undo),
    (b"redo", Verb::Redo),
];

/// The command of the first row that has the word.
fn find_verb(word: &[u8], rows: &[(&[u8], Verb)]) -> Option<Verb>
    ensures { FindsVerb word.now rows.now result }
{
    for (text, verb) in rows {
        if same_text(word, text) {
            return Some(*verb);
        }
    }
    None
}

/// The command that is performed and has the word.
fn verb_of(word: &[u8]) -> Option<Verb>
    ensures some { IfSome result (λ verb. word.now ≡ word_of verb) }
    ensures none { IfNone result ((ws : List (List ℕ)) → said_by (word.now ∷ ws) ≡ Err UnknownCommand) }
{
    find_verb(word, &VERBS)
}

/// The command that a line begins with.
pub(crate) fn line_verb(word: &[u8]) -> Option<LineVerb>
    ensures some { IfSome result (λ verb. BeginsWith verb word.now) }
    ensures none { IfNone result (BeginsWithNone word.now) }
{
    if same_text(word, b"applyRule") {
        Some(LineVerb::ApplyRule)
    } else if same_text(word, b"addMethod") {
        Some(LineVerb::AddMethod)
    } else if same_text(word, b"addParameter") {
        Some(LineVerb::AddParameter)
    } else {
        match verb_of(word) {
            Some(verb) => Some(LineVerb::Words(verb)),
            None => None,
        }
    }
}
