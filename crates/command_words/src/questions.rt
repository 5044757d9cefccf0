// What `find` asks of an image.
ghost use Rattle.std.specs.Prelude.{◌≡◌, option_map};
ghost use Rattle.command_words.specs.Questions.{kind_of, kind_shown, variable_question, question_of, asks};

use crate::spelling::is_identifier;

/// The kinds of variables that a class defines.
#[derive(Clone, Copy)]
pub enum VariableKind {
    /// Those that each instance has: `inst`.
    Instance,
    /// Those of the class alone: `classInst`.
    ClassSide,
    /// Those that the class shares with its instances and with the classes below it: `shared`.
    Shared,
}

/// What is asked of an image.
#[derive(Clone, Copy)]
pub enum Question<'w> {
    /// Who sends the selector: `senders`.
    Senders(&'w str),
    /// Which methods implement the selector: `implementors`.
    Implementors(&'w str),
    /// What means the class: `class`.
    Class(&'w str),
    /// What means the variable of this kind and name that the class defines.
    Variable {
        kind: VariableKind,
        class: &'w str,
        name: &'w str,
    },
}

/// The kind of variables that has the word.
fn kind_of(word: &str) -> Option<VariableKind>
    ensures { option_map kind_shown result ≡ kind_of word.now }
{
    if word == "inst" {
        Some(VariableKind::Instance)
    } else if word == "shared" {
        Some(VariableKind::Shared)
    } else if word == "classInst" {
        Some(VariableKind::ClassSide)
    } else {
        None
    }
}

/// The question for a variable of the kind, if the word is two identifiers with a period between them.
fn variable_question<'w>(word: &'w str, kind: VariableKind) -> Option<Question<'w>>
    ensures { option_map asks result ≡ variable_question word.now (kind_shown kind) }
{
    let (class, name) = word.split_once('.')?;
    if is_identifier(class.as_bytes()) && is_identifier(name.as_bytes()) {
        Some(Question::Variable { kind, class, name })
    } else {
        None
    }
}

/// The question that a word and a name ask, if the name is spelled as the word wants it.
pub(crate) fn question_of<'w>(word: &str, name: &'w str) -> Option<Question<'w>>
    ensures { option_map asks result ≡ question_of word.now name.now }
{
    if word == "senders" {
        Some(Question::Senders(name))
    } else if word == "implementors" {
        Some(Question::Implementors(name))
    } else if word == "class" {
        Some(Question::Class(name))
    } else {
        variable_question(name, kind_of(word)?)
    }
}
