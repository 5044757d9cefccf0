// The words of a command line.
ghost use Rattle.std.specs.Prelude.{◌≡◌, map, string_bytes};
ghost use Rattle.command_words.specs.Forms.{form_of, form_of_one, form_of_two, form_of_three, form_of_four, run_of, find_of, strip_of, shows};

use crate::questions::{Question, question_of};
use crate::spelling::number_of;

/// The highest number of `demo`.
const MOST_CLASSES: u32 = 2000;

/// The highest budget of a run, in ticks.
const MOST_TICKS: u32 = 10000000;

/// The budget of a run where none is given, in ticks.
const USUAL_TICKS: u32 = 1000000;

/// The forms of the words.
#[derive(Clone, Copy)]
pub enum Words<'w> {
    /// `apply IMAGE SCRIPT`.
    Apply {
        image: &'w str,
        script: &'w str,
    },
    /// `changes IMAGE SCRIPT`.
    Changes {
        image: &'w str,
        script: &'w str,
    },
    /// `why IMAGE SCRIPT`.
    Why {
        image: &'w str,
        script: &'w str,
    },
    /// `team IMAGE LOG`.
    Team {
        image: &'w str,
        log: &'w str,
    },
    /// `import FILE`.
    Import {
        file: &'w str,
    },
    /// `format IMAGE`.
    Format {
        image: &'w str,
    },
    /// `run IMAGE EXPRESSION` or `run IMAGE EXPRESSION BUDGET`.
    Run {
        image: &'w str,
        expression: &'w str,
        /// How many ticks the run has, from 1 to 10,000,000; 1,000,000 where no budget is given.
        budget: u32,
    },
    /// `find IMAGE KIND NAME`.
    Find {
        image: &'w str,
        question: Question<'w>,
    },
    /// `strip IMAGE EXPRESSION` or `strip IMAGE EXPRESSION sets`.
    Strip {
        image: &'w str,
        expression: &'w str,
        /// Whether the classes and the methods are asked for that are reached, and not the image.
        sets: bool,
    },
    /// `search IMAGE PATTERN`.
    Search {
        image: &'w str,
        pattern: &'w str,
    },
    /// `rewrite IMAGE PATTERN REPLACEMENT`.
    Rewrite {
        image: &'w str,
        pattern: &'w str,
        replacement: &'w str,
    },
    /// `demo NUMBER`.
    Demo {
        /// How many classes the image has, from 1 to 2,000.
        number: u32,
    },
    /// `--help`.
    Help,
    /// `--version`.
    Version,
    /// Words in no form.
    NoForm,
}

/// The form that one word is in.
fn form_of_one<'w>(word: &str) -> Words<'w>
    ensures { shows result ≡ form_of_one word.now }
{
    if word == "--help" {
        Words::Help
    } else if word == "--version" {
        Words::Version
    } else {
        Words::NoForm
    }
}

/// The form that two words are in.
fn form_of_two<'w>(command: &str, word: &'w str) -> Words<'w>
    ensures { shows result ≡ form_of_two command.now word.now }
{
    if command == "format" {
        Words::Format { image: word }
    } else if command == "import" {
        Words::Import { file: word }
    } else if command == "demo" {
        match number_of(word.as_bytes(), MOST_CLASSES) {
            Some(number) => Words::Demo { number },
            None => Words::NoForm,
        }
    } else {
        Words::NoForm
    }
}

/// The form that three words are in.
fn form_of_three<'w>(command: &str, image: &'w str, word: &'w str) -> Words<'w>
    ensures { shows result ≡ form_of_three command.now image.now word.now }
{
    if command == "apply" {
        Words::Apply {
            image,
            script: word,
        }
    } else if command == "changes" {
        Words::Changes {
            image,
            script: word,
        }
    } else if command == "why" {
        Words::Why {
            image,
            script: word,
        }
    } else if command == "team" {
        Words::Team { image, log: word }
    } else if command == "run" {
        Words::Run {
            image,
            expression: word,
            budget: USUAL_TICKS,
        }
    } else if command == "strip" {
        Words::Strip {
            image,
            expression: word,
            sets: false,
        }
    } else if command == "search" {
        Words::Search {
            image,
            pattern: word,
        }
    } else {
        Words::NoForm
    }
}

/// The form of what an expression reaches.
fn strip_of<'w>(image: &'w str, expression: &'w str, last: &str) -> Words<'w>
    ensures { shows result ≡ strip_of image.now expression.now last.now }
{
    if last == "sets" {
        Words::Strip {
            image,
            expression,
            sets: true,
        }
    } else {
        Words::NoForm
    }
}

/// The form that a run with a budget is in.
fn run_of<'w>(image: &'w str, expression: &'w str, budget: &str) -> Words<'w>
    ensures { shows result ≡ run_of image.now expression.now budget.now }
{
    match number_of(budget.as_bytes(), MOST_TICKS) {
        Some(budget) => Words::Run {
            image,
            expression,
            budget,
        },
        None => Words::NoForm,
    }
}

/// The form that a search is in.
fn find_of<'w>(image: &'w str, kind: &str, name: &'w str) -> Words<'w>
    ensures { shows result ≡ find_of image.now kind.now name.now }
{
    match question_of(kind, name) {
        Some(question) => Words::Find { image, question },
        None => Words::NoForm,
    }
}

/// The form that four words are in.
fn form_of_four<'w>(command: &str, image: &'w str, word: &'w str, last: &'w str) -> Words<'w>
    ensures { shows result ≡ form_of_four command.now image.now word.now last.now }
{
    if command == "run" {
        run_of(image, word, last)
    } else if command == "find" {
        find_of(image, word, last)
    } else if command == "strip" {
        strip_of(image, word, last)
    } else if command == "rewrite" {
        Words::Rewrite {
            image,
            pattern: word,
            replacement: last,
        }
    } else {
        Words::NoForm
    }
}

/// The form that the words are in.
pub fn words_of<'w>(words: &'w [String]) -> Words<'w>
    ensures { shows result ≡ form_of (map string_bytes words.now) }
{
    match words {
        [word] => form_of_one(word.as_str()),
        [command, word] => form_of_two(command.as_str(), word.as_str()),
        [command, image, word] => form_of_three(command.as_str(), image.as_str(), word.as_str()),
        [command, image, word, last] => form_of_four(
            command.as_str(),
            image.as_str(),
            word.as_str(),
            last.as_str(),
        ),
        _ => Words::NoForm,
    }
}
