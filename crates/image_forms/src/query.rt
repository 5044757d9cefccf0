// What is asked of an image, with names as numbers of the image.
ghost use Rattle.std.specs.Prelude.{◌≡◌, ◌<◌, length, IfOk};
ghost use Rattle.rb_base.specs.Names.{name_at};
ghost use Rattle.event_trees.specs.Naming.{Grows};
ghost use Rattle.class_table.specs.View.{image_of};
ghost use Rattle.class_table.specs.Valid.{IsOrderly};
ghost use Rattle.query_model.specs.Queries.{map_query, of_variable};
ghost use Rattle.command_words.specs.Questions.{kind_shown, asks};
ghost use Rattle.name_meanings.specs.Meanings.{kind_of};
ghost use Rattle.image_queries.specs.Asked.{query_of, QueryNames};

use class_table::Image;
use command_words::{Question, VariableKind};
use image_queries::Query;
use rb_base::{Memory, NameId};

/// The kind of variables as meanings have it.
fn kind_of(kind: VariableKind) -> name_meanings::VariableKind
    ensures { kind_of result ≡ kind_shown kind }
{
    match kind {
        VariableKind::Instance => name_meanings::VariableKind::Instance,
        VariableKind::ClassSide => name_meanings::VariableKind::ClassSide,
        VariableKind::Shared => name_meanings::VariableKind::Shared,
    }
}

/// The number of a name, which is added where it is new.
fn intern(image: &mut Image, name: &str) -> Result<NameId, Memory>
    ensures rest { image.new ≡ record image.old { names = image.new.names } }
    ensures grows { Grows image.old.names image.new.names }
    ensures known { IfOk result (λ n. n < length image.new.names) }
    ensures text { IfOk result (λ n. name_at image.new.names n ≡ name.now) }
{
    image.names_mut().intern(name.as_bytes())
}

/// The number of a name among those of the image, which for the rest is as it was.
fn number_of(image: &mut Image, name: &str) -> Result<NameId, Memory>
    requires { IsOrderly image.old }
    ensures image { image_of image.new ≡ image_of image.old }
    ensures orderly { IsOrderly image.new }
    ensures grows { Grows image.old.names image.new.names }
    ensures known { IfOk result (λ n. n < length image.new.names) }
    ensures text { IfOk result (λ n. name_at image.new.names n ≡ name.now) }
{
    let number = intern(image, name);
    let _count = image.names().len();
    number
}

/// The query for the variable of a kind and a name that a class defines.
fn variable_query(
    image: &mut Image,
    kind: VariableKind,
    class: &str,
    name: &str,
) -> Result<Query, Memory>
    requires { IsOrderly image.old }
    ensures image { image_of image.new ≡ image_of image.old }
    ensures orderly { IsOrderly image.new }
    ensures known { IfOk result (λ query. QueryNames (λ n. n < length image.new.names) (query_of query)) }
    ensures asked { IfOk result (λ query. map_query (name_at image.new.names) (query_of query) ≡ of_variable (kind_shown kind) class.now name.now) }
{
    let class = number_of(image, class)?;
    let name = number_of(image, name)?;
    Ok(Query::Variable {
        kind: kind_of(kind),
        class,
        name,
    })
}

/// The question as a query. Names that are new are added to those of the image, which for the rest is as it was.
pub(crate) fn query_of(image: &mut Image, question: Question<'_>) -> Result<Query, Memory>
    requires { IsOrderly image.old }
    ensures image { image_of image.new ≡ image_of image.old }
    ensures orderly { IsOrderly image.new }
    ensures known { IfOk result (λ query. QueryNames (λ n. n < length image.new.names) (query_of query)) }
    ensures asked { IfOk result (λ query. map_query (name_at image.new.names) (query_of query) ≡ asks question.entry) }
{
    match question {
        Question::Senders(selector) => Ok(Query::Senders(number_of(image, selector)?)),
        Question::Implementors(selector) => Ok(Query::Implementors(number_of(image, selector)?)),
        Question::Class(name) => Ok(Query::Class(number_of(image, name)?)),
        Question::Variable { kind, class, name } => variable_query(image, kind, class, name),
    }
}
