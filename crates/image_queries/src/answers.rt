// The answer to a question.
ghost use Rattle.std.specs.Prelude.{◌≡◌, ◌<◌, ◌++◌, ℕ, List, length, flat_map, IfOk, OnOk, OnErr};
ghost use Rattle.rb_base.specs.Names.{name_at};
ghost use Rattle.image_model.specs.Words.{text_words};
ghost use Rattle.query_model.specs.Queries.{map_query, methods_asked, users_nodes};
ghost use Rattle.query_model.specs.Lines.{method_line, AreLines, IsAnswer};
ghost use Rattle.class_table.specs.View.{image_of};
ghost use Rattle.class_table.specs.Valid.{IsOrderly};
ghost use Rattle.image_queries.specs.Spelled.{AreSpelled};
ghost use Rattle.image_queries.specs.Asked.{query_of, QueryNames, implemented};

use crate::implementors::implementor_lines;
use crate::query::Query;
use crate::uses::{doit_lines, method_lines};
use class_table::Image;
use rb_base::{Memory, NameId, Steps, Text};
use std::alloc::Global;
use std::marker::Brand;
use std::sync::ledger::{Blank, Ledger};

/// The selector whose implementors are asked for, if they are.
fn implemented(query: &Query) -> Option<NameId>
    ensures { result ≡ implemented (query_of query.now) }
{
    match query {
        Query::Implementors(selector) => Some(*selector),
        _ => None,
    }
}

/// The lines of the methods that are asked for.
fn asked_methods(alloc: Global, image: &Image, query: &Query) -> Result<Text, Memory>
    requires orderly { IsOrderly image.now }
    requires known { QueryNames (λ n. n < length image.now.names) (query_of query.now) }
    ensures { IfOk result (λ text. text ≡ flat_map method_line (methods_asked text_words (image_of image.now) (map_query (name_at image.now.names) (query_of query.now)))) }
{
    match implemented(query) {
        None => Ok(Text::new(alloc)),
        Some(selector) => implementor_lines(alloc, image, selector),
    }
}

/// The lines of the nodes that are asked for.
fn asked_nodes<L: Ledger>(
    alloc: Global,
    image: &Image,
    query: &Query,
    blank: Blank,
) -> Result<Text, Memory>
    requires orderly { IsOrderly image.now }
    requires spelled { AreSpelled (image_of image.now) }
    requires known { QueryNames (λ n. n < length image.now.names) (query_of query.now) }
    requires name { blank.name ≡ L.name }
    requires parts { blank.parts ≡ L.parts }
    requires some { 0 < L.parts }
    ensures { IfOk result (λ text. AreLines (image_of image.now) (users_nodes text_words (image_of image.now) (map_query (name_at image.now.names) (query_of query.now))) text) }
{
    let mut steps = Steps::<L>::new(blank);
    let mut text = method_lines(alloc, image, query, &mut steps)?;
    let doits = doit_lines(alloc, image, query, &mut steps)?;
    text.push_slice(doits.as_slice())?;
    Ok(text)
}

/// The answer to the question.
fn answer(alloc: Global, image: &Image, query: &Query) -> Result<Text, Memory>
    requires orderly { IsOrderly image.now }
    requires spelled { AreSpelled (image_of image.now) }
    requires known { QueryNames (λ n. n < length image.now.names) (query_of query.now) }
    ensures { IfOk result (λ text. IsAnswer (image_of image.now) (map_query (name_at image.now.names) (query_of query.now)) text) }
{
    let mut text = asked_methods(alloc, image, query)?;
    let nodes = asked_nodes::<Brand>(alloc, image, query, Blank::new(1))?;
    text.push_slice(nodes.as_slice())?;
    Ok(text)
}

/// Appends the lines that answer a question: the title of each method of a user that implements the selector, or a line for
/// each node that is asked for in the methods of users and the do-its, in the order of the image. Looks at each node once,
/// reads a source at most once and only where a node in it has the selector or the name, and asks what a name stands for
/// at the nodes that have it alone. On want of memory nothing is appended.
pub fn report(alloc: Global, image: &Image, query: &Query, out: &mut Text) -> Result<(), Memory>
    requires orderly { IsOrderly image.now }
    requires spelled { AreSpelled (image_of image.now) }
    requires known { QueryNames (λ n. n < length image.now.names) (query_of query.now) }
    ensures ok { OnOk result ((text : List ℕ) × (out.new ≡ out.old ++ text) × IsAnswer (image_of image.now) (map_query (name_at image.now.names) (query_of query.now)) text) }
    ensures err { OnErr result (out.new ≡ out.old) }
{
    let found = answer(alloc, image, query)?;
    out.push_slice(found.as_slice())
}
