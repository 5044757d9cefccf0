// The lines of nodes.
ghost use Rattle.std.specs.Prelude.{◌≡◌, ◌++◌, ◌&&◌, [], if◌then◌else◌, IfOk, OnOk};
ghost use Rattle.std.specs.Fmt.{decimal};
ghost use Rattle.event_spans.specs.Answers.{of_span};
ghost use Rattle.st_tree.specs.View.{method_of, sequence_of};
ghost use Rattle.class_table.specs.Valid.{IsLive, IsOrderly};
ghost use Rattle.query_model.specs.Lines.{node_line};
ghost use Rattle.image_queries.specs.Asked.{query_of, is_meant, meaning_in_tree, meaning_in_body};
ghost use Rattle.image_queries.specs.Marks.{marked_lines};

use crate::meanings::{is_meant_in_doit, is_meant_in_method};
use crate::query::Query;
use class_table::{Image, MethodInfo};
use event_spans::NodeSpan;
use rb_base::{Memory, Span, Text};
use st_tree::{Method, Path, Sequence};
use std::alloc::Global;

/// Appends a number in decimal.
pub(crate) fn write_number(alloc: Global, number: usize, out: &mut Text) -> Result<(), Memory>
    ensures { OnOk result (out.new ≡ out.old ++ decimal number) }
{
    let digits = format!(in alloc; "{number}")?;
    out.push_slice(digits.as_bytes())
}

/// Appends the line of a node: the title of its method or do-it, and its span in the source there. The error is want of memory.
pub fn write_line(alloc: Global, owner: &[u8], span: Span, out: &mut Text) -> Result<(), Memory>
    ensures { OnOk result (out.new ≡ out.old ++ node_line owner.now (of_span span)) }
{
    out.push_slice(owner)?;
    out.push_slice(b" ")?;
    write_number(alloc, span.from, out)?;
    out.push_slice(b" ")?;
    write_number(alloc, span.to, out)?;
    out.push_slice(b"\n")
}

/// Appends the line of a node, if it is asked for.
fn write_line_if(
    alloc: Global,
    is_asked: bool,
    owner: &[u8],
    span: Span,
    out: &mut Text,
) -> Result<(), Memory>
    ensures { OnOk result (out.new ≡ out.old ++ (if is_asked then node_line owner.now (of_span span) else [])) }
{
    if is_asked {
        write_line(alloc, owner, span, out)
    } else {
        Ok(())
    }
}

/// Whether a node of a method is asked for: it is marked, and what is asked for is meant there.
fn is_asked_in_method(
    image: &Image,
    query: &Query,
    info: &MethodInfo<'_>,
    tree: &Method,
    mark: bool,
    path: &Path,
) -> bool
    requires orderly { IsOrderly image.now }
    requires live { IsLive image.now.class_order info.now.class }
    ensures { result ≡ (mark && is_meant (query_of query.now) (meaning_in_tree image.now info.now.class info.now.meta (method_of tree.now) path.now)) }
{
    mark && is_meant_in_method(image, query, info, tree, path)
}

/// The same of a node of a do-it.
fn is_asked_in_doit(image: &Image, query: &Query, body: &Sequence, mark: bool, path: &Path) -> bool
    requires { IsOrderly image.now }
    ensures { result ≡ (mark && is_meant (query_of query.now) (meaning_in_body image.now (sequence_of body.now) path.now)) }
{
    mark && is_meant_in_doit(image, query, body, path)
}

/// The lines of those nodes of a method that are asked for.
pub(crate) fn lines_in_method(
    alloc: Global,
    image: &Image,
    query: &Query,
    info: &MethodInfo<'_>,
    tree: &Method,
    owner: &[u8],
    nodes: &[NodeSpan],
    marks: &[bool],
) -> Result<Text, Memory>
    requires orderly { IsOrderly image.now }
    requires live { IsLive image.now.class_order info.now.class }
    ensures { IfOk result (λ text. text ≡ marked_lines (λ path. is_meant (query_of query.now) (meaning_in_tree image.now info.now.class info.now.meta (method_of tree.now) path)) owner.now nodes.now marks.now) }
{
    let mut text = Text::new(alloc);
    let mut rest = marks;
    for node in nodes {
        match rest.split_first() {
            None => return Ok(text),
            Some((mark, more)) => {
                let is_asked = is_asked_in_method(image, query, info, tree, *mark, &node.path);
                write_line_if(alloc, is_asked, owner, node.span, &mut text)?;
                rest = more;
            }
        }
    }
    Ok(text)
}

/// The lines of those nodes of a do-it that are asked for.
pub(crate) fn lines_in_doit(
    alloc: Global,
    image: &Image,
    query: &Query,
    body: &Sequence,
    owner: &[u8],
    nodes: &[NodeSpan],
    marks: &[bool],
) -> Result<Text, Memory>
    requires { IsOrderly image.now }
    ensures { IfOk result (λ text. text ≡ marked_lines (λ path. is_meant (query_of query.now) (meaning_in_body image.now (sequence_of body.now) path)) owner.now nodes.now marks.now) }
{
    let mut text = Text::new(alloc);
    let mut rest = marks;
    for node in nodes {
        match rest.split_first() {
            None => return Ok(text),
            Some((mark, more)) => {
                let is_asked = is_asked_in_doit(image, query, body, *mark, &node.path);
                write_line_if(alloc, is_asked, owner, node.span, &mut text)?;
                rest = more;
            }
        }
    }
    Ok(text)
}
