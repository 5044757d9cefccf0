// Expressions, messages and blocks.
ghost use Rattle.std.specs.Prelude.{◌≡◌, ℕ, ◌<◌, ◌++◌, length, map, IfOk, OnOk, codes};
ghost use Rattle.std.specs.List.{AllByRecursion};
ghost use Rattle.rb_base.specs.Names.{name_at};
ghost use Rattle.tree_model.specs.Tree.{send, brace, trees_of, map_names, map_trees, map_messages, map_sequence};
ghost use Rattle.tree_model.specs.AllNames.{AllNames, TreesNames, MessagesNames, SequenceNames};
ghost use Rattle.st_tree.specs.View.{messages_of, sequence_of};
ghost use Rattle.text_model.specs.Pieces.{pieces_joined, pieces_behind};
ghost use Rattle.text_model.specs.Precedences as rule;
ghost use Rattle.text_model.specs.Flat.{is_flat, are_trees_flat, are_messages_flat};
ghost use Rattle.text_model.specs.Expressions.{expression_text, argument_texts, message_text, message_texts};
ghost use Rattle.text_model.specs.Whole.{sequence_lines};
ghost use Rattle.st_formatter.specs.Bodies.{is_flat_body, inside_text, block_of};
ghost use Rattle.st_formatter.specs.Turns.{items_at};

use crate::backward::Backward;
use crate::bodies::{inner_level, is_bare, start_line_unless, write_blank, write_period};
use crate::flat::is_flat;
use crate::lines::{start_line, write_notes, write_parameters, write_temporaries};
use crate::literals::write_literal;
use crate::messages::{both, flat_after, write_keyword};
use crate::selectors::{count_keywords, write_name};
use precedences::{
    argument_limit, is_looser, message_precedence, messages_precedence, precedence_of,
    receiver_limit, text_of,
};
use rb_base::{Memory, NameId, Names};
use st_tree::{Message, Node, NodeKind, Sequence, Statement};
use text_model::Precedence;

/// How many levels of a tree are written at once. What stands deeper is left out and written later, so nothing recurs deeper.
pub(crate) const DEPTH: usize = 400;

/// Leaves out an expression or a return of a sequence of this level before the text, and answers whether each block in it is flat.
#[tactic(auto, using(crate::proofs::WaitingTrees::flat_rules))]
fn leave_out<'n, 's>(
    node: &'n Node,
    level: usize,
    names: &'s Names,
    out: &mut Backward<'n, 's>,
) -> Result<bool, Memory>
    requires { AllNames (λ n. n < length names.now) node.now }
    ensures text { OnOk result (out.new ≡ expression_text level (map_names (name_at names.now) node.now) ++ out.old) }
    ensures flat { IfOk result (λ flat. flat ≡ is_flat (map_names (name_at names.now) node.now)) }
{
    let flat = is_flat(out.alloc(), node)?;
    out.put_gap(node, level, names)?;
    Ok(flat)
}

/// Writes an expression or a return of a sequence of this level before the text, and answers whether each block in it
/// is flat. What stands in it at this depth is left out.
#[cycle(tree)]
#[tactic(auto, using(crate::proofs::Items::item_rules))]
pub(crate) fn write_expression<'n, 's>(
    node: &'n Node,
    level: usize,
    depth: usize,
    names: &'s Names,
    out: &mut Backward<'n, 's>,
) -> Result<bool, Memory>
    requires { AllNames (λ n. n < length names.now) node.now }
    ensures text { OnOk result (out.new ≡ expression_text level (map_names (name_at names.now) node.now) ++ out.old) }
    ensures flat { IfOk result (λ flat. flat ≡ is_flat (map_names (name_at names.now) node.now)) }
{
    if depth == 0 {
        return leave_out(node, level, names, out);
    }
    let below = depth - 1;
    match &node.kind {
        NodeKind::Var { name } => flat_after(write_name(*name, names, out)),
        NodeKind::Literal { value } => flat_after(write_literal(value, names, out)),
        NodeKind::Send {
            receiver,
            selector,
            arguments,
        } => write_send(
            receiver,
            *selector,
            arguments.as_slice(),
            level,
            below,
            names,
            out,
        ),
        NodeKind::Cascade { receiver, messages } => {
            let limit = receiver_limit(messages_precedence(messages.as_slice(), names));
            let messages_flat = write_messages(messages.as_slice(), level, below, names, out)?;
            let receiver_flat = write_operand(receiver, limit, level, below, names, out)?;
            Ok(both(receiver_flat, messages_flat))
        }
        NodeKind::Assign { name, value } => {
            let flat = write_expression(value, level, below, names, out)?;
            out.put(b" := ")?;
            write_name(*name, names, out)?;
            Ok(flat)
        }
        NodeKind::Block { parameters, body } => {
            write_block(parameters.as_slice(), body, level, below, names, out)
        }
        NodeKind::Brace { items } => write_brace(items.as_slice(), level, below, names, out),
        NodeKind::Return { value } => {
            let flat = write_expression(value, level, below, names, out)?;
            out.put_byte(b'^')?;
            Ok(flat)
        }
    }
}

/// Writes an operand before the text, in parentheses where it is looser than the limit.
#[cycle(tree)]
#[tactic(auto, using(crate::proofs::Items::item_rules))]
fn write_operand<'n, 's>(
    node: &'n Node,
    limit: Precedence,
    level: usize,
    depth: usize,
    names: &'s Names,
    out: &mut Backward<'n, 's>,
) -> Result<bool, Memory>
    requires { AllNames (λ n. n < length names.now) node.now }
    ensures text { let tree = map_names (name_at names.now) node.now in
        OnOk result (out.new ≡ rule.operand_text limit (rule.precedence_of tree) (expression_text level tree) ++ out.old) }
    ensures flat { IfOk result (λ flat. flat ≡ is_flat (map_names (name_at names.now) node.now)) }
{
    if !is_looser(precedence_of(node, names), limit) {
        return write_expression(node, level, depth, names, out);
    }
    out.put_byte(b')')?;
    let flat = write_expression(node, level, depth, names, out)?;
    out.put_byte(b'(')?;
    Ok(flat)
}

/// Writes a receiver and its message before the text.
#[cycle(tree)]
#[tactic(auto, using(crate::proofs::Items::item_rules))]
fn write_send<'n, 's>(
    receiver: &'n Node,
    selector: NameId,
    arguments: &'n [Node],
    level: usize,
    depth: usize,
    names: &'s Names,
    out: &mut Backward<'n, 's>,
) -> Result<bool, Memory>
    requires receiver { AllNames (λ n. n < length names.now) receiver.now }
    requires selector { selector < length names.now }
    requires arguments { TreesNames (λ n. n < length names.now) (trees_of arguments.now) }
    ensures text { OnOk result (out.new ≡ expression_text level (map_names (name_at names.now) (send receiver.now selector (trees_of arguments.now))) ++ out.old) }
    ensures flat { IfOk result (λ flat. flat ≡ is_flat (map_names (name_at names.now) (send receiver.now selector (trees_of arguments.now)))) }
{
    let message = message_precedence(text_of(names, selector), arguments);
    let message_flat = write_message(selector, message, arguments, level, depth, names, out)?;
    let receiver_flat = write_operand(receiver, receiver_limit(message), level, depth, names, out)?;
    Ok(both(receiver_flat, message_flat))
}

/// Writes a message of this precedence before the text, each part behind a blank.
#[cycle(tree)]
#[tactic(auto, using(crate::proofs::Items::item_rules))]
fn write_message<'n, 's>(
    selector: NameId,
    message: Precedence,
    arguments: &'n [Node],
    level: usize,
    depth: usize,
    names: &'s Names,
    out: &mut Backward<'n, 's>,
) -> Result<bool, Memory>
    requires selector { selector < length names.now }
    requires arguments { TreesNames (λ n. n < length names.now) (trees_of arguments.now) }
    ensures text { let s = name_at names.now selector in
        let trees = map_trees (name_at names.now) (trees_of arguments.now) in
        OnOk result (out.new ≡ message_text s (argument_texts level message trees) ++ out.old) }
    ensures flat { IfOk result (λ flat. flat ≡ are_trees_flat (map_trees (name_at names.now) (trees_of arguments.now))) }
{
    let text = text_of(names, selector);
    let count = count_keywords(text);
    let mut words = text;
    let mut flat = true;
    let mut at = count.max(arguments.len());
    while at > 0 {
        at -= 1;
        let one = write_argument(arguments, at, message, level, depth, names, out)?;
        flat = both(one, flat);
        words = write_keyword(words, at, count, out)?;
    }
    Ok(flat)
}

/// Writes the argument of this number behind a blank before the text, or nothing where there is none.
#[cycle(tree)]
#[tactic(auto, using(crate::proofs::Items::item_rules))]
fn write_argument<'n, 's>(
    arguments: &'n [Node],
    at: usize,
    message: Precedence,
    level: usize,
    depth: usize,
    names: &'s Names,
    out: &mut Backward<'n, 's>,
) -> Result<bool, Memory>
    requires { TreesNames (λ n. n < length names.now) (trees_of arguments.now) }
    ensures text { let trees = map_trees (name_at names.now) (trees_of (items_at arguments.now at)) in
        OnOk result (out.new ≡ pieces_behind (codes " ") (argument_texts level message trees) ++ out.old) }
    ensures flat { IfOk result (λ flat. flat ≡ are_trees_flat (map_trees (name_at names.now) (trees_of (items_at arguments.now at)))) }
{
    if at >= arguments.len() {
        return Ok(true);
    }
    let argument = &arguments[at];
    let flat = write_operand(argument, argument_limit(message), level, depth, names, out)?;
    out.put_byte(b' ')?;
    Ok(flat)
}

/// Writes the messages of a cascade before the text, with semicolons between them.
#[cycle(tree)]
#[tactic(auto, using(crate::proofs::Items::item_rules))]
fn write_messages<'n, 's>(
    messages: &'n [Message],
    level: usize,
    depth: usize,
    names: &'s Names,
    out: &mut Backward<'n, 's>,
) -> Result<bool, Memory>
    requires { MessagesNames (λ n. n < length names.now) (messages_of messages.now) }
    ensures text { OnOk result (out.new ≡
        pieces_joined (codes ";") (message_texts level (map_messages (name_at names.now) (messages_of messages.now))) ++ out.old) }
    ensures flat { IfOk result (λ flat. flat ≡ are_messages_flat (map_messages (name_at names.now) (messages_of messages.now))) }
{
    match messages.split_first() {
        None => Ok(true),
        Some((first, rest)) => {
            let mut flat = true;
            let mut at = rest.len();
            while at > 0 {
                at -= 1;
                let one = write_next(&rest[at], level, depth, names, out)?;
                flat = both(one, flat);
                out.put_byte(b';')?;
            }
            let one = write_next(first, level, depth, names, out)?;
            Ok(both(one, flat))
        }
    }
}

/// Writes a message of a cascade before the text.
#[cycle(tree)]
#[tactic(auto, using(crate::proofs::Items::item_rules))]
fn write_next<'n, 's>(
    next: &'n Message,
    level: usize,
    depth: usize,
    names: &'s Names,
    out: &mut Backward<'n, 's>,
) -> Result<bool, Memory>
    requires selector { next.now.selector < length names.now }
    requires arguments { TreesNames (λ n. n < length names.now) (trees_of next.now.arguments) }
    ensures text { let s = name_at names.now next.now.selector in
        let trees = map_trees (name_at names.now) (trees_of next.now.arguments) in
        OnOk result (out.new ≡ message_text s (argument_texts level (rule.message_precedence s trees) trees) ++ out.old) }
    ensures flat { IfOk result (λ flat. flat ≡ are_trees_flat (map_trees (name_at names.now) (trees_of next.now.arguments))) }
{
    let arguments = next.arguments.as_slice();
    let message = message_precedence(text_of(names, next.selector), arguments);
    write_message(next.selector, message, arguments, level, depth, names, out)
}

/// Writes a brace array before the text.
#[cycle(tree)]
#[tactic(auto, using(crate::proofs::Items::item_rules))]
fn write_brace<'n, 's>(
    items: &'n [Node],
    level: usize,
    depth: usize,
    names: &'s Names,
    out: &mut Backward<'n, 's>,
) -> Result<bool, Memory>
    requires { TreesNames (λ n. n < length names.now) (trees_of items.now) }
    ensures text { OnOk result (out.new ≡ expression_text level (map_names (name_at names.now) (brace (trees_of items.now))) ++ out.old) }
    ensures flat { IfOk result (λ flat. flat ≡ are_trees_flat (map_trees (name_at names.now) (trees_of items.now))) }
{
    match items.split_first() {
        None => flat_after(out.put(b"{}")),
        Some((first, rest)) => {
            out.put_byte(b'}')?;
            let mut flat = true;
            let mut at = rest.len();
            while at > 0 {
                at -= 1;
                let one = write_expression(&rest[at], level, depth, names, out)?;
                flat = both(one, flat);
                out.put(b". ")?;
            }
            let one = write_expression(first, level, depth, names, out)?;
            out.put_byte(b'{')?;
            Ok(both(one, flat))
        }
    }
}

/// Writes a block of a sequence of this level before the text.
#[cycle(tree)]
#[tactic(auto, using(crate::proofs::Items::item_rules))]
fn write_block<'n, 's>(
    parameters: &'n [NameId],
    body: &'n Sequence,
    level: usize,
    depth: usize,
    names: &'s Names,
    out: &mut Backward<'n, 's>,
) -> Result<bool, Memory>
    requires parameters { AllByRecursion (λ n. n < length names.now) parameters.now }
    requires body { SequenceNames (λ n. n < length names.now) (sequence_of body.now) }
    ensures text { OnOk result (out.new ≡
        expression_text level (block_of (map (name_at names.now) parameters.now) (map_sequence (name_at names.now) (sequence_of body.now))) ++ out.old) }
    ensures flat { IfOk result (λ flat. flat ≡ is_flat_body (map_sequence (name_at names.now) (sequence_of body.now))) }
{
    let inner = inner_level(level)?;
    out.put_byte(b']')?;
    let flat = write_inside(body, inner, depth, names, out)?;
    write_blank(flat, parameters, out)?;
    write_parameters(parameters, names, out)?;
    out.put_byte(b'[')?;
    Ok(flat)
}

/// Writes what stands in a block behind its parameters before the text, and answers whether the block is flat.
#[cycle(tree)]
#[tactic(auto, using(crate::proofs::Items::item_rules))]
fn write_inside<'n, 's>(
    body: &'n Sequence,
    level: usize,
    depth: usize,
    names: &'s Names,
    out: &mut Backward<'n, 's>,
) -> Result<bool, Memory>
    requires { SequenceNames (λ n. n < length names.now) (sequence_of body.now) }
    ensures text { IfOk result (λ flat. out.new ≡
        inside_text flat level (map_sequence (name_at names.now) (sequence_of body.now)) ++ out.old) }
    ensures flat { IfOk result (λ flat. flat ≡ is_flat_body (map_sequence (name_at names.now) (sequence_of body.now))) }
{
    if !is_bare(body) {
        write_lines(body, level, depth, names, out)?;
        return Ok(false);
    }
    let statements = body.statements.as_slice();
    if statements.is_empty() {
        return Ok(true);
    }
    let flat = write_expression(&statements[0].node, level, depth, names, out)?;
    start_line_unless(flat, level, out)?;
    Ok(flat)
}

/// Writes the lines of a sequence of this level before the text, each behind a line feed.
#[cycle(tree)]
#[tactic(auto, using(crate::proofs::Items::item_rules))]
pub(crate) fn write_lines<'n, 's>(
    body: &'n Sequence,
    level: usize,
    depth: usize,
    names: &'s Names,
    out: &mut Backward<'n, 's>,
) -> Result<(), Memory>
    requires { SequenceNames (λ n. n < length names.now) (sequence_of body.now) }
    ensures { OnOk result (out.new ≡
        pieces_behind (codes "\n") (sequence_lines level (map_sequence (name_at names.now) (sequence_of body.now))) ++ out.old) }
{
    write_notes(body.tail.as_slice(), level, out)?;
    let statements = body.statements.as_slice();
    let mut at = statements.len();
    while at > 0 {
        write_period(statements, at, out)?;
        at -= 1;
        let statement = &statements[at];
        write_expression(&statement.node, level, depth, names, out)?;
        start_line(level, out)?;
        write_notes(statement.comments.as_slice(), level, out)?;
    }
    write_temporaries(body.temporaries.as_slice(), level, names, out)
}
