// One walk through a pattern and a node that finds what stands at each metavariable.
ghost use Rattle.std.specs.Prelude.{◌≡◌, ◌+◌, ◌++◌, ◌∷◌, [], Some, IfOk, OnOk, length, map, option_map};
ghost use Rattle.tree_model.specs.Tree.{trees_of};
ghost use Rattle.st_tree.specs.View.{messages_of, statements_of};
ghost use Rattle.pattern_model.specs.Bindings.{a_part, a_run, a_selector, a_keyword, a_message};
ghost use Rattle.pattern_model.specs.Patterns.{list_meta};
ghost use Rattle.pattern_model.specs.MatchTree.{placed, both, deeper, keyword_places, numbered, numbered_statements, message_places, places, trees_places, places_in_turn, messages_places, statements_places};
ghost use Rattle.patterns.specs.View.{meta_of, keyword_of, selector_of, patterns_of, messages_from, statements_from};
ghost use Rattle.pattern_match.specs.Words.{number_words};
ghost use Rattle.pattern_match.specs.Gathering.{bound_from, parts_from, state_of, reached, gathered};

use crate::standing::{Part, Place, Standing, Walk};
use crate::words::{
    is_unary, keywords_in, may_stand, same_literal, same_name, same_names, same_text, text_of,
};
use pattern_model::MetaKind;
use patterns::{
    Meta, Pattern, PatternKeyword, PatternKind, PatternMessage, PatternSelector, PatternStatement,
};
use rb_base::{Memory, NameId, Names, Text};
use st_tree::{Message, Node, NodeKind, Statement};
use std::alloc::Global;

/// The next step; an error past the largest number.
pub(crate) fn next(step: usize) -> Result<usize, Memory>
    ensures { IfOk result (λ n. n ≡ step + 1) }
{
    step.checked_add(1).ok_or(Memory)
}

/// Puts a node at the end of the parts, one step below the end of other steps.
pub(crate) fn put_part<'n>(
    alloc: Global,
    steps: &[usize],
    step: usize,
    node: &'n Node,
    parts: &mut Vec<Part<'n>>,
) -> Result<(), Memory>
    ensures { OnOk result (parts_from parts.new.items ≡ parts_from parts.old.items ++ (steps.now ++ step ∷ [], node.now) ∷ []) }
{
    let mut path = Vec::from_slice(alloc, steps)?;
    path.push(step)?;
    parts.push(Part { path, node })?;
    Ok(())
}

/// Puts the place of a metavariable that has no nodes.
fn put_word<'n>(
    alloc: Global,
    meta: Meta,
    bound: Standing<'n>,
    walk: &mut Walk<'n>,
) -> Result<(), Memory>
    ensures { OnOk result (Some (state_of walk.new) ≡ gathered (state_of walk.old) (placed (meta_of meta) (bound_from bound.entry) [])) }
{
    walk.found.push(Place {
        meta,
        bound,
        parts: Vec::new(alloc),
    })?;
    Ok(())
}

/// Puts the place of a metavariable for which the node stands where the walk is.
fn put_node<'n>(
    alloc: Global,
    meta: Meta,
    node: &'n Node,
    walk: &mut Walk<'n>,
) -> Result<(), Memory>
    ensures { OnOk result (Some (state_of walk.new) ≡ gathered (state_of walk.old) (placed (meta_of meta) (a_part node.now) (([], node.now) ∷ []))) }
{
    let mut parts = Vec::new(alloc);
    if meta.doubled {
        let path = Vec::from_slice(alloc, walk.steps.as_slice())?;
        parts.push(Part { path, node })?;
    }
    walk.found.push(Place {
        meta,
        bound: Standing::Part(node),
        parts,
    })?;
    Ok(())
}

/// Puts the place of a metavariable for which statements stand, to which the steps from a number on lead.
fn put_run<'n>(
    alloc: Global,
    meta: Meta,
    run: &'n [Statement],
    first: usize,
    walk: &mut Walk<'n>,
) -> Result<(), Memory>
    ensures { OnOk result (Some (state_of walk.new) ≡ gathered (state_of walk.old) (placed (meta_of meta) (a_run (statements_of run.now)) (numbered_statements first (statements_of run.now)))) }
{
    let mut parts = Vec::new(alloc);
    if meta.doubled {
        let mut step = first;
        for statement in run {
            put_part(alloc, &walk.steps, step, &statement.node, &mut parts)?;
            step = next(step)?;
        }
    }
    walk.found.push(Place {
        meta,
        bound: Standing::Run(run),
        parts,
    })?;
    Ok(())
}

/// Puts the place of a metavariable for which a message stands; the steps from a number on lead to its arguments.
fn put_message<'n>(
    alloc: Global,
    meta: Meta,
    selector: NameId,
    arguments: &'n [Node],
    first: usize,
    walk: &mut Walk<'n>,
) -> Result<(), Memory>
    ensures { OnOk result (Some (state_of walk.new) ≡ gathered (state_of walk.old) (placed (meta_of meta) (a_message selector (trees_of arguments.now)) (numbered first (trees_of arguments.now)))) }
{
    let mut parts = Vec::new(alloc);
    if meta.doubled {
        let mut step = first;
        for node in arguments {
            put_part(alloc, &walk.steps, step, node, &mut parts)?;
            step = next(step)?;
        }
    }
    walk.found.push(Place {
        meta,
        bound: Standing::Message(selector, arguments),
        parts,
    })?;
    Ok(())
}

/// Where the pattern fits the node: the places of its metavariables go to the end of what the walk has found.
#[cycle(places)]
pub(crate) fn node_places<'n>(
    alloc: Global,
    names: &Names,
    pattern: &Pattern,
    node: &'n Node,
    walk: &mut Walk<'n>,
) -> Result<bool, Memory>
    ensures { IfOk result (λ fits. reached fits (state_of walk.new) ≡ gathered (state_of walk.old) (places (number_words names.now) pattern.now node.now)) }
{
    match (&pattern.kind, &node.kind) {
        (PatternKind::Meta { meta }, _) => {
            if !may_stand(meta.kind, node, names) {
                return Ok(false);
            }
            put_node(alloc, *meta, node, walk)?;
            Ok(true)
        }
        (PatternKind::Var { name: a }, NodeKind::Var { name: b }) => Ok(same_name(*a, *b)),
        (PatternKind::Literal { value: a }, NodeKind::Literal { value: b }) => {
            Ok(same_literal(a, b))
        }
        (
            PatternKind::Send { receiver, message },
            NodeKind::Send {
                receiver: node,
                selector,
                arguments,
            },
        ) => {
            let arguments = arguments.as_slice();
            send_places(
                alloc, names, receiver, message, node, *selector, arguments, walk,
            )
        }
        (
            PatternKind::Cascade { receiver, messages },
            NodeKind::Cascade {
                receiver: node,
                messages: others,
            },
        ) => {
            cascade_places(
                alloc,
                names,
                receiver,
                messages,
                node,
                others.as_slice(),
                walk,
            )
        }
        (
            PatternKind::Assign { name: a, value },
            NodeKind::Assign {
                name: b,
                value: node,
            },
        ) => {
            if !same_name(*a, *b) {
                return Ok(false);
            }
            child_places(alloc, names, value, node, 0, walk)
        }
        (
            PatternKind::Block { parameters, body },
            NodeKind::Block {
                parameters: others,
                body: sequence,
            },
        ) => {
            if !same_names(parameters.as_slice(), others.as_slice())
                || !same_names(body.temporaries.as_slice(), sequence.temporaries.as_slice())
            {
                return Ok(false);
            }
            statements_places(
                alloc,
                names,
                &body.statements,
                sequence.statements.as_slice(),
                walk,
            )
        }
        (PatternKind::Brace { items }, NodeKind::Brace { items: nodes }) => {
            nodes_places(alloc, names, items, nodes.as_slice(), 0, walk)
        }
        (PatternKind::Return { value }, NodeKind::Return { value: node }) => {
            child_places(alloc, names, value, node, 0, walk)
        }
        _ => Ok(false),
    }
}

/// The same for a message and its receiver.
#[cycle(places)]
fn send_places<'n>(
    alloc: Global,
    names: &Names,
    receiver: &Pattern,
    message: &PatternMessage,
    node: &'n Node,
    selector: NameId,
    arguments: &'n [Node],
    walk: &mut Walk<'n>,
) -> Result<bool, Memory>
    ensures { IfOk result (λ fits. reached fits (state_of walk.new) ≡ gathered (state_of walk.old) (both (deeper 0 (places (number_words names.now) receiver.now node.now))
        (message_places (number_words names.now) 1 (selector_of message.now.selector) selector (trees_of arguments.now)
        (trees_places (number_words names.now) 1 (patterns_of message.now.arguments.items) (trees_of arguments.now))
        (places_in_turn (number_words names.now) 1 (patterns_of message.now.arguments.items) (trees_of arguments.now))))) }
{
    let fits = child_places(alloc, names, receiver, node, 0, walk)?;
    if fits {
        message_places(alloc, names, message, selector, arguments, 1, walk)
    } else {
        Ok(false)
    }
}

/// The same for messages and their receiver.
#[cycle(places)]
fn cascade_places<'n>(
    alloc: Global,
    names: &Names,
    receiver: &Pattern,
    patterns: &[PatternMessage],
    node: &'n Node,
    messages: &'n [Message],
    walk: &mut Walk<'n>,
) -> Result<bool, Memory>
    ensures { IfOk result (λ fits. reached fits (state_of walk.new) ≡ gathered (state_of walk.old) (both (deeper 0 (places (number_words names.now) receiver.now node.now))
        (messages_places (number_words names.now) 1 (messages_from patterns.now) (messages_of messages.now)))) }
{
    let fits = child_places(alloc, names, receiver, node, 0, walk)?;
    if fits {
        messages_places(alloc, names, patterns, messages, walk)
    } else {
        Ok(false)
    }
}

/// The same one step further down.
#[cycle(places)]
fn child_places<'n>(
    alloc: Global,
    names: &Names,
    pattern: &Pattern,
    node: &'n Node,
    step: usize,
    walk: &mut Walk<'n>,
) -> Result<bool, Memory>
    ensures { IfOk result (λ fits. reached fits (state_of walk.new) ≡ gathered (state_of walk.old) (deeper step (places (number_words names.now) pattern.now node.now))) }
{
    walk.steps.push(step)?;
    let fits = node_places(alloc, names, pattern, node, walk)?;
    let _ = walk.steps.pop();
    Ok(fits)
}

/// The same for nodes in order, to which the steps from a number on lead.
#[cycle(places)]
#[tactic(auto, using(patterns::proofs::Weights::weight_rules))]
fn nodes_places<'n>(
    alloc: Global,
    names: &Names,
    patterns: &[Pattern],
    nodes: &'n [Node],
    first: usize,
    walk: &mut Walk<'n>,
) -> Result<bool, Memory>
    ensures { IfOk result (λ fits. reached fits (state_of walk.new) ≡ gathered (state_of walk.old) (trees_places (number_words names.now) first (patterns_of patterns.now) (trees_of nodes.now))) }
{
    let mut rest = nodes;
    let mut step = first;
    for pattern in patterns {
        let Some((node, others)) = rest.split_first() else {
            return Ok(false);
        };
        if !child_places(alloc, names, pattern, node, step, walk)? {
            return Ok(false);
        }
        step = next(step)?;
        rest = others;
    }
    Ok(rest.is_empty())
}

/// The same for a keyword.
fn keyword_places<'n>(
    alloc: Global,
    pattern: &PatternKeyword,
    keyword: &Text,
    walk: &mut Walk<'n>,
) -> Result<bool, Memory>
    ensures { IfOk result (λ fits. reached fits (state_of walk.new) ≡ gathered (state_of walk.old) (keyword_places (keyword_of pattern.now) keyword.now)) }
{
    match pattern {
        PatternKeyword::Plain(text) => Ok(same_text(text.as_slice(), keyword.as_slice())),
        PatternKeyword::Any(meta) => {
            let keyword = keyword.try_copy(alloc)?;
            put_word(alloc, *meta, Standing::Keyword(keyword), walk)?;
            Ok(true)
        }
    }
}

/// The same for the arguments of keywords, each behind its keyword; the lists are as long.
#[cycle(places)]
#[tactic(auto, using(patterns::proofs::Weights::weight_rules))]
fn places_in_turn<'n>(
    alloc: Global,
    names: &Names,
    keywords: &[PatternKeyword],
    patterns: &[Pattern],
    texts: &[Text],
    nodes: &'n [Node],
    first: usize,
    walk: &mut Walk<'n>,
) -> Result<bool, Memory>
    requires patterns { length patterns.now ≡ length nodes.now }
    requires keywords { length keywords.now ≡ length nodes.now }
    requires texts { length texts.now ≡ length nodes.now }
    ensures { IfOk result (λ fits. reached fits (state_of walk.new) ≡ gathered (state_of walk.old) (places_in_turn (number_words names.now) first (patterns_of patterns.now) (trees_of nodes.now) (map keyword_of keywords.now) texts.now)) }
{
    let mut step = first;
    let mut at = 0;
    for node in nodes {
        if !keyword_places(alloc, &keywords[at], &texts[at], walk)? {
            return Ok(false);
        }
        if !child_places(alloc, names, &patterns[at], node, step, walk)? {
            return Ok(false);
        }
        step = next(step)?;
        at += 1;
    }
    Ok(true)
}

/// The same for a message.
#[cycle(places)]
fn message_places<'n>(
    alloc: Global,
    names: &Names,
    message: &PatternMessage,
    selector: NameId,
    arguments: &'n [Node],
    first: usize,
    walk: &mut Walk<'n>,
) -> Result<bool, Memory>
    ensures { IfOk result (λ fits. reached fits (state_of walk.new) ≡ gathered (state_of walk.old)
        (message_places (number_words names.now) first (selector_of message.now.selector) selector (trees_of arguments.now)
        (trees_places (number_words names.now) first (patterns_of message.now.arguments.items) (trees_of arguments.now))
        (places_in_turn (number_words names.now) first (patterns_of message.now.arguments.items) (trees_of arguments.now)))) }
{
    let patterns = message.arguments.as_slice();
    match &message.selector {
        PatternSelector::Plain(name) => {
            if !same_name(*name, selector) {
                return Ok(false);
            }
            nodes_places(alloc, names, patterns, arguments, first, walk)
        }
        PatternSelector::Unary(meta) => {
            if !is_unary(names, selector) {
                return Ok(false);
            }
            put_word(alloc, *meta, Standing::Selector(selector), walk)?;
            nodes_places(alloc, names, patterns, arguments, first, walk)
        }
        PatternSelector::Keywords(keywords) => match keywords_in(alloc, text_of(names, selector))? {
            None => Ok(false),
            Some(texts) => {
                let count = arguments.len();
                if keywords.len() != count || patterns.len() != count || texts.len() != count {
                    return Ok(false);
                }
                places_in_turn(
                    alloc, names, keywords, patterns, &texts, arguments, first, walk,
                )
            }
        },
        PatternSelector::Whole(meta) => {
            put_message(alloc, *meta, selector, arguments, first, walk)?;
            Ok(true)
        }
    }
}

/// The same for the messages of a cascade.
#[cycle(places)]
#[tactic(auto, using(patterns::proofs::Weights::weight_rules))]
fn messages_places<'n>(
    alloc: Global,
    names: &Names,
    patterns: &[PatternMessage],
    messages: &'n [Message],
    walk: &mut Walk<'n>,
) -> Result<bool, Memory>
    ensures { IfOk result (λ fits. reached fits (state_of walk.new) ≡ gathered (state_of walk.old) (messages_places (number_words names.now) 1 (messages_from patterns.now) (messages_of messages.now))) }
{
    let mut rest = messages;
    let mut step = 1usize;
    for pattern in patterns {
        let Some((message, others)) = rest.split_first() else {
            return Ok(false);
        };
        let arguments = message.arguments.as_slice();
        let next = step.checked_add(arguments.len()).ok_or(Memory)?;
        if !message_places(
            alloc,
            names,
            pattern,
            message.selector,
            arguments,
            step,
            walk,
        )? {
            return Ok(false);
        }
        step = next;
        rest = others;
    }
    Ok(rest.is_empty())
}

/// The metavariable for a list of statements, where the statement is one.
pub fn list_meta(statement: &PatternStatement) -> Option<Meta>
    ensures { option_map meta_of result ≡ list_meta statement.now.node }
{
    match &statement.node.kind {
        PatternKind::Meta { meta } => match meta.kind {
            MetaKind::StatementList => Some(*meta),
            _ => None,
        },
        _ => None,
    }
}

/// The same for the statements of a block: a list of statements takes as many as the others leave.
#[cycle(places)]
#[tactic(auto, using(patterns::proofs::Weights::weight_rules))]
fn statements_places<'n>(
    alloc: Global,
    names: &Names,
    patterns: &[PatternStatement],
    statements: &'n [Statement],
    walk: &mut Walk<'n>,
) -> Result<bool, Memory>
    ensures { IfOk result (λ fits. reached fits (state_of walk.new) ≡ gathered (state_of walk.old) (statements_places (number_words names.now) 0 (statements_from patterns.now) (statements_of statements.now))) }
{
    let mut later = patterns.len();
    let mut rest = statements;
    let mut step = 0;
    for pattern in patterns {
        later = later.saturating_sub(1);
        match list_meta(pattern) {
            Some(meta) => {
                let (run, others) = rest.split_at(rest.len().saturating_sub(later));
                put_run(alloc, meta, run, step, walk)?;
                step = step.checked_add(run.len()).ok_or(Memory)?;
                rest = others;
            }
            None => {
                let Some((statement, others)) = rest.split_first() else {
                    return Ok(false);
                };
                if !child_places(alloc, names, &pattern.node, &statement.node, step, walk)? {
                    return Ok(false);
                }
                step = next(step)?;
                rest = others;
            }
        }
    }
    Ok(rest.is_empty())
}
