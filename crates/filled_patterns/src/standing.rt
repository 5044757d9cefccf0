// What stands for a metavariable.
ghost use Rattle.std.specs.Prelude.{◌≡◌, ◌<◌, ℕ, nat_eq, List, length, map, position, IfOk};
ghost use Rattle.std.specs.Option.{option_copied};
ghost use Rattle.std.specs.List.{concat};
ghost use Rattle.tree_model.specs.Tree.{trees_of};
ghost use Rattle.st_tree.specs.View.{statements_of};
ghost use Rattle.event_trees.specs.Naming.{Grows};
ghost use Rattle.pattern_model.specs.Bindings.{BindingOf, same_meta, bound_of};
ghost use Rattle.pattern_model.specs.Fill.{part_in, run_in, selector_in, arguments_in};
ghost use Rattle.patterns.specs.View.{meta_of, keyword_of, selector_of};
ghost use Rattle.patterns.specs.Names.{SelectorNames};
ghost use Rattle.filled_patterns.specs.Left.{Holds, Leaves};
ghost use Rattle.filled_patterns.specs.Filling.{bound_or, keyword_text, Later, IsChosen, Over};

use crate::bindings::{Binding, take_part};
use pattern_match::{Bound, same_meta};
use patterns::{Meta, PatternKeyword, PatternSelector};
use rb_base::{Memory, NameId, Names, Text};
use st_tree::{Node, NodeKind, Nodes, Statements};
use std::alloc::Global;

/// The number of the binding of a metavariable.
fn binding_number(bindings: &[Binding], meta: &Meta) -> Option<usize>
    ensures { result ≡ position (λ x. same_meta nat_eq (meta_of x.meta) (meta_of meta.now)) bindings.now }
{
    bindings
        .iter()
        .position(|binding| same_meta(binding.meta, *meta))
}

/// What a metavariable is bound to, where it is bound; an error where that is taken.
fn bound_to<'b>(bindings: &'b [Binding], meta: &Meta) -> Result<Option<&'b Bound>, Memory>
    ensures { IfOk result (λ found. (bs : List (BindingOf ℕ)) → Holds bs bindings.now → bound_or (meta_of meta.now) (option_copied found) ≡ bound_of nat_eq bs (meta_of meta.now)) }
{
    match binding_number(bindings, meta) {
        None => Ok(None),
        Some(at) => match &bindings[at].bound {
            Some(bound) => Ok(Some(bound)),
            None => Err(Memory),
        },
    }
}

/// What a metavariable is bound to, where it is bound, taken out of its binding or copied.
fn taken(alloc: Global, bindings: &mut [Binding], meta: &Meta) -> Result<Option<Bound>, Memory>
    ensures found { IfOk result (λ found. (bs : List (BindingOf ℕ)) → Holds bs bindings.old → bound_or (meta_of meta.now) found ≡ bound_of nat_eq bs (meta_of meta.now)) }
    ensures left { Leaves bindings.old bindings.new }
{
    match binding_number(bindings, meta) {
        None => Ok(None),
        Some(at) => {
            let part = take_part(alloc, &mut bindings[at])?;
            Ok(Some(part))
        }
    }
}

/// The node that stands for a metavariable: a variable of its name, where none is bound.
pub(crate) fn part_for(alloc: Global, bindings: &mut [Binding], meta: &Meta) -> Result<Node, Memory>
    ensures part { IfOk result (λ node. (bs : List (BindingOf ℕ)) → Holds bs bindings.old → node ≡ part_in meta.now.name (bound_of nat_eq bs (meta_of meta.now))) }
    ensures left { Leaves bindings.old bindings.new }
{
    match taken(alloc, bindings, meta)? {
        Some(Bound::Part(node)) => Ok(Box::into_inner(node)),
        _ => Ok(Node {
            kind: NodeKind::Var { name: meta.name },
        }),
    }
}

/// The statements that stand for a metavariable.
pub(crate) fn run_for(
    alloc: Global,
    bindings: &mut [Binding],
    meta: &Meta,
) -> Result<Statements, Memory>
    ensures run { IfOk result (λ run. (bs : List (BindingOf ℕ)) → Holds bs bindings.old → statements_of run ≡ run_in (bound_of nat_eq bs (meta_of meta.now))) }
    ensures left { Leaves bindings.old bindings.new }
{
    match taken(alloc, bindings, meta)? {
        Some(Bound::Run(run)) => Ok(run),
        _ => Ok(Statements::new(alloc)),
    }
}

/// The arguments of the message that stands for a metavariable.
pub(crate) fn arguments_for(
    alloc: Global,
    bindings: &mut [Binding],
    meta: &Meta,
) -> Result<Nodes, Memory>
    ensures arguments { IfOk result (λ nodes. (bs : List (BindingOf ℕ)) → Holds bs bindings.old → trees_of nodes ≡ arguments_in (bound_of nat_eq bs (meta_of meta.now))) }
    ensures left { Leaves bindings.old bindings.new }
{
    match taken(alloc, bindings, meta)? {
        Some(Bound::Whole(message)) => Ok(message.arguments),
        _ => Ok(Nodes::new(alloc)),
    }
}

/// The selector that stands for a metavariable.
fn selector_for(bindings: &[Binding], meta: &Meta) -> Result<NameId, Memory>
    ensures { IfOk result (λ n. (bs : List (BindingOf ℕ)) → Holds bs bindings.now → n ≡ selector_in meta.now.name (bound_of nat_eq bs (meta_of meta.now))) }
{
    match bound_to(bindings, meta)? {
        Some(Bound::Selector(selector)) => Ok(*selector),
        Some(Bound::Whole(message)) => Ok(message.selector),
        _ => Ok(meta.name),
    }
}

/// The text of a keyword, or of the one that stands for it.
fn keyword_for<'b>(bindings: &'b [Binding], keyword: &'b PatternKeyword) -> Result<&'b [u8], Memory>
    ensures { IfOk result (λ text. (bs : List (BindingOf ℕ)) → Holds bs bindings.now → text.now ≡ keyword_text bs (keyword_of keyword.now)) }
{
    match keyword {
        PatternKeyword::Plain(text) => Ok(text.as_slice()),
        PatternKeyword::Any(meta) => match bound_to(bindings, meta)? {
            Some(Bound::Keyword(text)) => Ok(text.as_slice()),
            _ => Ok(&[]),
        },
    }
}

/// The texts of keywords, joined.
fn joined_text(
    alloc: Global,
    bindings: &[Binding],
    keywords: &[PatternKeyword],
) -> Result<Text, Memory>
    ensures { IfOk result (λ text. (bs : List (BindingOf ℕ)) → Holds bs bindings.now → text ≡ concat (map (keyword_text bs) (map keyword_of keywords.now))) }
{
    let mut text = Text::new(alloc);
    for keyword in keywords {
        text.push_slice(keyword_for(bindings, keyword)?)?;
    }
    Ok(text)
}

/// The selector of a message. One that keywords make gets a number.
#[tactic(auto, using(crate::proofs::Growing::grow_rules))]
pub(crate) fn filled_selector(
    alloc: Global,
    names: &mut Names,
    bindings: &[Binding],
    selector: &PatternSelector,
) -> Result<NameId, Memory>
    requires selector { SelectorNames (λ n. n < length names.old) (selector_of selector.now) }
    ensures filled { IfOk result (λ n. (final : List (List ℕ)) → Later names.new final → Over final bindings.now (λ bs. IsChosen final bs (selector_of selector.now) n)) }
    ensures grows { Grows names.old names.new }
{
    match selector {
        PatternSelector::Plain(name) => Ok(*name),
        PatternSelector::Unary(meta) => selector_for(bindings, meta),
        PatternSelector::Whole(meta) => selector_for(bindings, meta),
        PatternSelector::Keywords(keywords) => {
            let text = joined_text(alloc, bindings, keywords)?;
            let number = names.intern(text.as_slice())?;
            Ok(number)
        }
    }
}
