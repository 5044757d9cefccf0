// The names in a part that stand for no declaration inside the part.
ghost use Rattle.std.specs.Prelude.{◌≡◌, ◌∷◌, [], ◌++◌, nat_eq, OnOk, OnErr, IfOk, option_map, unwrap_or};
ghost use Rattle.tree_model.specs.Tree.{trees_of, no_statements};
ghost use Rattle.scope_model.specs.Scope.{block_scope};
ghost use Rattle.scope_model.specs.NameTests.{is_pseudo_in};
ghost use Rattle.scope_model.specs.FreeNames.{free_occurrences, free_in_trees, free_in_messages, free_in_statements, free_names, free_names_of_run, drop_statements, run_of, statements_at};
ghost use Rattle.st_tree.specs.View.{method_of, sequence_of, messages_of, statements_of};
ghost use Rattle.st_scope.specs.NameLists.{with_names, ordinary, gathered};
ghost use Rattle.st_scope.specs.Parts.{free_names_of_part};

use crate::name_set::NameSet;
use crate::special::is_pseudo;
use rb_base::{Ids, Memory, NameId, Names};
use st_tree::{Message, Method, Node, NodeKind, Part, Path, Sequence, Statement, part_at_doit};
use std::alloc::Global;
use std::mem;

/// Adds those of the declared names that are no pseudo-variables' to the bound ones.
fn declare(declared: &[NameId], names: &Names, bound: &mut NameSet) -> Result<(), Memory>
    ensures { OnOk result (bound.new ≡ with_names bound.old (ordinary (is_pseudo_in names.now) declared.now)) }
{
    for name in declared {
        if !is_pseudo(names, *name) {
            bound.insert(*name)?;
        }
    }
    Ok(())
}

/// Adds the name to those found, if it is not bound.
fn occur(name: NameId, bound: &NameSet, found: &mut NameSet) -> Result<(), Memory>
    ensures { OnOk result (found.new ≡ gathered bound.now found.old (name ∷ [])) }
{
    if !bound.contains(name) {
        found.insert(name)?;
    }
    Ok(())
}

/// Adds the free names of the node that are not bound around it to those found.
#[cycle(free)]
#[tactic(auto, using(crate::proofs::Weights::weight_lemmas, crate::proofs::Gathering::gathering))]
fn gather(
    node: &Node,
    names: &Names,
    bound: &mut NameSet,
    found: &mut NameSet,
) -> Result<(), Memory>
    ensures bound { OnOk result (bound.new ≡ bound.old) }
    ensures found { OnOk result (found.new ≡ gathered bound.old found.old (free_occurrences nat_eq (is_pseudo_in names.now) node.now)) }
{
    match &node.kind {
        NodeKind::Var { name } => occur(*name, bound, found),
        NodeKind::Literal { .. } => Ok(()),
        NodeKind::Send {
            receiver,
            arguments,
            ..
        } => {
            gather(receiver, names, bound, found)?;
            gather_nodes(arguments.as_slice(), names, bound, found)
        }
        NodeKind::Cascade { receiver, messages } => {
            gather(receiver, names, bound, found)?;
            gather_messages(messages.as_slice(), names, bound, found)
        }
        NodeKind::Assign { name, value } => {
            occur(*name, bound, found)?;
            gather(value, names, bound, found)
        }
        NodeKind::Block { parameters, body } => {
            let around = bound.len();
            declare(parameters.as_slice(), names, bound)?;
            declare(body.temporaries.as_slice(), names, bound)?;
            gather_statements(body.statements.as_slice(), names, bound, found)?;
            bound.truncate(around);
            Ok(())
        }
        NodeKind::Brace { items } => gather_nodes(items.as_slice(), names, bound, found),
        NodeKind::Return { value } => gather(value, names, bound, found),
    }
}

/// The same for nodes in order.
#[cycle(free)]
#[tactic(auto, using(crate::proofs::Weights::weight_lemmas, crate::proofs::Gathering::gathering))]
fn gather_nodes(
    nodes: &[Node],
    names: &Names,
    bound: &mut NameSet,
    found: &mut NameSet,
) -> Result<(), Memory>
    ensures bound { OnOk result (bound.new ≡ bound.old) }
    ensures found { OnOk result (found.new ≡ gathered bound.old found.old (free_in_trees nat_eq (is_pseudo_in names.now) (trees_of nodes.now))) }
{
    for node in nodes {
        gather(node, names, bound, found)?;
    }
    Ok(())
}

/// The same for messages in order.
#[cycle(free)]
#[tactic(auto, using(crate::proofs::Weights::weight_lemmas, crate::proofs::Gathering::gathering))]
fn gather_messages(
    messages: &[Message],
    names: &Names,
    bound: &mut NameSet,
    found: &mut NameSet,
) -> Result<(), Memory>
    ensures bound { OnOk result (bound.new ≡ bound.old) }
    ensures found { OnOk result (found.new ≡ gathered bound.old found.old (free_in_messages nat_eq (is_pseudo_in names.now) (messages_of messages.now))) }
{
    for message in messages {
        gather_nodes(message.arguments.as_slice(), names, bound, found)?;
    }
    Ok(())
}

/// The same for statements in order.
#[cycle(free)]
#[tactic(auto, using(crate::proofs::Weights::weight_lemmas, crate::proofs::Gathering::gathering))]
fn gather_statements(
    statements: &[Statement],
    names: &Names,
    bound: &mut NameSet,
    found: &mut NameSet,
) -> Result<(), Memory>
    ensures bound { OnOk result (bound.new ≡ bound.old) }
    ensures found { OnOk result (found.new ≡ gathered bound.old found.old (free_in_statements nat_eq (is_pseudo_in names.now) (statements_of statements.now))) }
{
    for statement in statements {
        gather(&statement.node, names, bound, found)?;
    }
    Ok(())
}

/// So many neighbouring statements, from the number of the first on, as far as there are so many.
#[tactic(auto, using(crate::proofs::Runs::run_lemmas))]
fn run(statements: &[Statement], first: usize, count: usize) -> &[Statement]
    ensures { statements_of result.now ≡ run_of (statements_of statements.now) first count }
{
    let rest = from_number(statements, first);
    if count < rest.len() {
        &rest[..count]
    } else {
        rest
    }
}

/// The statements from a number on.
#[tactic(auto, using(crate::proofs::Runs::run_lemmas))]
fn from_number(statements: &[Statement], first: usize) -> &[Statement]
    ensures { statements_of result.now ≡ drop_statements first (statements_of statements.now) }
{
    if first < statements.len() {
        &statements[first..]
    } else {
        &[]
    }
}

/// The statements of a block, and none of any other node.
fn block_statements(node: &Node) -> &[Statement]
    ensures { statements_of result.now ≡ unwrap_or (option_map (λ s. s.statements) (block_scope node.now)) no_statements }
{
    match &node.kind {
        NodeKind::Block { body, .. } => body.statements.as_slice(),
        _ => &[],
    }
}

/// The statements of the body, for the empty path, or of the block where the path leads.
fn statements_at<'b>(body: &'b Sequence, path: &Path) -> &'b [Statement]
    ensures { statements_of result.now ≡ statements_at (sequence_of body.now) path.now }
{
    if path.len() == 0 {
        return body.statements.as_slice();
    }
    match part_at_doit(body, path) {
        None => &[],
        Some(node) => block_statements(node),
    }
}

/// The free names of the node, each once.
#[tactic(auto, using(crate::proofs::Gathering::gathering))]
fn free_in_node(alloc: Global, node: &Node, names: &Names) -> Result<NameSet, Memory>
    ensures { IfOk result (λ found. found ≡ free_names nat_eq (is_pseudo_in names.now) node.now) }
{
    let mut bound = NameSet::new(alloc);
    let mut found = NameSet::new(alloc);
    gather(node, names, &mut bound, &mut found)?;
    Ok(found)
}

/// The free names of the statements, each once.
#[tactic(auto, using(crate::proofs::Gathering::gathering))]
fn free_in_run(alloc: Global, statements: &[Statement], names: &Names) -> Result<NameSet, Memory>
    ensures { IfOk result (λ found. found ≡ free_names_of_run nat_eq (is_pseudo_in names.now) (statements_of statements.now)) }
{
    let mut bound = NameSet::new(alloc);
    let mut found = NameSet::new(alloc);
    gather_statements(statements, names, &mut bound, &mut found)?;
    Ok(found)
}

/// The free names of the part, each once.
fn free_in_part(
    alloc: Global,
    body: &Sequence,
    part: &Part,
    names: &Names,
) -> Result<NameSet, Memory>
    ensures { IfOk result (λ found. found ≡ free_names_of_part nat_eq (is_pseudo_in names.now) (sequence_of body.now) part.now) }
{
    match part {
        Part::Expression { path } => match part_at_doit(body, path) {
            None => Ok(NameSet::new(alloc)),
            Some(node) => free_in_node(alloc, node, names),
        },
        Part::Run { path, first, count } => {
            free_in_run(alloc, run(statements_at(body, path), *first, *count), names)
        }
    }
}

/// The names of these numbers.
fn names_of(alloc: Global, numbers: &[usize]) -> Result<Vec<NameId>, Memory>
    ensures { IfOk result (λ names. names.items ≡ numbers.now) }
{
    let mut names = Vec::new(alloc);
    for number in numbers {
        names.push(NameId(*number))?;
    }
    Ok(names)
}

/// Appends all of the names or none.
fn append(alloc: Global, names: &[NameId], out: &mut Ids) -> Result<(), Memory>
    ensures ok { OnOk result (out.new ≡ out.old ++ names.now) }
    ensures err { OnErr result (out.new ≡ out.old) }
{
    let mut items = mem::replace(out, Ids::new(alloc)).into_vec();
    let grown = items.extend_from_slice(names);
    *out = Ids::from_vec(items);
    grown?;
    Ok(())
}

/// Appends the names that somewhere in the part stand for no declaration inside the part, each once, in the order in
/// which they first occur; in an assignment the name that is assigned comes first. Pseudo-variables are among them.
pub fn free_names(
    alloc: Global,
    method: &Method,
    part: &Part,
    names: &Names,
    out: &mut Ids,
) -> Result<(), Memory>
    ensures ok { OnOk result (out.new ≡ out.old ++ free_names_of_part nat_eq (is_pseudo_in names.now) (method_of method.now).body part.now) }
    ensures err { OnErr result (out.new ≡ out.old) }
{
    free_names_doit(alloc, &method.body, part, names, out)
}

/// Appends the free names of the part of the do-it, as `free_names` does.
pub fn free_names_doit(
    alloc: Global,
    body: &Sequence,
    part: &Part,
    names: &Names,
    out: &mut Ids,
) -> Result<(), Memory>
    ensures ok { OnOk result (out.new ≡ out.old ++ free_names_of_part nat_eq (is_pseudo_in names.now) (sequence_of body.now) part.now) }
    ensures err { OnErr result (out.new ≡ out.old) }
{
    let found = free_in_part(alloc, body, part, names)?;
    let found = names_of(alloc, found.numbers())?;
    append(alloc, found.as_slice(), out)
}
