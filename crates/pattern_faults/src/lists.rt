// Where a second list of statements stands in a sequence.
ghost use Rattle.std.specs.Prelude.{◌≡◌, false};
ghost use Rattle.rb_base.specs.Names.{name_at};
ghost use Rattle.tree_model.specs.Tree.{trees_of};
ghost use Rattle.st_tree.specs.View.{messages_of, statements_of};
ghost use Rattle.pattern_faults.specs.Lists.{spells_list, state_of, passed, is_list, walked, trees_walked, messages_walked, statements_walked};

use event_spans::NodeSpan;
use rb_base::Names;
use st_tree::{Message, Node, NodeKind, Statement};

/// Where a search through a tree has come.
#[derive(Drop)]
pub(crate) struct Search<'s> {
    /// The spans of the nodes that are not passed yet, in preorder.
    pub(crate) rest: &'s [NodeSpan],
    /// Where the first second list begins.
    pub(crate) found: Option<usize>,
}

/// Whether a name is spelled as a metavariable for a list of statements.
fn spells_list(name: &[u8]) -> bool
    ensures { result ≡ spells_list name.now }
{
    name.starts_with(b"`.@") || name.starts_with(b"``.@")
}

/// Whether a node is a metavariable for a list of statements.
fn is_list(names: &Names, node: &Node) -> bool
    ensures { result ≡ is_list (λ n. spells_list (name_at names.now n)) node.now }
{
    match &node.kind {
        NodeKind::Var { name } if name.0 < names.len() => spells_list(names.text_of(*name)),
        _ => false,
    }
}

/// Goes past a node, which is a second list or not.
fn pass(second: bool, search: &mut Search<'_>)
    ensures { state_of search.new ≡ passed second search.old.rest.now search.old.found }
{
    let Some((node, rest)) = search.rest.split_first() else {
        return;
    };
    search.rest = rest;
    if second && search.found.is_none() {
        search.found = Some(node.span.from);
    }
}

/// Goes past a node, which is a second list or not, and all nodes in it.
#[cycle(lists)]
#[tactic(auto, using(st_scope::proofs::Weights::weight_lemmas))]
pub(crate) fn walk_node(names: &Names, node: &Node, second: bool, search: &mut Search<'_>)
    ensures { state_of search.new ≡ walked (λ n. spells_list (name_at names.now n)) second node.now (state_of search.old) }
{
    pass(second, search);
    match &node.kind {
        NodeKind::Var { .. } | NodeKind::Literal { .. } => {}
        NodeKind::Send {
            receiver,
            arguments,
            ..
        } => {
            walk_node(names, receiver, false, search);
            walk_nodes(names, arguments.as_slice(), search);
        }
        NodeKind::Cascade { receiver, messages } => {
            walk_node(names, receiver, false, search);
            walk_messages(names, messages.as_slice(), search);
        }
        NodeKind::Assign { value, .. } | NodeKind::Return { value } => {
            walk_node(names, value, false, search);
        }
        NodeKind::Block { body, .. } => walk_statements(names, body.statements.as_slice(), search),
        NodeKind::Brace { items } => walk_nodes(names, items.as_slice(), search),
    }
}

/// Goes past nodes.
#[cycle(lists)]
#[tactic(auto, using(st_scope::proofs::Weights::weight_lemmas))]
fn walk_nodes(names: &Names, nodes: &[Node], search: &mut Search<'_>)
    ensures { state_of search.new ≡ trees_walked (λ n. spells_list (name_at names.now n)) (trees_of nodes.now) (state_of search.old) }
{
    for node in nodes {
        walk_node(names, node, false, search);
    }
}

/// Goes past the arguments of messages.
#[cycle(lists)]
#[tactic(auto, using(st_scope::proofs::Weights::weight_lemmas))]
fn walk_messages(names: &Names, messages: &[Message], search: &mut Search<'_>)
    ensures { state_of search.new ≡ messages_walked (λ n. spells_list (name_at names.now n)) (messages_of messages.now) (state_of search.old) }
{
    for message in messages {
        walk_nodes(names, message.arguments.as_slice(), search);
    }
}

/// Goes past statements, of which each list behind another one is a second one.
#[cycle(lists)]
#[tactic(auto, using(st_scope::proofs::Weights::weight_lemmas))]
fn walk_statements(names: &Names, statements: &[Statement], search: &mut Search<'_>)
    ensures { state_of search.new ≡ statements_walked (λ n. spells_list (name_at names.now n)) false (statements_of statements.now) (state_of search.old) }
{
    let mut had = false;
    for statement in statements {
        let is_list = is_list(names, &statement.node);
        walk_node(names, &statement.node, had && is_list, search);
        had = had || is_list;
    }
}
