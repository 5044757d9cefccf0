// One walk through code that makes what a rule makes of it.
ghost use Rattle.std.specs.Prelude.{◌≡◌, ◌<◌, ◌==◌, ℕ, List, length, false, map, count_by, nat_eq, Some, IfOk, MatchOption};
ghost use Rattle.std.specs.List.{concat, AllByRecursion};
ghost use Rattle.rb_base.specs.Names.{name_at};
ghost use Rattle.tree_model.specs.Tree.{literal, send, cascade, assign, block, brace, return, map_sequence, trees_of};
ghost use Rattle.tree_model.specs.AllNames.{AllNames, TreesNames, MessagesNames, StatementsNames, SequenceNames};
ghost use Rattle.tree_model.specs.Measure.{height};
ghost use Rattle.st_tree.specs.View.{tree_of, messages_of, statements_of, sequence_of};
ghost use Rattle.event_trees.specs.Naming.{Grows};
ghost use Rattle.pattern_model.specs.Bindings.{same_meta};
ghost use Rattle.pattern_model.specs.Words.{text_pattern_words};
ghost use Rattle.pattern_model.specs.Named.{map_pattern};
ghost use Rattle.pattern_model.specs.Rewritten.{each_child, rewritten_sequence};
ghost use Rattle.patterns.specs.Names.{PatternNames};
ghost use Rattle.patterns.specs.View.{meta_of};
ghost use Rattle.pattern_match.specs.Gathering.{bound_from};
ghost use Rattle.pattern_match.specs.Bound.{bound_of, held_of};
ghost use Rattle.filled_patterns.specs.Bound.{BoundNames, BindingNames};
ghost use Rattle.rewritten_code.specs.Changed.{is_whole, IsWhole, Paired, RuleNames, becomes, replaced, AreBoundIn, IsNoMatch, IsChanged, IsMessageChanged, IsStatementChanged, IsBoundChanged, IsBindingChanged, AreChanged};
ghost use Rattle.rewritten_code.specs.Lower.{bindings_height};

use filled_patterns::{Binding, fill};
use pattern_match::{Bound, Held, Standing, copied, match_at, put_metas, same_meta};
use patterns::{Meta, Pattern, PatternKind, Rule};
use rb_base::{Ids, Memory, NameId, Names};
use st_tree::{Literal, Message, Messages, Node, NodeKind, Nodes, Sequence, Statement, Statements};
use std::alloc::Global;

/// Whether the metavariable is wanted at one place only.
fn is_single(wanted: &[Meta], meta: Meta) -> bool
    ensures { result ≡ (count_by (λ x. same_meta nat_eq (meta_of meta) (meta_of x)) wanted.now == 1) }
{
    wanted
        .iter()
        .filter(|other| same_meta(meta, **other))
        .count()
        == 1
}

/// The binding of a metavariable.
fn binding_for(single: bool, meta: Meta, bound: Bound) -> Binding
    ensures meta { result.meta ≡ meta }
    ensures bound { result.bound ≡ Some bound }
{
    Binding {
        meta,
        single,
        bound: Some(bound),
    }
}

/// A copy of a literal's node.
fn literal_node(alloc: Global, value: &Literal) -> Result<Node, Memory>
    ensures { IfOk result (λ made. made ≡ literal value.now) }
{
    let value = value.try_copy(alloc)?;
    Ok(Node {
        kind: NodeKind::Literal { value },
    })
}

/// A body like another one, with these statements.
fn with_statements(
    alloc: Global,
    body: &Sequence,
    statements: Statements,
) -> Result<Sequence, Memory>
    ensures { IfOk result (λ made. made ≡ record body.now { statements = statements }) }
{
    Ok(Sequence {
        temporaries: body.temporaries.try_copy(alloc)?,
        statements,
        tail: body.tail.try_copy(alloc)?,
    })
}

/// The metavariable that the pattern is, where it is one that is doubled.
fn whole_meta(pattern: &Pattern) -> Option<Meta>
    ensures { MatchOption result (is_whole pattern.now ≡ false) (λ m. IsWhole pattern.now (meta_of m)) }
{
    match &pattern.kind {
        PatternKind::Meta { meta } => { if meta.doubled { Some(*meta) } else { None } }
        _ => None,
    }
}

/// What the pattern binds in the node, where it matches.
fn bindings_at<'n>(
    alloc: Global,
    names: &Names,
    pattern: &Pattern,
    node: &'n Node,
) -> Result<Option<Vec<Held<'n>>>, Memory>
    requires pattern { PatternNames (λ n. n < length names.now) pattern.now }
    requires node { AllNames (λ n. n < length names.now) node.now }
    ensures found { IfOk result (λ found. MatchOption found (IsNoMatch names.now pattern.now node.now) (λ bs. AreBoundIn names.now pattern.now node.now (map held_of bs.items))) }
    ensures lower { IfOk result (λ found. MatchOption found (Unit {0}) (λ bs. is_whole pattern.now ≡ false → bindings_height bs.items < height node.now)) }
{
    // The length is asked for, since it tells that no text stands twice among the names.
    let _ = names.len();
    match_at(alloc, names, pattern, node)
}

/// The replacement, filled with the node, for which the metavariable stands; the node itself where it may not.
fn replaced(
    alloc: Global,
    names: &mut Names,
    rule: &Rule,
    wanted: &[Meta],
    meta: Meta,
    node: Node,
) -> Result<Node, Memory>
    requires rule { RuleNames names.old rule.now }
    requires pattern { IsWhole rule.now.pattern (meta_of meta) }
    requires node { AllNames (λ n. n < length names.old) node }
    ensures replaced { IfOk result (λ made. (final : List (List ℕ)) → Grows names.new final → IsChanged final (replaced final rule.now) node made) }
    ensures grows { Grows names.old names.new }
{
    if bindings_at(alloc, names, &rule.pattern, &node)?.is_none() {
        return Ok(node);
    }
    let bound = Bound::Part(Box::new(alloc, node)?);
    let mut bindings = Vec::new(alloc);
    let single = is_single(wanted, meta);
    bindings.push(binding_for(single, meta, bound))?;
    fill(alloc, names, bindings.as_mut_slice(), &rule.replacement)
}

/// What becomes of a node.
#[cycle(rewriting)]
fn rewritten_node(
    alloc: Global,
    names: &mut Names,
    rule: &Rule,
    wanted: &[Meta],
    node: &Node,
) -> Result<Node, Memory>
    requires rule { RuleNames names.old rule.now }
    requires node { AllNames (λ n. n < length names.old) node.now }
    ensures changed { IfOk result (λ made. (final : List (List ℕ)) → Grows names.new final → IsChanged final (becomes final rule.now) node.now made) }
    ensures grows { Grows names.old names.new }
{
    match whole_meta(&rule.pattern) {
        Some(meta) => {
            let below = rewritten_below(alloc, names, rule, wanted, &node.kind)?;
            replaced(alloc, names, rule, wanted, meta, below)
        }
        None => rewritten_match(alloc, names, rule, wanted, node),
    }
}

/// The same for a pattern that is not one doubled metavariable.
#[cycle(rewriting)]
fn rewritten_match(
    alloc: Global,
    names: &mut Names,
    rule: &Rule,
    wanted: &[Meta],
    node: &Node,
) -> Result<Node, Memory>
    requires rule { RuleNames names.old rule.now }
    requires node { AllNames (λ n. n < length names.old) node.now }
    requires pattern { is_whole rule.now.pattern ≡ false }
    ensures changed { IfOk result (λ made. (final : List (List ℕ)) → Grows names.new final → IsChanged final (becomes final rule.now) node.now made) }
    ensures grows { Grows names.old names.new }
{
    match bindings_at(alloc, names, &rule.pattern, node)? {
        None => rewritten_below(alloc, names, rule, wanted, &node.kind),
        Some(held) => {
            let mut bindings = rewritten_bindings(alloc, names, rule, wanted, held.as_slice())?;
            fill(alloc, names, bindings.as_mut_slice(), &rule.replacement)
        }
    }
}

/// A node of which the nodes right below are rewritten.
#[cycle(rewriting)]
fn rewritten_below(
    alloc: Global,
    names: &mut Names,
    rule: &Rule,
    wanted: &[Meta],
    kind: &NodeKind,
) -> Result<Node, Memory>
    requires rule { RuleNames names.old rule.now }
    requires node { AllNames (λ n. n < length names.old) (tree_of kind.now) }
    ensures changed { IfOk result (λ made. (final : List (List ℕ)) → Grows names.new final → IsChanged final (each_child (becomes final rule.now)) (tree_of kind.now) made) }
    ensures grows { Grows names.old names.new }
{
    match kind {
        NodeKind::Var { name } => Ok(Node {
            kind: NodeKind::Var { name: *name },
        }),
        NodeKind::Literal { value } => literal_node(alloc, value),
        NodeKind::Send {
            receiver,
            selector,
            arguments,
        } => {
            let arguments = arguments.as_slice();
            rewritten_send(alloc, names, rule, wanted, receiver, *selector, arguments)
        }
        NodeKind::Cascade { receiver, messages } => {
            rewritten_cascade(alloc, names, rule, wanted, receiver, messages.as_slice())
        }
        NodeKind::Assign { name, value } => {
            rewritten_assignment(alloc, names, rule, wanted, *name, value)
        }
        NodeKind::Block { parameters, body } => {
            rewritten_block(alloc, names, rule, wanted, parameters, body)
        }
        NodeKind::Brace { items } => rewritten_brace(alloc, names, rule, wanted, items.as_slice()),
        NodeKind::Return { value } => rewritten_return(alloc, names, rule, wanted, value),
    }
}

/// What becomes of a node, in memory of its own.
#[cycle(rewriting)]
fn boxed_node(
    alloc: Global,
    names: &mut Names,
    rule: &Rule,
    wanted: &[Meta],
    node: &Node,
) -> Result<Box<Node>, Memory>
    requires rule { RuleNames names.old rule.now }
    requires node { AllNames (λ n. n < length names.old) node.now }
    ensures changed { IfOk result (λ made. (final : List (List ℕ)) → Grows names.new final → IsChanged final (becomes final rule.now) node.now made.value) }
    ensures grows { Grows names.old names.new }
{
    let made = rewritten_node(alloc, names, rule, wanted, node)?;
    Ok(Box::new(alloc, made)?)
}

/// A message to its receiver, both rewritten.
#[cycle(rewriting)]
fn rewritten_send(
    alloc: Global,
    names: &mut Names,
    rule: &Rule,
    wanted: &[Meta],
    receiver: &Node,
    selector: NameId,
    arguments: &[Node],
) -> Result<Node, Memory>
    requires rule { RuleNames names.old rule.now }
    requires receiver { AllNames (λ n. n < length names.old) receiver.now }
    requires selector { selector < length names.old }
    requires arguments { TreesNames (λ n. n < length names.old) (trees_of arguments.now) }
    ensures changed { IfOk result (λ made. (final : List (List ℕ)) → Grows names.new final → IsChanged final (each_child (becomes final rule.now)) (send receiver.now selector (trees_of arguments.now)) made) }
    ensures grows { Grows names.old names.new }
{
    let receiver = boxed_node(alloc, names, rule, wanted, receiver)?;
    let arguments = rewritten_nodes(alloc, names, rule, wanted, arguments)?;
    Ok(Node {
        kind: NodeKind::Send {
            receiver,
            selector,
            arguments,
        },
    })
}

/// Messages to their receiver, rewritten.
#[cycle(rewriting)]
fn rewritten_cascade(
    alloc: Global,
    names: &mut Names,
    rule: &Rule,
    wanted: &[Meta],
    receiver: &Node,
    messages: &[Message],
) -> Result<Node, Memory>
    requires rule { RuleNames names.old rule.now }
    requires receiver { AllNames (λ n. n < length names.old) receiver.now }
    requires messages { MessagesNames (λ n. n < length names.old) (messages_of messages.now) }
    ensures changed { IfOk result (λ made. (final : List (List ℕ)) → Grows names.new final → IsChanged final (each_child (becomes final rule.now)) (cascade receiver.now (messages_of messages.now)) made) }
    ensures grows { Grows names.old names.new }
{
    let receiver = boxed_node(alloc, names, rule, wanted, receiver)?;
    let messages = rewritten_messages(alloc, names, rule, wanted, messages)?;
    Ok(Node {
        kind: NodeKind::Cascade { receiver, messages },
    })
}

/// An assignment, whose value is rewritten.
#[cycle(rewriting)]
fn rewritten_assignment(
    alloc: Global,
    names: &mut Names,
    rule: &Rule,
    wanted: &[Meta],
    name: NameId,
    value: &Node,
) -> Result<Node, Memory>
    requires rule { RuleNames names.old rule.now }
    requires name { name < length names.old }
    requires value { AllNames (λ n. n < length names.old) value.now }
    ensures changed { IfOk result (λ made. (final : List (List ℕ)) → Grows names.new final → IsChanged final (each_child (becomes final rule.now)) (assign name value.now) made) }
    ensures grows { Grows names.old names.new }
{
    let value = boxed_node(alloc, names, rule, wanted, value)?;
    Ok(Node {
        kind: NodeKind::Assign { name, value },
    })
}

/// A block, whose statements are rewritten.
#[cycle(rewriting)]
fn rewritten_block(
    alloc: Global,
    names: &mut Names,
    rule: &Rule,
    wanted: &[Meta],
    parameters: &Ids,
    body: &Sequence,
) -> Result<Node, Memory>
    requires rule { RuleNames names.old rule.now }
    requires parameters { AllByRecursion (λ n. n < length names.old) parameters.now }
    requires temporaries { AllByRecursion (λ n. n < length names.old) body.now.temporaries }
    requires statements { StatementsNames (λ n. n < length names.old) (statements_of body.now.statements) }
    ensures changed { IfOk result (λ made. (final : List (List ℕ)) → Grows names.new final → IsChanged final (each_child (becomes final rule.now)) (block parameters.now body.now.temporaries (statements_of body.now.statements) body.now.tail) made) }
    ensures grows { Grows names.old names.new }
{
    let statements = rewritten_statements(alloc, names, rule, wanted, body.statements.as_slice())?;
    let made = with_statements(alloc, body, statements)?;
    let body = Box::new(alloc, made)?;
    let parameters = parameters.try_copy(alloc)?;
    Ok(Node {
        kind: NodeKind::Block { parameters, body },
    })
}

/// An array, whose items are rewritten.
#[cycle(rewriting)]
fn rewritten_brace(
    alloc: Global,
    names: &mut Names,
    rule: &Rule,
    wanted: &[Meta],
    items: &[Node],
) -> Result<Node, Memory>
    requires rule { RuleNames names.old rule.now }
    requires items { TreesNames (λ n. n < length names.old) (trees_of items.now) }
    ensures changed { IfOk result (λ made. (final : List (List ℕ)) → Grows names.new final → IsChanged final (each_child (becomes final rule.now)) (brace (trees_of items.now)) made) }
    ensures grows { Grows names.old names.new }
{
    let items = rewritten_nodes(alloc, names, rule, wanted, items)?;
    Ok(Node {
        kind: NodeKind::Brace { items },
    })
}

/// A return, whose value is rewritten.
#[cycle(rewriting)]
fn rewritten_return(
    alloc: Global,
    names: &mut Names,
    rule: &Rule,
    wanted: &[Meta],
    value: &Node,
) -> Result<Node, Memory>
    requires rule { RuleNames names.old rule.now }
    requires value { AllNames (λ n. n < length names.old) value.now }
    ensures changed { IfOk result (λ made. (final : List (List ℕ)) → Grows names.new final → IsChanged final (each_child (becomes final rule.now)) (return value.now) made) }
    ensures grows { Grows names.old names.new }
{
    let value = boxed_node(alloc, names, rule, wanted, value)?;
    Ok(Node {
        kind: NodeKind::Return { value },
    })
}

/// What becomes of nodes.
#[cycle(rewriting)]
fn rewritten_nodes(
    alloc: Global,
    names: &mut Names,
    rule: &Rule,
    wanted: &[Meta],
    nodes: &[Node],
) -> Result<Nodes, Memory>
    requires rule { RuleNames names.old rule.now }
    requires nodes { TreesNames (λ n. n < length names.old) (trees_of nodes.now) }
    ensures changed { IfOk result (λ made. (final : List (List ℕ)) → Grows names.new final → Paired (IsChanged final (becomes final rule.now)) nodes.now made) }
    ensures grows { Grows names.old names.new }
{
    let mut made = Vec::new(alloc);
    for node in nodes {
        let one = rewritten_node(alloc, names, rule, wanted, node)?;
        made.push(one)?;
    }
    Ok(Nodes::from_vec(made))
}

/// What becomes of the messages of a cascade: their arguments are rewritten.
#[cycle(rewriting)]
fn rewritten_messages(
    alloc: Global,
    names: &mut Names,
    rule: &Rule,
    wanted: &[Meta],
    messages: &[Message],
) -> Result<Messages, Memory>
    requires rule { RuleNames names.old rule.now }
    requires messages { MessagesNames (λ n. n < length names.old) (messages_of messages.now) }
    ensures changed { IfOk result (λ made. (final : List (List ℕ)) → Grows names.new final → Paired (IsMessageChanged final (becomes final rule.now)) messages.now made) }
    ensures grows { Grows names.old names.new }
{
    let mut made = Vec::new(alloc);
    for message in messages {
        let arguments = rewritten_nodes(alloc, names, rule, wanted, message.arguments.as_slice())?;
        made.push(Message {
            selector: message.selector,
            arguments,
        })?;
    }
    Ok(Messages::from_vec(made))
}

/// What becomes of statements, which keep their comments.
#[cycle(rewriting)]
fn rewritten_statements(
    alloc: Global,
    names: &mut Names,
    rule: &Rule,
    wanted: &[Meta],
    statements: &[Statement],
) -> Result<Statements, Memory>
    requires rule { RuleNames names.old rule.now }
    requires statements { StatementsNames (λ n. n < length names.old) (statements_of statements.now) }
    ensures changed { IfOk result (λ made. (final : List (List ℕ)) → Grows names.new final → Paired (IsStatementChanged final (becomes final rule.now)) statements.now made) }
    ensures grows { Grows names.old names.new }
{
    let mut made = Vec::new(alloc);
    for statement in statements {
        let comments = statement.comments.try_copy(alloc)?;
        let node = rewritten_node(alloc, names, rule, wanted, &statement.node)?;
        made.push(Statement { comments, node })?;
    }
    Ok(Statements::from_vec(made))
}

/// What becomes of what a doubled metavariable is bound to.
#[cycle(rewriting)]
fn rewritten_part<'n>(
    alloc: Global,
    names: &mut Names,
    rule: &Rule,
    wanted: &[Meta],
    standing: &Standing<'n>,
) -> Result<Bound, Memory>
    requires rule { RuleNames names.old rule.now }
    requires part { BoundNames (λ n. n < length names.old) (bound_from standing.now) }
    ensures changed { IfOk result (λ made. (final : List (List ℕ)) → Grows names.new final → IsBoundChanged final (becomes final rule.now) (bound_from standing.now) (bound_of made)) }
    ensures grows { Grows names.old names.new }
{
    match standing {
        Standing::Part(node) => {
            let made = boxed_node(alloc, names, rule, wanted, node)?;
            Ok(Bound::Part(made))
        }
        Standing::Run(run) => {
            let run = rewritten_statements(alloc, names, rule, wanted, run)?;
            Ok(Bound::Run(run))
        }
        Standing::Message(selector, arguments) => {
            let arguments = rewritten_nodes(alloc, names, rule, wanted, arguments)?;
            Ok(Bound::Whole(Message {
                selector: *selector,
                arguments,
            }))
        }
        _ => copied(alloc, standing),
    }
}

/// What a metavariable is bound to, rewritten where it is doubled and copied otherwise.
#[cycle(rewriting)]
fn rewritten_binding<'n>(
    alloc: Global,
    names: &mut Names,
    rule: &Rule,
    wanted: &[Meta],
    held: &Held<'n>,
) -> Result<Binding, Memory>
    requires rule { RuleNames names.old rule.now }
    requires held { BindingNames (λ n. n < length names.old) (held_of held.now) }
    ensures changed { IfOk result (λ made. (final : List (List ℕ)) → Grows names.new final → IsBindingChanged final (becomes final rule.now) (held_of held.now) made) }
    ensures grows { Grows names.old names.new }
{
    let single = is_single(wanted, held.meta);
    if held.meta.doubled {
        let part = rewritten_part(alloc, names, rule, wanted, &held.bound)?;
        Ok(binding_for(single, held.meta, part))
    } else {
        let part = copied(alloc, &held.bound)?;
        Ok(binding_for(single, held.meta, part))
    }
}

/// The same for what all metavariables are bound to.
#[cycle(rewriting)]
fn rewritten_bindings<'n>(
    alloc: Global,
    names: &mut Names,
    rule: &Rule,
    wanted: &[Meta],
    held: &[Held<'n>],
) -> Result<Vec<Binding>, Memory>
    requires rule { RuleNames names.old rule.now }
    requires held { AllByRecursion (BindingNames (λ n. n < length names.old)) (map held_of held.now) }
    ensures changed { IfOk result (λ made. (final : List (List ℕ)) → Grows names.new final → AreChanged final (becomes final rule.now) (map held_of held.now) made.items) }
    ensures grows { Grows names.old names.new }
{
    let mut made = Vec::new(alloc);
    for one in held {
        let binding = rewritten_binding(alloc, names, rule, wanted, one)?;
        made.push(binding)?;
    }
    Ok(made)
}

/// The body of a method or a do-it in which the rule is applied. At a node that the pattern matches, the parts of doubled
/// metavariables are rewritten first, and then the replacement is filled; any other node has the nodes right below it
/// rewritten. A statement that is replaced keeps its comments. The names of selectors that keywords make are added to the
/// table, where they are new. The error is want of memory.
pub fn rewrite_body(
    alloc: Global,
    names: &mut Names,
    rule: &Rule,
    body: &Sequence,
) -> Result<Sequence, Memory>
    requires pattern { PatternNames (λ n. n < length names.old) rule.now.pattern }
    requires replacement { PatternNames (λ n. n < length names.old) rule.now.replacement }
    requires body { SequenceNames (λ n. n < length names.old) (sequence_of body.now) }
    ensures rewritten { IfOk result (λ b. map_sequence (name_at names.new) (sequence_of b) ≡ rewritten_sequence text_pattern_words concat
        (record { pattern = map_pattern (name_at names.new) rule.now.pattern; replacement = map_pattern (name_at names.new) rule.now.replacement })
        (map_sequence (name_at names.new) (sequence_of body.now))) }
    ensures known { IfOk result (λ b. SequenceNames (λ n. n < length names.new) (sequence_of b)) }
    ensures grows { Grows names.old names.new }
{
    let mut wanted = Vec::new(alloc);
    put_metas(&rule.replacement, &mut wanted)?;
    let statements = body.statements.as_slice();
    let statements = rewritten_statements(alloc, names, rule, wanted.as_slice(), statements)?;
    with_statements(alloc, body, statements)
}
