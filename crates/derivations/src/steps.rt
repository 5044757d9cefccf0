// Whether the steps of a certificate lead from the pattern of a rule to its replacement.
ghost use Rattle.std.specs.Prelude.{◌≡◌, ◌<◌, ◌++◌, ◌∷◌, ◌↔◌, ℕ, length, map, IfOk, IsTrue};
ghost use Rattle.rb_base.specs.Names.{name_at};
ghost use Rattle.tree_model.specs.Tree.{TreeOf};
ghost use Rattle.tree_model.specs.Bare.{bare};
ghost use Rattle.st_tree.specs.View.{sequence_of};
ghost use Rattle.event_trees.specs.Naming.{Grows};
ghost use Rattle.pattern_model.specs.Named.{map_pattern};
ghost use Rattle.patterns.specs.Names.{PatternNames};
ghost use Rattle.certified_model.specs.Certificates.{stuck_at};
ghost use Rattle.certificates.specs.Shown.{step_shown};
ghost use Rattle.derivations.specs.Stuck.{stuck_step};
ghost use Rattle.derivations.specs.Signs.{sign_of, signs};
ghost use Rattle.derivations.specs.Words.{HasWords};
ghost use Rattle.derivations.specs.Numbered.{table_of};
ghost use Rattle.derivations.specs.Taken.{IsTable, AreKnown, IsOne, IsTaken, IsStuck, only};

use crate::gathering::put_marks;
use crate::laws::sides_of;
use crate::marking::{Marks, marked_node};
use crate::marks::Mark;
use crate::naming::name_marks;
use crate::turning::turned;
use crate::words::learn_words;
use certificates::{Certificate, Step};
use patterns::Rule;
use rb_base::{Ids, Memory, Names};
use st_tree::{
    Comments, Node, Path, Sequence, Statement, Statements, part_at_doit, replace_at_doit, same,
};
use std::alloc::Global;

/// Whether a certificate derives a rule.
#[derive(Clone, Copy, Debug, PartialEq, Eq)]
pub enum Derivation {
    /// It does.
    Yes,
    /// Its steps are counted from 1: this one does not apply; or, one more than there are, they make another pattern than the
    /// replacement.
    Stuck { step: usize },
}

/// A do-it of one statement.
fn doit_of(alloc: Global, node: Node) -> Result<Sequence, Memory>
    ensures { IfOk result (λ doit. sequence_of doit ≡ only node) }
{
    let mut statements = Vec::new(alloc);
    let comments = Comments::new(alloc);
    statements.push(Statement { comments, node })?;
    Ok(Sequence {
        temporaries: Ids::new(alloc),
        statements: Statements::from_vec(statements),
        tail: Comments::new(alloc),
    })
}

/// The path from a do-it of one statement to a part of that.
fn path_below(alloc: Global, path: &Path) -> Result<Path, Memory>
    ensures { IfOk result (λ below. below ≡ 0 ∷ path.now) }
{
    let mut below = Path::new(alloc);
    below.push(0)?;
    for step in path.as_slice() {
        below.push(*step)?;
    }
    Ok(below)
}

/// Takes a step in the one statement of a do-it; whether it applies. If it does not, nothing changes.
fn take_step(
    alloc: Global,
    names: &mut Names,
    marks: &Marks,
    step: &Step,
    tree: &mut Sequence,
) -> Result<bool, Memory>
    requires words { HasWords names.old }
    requires table { IsTable names.old (table_of marks.now) }
    requires one { IsOne names.old (sequence_of tree.old) }
    ensures taken { IfOk result (λ applies. IsTaken names.old names.new (table_of marks.now) (step_shown step.now) (sequence_of tree.old) (sequence_of tree.new) applies) }
    ensures grows { Grows names.old names.new }
{
    // No text of the table has two numbers.
    let _ = names.len();
    let Some(sides) = sides_of(alloc, names, step)? else {
        return Ok(false);
    };
    let path = path_below(alloc, &step.path)?;
    let Some(part) = part_at_doit(tree, &path) else {
        return Ok(false);
    };
    let found = turned(alloc, names, marks, &sides, part)?;
    let _ = names.len();
    let Some(made) = found else {
        return Ok(false);
    };
    let boxed = Box::new(alloc, made)?;
    let replaced = replace_at_doit(tree, &path, boxed);
    Ok(replaced.is_ok())
}

/// Whether the one statement of a do-it is this node, whatever the comments.
fn is_last(tree: &Sequence, last: &Node) -> bool
    ensures { (t : TreeOf ℕ) → sequence_of tree.now ≡ only t → IsTrue result ↔ (bare last.now ≡ bare t) }
{
    match tree.statements.as_slice().first() {
        Some(statement) => same(last, &statement.node),
        None => false,
    }
}

/// Takes the steps one after the other in the one statement of a do-it, which is to become the last node: the step at which this
/// is stuck.
fn stuck_in(
    alloc: Global,
    names: &mut Names,
    marks: &Marks,
    steps: &[Step],
    tree: &mut Sequence,
    last: &Node,
) -> Result<Derivation, Memory>
    requires words { HasWords names.old }
    requires table { IsTable names.old (table_of marks.now) }
    requires one { IsOne names.old (sequence_of tree.old) }
    requires last { AreKnown names.old last.now }
    ensures exact { IfOk result (λ d. IsStuck names.old (table_of marks.now) (map step_shown steps.now) (sequence_of tree.old) last.now (stuck_step d)) }
    ensures grows { Grows names.old names.new }
{
    for (index, step) in steps.iter().enumerate() {
        // No text of the table has two numbers.
        let _ = names.len();
        if !take_step(alloc, names, marks, step, tree)? {
            return Ok(Derivation::Stuck { step: index + 1 });
        }
    }
    let _ = names.len();
    if is_last(tree, last) {
        Ok(Derivation::Yes)
    } else {
        Ok(Derivation::Stuck {
            step: steps.len() + 1,
        })
    }
}

/// The marks of both patterns of a rule.
fn marks_of(alloc: Global, rule: &Rule) -> Result<Vec<Mark>, Memory>
    ensures { IfOk result (λ found. map sign_of found.items ≡ signs rule.now.pattern ++ signs rule.now.replacement) }
{
    let mut found = Vec::new(alloc);
    put_marks(alloc, &rule.pattern, &mut found)?;
    put_marks(alloc, &rule.replacement, &mut found)?;
    Ok(found)
}

/// Whether the certificate derives the rule, or the step at which it is stuck. The laws of the steps are applied one after the
/// other to the pattern; in the end it is to be the replacement, whatever the comments and which metavariables are doubled.
///
/// The words of the laws, and a name for each metavariable of the rule, are added to `names`. The error is want of memory.
pub fn derives(
    alloc: Global,
    rule: &Rule,
    certificate: &Certificate,
    names: &mut Names,
) -> Result<Derivation, Memory>
    requires pattern { PatternNames (λ n. n < length names.old) rule.now.pattern }
    requires replacement { PatternNames (λ n. n < length names.old) rule.now.replacement }
    ensures exact { IfOk result (λ d. stuck_step d ≡ stuck_at (map step_shown certificate.now.steps.items)
        (map_pattern (name_at names.old) rule.now.pattern) (map_pattern (name_at names.old) rule.now.replacement)) }
    ensures grows { Grows names.old names.new }
{
    let steps = certificate.steps.as_slice();
    if steps.is_empty() {
        return Ok(Derivation::Stuck { step: 1 });
    }
    learn_words(names)?;
    let found = marks_of(alloc, rule)?;
    let marks = name_marks(alloc, names, found)?;
    let first = marked_node(alloc, &marks, &rule.pattern)?;
    let last = marked_node(alloc, &marks, &rule.replacement)?;
    let mut tree = doit_of(alloc, first)?;
    // No text of the table has two numbers.
    let _ = names.len();
    stuck_in(alloc, names, &marks, steps, &mut tree, &last)
}
