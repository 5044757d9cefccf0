// Copies of code in which a pattern matches, and what a rule makes of them.
ghost use Rattle.std.specs.Prelude.{◌≡◌, ◌<◌, length, slice_get, false, IfOk};
ghost use Rattle.rb_base.specs.Names.{HasNoTwice};
ghost use Rattle.tree_model.specs.AllNames.{SequenceNames};
ghost use Rattle.st_tree.specs.View.{sequence_of};
ghost use Rattle.event_trees.specs.Naming.{Grows};
ghost use Rattle.class_table.specs.View.{live_at};
ghost use Rattle.image_rewriting.specs.Changed.{KnowsRule, Becomes, HasNoMatch, IsCopy, IsBodyCopy};

use crate::equality::equal_bodies;
use class_table::{Image, MethodRec, MethodSlot};
use pattern_match::all_matches;
use patterns::Rule;
use rb_base::{Memory, Names, Steps, Text};
use rewritten_code::rewrite_body;
use st_tree::{Sequence, try_copy, try_copy_doit};
use std::alloc::Global;
use std::sync::ledger::Ledger;

/// Whether the pattern of the rule matches somewhere in the body.
fn has_match(alloc: Global, names: &Names, rule: &Rule, body: &Sequence) -> Result<bool, Memory>
    ensures { IfOk result (λ has. has ≡ false → HasNoMatch names.now rule.now body.now) }
{
    let mut found = Vec::new(alloc);
    all_matches(alloc, names, &rule.pattern, body, &mut found)?;
    Ok(!found.is_empty())
}

/// A copy of the method in a slot, without its source, if it is one of a user and the pattern of the rule matches in it.
pub(crate) fn matched_method<L: Ledger>(
    alloc: Global,
    image: &Image,
    rule: &Rule,
    slot: MethodSlot,
    steps: &mut Steps<L>,
) -> Result<Option<MethodRec>, Memory>
    ensures { IfOk result (λ copied. IsCopy image.now.names rule.now (live_at image.now.methods image.now.method_order slot) copied) }
{
    let Some(info) = image.method_info(slot) else {
        return Ok(None);
    };
    if info.kernel {
        return Ok(None);
    }
    let Some(tree) = image.open_body(slot, steps) else {
        return Ok(None);
    };
    if !has_match(alloc, image.names(), rule, &tree.body)? {
        return Ok(None);
    }
    Ok(Some(MethodRec {
        class: info.class,
        meta: info.meta,
        protocol: Text::from_slice(alloc, info.protocol)?,
        source: Text::new(alloc),
        tree: try_copy(alloc, tree)?,
        kernel: info.kernel,
    }))
}

/// A copy of the body of the do-it of a number, if the pattern of the rule matches in it.
pub(crate) fn matched_doit<L: Ledger>(
    alloc: Global,
    image: &Image,
    rule: &Rule,
    number: usize,
    steps: &mut Steps<L>,
) -> Result<Option<Sequence>, Memory>
    ensures { IfOk result (λ copied. IsBodyCopy image.now.names rule.now (slice_get image.now.doits number) copied) }
{
    let Some(body) = image.open_doit(number, steps) else {
        return Ok(None);
    };
    if !has_match(alloc, image.names(), rule, body)? {
        return Ok(None);
    }
    Ok(Some(try_copy_doit(alloc, body)?))
}

/// What the rule makes of a body, if that is another one, comments counted. New names are added to those of the image.
pub(crate) fn changed_body(
    alloc: Global,
    image: &mut Image,
    rule: &Rule,
    body: &Sequence,
) -> Result<Option<Sequence>, Memory>
    requires rule { KnowsRule image.old.names rule.now }
    requires body { SequenceNames (λ n. n < length image.old.names) (sequence_of body.now) }
    ensures rest { image.new ≡ record image.old { names = image.new.names } }
    ensures grows { Grows image.old.names image.new.names }
    ensures once { HasNoTwice image.new.names }
    ensures made { IfOk result (λ changed. Becomes image.new.names rule.now body.now changed) }
{
    let changed = rewrite_body(alloc, image.names_mut(), rule, body);
    let _count = image.names().len();
    let changed = changed?;
    if equal_bodies(alloc, body, &changed)? {
        return Ok(None);
    }
    Ok(Some(changed))
}
