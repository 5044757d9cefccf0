// An image in which a rule is applied.
ghost use Rattle.std.specs.Prelude.{◌≡◌, ◌<◌, length, OnOk, OnErr};
ghost use Rattle.rb_base.specs.Names.{name_at};
ghost use Rattle.class_table.specs.View.{image_of};
ghost use Rattle.class_table.specs.Valid.{IsOrderly};
ghost use Rattle.pattern_model.specs.Named.{map_pattern};
ghost use Rattle.patterns.specs.Names.{PatternNames};
ghost use Rattle.rewrite_model.specs.Rewritten.{rewritten_image};
ghost use Rattle.image_rewriting.specs.Changed.{rule_of, KnowsRule};

use crate::planning::plan_rule;
use change_set::apply_all;
use class_table::Image;
use patterns::Rule;
use rb_base::{Memory, Steps};
use std::alloc::Global;
use std::marker::Brand;
use std::sync::ledger::{Blank, Ledger};

/// Applies the rule everywhere, and counts the trees that it opens.
fn rewrite_counted<L: Ledger>(
    alloc: Global,
    image: &mut Image,
    rule: &Rule,
    blank: Blank,
) -> Result<(), Memory>
    requires orderly { IsOrderly image.old }
    requires rule { KnowsRule image.old.names rule.now }
    requires name { blank.name ≡ L.name }
    requires parts { blank.parts ≡ L.parts }
    requires some { 0 < L.parts }
    ensures image { OnOk result (image_of image.new ≡ rewritten_image (rule_of image.old.names rule.now) (image_of image.old)) }
    ensures orderly { IsOrderly image.new }
    ensures kept { OnErr result (image_of image.new ≡ image_of image.old) }
{
    let mut steps = Steps::<L>::new(blank);
    let mut plan = plan_rule(alloc, image, rule, &mut steps)?;
    apply_all(image, &mut plan.changes);
    Ok(())
}

/// Applies the rule in each method of a user and in each do-it. Where the tree changes, comments counted, the source is its
/// canonical text then; all else keeps its bytes. The error is want of memory; the image is then as it was, but for further
/// names.
pub fn rewrite_image(alloc: Global, image: &mut Image, rule: &Rule) -> Result<(), Memory>
    requires orderly { IsOrderly image.old }
    requires pattern { PatternNames (λ n. n < length image.old.names) rule.now.pattern }
    requires replacement { PatternNames (λ n. n < length image.old.names) rule.now.replacement }
    ensures image { OnOk result (image_of image.new ≡ rewritten_image
        (record { pattern = map_pattern (name_at image.old.names) rule.now.pattern; replacement = map_pattern (name_at image.old.names) rule.now.replacement })
        (image_of image.old)) }
    ensures orderly { IsOrderly image.new }
    ensures kept { OnErr result (image_of image.new ≡ image_of image.old) }
{
    rewrite_counted::<Brand>(alloc, image, rule, Blank::new(1))
}
