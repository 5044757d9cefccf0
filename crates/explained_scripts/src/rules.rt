// The lines of what is in the way of a rule.
ghost use Rattle.std.specs.Prelude.{◌≡◌, ◌<◌, ℕ, List, length, Some, map, IfOk};
ghost use Rattle.rb_base.specs.Names.{name_at, HasNoTwice};
ghost use Rattle.image_model.specs.Image.{ImageOf};
ghost use Rattle.event_trees.specs.Naming.{Grows};
ghost use Rattle.class_table.specs.Valid.{IsOrderly};
ghost use Rattle.class_table.specs.View.{image_of};
ghost use Rattle.wider_slots.specs.Closed.{IsClosed};
ghost use Rattle.commands.specs.Views.{HasSelf};
ghost use Rattle.patterns.specs.Names.{PatternNames};
ghost use Rattle.pattern_model.specs.Named.{map_pattern};
ghost use Rattle.certified_model.specs.Certificates.{stuck_at};
ghost use Rattle.certificates.specs.Asked.{command_in, IsKnownRule};
ghost use Rattle.rewrite_model.specs.Rewritten.{rewritten_image};
ghost use Rattle.rule_model.specs.RuleCommands.{first_false_of_rule, Reason};
ghost use Rattle.ruled_model.specs.RuledScripts.{ByRule};
ghost use Rattle.refusal_witnesses.specs.Lines.{AreLines};
ghost use Rattle.refusal_witnesses.specs.ParameterWitnesses as model;
ghost use Rattle.why_model.specs.Refusals.{alone};
ghost use Rattle.why_model.specs.Explained.{AreLinesOf};

use certificates::RuleRequest;
use class_table::Image;
use derivations::{Derivation, derives};
use image_rewriting::rewrite_image;
use name_witnesses::reflections_there;
use patterns::Rule;
use rb_base::{Memory, Steps, Text};
use std::alloc::Global;
use std::sync::ledger::Ledger;
use use_witnesses::too_high;
use why_model::law_rules;
use witness_lists::Witness;
use witness_numbers::witnesses_by_numbers;
use witness_texts::witness_lines;

/// The step at which the certificate of a rule is stuck, if it does not derive the rule. The words of the laws are added to the
/// names of the image.
fn stuck_in(
    alloc: Global,
    image: &mut Image,
    request: &RuleRequest,
) -> Result<Option<usize>, Memory>
    requires known { IsKnownRule image.old.names request.now }
    ensures rest { image.new ≡ record image.old { names = image.new.names } }
    ensures grows { Grows image.old.names image.new.names }
    ensures once { HasNoTwice image.new.names }
    ensures exact { IfOk result (λ stuck. stuck ≡ stuck_at (command_in image.old.names request.now).certificate (command_in image.old.names request.now).rule.pattern (command_in image.old.names request.now).rule.replacement) }
{
    let derivation = derives(
        alloc,
        &request.rule,
        &request.certificate,
        image.names_mut(),
    );
    let _count = image.names().len();
    match derivation? {
        Derivation::Yes => Ok(None),
        Derivation::Stuck { step } => Ok(Some(step)),
    }
}

/// The lines of the code that is too high once a rule is applied, which is done then.
fn high_lines<L: Ledger>(
    alloc: Global,
    image: &mut Image,
    rule: &Rule,
    steps: &mut Steps<L>,
) -> Result<Vec<Text>, Memory>
    requires orderly { IsOrderly image.old }
    requires pattern { PatternNames (λ n. n < length image.old.names) rule.now.pattern }
    requires replacement { PatternNames (λ n. n < length image.old.names) rule.now.replacement }
    ensures { IfOk result (λ lines. (i : ImageOf (List ℕ)) → AreLines i (model.too_high (rewritten_image
        (record { pattern = map_pattern (name_at image.old.names) rule.now.pattern; replacement = map_pattern (name_at image.old.names) rule.now.replacement })
        (image_of image.old))) lines.items) }
{
    rewrite_image(alloc, image, rule)?;
    let mut found = Vec::new(alloc);
    too_high(alloc, image, &mut found, steps)?;
    witness_lines(alloc, image, found.as_slice())
}

/// The lines of what is in the way of a rule that is refused: the code that looks at the program itself; if there is none, the
/// step at which the certificate is stuck; if there is none, the code that is too high once the rule is applied, which is done
/// then. The words of the laws may be added to the names of the image.
pub(crate) fn rule_lines<L: Ledger>(
    alloc: Global,
    image: &mut Image,
    request: &RuleRequest,
    steps: &mut Steps<L>,
) -> Result<Vec<Text>, Memory>
    requires orderly { IsOrderly image.old }
    requires closed { IsClosed image.old }
    requires self_known { HasSelf image.old.names }
    requires known { IsKnownRule image.old.names request.now }
    ensures { IfOk result (λ lines. (reason : Reason) → first_false_of_rule (command_in image.old.names request.now) (image_of image.old) ≡ Some reason →
        AreLinesOf (alone (image_of image.old) (ByRule (command_in image.old.names request.now))) reason lines.items) }
{
    law_rules();
    witnesses_by_numbers();
    let mut found = Vec::new(alloc);
    reflections_there(alloc, image, &mut found, steps)?;
    if !found.is_empty() {
        return witness_lines(alloc, image, found.as_slice());
    }
    match stuck_in(alloc, image, request)? {
        Some(step) => {
            found.push(Witness::Step(step))?;
            witness_lines(alloc, image, found.as_slice())
        }
        None => high_lines(alloc, image, &request.rule, steps),
    }
}
