// A rule with its certificate, carried out after others.
ghost use Rattle.std.specs.Prelude.{◌≡◌, true, IfOk};
ghost use Rattle.rb_base.specs.Names.{HasNoTwice};
ghost use Rattle.class_table.specs.Slots.{Slots};
ghost use Rattle.class_table.specs.View.{image_of};
ghost use Rattle.history_model.specs.History.{after_action};
ghost use Rattle.rename_model.specs.CommandWords.{text_command_words};
ghost use Rattle.rename_model.specs.Conditions as reflection;
ghost use Rattle.rule_model.specs.RuleCommands as rule;
ghost use Rattle.ruled_model.specs.RuledScripts.{Applies, ruled};
ghost use Rattle.event_trees.specs.Naming.{Grows};
ghost use Rattle.commands.specs.Views.{HasSelf};
ghost use Rattle.certificates.specs.Asked.{command_in, IsKnownRule};
ghost use Rattle.session.specs.Stepping.{IsUnderWay};
ghost use Rattle.session.specs.Refused.{rule_told};
ghost use Rattle.session.specs.Making.{IsMadeOf};

use crate::done::Done;
use crate::performing::carry_out;
use crate::refusal::RuleRefusal;
use crate::renames::Renames;
use certificates::RuleRequest;
use class_table::Image;
use command_numbers::commands_by_numbers;
use commands::Condition;
use conditions::has_no_reflection;
use derivations::{Derivation, derives};
use image_heights::{is_shallow, makes_high};
use image_rewriting::plan_rule;
use rb_base::{Memory, Steps};
use reference_index::Index;
use std::alloc::Global;
use std::sync::ledger::Ledger;

/// Whether the certificate derives the rule. The words of the laws are added to the names of the image.
fn is_derived(alloc: Global, image: &mut Image, request: &RuleRequest) -> Result<bool, Memory>
    requires known { IsKnownRule image.old.names request.now }
    ensures rest { image.new ≡ record image.old { names = image.new.names } }
    ensures grows { Grows image.old.names image.new.names }
    ensures once { HasNoTwice image.new.names }
    ensures exact { IfOk result (λ is. is ≡ rule.is_derived (command_in image.old.names request.now)) }
{
    let derivation = derives(
        alloc,
        &request.rule,
        &request.certificate,
        image.names_mut(),
    );
    let _count = image.names().len();
    match derivation? {
        Derivation::Yes => Ok(true),
        Derivation::Stuck { .. } => Ok(false),
    }
}

/// Rewrites all code of users after others, by a rule that its certificate derives, if no code looks at the program itself. It is
/// refused if a tree is too high then; if a change makes one, no change is made.
fn rewrite<L: Ledger>(
    alloc: Global,
    image: &mut Image,
    index: &mut Index,
    request: &RuleRequest,
    done: &mut Done,
    steps: &mut Steps<L>,
) -> Result<(), RuleRefusal>
    requires under_way { (first : Slots) × IsUnderWay first image.old index.old done.old }
    requires known { IsKnownRule image.old.names request.now }
    requires quiet { reflection.has_no_reflection text_command_words (image_of image.old) ≡ true }
    requires derived { rule.is_derived (command_in image.old.names request.now) ≡ true }
    ensures { IsMadeOf image.old index.old done.old (λ v. after_action ruled v (Applies (command_in image.old.names request.now))) image.new index.new done.new (rule_told (command_in image.old.names request.now).certificate) result }
{
    let planned = plan_rule(alloc, image, &request.rule, steps)?;
    if makes_high(planned.changes.as_slice()) {
        return Err(RuleRefusal::Condition(Condition::Shallow));
    }
    carry_out(image, index, planned, Renames::Nothing, done, steps)?;
    if is_shallow(image, steps) {
        Ok(())
    } else {
        Err(RuleRefusal::Condition(Condition::Shallow))
    }
}

/// Rewrites all code of users by the rule after others, if no code looks at the program itself and the certificate derives the
/// rule. The names of the image may be more then.
pub(crate) fn perform_rule<L: Ledger>(
    alloc: Global,
    image: &mut Image,
    index: &mut Index,
    request: &RuleRequest,
    done: &mut Done,
    steps: &mut Steps<L>,
) -> Result<(), RuleRefusal>
    requires under_way { (first : Slots) × IsUnderWay first image.old index.old done.old }
    requires self_known { HasSelf image.old.names }
    requires known { IsKnownRule image.old.names request.now }
    ensures { IsMadeOf image.old index.old done.old (λ v. after_action ruled v (Applies (command_in image.old.names request.now))) image.new index.new done.new (rule_told (command_in image.old.names request.now).certificate) result }
{
    commands_by_numbers();
    if !has_no_reflection(alloc, image, index, steps)? {
        return Err(RuleRefusal::Condition(Condition::NoReflection));
    }
    if !is_derived(alloc, image, request)? {
        return Err(RuleRefusal::NotDerived);
    }
    rewrite(alloc, image, index, request, done, steps)
}
