// What is proposed, carried out one after the other.
ghost use Rattle.std.specs.Prelude.{◌≤◌, length, map};
ghost use Rattle.std.specs.List.{AllByRecursion};
ghost use Rattle.class_table.specs.Slots.{Slots};
ghost use Rattle.commands.specs.Views.{HasSelf};
ghost use Rattle.proposals.specs.Proposed.{IsNamed, Proposed, asked_over, asked_in};
ghost use Rattle.session.specs.Stepping.{IsUnderWay};
ghost use Rattle.session.specs.Refused.{group_told};
ghost use Rattle.session.specs.Making.{IsMadeOf};
ghost use Rattle.session.specs.Grouping.{after_nth, after_group};

use crate::done::Done;
use crate::performing::perform_action;
use crate::refusal::GroupRefusal;
use crate::ruling::perform_rule;
use class_table::Image;
use proposals::{Asked, Proposal};
use rb_base::Steps;
use reference_index::Index;
use ruled_laws::law_without_rules;
use std::alloc::Global;
use std::sync::ledger::Ledger;

/// Carries out after others what is asked for, which has this number.
fn perform_nth<'a, L: Ledger>(
    alloc: Global,
    image: &mut Image,
    index: &mut Index,
    nth: usize,
    asked: &'a Asked,
    done: &mut Done,
    steps: &mut Steps<L>,
) -> Result<(), GroupRefusal<'a>>
    requires under_way { (first : Slots) × IsUnderWay first image.old index.old done.old }
    requires self_known { HasSelf image.old.names }
    requires named { IsNamed (length image.old.names) asked.now }
    ensures { IsMadeOf image.old index.old done.old (after_nth nth (asked_over image.old.names asked.now)) image.new index.new done.new group_told result }
{
    law_without_rules();
    match asked {
        Asked::Action(action) => {
            match perform_action(alloc, image, index, action, done, steps) {
                Ok(()) => Ok(()),
                Err(refusal) => Err(refusal.at(nth)),
            }
        }
        Asked::Rule(request) => match perform_rule(alloc, image, index, request, done, steps) {
            Ok(()) => Ok(()),
            Err(refusal) => Err(refusal.at(nth, &request.certificate)),
        },
    }
}

/// Carries out in order after others what is proposed, or what comes before the first that is refused.
pub(crate) fn perform_group<'a, L: Ledger>(
    alloc: Global,
    image: &mut Image,
    index: &mut Index,
    proposals: &'a [Proposal],
    done: &mut Done,
    steps: &mut Steps<L>,
) -> Result<(), GroupRefusal<'a>>
    requires under_way { (first : Slots) × IsUnderWay first image.old index.old done.old }
    requires self_known { HasSelf image.old.names }
    requires known { AllByRecursion (λ p. p.names ≤ length image.old.names) proposals.now }
    ensures { IsMadeOf image.old index.old done.old (λ v. after_group 1 v (map (asked_in image.old.names) proposals.now)) image.new index.new done.new group_told result }
{
    let mut nth = 0;
    for proposal in proposals {
        nth += 1;
        let asked = proposal.asked();
        if let Err(refusal) = perform_nth(alloc, image, index, nth, asked, done, steps) {
            return Err(refusal);
        }
    }
    Ok(())
}
