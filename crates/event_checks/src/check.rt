ghost use Rattle.std.specs.Prelude.{◌≡◌, List, Some, None, IfOk, IfErr, MatchOption};
ghost use Rattle.grammar_model.specs.Checks.{sequence_fault};
ghost use Rattle.grammar_model.specs.Spanned.{Declared, SpannedSequence};
ghost use Rattle.parse_events.specs.Found.{declarations, sequence_events};
ghost use Rattle.st_faults.specs.Faults.{fault_of};

use crate::assignments::first_fixed;
use crate::duplicates::first_duplicate;
use crate::heights::first_tall;
use parse_events::{Declarations, SequenceEvents};
use st_faults::ParseFault;
use std::alloc::Global;

/// Judges the names and heights of a do-it, or of a method with these arguments, on what was found in its text. It is
/// refused with the first of these faults that it has, each at its first place in the order of the text, in bytes from
/// the text's start.
///
/// `DuplicateName`: a name that its list declared before. The arguments and the outermost temporaries are one list, and
/// so are the parameters and temporaries of each block. `AssignsFixed`: the variable of an assignment, where it is a
/// pseudo-variable, or where its innermost declaration is an argument or a parameter (Goldberg and Robson 1983).
/// `TooDeep`: the first token of an outermost statement that has more than 200 levels of nodes. `Memory`: want of
/// memory, at any time.
///
/// Of events that no tree has it tells nothing. Nothing recurs, and the time and the memory that it takes from `alloc`
/// are linear in the events and in the bytes of the names.
pub fn check_tree(
    alloc: Global,
    arguments: &Declarations,
    body: &SequenceEvents,
) -> Result<(), ParseFault>
    ensures sound { IfOk result (λ _. (ps : List Declared) (s : SpannedSequence) → arguments.now ≡ declarations ps → body.now ≡ sequence_events s → sequence_fault ps s ≡ None) }
    ensures fault { IfErr result (λ answer. (ps : List Declared) (s : SpannedSequence) → arguments.now ≡ declarations ps → body.now ≡ sequence_events s →
        MatchOption (fault_of answer) (Unit {0}) (λ fault. sequence_fault ps s ≡ Some fault)) }
{
    let parameters = arguments.as_slice();
    let temporaries = body.temporaries.as_slice();
    let events = body.events.as_slice();
    if let Some(at) = first_duplicate(alloc, parameters, temporaries, events)? {
        return Err(ParseFault::DuplicateName { at });
    }
    if let Some(at) = first_fixed(alloc, parameters, temporaries, events)? {
        return Err(ParseFault::AssignsFixed { at });
    }
    if let Some(at) = first_tall(alloc, events)? {
        return Err(ParseFault::TooDeep { at });
    }
    Ok(())
}
