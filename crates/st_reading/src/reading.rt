// What is found in a text without any fault.
ghost use Rattle.std.specs.Prelude.{IfOk, IfErr};
ghost use Rattle.grammar_model.specs.Whole.{DoIt, Method, PatternText};
ghost use Rattle.st_faults.specs.Faults.{IsRefused};
ghost use Rattle.st_reading.specs.Found.{IsDoItFound, IsMethodFound, IsPatternFound};

use event_checks::check_tree;
use parse_events::{Declarations, MethodEvents, SequenceEvents};
use st_events::{doit_events, method_events, pattern_events};
use st_faults::{ParseFault, check_doit, check_method, check_pattern};
use std::alloc::Global;

/// What is found in a do-it of Smalltalk-80 (Goldberg and Robson 1983), with brace arrays. The text is refused with its
/// first fault, as `ParseFault` tells, at an offset in bytes from the text's start. Nothing recurs, and the time and the
/// memory that it takes from `alloc` are linear in the text. A text of 4 GiB or more that has no fault is answered with
/// `Memory`, since places take four bytes.
pub fn read_doit(alloc: Global, text: &[u8]) -> Result<SequenceEvents, ParseFault>
    ensures found { IfOk result (IsDoItFound text.now) }
    ensures fault { IfErr result (IsRefused DoIt text.now) }
{
    let Some(found) = doit_events(alloc, text)? else {
        check_doit(alloc, text)?;
        unreachable!()
    };
    let arguments = Declarations::new(alloc);
    check_tree(alloc, &arguments, &found)?;
    Ok(found)
}

/// What is found in a method of Smalltalk-80, of the kernel, where a primitive may be its body, or of a user. Faults,
/// time, memory and texts of 4 GiB or more are as for `read_doit`.
pub fn read_method(alloc: Global, text: &[u8], kernel: bool) -> Result<MethodEvents, ParseFault>
    ensures found { IfOk result (IsMethodFound kernel text.now) }
    ensures fault { IfErr result (IsRefused (Method kernel) text.now) }
{
    let Some(found) = method_events(alloc, text, kernel)? else {
        check_method(alloc, text, kernel)?;
        unreachable!()
    };
    check_tree(alloc, &found.arguments, &found.body)?;
    Ok(found)
}

/// What is found in a pattern: one expression of Smalltalk-80 in which metavariables may stand, as the one statement of a
/// do-it, without comments around it. Metavariables stand in it as names and keywords with their backquotes. Faults,
/// time, memory and texts of 4 GiB or more are as for `read_doit`.
pub fn read_pattern(alloc: Global, text: &[u8]) -> Result<SequenceEvents, ParseFault>
    ensures found { IfOk result (IsPatternFound text.now) }
    ensures fault { IfErr result (IsRefused PatternText text.now) }
{
    let Some(found) = pattern_events(alloc, text)? else {
        check_pattern(alloc, text)?;
        unreachable!()
    };
    let arguments = Declarations::new(alloc);
    check_tree(alloc, &arguments, &found)?;
    Ok(found)
}
