// Why texts of patterns are refused.
ghost use Rattle.std.specs.Prelude.{◌≡◌};
ghost use Rattle.pattern_faults.specs.declared.fault.PatternFault.TheVariants as fault;
ghost use Rattle.st_faults.specs.declared.fault.ParseFault.TheVariants as parse;

use rb_base::Memory;
use st_reading::ParseFault;

/// Why the text of a pattern is refused, with places in bytes from its start.
#[derive(Clone, Copy)]
pub enum PatternFault {
    /// The text is no expression with metavariables, or memory is wanting.
    Text(ParseFault),
    /// A second metavariable for a list of statements stands in one sequence.
    TwoLists { at: usize },
    /// A metavariable of a replacement stands nowhere in the pattern.
    UnboundInReplacement { at: usize },
    /// A metavariable stands a second time in a replacement, and the pattern doubles it somewhere.
    TwiceDoubled { at: usize },
}

/// Which of the two texts of a rule is refused, and why.
#[derive(Clone, Copy)]
pub enum RuleFault {
    /// The pattern.
    Pattern(PatternFault),
    /// The replacement; the pattern is none of the faults.
    Replacement(PatternFault),
}

impl From<ParseFault> for PatternFault {
    ghost from_gives = { λ f e. e ≡ fault.Text f };

    fn from(fault: ParseFault) -> PatternFault {
        PatternFault::Text(fault)
    }
}

impl From<Memory> for PatternFault {
    ghost from_gives = { λ _ e. e ≡ fault.Text parse.Memory };

    fn from(_error: Memory) -> PatternFault {
        PatternFault::Text(ParseFault::Memory)
    }
}
