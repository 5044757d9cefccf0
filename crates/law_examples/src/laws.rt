// The examples. Each function does nothing; its contract is that the definitions give what stands beside each example.
ghost use Rattle.std.specs.Prelude.{[], ◌∷◌};
ghost use Rattle.pattern_model.specs.Spelled.{pattern_of};
ghost use Rattle.certified_model.specs.LawSteps.{SteppedAlong};
ghost use Rattle.law_examples.specs.CertificateExamples.{both_pattern, both_replaced, true_pattern, true_between, true_replaced, CertificateExamples};
ghost use Rattle.law_examples.specs.PatternExamples.{matches, AllMatched, rewritings, AllRewritten, spellings, AllSpelled};
ghost use Rattle.law_examples.specs.ParameterExamples.{ArePlain, AreUnread, OthersHold, AreMade};
ghost use Rattle.law_examples.specs.StripExamples.{AreStripped};

/// Patterns match nodes with the bindings that stand beside them, or do not match; rules find the places in code that stand
/// beside them, and make the code that stands there. Trees of spelled metavariables are of the patterns beside them.
pub fn matches_pattern_examples()
    ensures matched { AllMatched matches }
    ensures spelled { AllSpelled spellings }
    ensures rewritten { AllRewritten rewritings }
{}

/// In small images the conditions of parameters hold or do not hold, and what is made of the images is what stands beside
/// them.
pub fn judges_parameter_examples()
    ensures plain { ArePlain }
    ensures unread { AreUnread }
    ensures others { OthersHold }
    ensures made { AreMade }
{}

/// In a small image what is reached with a do-it, and what is left, are those that stand beside it.
pub fn strips_examples()
    ensures { AreStripped }
{}

/// Certificates derive the rules beside them or are stuck at the step beside them, by computation; and the first two rules
/// have rows of steps.
pub fn judges_certificates()
    ensures computed { CertificateExamples }
    ensures one_step { SteppedAlong (pattern_of both_pattern) [] (pattern_of both_replaced) }
    ensures two_steps { SteppedAlong (pattern_of true_pattern) (pattern_of true_between ∷ []) (pattern_of true_replaced) }
{}
