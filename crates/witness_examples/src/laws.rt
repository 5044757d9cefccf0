// Examples of witnesses. The function does nothing; its contract is that the definitions give what stands beside each example.
ghost use Rattle.witness_examples.specs.Examples.{AllShown, names, classes, methods, parts, messages, temporaries, heights, AreRulesShown, IsText};

/// In small images what is in the way of conditions is what stands beside them; and a refusal is explained by the text that
/// stands there.
pub fn judges_witnesses()
    ensures names { AllShown names }
    ensures classes { AllShown classes }
    ensures methods { AllShown methods }
    ensures parts { AllShown parts }
    ensures messages { AllShown messages }
    ensures temporaries { AllShown temporaries }
    ensures heights { AllShown heights }
    ensures rules { AreRulesShown }
    ensures text { IsText }
{}
