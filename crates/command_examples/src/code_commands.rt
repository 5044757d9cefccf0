// Examples of commands that change code, held against the definitions. The function does nothing; its contract is the law.
ghost use Rattle.command_examples.specs.CodeRows.{AllJudged, parameters, methods, temporaries};
ghost use Rattle.command_examples.specs.CodeLists.{Listings, Stepped, Renamed};

/// In small images commands make the images that stand beside them, or are refused with the first condition that is
/// false, which stands beside them. Lists of conditions end before one that is given what is not there. Composites have
/// the steps that are listed, and commands change the names that are listed.
pub fn judges_code_examples()
    ensures parameters { AllJudged parameters }
    ensures methods { AllJudged methods }
    ensures temporaries { AllJudged temporaries }
    ensures listings { Listings }
    ensures steps { Stepped }
    ensures renamed { Renamed }
{}
