// Examples of scripts, held against the definitions. The function does nothing; its contract is the law.
ghost use Rattle.command_examples.specs.Scripts.{AllJudged, undoings, composites};

/// In small images scripts come to the version that stands beside them, with what can be undone and redone, or are refused
/// at the line and with the condition that stand beside them.
pub fn judges_scripts()
    ensures undoings { AllJudged undoings }
    ensures composites { AllJudged composites }
{}
