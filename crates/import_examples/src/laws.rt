// The tables. The function does nothing; its contract is that they are right.
ghost use Rattle.import_examples.specs.Examples.{AllMade, rows};

/// Messages by which other Smalltalks file out become the chunks that stand beside them, or are refused with the cause that
/// stands beside them; and messages of this one stay.
pub fn judges_examples()
    ensures { AllMade rows }
{}
