// The law of look-ups that agree, over code with names. The function does nothing; its contract is the law, for all images
// whose names are texts.
ghost use Rattle.std.specs.Prelude.{◌≡◌, ℕ};
ghost use Rattle.image_model.specs.Image.{ImageOf};
ghost use Rattle.run_model.specs.Values.{Name};
ghost use Rattle.run_model.specs.Runs.{run};
ghost use Rattle.run_model.specs.Renamings.{no_renaming};
ghost use Rattle.run_model.specs.Matched.{AreMatched};
ghost use Rattle.mapped_model.specs.NamesOfImages.{HasOrderedClasses};
ghost use Rattle.agreement_laws.specs.AgreeingImages.{Reached, AgreeOnReached};

/// Two images with equal do-its, whose look-ups agree on all that their runs reach, have the same runs: the same events,
/// outcome and ticks for each number of ticks. What they reach is given by lists of classes, selectors and methods of the
/// image before; longer lists serve as well, if the look-ups agree on them. Of both images it is asked that their classes are
/// in order and have names of their own.
pub fn law_lookups_agree_on()
    ensures run { (r : Reached) (i j : ImageOf Name) (n : ℕ) → HasOrderedClasses i → HasOrderedClasses j → AgreeOnReached r i j → run j n ≡ run i n }
    ensures matched { (r : Reached) (i j : ImageOf Name) → HasOrderedClasses i → HasOrderedClasses j → AgreeOnReached r i j → AreMatched i j no_renaming }
{}
