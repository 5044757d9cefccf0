// Laws of images without what is not reached. Each function does nothing; its contract is the law, for all images whose
// names are texts.
ghost use Rattle.std.specs.Prelude.{◌≡◌, ℕ, true};
ghost use Rattle.rb_base.specs.Names.{text_eq};
ghost use Rattle.image_model.specs.Image.{DoItOf, ImageOf, plus};
ghost use Rattle.image_model.specs.Words.{text_words};
ghost use Rattle.run_model.specs.Values.{Name};
ghost use Rattle.run_model.specs.Runs.{run};
ghost use Rattle.run_model.specs.Renamings.{no_renaming};
ghost use Rattle.run_model.specs.Matched.{AreMatched};
ghost use Rattle.mapped_model.specs.NamesOfImages.{HasOrderedClasses};
ghost use Rattle.agreement_laws.specs.KernelChains.{HasKernelChains};
ghost use Rattle.strip_model.specs.Reach.{ReachOf, is_closed};
ghost use Rattle.strip_model.specs.Stripped.{strip};

/// Where classes, selectors and methods are closed for an image with one more do-it, the image without the other classes and
/// methods has the same runs with that do-it: the same events, outcome and ticks, for each number of ticks. Nothing else is
/// asked of the three. Of the image it is asked that its classes are in order and have names of their own, and that those
/// of which the language itself speaks are the kernel's, with all above them. The image without the rest is in order too.
pub fn law_stripped()
    ensures run { (i : ImageOf Name) (e : DoItOf Name) (r : ReachOf Name) (n : ℕ) → HasOrderedClasses i → HasKernelChains i →
        is_closed text_words (plus i e) r ≡ true → run (plus (strip text_eq r i) e) n ≡ run (plus i e) n }
    ensures matched { (i : ImageOf Name) (e : DoItOf Name) (r : ReachOf Name) → HasOrderedClasses i → HasKernelChains i →
        is_closed text_words (plus i e) r ≡ true → AreMatched (plus i e) (plus (strip text_eq r i) e) no_renaming }
    ensures ordered { (i : ImageOf Name) (e : DoItOf Name) (r : ReachOf Name) → HasOrderedClasses i → is_closed text_words (plus i e) r ≡ true → HasOrderedClasses (strip text_eq r i) }
{}
