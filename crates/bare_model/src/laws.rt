// The law of images without comments. The function does nothing; its contract is the law, for all images whose names are
// texts.
ghost use Rattle.std.specs.Prelude.{◌≡◌, ℕ};
ghost use Rattle.image_model.specs.Image.{ImageOf};
ghost use Rattle.run_model.specs.Values.{Name};
ghost use Rattle.run_model.specs.Runs.{run};
ghost use Rattle.run_model.specs.Renamings.{no_renaming};
ghost use Rattle.run_model.specs.Matched.{AreMatched};
ghost use Rattle.bare_model.specs.BareImages.{bare_image};

/// A run looks at no source, comment, category or protocol, and not at which part is the kernel's. So two images that
/// differ in these alone have the same runs, and are matched with nothing renamed.
pub fn law_bare_runs()
    ensures run { (i : ImageOf Name) (n : ℕ) → run (bare_image i) n ≡ run i n }
    ensures matched { (i j : ImageOf Name) → bare_image i ≡ bare_image j → AreMatched i j no_renaming }
{}
