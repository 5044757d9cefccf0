// Laws of images whose names are resolved. Each function does nothing; its contract is the law, for all images whose
// names are texts.
ghost use Rattle.std.specs.Prelude.{◌≡◌, ℕ};
ghost use Rattle.image_model.specs.Image.{ImageOf};
ghost use Rattle.run_model.specs.Values.{Name};
ghost use Rattle.run_model.specs.Runs.{run_to, run};
ghost use Rattle.run_model.specs.Renamings.{no_renaming};
ghost use Rattle.run_model.specs.Matched.{AreMatched};
ghost use Rattle.resolved_model.specs.ResolvedImages.{resolved_image};
ghost use Rattle.resolved_model.specs.ResolvedRuns.{resolved_run_to, resolved_run};

/// The run of an image is that of the image with its names resolved: with the depth of a run, and with any other.
pub fn law_resolved_runs()
    ensures run { (i : ImageOf Name) (n : ℕ) → resolved_run (resolved_image i) n ≡ run i n }
    ensures any_depth { (i : ImageOf Name) (d n : ℕ) → resolved_run_to (resolved_image i) d n ≡ run_to i d n }
{}

/// Two images that are the same once their names are resolved have the same runs, and are matched with nothing renamed:
/// so a run does not depend on the names of arguments and temporaries, nor on which class of a chain defines an instance
/// variable or a class-instance variable, nor on variables that no node means.
pub fn law_same_resolved()
    ensures run { (i j : ImageOf Name) (n : ℕ) → resolved_image i ≡ resolved_image j → run i n ≡ run j n }
    ensures matched { (i j : ImageOf Name) → resolved_image i ≡ resolved_image j → AreMatched i j no_renaming }
{}
