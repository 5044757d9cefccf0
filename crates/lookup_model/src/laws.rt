// The law of look-ups that agree. The function does nothing; its contract is the law, for all images whose names are texts.
ghost use Rattle.std.specs.Prelude.{◌≡◌, ℕ};
ghost use Rattle.image_model.specs.Image.{ImageOf};
ghost use Rattle.run_model.specs.Values.{Name};
ghost use Rattle.run_model.specs.Runs.{run};
ghost use Rattle.run_model.specs.Renamings.{no_renaming};
ghost use Rattle.run_model.specs.Matched.{AreMatched};
ghost use Rattle.resolved_model.specs.ResolvedImages.{ResolvedImage, resolved_image};
ghost use Rattle.resolved_model.specs.ResolvedRuns.{resolved_run_to, resolved_run};
ghost use Rattle.lookup_model.specs.AgreeingLookups.{Reach, LookupsAgree};

/// Two images whose look-ups agree on all that their runs reach have the same runs: the same events, outcome and ticks, for
/// each number of ticks, and with each depth.
pub fn law_resolved_lookups()
    ensures run { (r : Reach) (i j : ResolvedImage) (n : ℕ) → LookupsAgree r i j → resolved_run j n ≡ resolved_run i n }
    ensures any_depth { (r : Reach) (i j : ResolvedImage) (d n : ℕ) → LookupsAgree r i j → resolved_run_to j d n ≡ resolved_run_to i d n }
    ensures images { (r : Reach) (i j : ImageOf Name) (n : ℕ) → LookupsAgree r (resolved_image i) (resolved_image j) → run j n ≡ run i n }
    ensures matched { (r : Reach) (i j : ImageOf Name) → LookupsAgree r (resolved_image i) (resolved_image j) → AreMatched i j no_renaming }
{}
