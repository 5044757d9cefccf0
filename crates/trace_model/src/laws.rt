// The law of traces. The function does nothing; its contract is the law, for all images whose names are texts.
ghost use Rattle.std.specs.Prelude.{◌≡◌, ◌+◌, ◌*◌, ℕ, []};
ghost use Rattle.image_model.specs.Image.{ImageOf};
ghost use Rattle.run_model.specs.Values.{Name};
ghost use Rattle.run_model.specs.Runs.{run_to, run, seen};
ghost use Rattle.trace_model.specs.Traces.{cut, trace_of};

/// A run is the trace of its do-its, cut where a step wants more ticks than are left: with the depth of a run, and with
/// any other.
pub fn law_trace()
    ensures run { (i : ImageOf Name) (n : ℕ) → seen n (cut n [] (trace_of i (2 * n + 2))) ≡ run i n }
    ensures any_depth { (i : ImageOf Name) (d n : ℕ) → seen n (cut n [] (trace_of i d)) ≡ run_to i d n }
{}
