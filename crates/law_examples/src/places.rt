// Small images in which code is inlined, extracted and put behind accessors. Each function does nothing; its contract is
// that the images meet what the laws ask, and what the laws say of them.
ghost use Rattle.run_model.specs.Renamings.{no_renaming};
ghost use Rattle.run_model.specs.Matched.{AreMatched};
ghost use Rattle.resolved_model.specs.ResolvedImages.{resolved_image};
ghost use Rattle.unfolded_calls.specs.Unfolding.{IsUnfolded};
ghost use Rattle.unfolded_places.specs.ExtractedOnce.{IsExtractedOnce};
ghost use Rattle.unfolded_places.specs.InlinedOnce.{IsInlinedOnce};
ghost use Rattle.law_examples.specs.UnfoldedExamples.{example_before, example_after, example_whole, example_extracted, example_plain, example_accessed};

use unfolded_places::{law_extracted_once, law_inlined_once, law_inlined_values};

/// A small image meets what is asked: a send whose method answers a block with a parameter, with its argument and an
/// instance variable.
pub fn law_example_inlined()
    ensures inlined { IsInlinedOnce example_before example_after }
    ensures unfolds { IsUnfolded (resolved_image example_before) (resolved_image example_after) }
{
    law_inlined_once();
}

/// A small image meets what is asked of an extraction.
pub fn law_example_extracted()
    ensures extracted { IsExtractedOnce example_whole example_extracted }
    ensures unfolds { IsUnfolded (resolved_image example_extracted) (resolved_image example_whole) }
{
    law_extracted_once();
}

/// A small image meets what is asked of accessors in place of a variable, one inside the other.
pub fn law_example_accessed()
    ensures { IsUnfolded (resolved_image example_accessed) (resolved_image example_plain) × AreMatched example_plain example_accessed no_renaming × AreMatched example_accessed example_plain no_renaming }
{
    law_inlined_values();
}
