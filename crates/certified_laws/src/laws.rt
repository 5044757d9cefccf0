// Laws of certified rewriting. Each function does nothing; its contract is the law, for all images whose names are texts.
ghost use Rattle.std.specs.Prelude.{List};
ghost use Rattle.image_model.specs.Image.{ImageOf};
ghost use Rattle.run_model.specs.Values.{Name};
ghost use Rattle.run_model.specs.Renamings.{no_renaming};
ghost use Rattle.run_model.specs.Matched.{AreMatched};
ghost use Rattle.resolved_model.specs.ResolvedImages.{resolved_image};
ghost use Rattle.certified_laws.specs.EditedImages.{EditedImage, AreEdited};
ghost use Rattle.certified_laws.specs.RewrittenTrees.{RewrittenAlong};

use resolved_traces::law_matched_traces;

/// Two images match each other, with nothing renamed, where the one comes, once names are resolved, from the other by
/// laws of rewriting, each forwards or backwards, at any places of its methods and do-its, in any number of steps.
pub fn law_edited()
    ensures { (i j : ImageOf Name) (xs : List EditedImage) → AreEdited (resolved_image i) xs (resolved_image j) →
        AreMatched i j no_renaming }
{
    law_matched_traces();
}

/// The same of trees as they are written: two images match each other, with nothing renamed, where the second comes from
/// the first by laws of rewriting, each forwards or backwards, at any places of methods and do-its, in any number of
/// steps, whatever becomes of sources and comments. Nothing is asked of what names mean there.
pub fn law_rewritten_images()
    ensures { (i : ImageOf Name) (ks : List (ImageOf Name)) (j : ImageOf Name) → RewrittenAlong i ks j →
        AreMatched i j no_renaming }
{
    law_edited();
}
