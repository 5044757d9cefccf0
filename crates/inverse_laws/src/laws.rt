// The law of matched images the other way. The function does nothing; its contract is the law, for all images whose names
// are texts.
ghost use Rattle.image_model.specs.Image.{ImageOf};
ghost use Rattle.run_model.specs.Values.{Name};
ghost use Rattle.run_model.specs.Renamings.{Renaming, composed};
ghost use Rattle.run_model.specs.Matched.{AreMatched};
ghost use Rattle.mapped_model.specs.NamesOfImages.{names_in};
ghost use Rattle.mapped_model.specs.RenamedRuns.{RunsAsRenamed};
ghost use Rattle.inverse_laws.specs.Inverse.{TakesBack};

use mapped_model::{law_matched_by_maps, law_matched_images};
use run_model::law_matched;

/// Where an image is matched by another one up to a renaming, and a second renaming gives each class and each selector in use
/// in the first image its name back, that other image is matched by the first one up to the second renaming; and where the
/// other image runs as the first one does with the new names, the first one runs as the other does with the names given back.
/// Whatever way back two images have that were matched one after the other, one after the other they are the way back.
pub fn law_matched_back()
    ensures matched { (i j : ImageOf Name) (r q : Renaming) → TakesBack (names_in i) r q → AreMatched i j r → AreMatched j i q }
    ensures runs { (i j : ImageOf Name) (r q : Renaming) → TakesBack (names_in i) r q → RunsAsRenamed i j r → RunsAsRenamed j i q }
    ensures composed { (i j k : ImageOf Name) (r q : Renaming) → AreMatched j i r → AreMatched k j q → AreMatched k i (composed q r) }
{
    law_matched_by_maps();
    law_matched_images();
    law_matched();
    run_model::law_renamings_composed();
}
