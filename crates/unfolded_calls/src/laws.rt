// Laws of unfolded calls. Each function does nothing; its contract is the law, for all images whose names are texts.
ghost use Rattle.std.specs.Prelude.{◌≡◌, [], Bool, false, find, Some, None};
ghost use Rattle.std.specs.List.{AllByRecursion};
ghost use Rattle.rb_base.specs.Names.{text_eq};
ghost use Rattle.image_model.specs.Image.{ClassOf, ImageOf};
ghost use Rattle.run_model.specs.Values.{Name};
ghost use Rattle.run_model.specs.Renamings.{no_renaming};
ghost use Rattle.run_model.specs.Matched.{AreMatched};
ghost use Rattle.resolved_model.specs.ResolvedImages.{resolved_image};
ghost use Rattle.image_model.specs.Valid.{SuperclassesStandBefore};
ghost use Rattle.resolved_model.specs.ResolvedImages.{ResolvedMethod, ResolvedImage, is_resolved_method, finds};
ghost use Rattle.unfolded_calls.specs.Unfolding.{IsBelow, IsUnfolded};

use resolved_traces::law_matched_traces;

/// An image in which the bodies of methods stand in place of some sends to self that run them, and values in place of some
/// temporaries, as `IsUnfolded` says, and the one before match each other. A send that ends the statements of a block or do-it
/// is unfolded only where the method that it runs answers one expression or assigns its argument.
pub fn law_unfolded_call()
    ensures unfolded { (i j : ImageOf Name) → IsUnfolded (resolved_image i) (resolved_image j) → AreMatched i j no_renaming }
    ensures folded { (i j : ImageOf Name) → IsUnfolded (resolved_image i) (resolved_image j) → AreMatched j i no_renaming }
{
    law_matched_traces();
}

/// Each image whose classes have names unfolds to itself: the relation demands nothing of code that stays.
pub fn law_unfolds_itself()
    ensures { (i : ImageOf Name) → AllByRecursion (λ (c : ClassOf Name). text_eq [] c.name ≡ false) i.classes → IsUnfolded (resolved_image i) (resolved_image i) }
{}

/// Where no class below another has a method of its own for a selector, each class below finds the method that that one
/// finds: so a condition on implementors gives the target of a place.
pub fn law_one_target()
    ensures { (i : ResolvedImage) (n : Name) (meta : Bool) (s : Name) (m : ResolvedMethod) → SuperclassesStandBefore i.classes → finds i (Some n) meta s ≡ Some m →
        ((k : Name) → IsBelow i.classes k n → (k ≡ n → ⊥) → find (is_resolved_method k meta s) i.methods ≡ None) → (c : Name) → IsBelow i.classes c n → finds i (Some c) meta s ≡ Some m }
{}
