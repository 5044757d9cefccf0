// Laws of code in which parts are others. Each function does nothing; its contract is the law, for all images whose names are texts.
ghost use Rattle.std.specs.Prelude.{◌≡◌, ℕ, List, [], length, Bool, false, Option, None, codes};
ghost use Rattle.std.specs.List.{AllByRecursion};
ghost use Rattle.rb_base.specs.Names.{text_eq};
ghost use Rattle.tree_model.specs.Tree.{TreeOf, var, send, no_trees, StatementsOf};
ghost use Rattle.tree_model.specs.Path.{statements_replaced};
ghost use Rattle.image_model.specs.Image.{ClassOf, EntryOf, ImageOf};
ghost use Rattle.run_model.specs.Values.{Name};
ghost use Rattle.run_model.specs.Renamings.{no_renaming};
ghost use Rattle.run_model.specs.Matched.{AreMatched};
ghost use Rattle.resolved_model.specs.ResolvedImages.{ResolvedImage, resolved_image};
ghost use Rattle.resolved_model.specs.ResolvedShapes.{plain_code};
ghost use Rattle.resolved_model.specs.Environments.{Declared, opened, kind_in, tree_in, statements_in};
ghost use Rattle.unfolded_calls.specs.SameContexts.{IsOutside};
ghost use Rattle.image_model.specs.Means.{MeaningOf};
ghost use Rattle.unfolded_calls.specs.Unfolding.{Allowed, StandIn, Context, Unfolds, UnfoldsLines, IsUnfolded};
ghost use Rattle.unfolded_calls.specs.SendsOnly.{StatementsSendOnly};
ghost use Rattle.unfolded_places.specs.PartsReplaced.{parts_stored, declared_among, StaysMessageAmong};
ghost use Rattle.unfolded_places.specs.ImagesChanged.{ImageBecomes};
ghost use Rattle.unfolded_places.specs.Standing.{IsHere};
ghost use Rattle.scope_model.specs.declared.local.ControlForm.TheVariants.{NoControl};
ghost use Rattle.scope_model.specs.SpecialNames.{control_form};
ghost use Rattle.unfolded_places.specs.Accessed.{accessed_statements};
ghost use Rattle.unfolded_places.specs.Becoming.{Becomes, BecomeLines};
ghost use Rattle.unfolded_places.specs.Inlining.{PlainActuals, Filling, filling, IsInlined, IsStored};
ghost use Rattle.unfolded_places.specs.Fillings.{filled_tree, MayFill};
ghost use Rattle.unfolded_places.specs.ExtractedOnce.{IsExtractedOnce};
ghost use Rattle.unfolded_places.specs.InlinedOnce.{IsInlinedOnce};

use run_model::law_control_sends;
use unfolded_calls::law_unfolded_call;

/// Statements with one part where a path leads unfold to those with another part there, if the one unfolds to the other
/// among what is declared round the place, it is no block that might be run in place, and the node above becomes no control
/// send.
pub fn law_part_unfolds()
    ensures { (i : ResolvedImage) (gone : Allowed) (outer : Name → MeaningOf Name) (outside : (n : Name) → IsOutside (outer n)) (place : Option (Name × Bool)) (around : List Declared) (ss : StatementsOf Name) (path : List ℕ) (v u : TreeOf Name) →
        StatementsSendOnly (λ s. gone.is_gone s ≡ false) ss → StaysMessageAmong ss path v u → plain_code (tree_in outer (declared_among around ss path) v) ≡ None →
        ((g : Context) → IsHere place g (declared_among around ss path) (declared_among around ss path) → Unfolds i gone g (tree_in outer (declared_among around ss path) v) (tree_in outer (declared_among around ss path) u)) →
        (g : Context) → IsHere place g around around →
        UnfoldsLines i gone g (statements_in outer around (statements_replaced ss path v)) (statements_in outer around (statements_replaced ss path u)) }
{
    law_control_sends();
}

/// An image in which some sends to self are replaced by the expression that their method answers, with what is passed in
/// place of its arguments, or by the assignment of what is passed to a variable, and the one before match each other.
pub fn law_inlined_values()
    ensures unfolds { (i j : ImageOf Name) (gone : Allowed) → AllByRecursion (λ (c : ClassOf Name). text_eq [] c.name ≡ false) i.classes → ImageBecomes i gone (IsInlined i gone) (IsStored i gone) j → IsUnfolded (resolved_image i) (resolved_image j) }
    ensures matched { (i j : ImageOf Name) (gone : Allowed) → AllByRecursion (λ (c : ClassOf Name). text_eq [] c.name ≡ false) i.classes → ImageBecomes i gone (IsInlined i gone) (IsStored i gone) j → AreMatched i j no_renaming × AreMatched j i no_renaming }
{
    law_control_sends();
    law_unfolded_call();
}

/// The same where one send of one method is inlined, at the end of a path.
pub fn law_inlined_once()
    ensures { (i j : ImageOf Name) → AllByRecursion (λ (c : ClassOf Name). text_eq [] c.name ≡ false) i.classes → IsInlinedOnce i j → IsUnfolded (resolved_image i) (resolved_image j) × AreMatched i j no_renaming × AreMatched j i no_renaming }
{
    law_inlined_values();
}

/// The same where one expression of one method is extracted as a new method, whose arguments stand for arguments and block
/// parameters that it reads.
pub fn law_extracted_once()
    ensures { (i j : ImageOf Name) → AllByRecursion (λ (c : ClassOf Name). text_eq [] c.name ≡ false) i.classes → IsExtractedOnce i j → IsUnfolded (resolved_image j) (resolved_image i) × AreMatched i j no_renaming × AreMatched j i no_renaming }
{
    law_inlined_values();
}

/// A body that may be put elsewhere becomes itself with what is passed in place of its arguments.
pub fn law_body_filled()
    ensures { (z : Filling) (supers : Bool) (gone : Name → Bool) (actuals : List StandIn) → PlainActuals z.after z.round z.passed actuals → length z.arguments ≡ length actuals → (t : TreeOf Name) → MayFill z supers gone [] t →
        Becomes (filling z supers gone) (opened z.arguments [] []) z.round t (filled_tree z.arguments z.passed [] t) }
{}

/// Statements in which messages to self stand for the reads of a variable and for the assignments to it become those that
/// read and assign it, in a method where both messages run the accessors.
pub fn law_variable_accessed()
    ensures { (i : ImageOf Name) (gone : Allowed) (m : EntryOf Name) (place : Option (Name × Bool)) (x reader writer : Name) →
        ((around : List Declared) → kind_in around x ≡ None → IsInlined i gone m place around (send (var (codes "self")) reader no_trees) (var x)) →
        ((around : List Declared) → kind_in around x ≡ None → IsStored i gone m place around writer x) → control_form writer ≡ NoControl →
        (around : List Declared) (ss : StatementsOf Name) → StatementsSendOnly (λ s. gone.is_gone s ≡ false) ss →
        BecomeLines (parts_stored (IsInlined i gone m place) (IsStored i gone m place) gone.is_gone) around around (accessed_statements x reader writer around ss) ss }
{}
