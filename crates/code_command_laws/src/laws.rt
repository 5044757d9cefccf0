// Laws of the commands that change code. Each function does nothing; its contract is the law.
ghost use Rattle.std.specs.Prelude.{◌≡◌, ℕ, ◌+◌, ◌≤◌, List, true, Some};
ghost use Rattle.tree_model.specs.Tree.{TreeOf, var, MethodOf};
ghost use Rattle.tree_model.specs.Path.{part_at, part_in, replaced, count, statement_trees};
ghost use Rattle.command_model.specs.Asked.{AskedOf};
ghost use Rattle.command_model.specs.Walk.{Making, rebuilt};
ghost use Rattle.scope_model.specs.FreeNames.{statements_at};
ghost use Rattle.code_command_laws.specs.Folded.{TellsApart, IsPutBack};
ghost use Rattle.code_command_laws.specs.FoldedRun.{IsRunPutBack};
ghost use Rattle.command_model.specs.Parts.{Run};
ghost use Rattle.command_model.specs.PartConditions.{has_no_return};
ghost use Rattle.image_model.specs.Image.{ImageOf};
ghost use Rattle.rename_model.specs.ClassRenamed.{WritingOf};
ghost use Rattle.command_model.specs.Commands.{CommandOf};
ghost use Rattle.command_model.specs.CodeEffects.{code_effect};
ghost use Rattle.code_command_laws.specs.NormalTrees.{HaveNormalTrees};
ghost use Rattle.code_command_laws.specs.Unread.{IsUnread, ChangesReadsOf};

/// An expression that becomes a method, and whose message is then replaced by the body of that method, leaves all as it
/// was; so do two neighbouring statements or more without `^`, but for the comments of the first of them. A walk that
/// changes no node changes nothing; one that changes reads of a name alone, where that name stands in place of a part and
/// becomes it, gives the tree with the part. After each command the comments of all methods are in normal form if they
/// were so.
pub fn law_code_commands<N>()
    ensures put_back { (a : AskedOf N) (t : N) (m : MethodOf N) (path : List ℕ) (part : TreeOf N) →
        TellsApart a.words.tests.same → part_in m.body path ≡ Some part → IsPutBack a t m path }
    ensures run_put_back { (a : AskedOf N) (t : N) (m : MethodOf N) (path : List ℕ) (first n : ℕ) →
        TellsApart a.words.tests.same → 2 ≤ n → first + n ≤ count (statement_trees (statements_at m.body path)) →
        has_no_return m (Run path first n) ≡ true → IsRunPutBack a t m path first n }
    ensures normal { (a : AskedOf N) (writing : WritingOf N) (i j : ImageOf N) (command : CommandOf N) →
        HaveNormalTrees i → code_effect a i writing command ≡ Some j → HaveNormalTrees j }
    ensures unchanged { (f : Making N) (t : TreeOf N) →
        ((path : List ℕ) (u : TreeOf N) → f path u ≡ u) → rebuilt f t ≡ t }
    ensures refilled { (x : N) (t : TreeOf N) (path : List ℕ) (part : TreeOf N) (f : Making N) →
        ChangesReadsOf x f → f path (var x) ≡ part → part_at t path ≡ Some part → IsUnread x t →
        rebuilt f (replaced t path (var x)) ≡ t }
{}
