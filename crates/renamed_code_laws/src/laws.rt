// Laws of the changes of code by renamings. Each function does nothing; its contract is the law.
ghost use Rattle.std.specs.Prelude.{◌≡◌, ◌∷◌, ℕ, Some, Contains};
ghost use Rattle.st_tree.specs.View.{method_of, sequence_of};
ghost use Rattle.mentions.specs.Mentions.{code_names, method_names};
ghost use Rattle.class_table.specs.declared.record.MethodRec.{MethodRec};
ghost use Rattle.class_table.specs.declared.record.DoIt.{DoIt};
ghost use Rattle.class_table.specs.declared.record.Place.{Place};
ghost use Rattle.class_table.specs.declared.record.Place.TheVariants as places;
ghost use Rattle.class_table.specs.Slots.{Slots};
ghost use Rattle.change_set.specs.declared.change.Change.{Change};
ghost use Rattle.change_set.specs.declared.change.Change.TheVariants as changes;
ghost use Rattle.reference_index.specs.Mentioned.{names_at};
ghost use Rattle.renamed_code.specs.Anew.{RenamedOf, name_before};
ghost use Rattle.renamed_code.specs.ChangedCode.{change_at};

/// Code that changes mentions the name that what is renamed has. So the places of the name in an index are enough.
pub fn law_mentioned()
    ensures { (s : Slots) (what : RenamedOf ℕ) (to : ℕ) (place : Place) (change : Change) →
        change_at s what to place ≡ Some change → Contains (names_at s place) (name_before what) }
{}

/// Code mentions after a renaming the new name, and names that it mentioned before.
pub fn law_names_after()
    ensures method { (s : Slots) (what : RenamedOf ℕ) (to slot other : ℕ) (rec : MethodRec) →
        change_at s what to (places.Method slot) ≡ Some (changes.Method other rec) →
        (n : ℕ) → Contains (method_names (method_of rec.tree)) n → Contains (to ∷ names_at s (places.Method slot)) n }
    ensures doit { (s : Slots) (what : RenamedOf ℕ) (to number other : ℕ) (doit : DoIt) →
        change_at s what to (places.DoIt number) ≡ Some (changes.DoIt other doit) →
        (n : ℕ) → Contains (code_names (sequence_of doit.body)) n → Contains (to ∷ names_at s (places.DoIt number)) n }
{}
