// The laws. Each function does nothing; its contract is the law.
ghost use Rattle.std.specs.Prelude.{◌≡◌, ℕ, List};
ghost use Rattle.std.specs.List.{AllByRecursion};
ghost use Rattle.image_model.specs.Image.{ImageOf};
ghost use Rattle.rb_base.specs.Names.{HasNoTwice, text_eq};
ghost use Rattle.run_model.specs.Values.{Name};
ghost use Rattle.run_model.specs.Renamings.{Renaming, mapped};
ghost use Rattle.run_model.specs.Matched.{AreMatched};
ghost use Rattle.new_names.specs.NewNames.{IsKnownName, map_of, texts_of, text_after};
ghost use Rattle.new_names.specs.Shown.{ShowsTheSame};
ghost use Rattle.new_names.specs.declared.compose.NewName.{NewName};

/// As texts, if no text has two numbers, the map says of each text what it is after all new names, one after the other.
pub fn law_composed_names()
    ensures { (names : List (List ℕ)) (news : List NewName) (t : Name) → HasNoTwice names → AllByRecursion (IsKnownName names) news →
        mapped text_eq (texts_of names (map_of news)) t t ≡ text_after names news t }
{}

/// Runs show classes and selectors alone: images that are matched up to a renaming are matched up to each one that says the same
/// of these.
pub fn law_shown_renamings()
    ensures { (i j : ImageOf Name) (r q : Renaming) → ShowsTheSame r q → AreMatched i j r → AreMatched i j q }
{}
