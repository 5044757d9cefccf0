// Laws of changes over numbers of names. Each function does nothing; its contract is the law.
ghost use Rattle.std.specs.Prelude.{◌≡◌, ◌<◌, ℕ, Bool, List, length, map, Result, IfOk};
ghost use Rattle.std.specs.Result.{result_map_both};
ghost use Rattle.rb_base.specs.Names.{HasNoTwice, name_at, text_eq};
ghost use Rattle.std.specs.Bool.{nat_eq};
ghost use Rattle.tree_model.specs.Tree.{MethodOf, map_method};
ghost use Rattle.tree_model.specs.AllNames.{MethodNames};
ghost use Rattle.image_model.specs.Image.{ImageOf, map_class, map_image};
ghost use Rattle.image_model.specs.ImageNames.{ImageNames};
ghost use Rattle.file_model.specs.Causes.{Cause};
ghost use Rattle.file_model.specs.Changes.{ChangeOf, RunOf, map_change, map_run};
ghost use Rattle.file_model.specs.Refusals.{run_refusals};
ghost use Rattle.file_model.specs.Applied.{changed, method_added};
ghost use Rattle.file_model.specs.Places.{PlacesOf, places_after, places_behind, placed, map_places};
ghost use Rattle.file_numbers.specs.ChangeNames.{ChangeNames};
ghost use Rattle.file_numbers.specs.PlacesNames.{PlacesNames};

/// A change of classes or methods makes the same image, or is refused for the same cause, over the numbers of names in a
/// table and over their texts. The names in what it makes are in the table.
pub fn changes_by_numbers()
    ensures same { (names : List (List ℕ)) (kernel : Bool) (c : ChangeOf ℕ) (i : ImageOf ℕ) → HasNoTwice names →
        ImageNames (λ n. n < length names) i → ChangeNames (λ n. n < length names) c →
        changed text_eq kernel (map_change (name_at names) c) (map_image (name_at names) i) ≡ result_map_both (map_image (name_at names)) (λ e. e) (changed nat_eq kernel c i) }
    ensures known { (names : List (List ℕ)) (kernel : Bool) (c : ChangeOf ℕ) (i : ImageOf ℕ) → HasNoTwice names →
        ImageNames (λ n. n < length names) i → ChangeNames (λ n. n < length names) c → IfOk (changed nat_eq kernel c i) (ImageNames (λ n. n < length names)) }
{}

/// A run of methods is refused for the same cause over numbers and over texts; and a method of a run makes the same image,
/// or is refused for the same cause. The names in what it makes are in the table.
pub fn methods_by_numbers()
    ensures run { (names : List (List ℕ)) (r : RunOf ℕ) (i : ImageOf ℕ) → HasNoTwice names → ImageNames (λ n. n < length names) i → r.class < length names →
        run_refusals text_eq (map (map_class (name_at names)) i.classes) (map_run (name_at names) r) ≡ run_refusals nat_eq i.classes r }
    ensures same { (names : List (List ℕ)) (kernel : Bool) (r : RunOf ℕ) (source : List ℕ) (m : MethodOf ℕ) (i : ImageOf ℕ) → HasNoTwice names →
        ImageNames (λ n. n < length names) i → r.class < length names → MethodNames (λ n. n < length names) m →
        method_added text_eq kernel (map_run (name_at names) r) source (map_method (name_at names) m) (map_image (name_at names) i) ≡ result_map_both (map_image (name_at names)) (λ e. e) (method_added nat_eq kernel r source m i) }
    ensures known { (names : List (List ℕ)) (kernel : Bool) (r : RunOf ℕ) (source : List ℕ) (m : MethodOf ℕ) (i : ImageOf ℕ) → HasNoTwice names →
        ImageNames (λ n. n < length names) i → r.class < length names → MethodNames (λ n. n < length names) m →
        IfOk (method_added nat_eq kernel r source m i) (ImageNames (λ n. n < length names)) }
{}

/// The places after a change and behind a method of a run, and the image whose places are settled, are the same over the
/// numbers of names in a table and over their texts. The names in them are in the table.
pub fn places_by_numbers()
    ensures after { (names : List (List ℕ)) (c : ChangeOf ℕ) (places : PlacesOf ℕ) → HasNoTwice names → PlacesNames (λ n. n < length names) places →
        ChangeNames (λ n. n < length names) c →
        places_after text_eq (map_change (name_at names) c) (map_places (name_at names) places) ≡ map_places (name_at names) (places_after nat_eq c places) }
    ensures behind { (names : List (List ℕ)) (class : ℕ) (meta : Bool) (selector : ℕ) (places : PlacesOf ℕ) →
        places_behind (name_at names class) meta (name_at names selector) (map_places (name_at names) places) ≡ map_places (name_at names) (places_behind class meta selector places) }
    ensures settled { (names : List (List ℕ)) (places : PlacesOf ℕ) (i : ImageOf ℕ) → HasNoTwice names → PlacesNames (λ n. n < length names) places →
        ImageNames (λ n. n < length names) i →
        placed text_eq (map_places (name_at names) places) (map_image (name_at names) i) ≡ map_image (name_at names) (placed nat_eq places i) }
    ensures known_after { (names : List (List ℕ)) (c : ChangeOf ℕ) (places : PlacesOf ℕ) → HasNoTwice names → PlacesNames (λ n. n < length names) places →
        ChangeNames (λ n. n < length names) c → PlacesNames (λ n. n < length names) (places_after nat_eq c places) }
    ensures known_behind { (names : List (List ℕ)) (class : ℕ) (meta : Bool) (selector : ℕ) (places : PlacesOf ℕ) → PlacesNames (λ n. n < length names) places →
        class < length names → selector < length names → PlacesNames (λ n. n < length names) (places_behind class meta selector places) }
    ensures known_settled { (names : List (List ℕ)) (places : PlacesOf ℕ) (i : ImageOf ℕ) → HasNoTwice names →
        ImageNames (λ n. n < length names) i → ImageNames (λ n. n < length names) (placed nat_eq places i) }
{}
