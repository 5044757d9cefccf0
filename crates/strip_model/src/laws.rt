// The laws of what is reached. Each function does nothing; its contract is the law.
ghost use Rattle.std.specs.Prelude.{◌≡◌, ℕ, ◌<◌, List, length, true, nat_eq, Contains};
ghost use Rattle.std.specs.List.{AllByRecursion};
ghost use Rattle.rb_base.specs.Names.{text_eq, HasNoTwice, name_at};
ghost use Rattle.image_model.specs.Image.{DoItOf, ImageOf, map_doit, map_image, plus};
ghost use Rattle.image_model.specs.ImageNames.{ImageNames};
ghost use Rattle.image_model.specs.Words.{text_words, number_words};
ghost use Rattle.strip_model.specs.Reach.{ReachOf, is_closed, reach};
ghost use Rattle.image_model.specs.Valid.{class_names, SuperclassesStandBefore, HasClass};
ghost use Rattle.strip_model.specs.Members.{IsOfMethod};
ghost use Rattle.strip_model.specs.Mapped.{map_reach, ReachNames};
ghost use Rattle.strip_model.specs.Stripped.{strip};
ghost use Rattle.strip_model.specs.Within.{IsWithin};

/// What is demanded again and again, from nothing, is closed after as many steps as an image has members, and is within all
/// that is closed: so it is the least. It is so for each image, over texts and over the numbers of a table of names.
pub fn law_reach_is_least()
    ensures closed { (i : ImageOf (List ℕ)) → is_closed text_words i (reach text_words i) ≡ true }
    ensures least { (i : ImageOf (List ℕ)) (r : ReachOf (List ℕ)) → is_closed text_words i r ≡ true → IsWithin text_eq (reach text_words i) r }
    ensures closed_numbers { (names : List (List ℕ)) (i : ImageOf ℕ) → is_closed (number_words names) i (reach (number_words names) i) ≡ true }
    ensures least_numbers { (names : List (List ℕ)) (i : ImageOf ℕ) (r : ReachOf ℕ) → is_closed (number_words names) i r ≡ true → IsWithin nat_eq (reach (number_words names) i) r }
{}

/// Over the numbers of a table of names the same is closed, reached and left as over their texts.
pub fn law_reach_of_numbers()
    ensures closed { (names : List (List ℕ)) (i : ImageOf ℕ) (r : ReachOf ℕ) → HasNoTwice names → ImageNames (λ n. n < length names) i → ReachNames (λ n. n < length names) r →
        is_closed text_words (map_image (name_at names) i) (map_reach (name_at names) r) ≡ is_closed (number_words names) i r }
    ensures left { (names : List (List ℕ)) (i : ImageOf ℕ) (r : ReachOf ℕ) → HasNoTwice names → ImageNames (λ n. n < length names) i → ReachNames (λ n. n < length names) r →
        strip text_eq (map_reach (name_at names) r) (map_image (name_at names) i) ≡ map_image (name_at names) (strip nat_eq r i) }
    ensures reached { (names : List (List ℕ)) (i : ImageOf ℕ) → HasNoTwice names → ImageNames (λ n. n < length names) i →
        reach text_words (map_image (name_at names) i) ≡ map_reach (name_at names) (reach (number_words names) i) }
    ensures further { (names : List (List ℕ)) (i : ImageOf ℕ) (d : DoItOf ℕ) → map_image (name_at names) (plus i d) ≡ plus (map_image (name_at names) i) (map_doit (name_at names) d) }
{}

/// What is reached are classes and methods of the image, where superclasses and the classes of methods are there.
pub fn law_reach_is_of_image()
    ensures classes { (i : ImageOf (List ℕ)) → SuperclassesStandBefore i.classes → AllByRecursion (HasClass i.classes) i.methods → AllByRecursion (Contains (class_names i.classes)) (reach text_words i).classes }
    ensures methods { (i : ImageOf (List ℕ)) → AllByRecursion (IsOfMethod i) (reach text_words i).methods }
    ensures class_numbers { (names : List (List ℕ)) (i : ImageOf ℕ) → SuperclassesStandBefore i.classes → AllByRecursion (HasClass i.classes) i.methods → AllByRecursion (Contains (class_names i.classes)) (reach (number_words names) i).classes }
    ensures method_numbers { (names : List (List ℕ)) (i : ImageOf ℕ) → AllByRecursion (IsOfMethod i) (reach (number_words names) i).methods }
{}
