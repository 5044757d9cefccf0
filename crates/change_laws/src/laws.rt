// Laws of change files. Each function does nothing; its contract is the law, for all images whose names are texts.
ghost use Rattle.std.specs.Prelude.{◌≡◌, ℕ, List, false, Option, Some, Ok};
ghost use Rattle.std.specs.List.{AllByRecursion};
ghost use Rattle.rb_base.specs.Names.{text_eq};
ghost use Rattle.token_model.specs.declared.kind.Dialect.{Dialect};
ghost use Rattle.token_model.specs.declared.kind.Dialect.TheVariants.{Second};
ghost use Rattle.image_model.specs.Chain.{chain};
ghost use Rattle.image_model.specs.Means.{VariableKind};
ghost use Rattle.image_model.specs.Valid.{DefinesOnceOnChain, IsValid};
ghost use Rattle.image_model.specs.Image.{DoItOf, ClassOf, EntryOf, ImageOf};
ghost use Rattle.image_model.specs.Words.{text_words};
ghost use Rattle.file_model.specs.Hierarchy.{stands_in, stands_twice};
ghost use Rattle.file_model.specs.Changes.{ChangeOf};
ghost use Rattle.file_model.specs.Filing.{Filing, ReplacementChunk, form_taken, taken, Text};
ghost use Rattle.file_model.specs.Forms.{Changes, Settles};
ghost use Rattle.file_model.specs.Numerals.{place_in};
ghost use Rattle.file_model.specs.Places.{unplaced_items, put_again, placed};
ghost use Rattle.file_model.specs.Fileable.{reading_of};
ghost use Rattle.file_model.specs.Written.{user_classes, user_methods};
ghost use Rattle.change_model.specs.Edits.{Settle, Change, Put, Replace};
ghost use Rattle.change_model.specs.Edited.{edited, Stage};
ghost use Rattle.change_model.specs.Equal.{is_namesake, is_counterpart, is_equal_class, is_equal_method};
ghost use Rattle.change_laws.specs.Chunks.{stage_of, rests, IsPutByChunks};
ghost use Rattle.change_laws.specs.Mixed.{AreClasses, IsPartOf};
ghost use Rattle.change_laws.specs.Merged.{HaveSame, AreApart, StandAtPlaces, brought};
ghost use Rattle.change_laws.specs.Images.{CanBeMade, AwaitsMethods, HasMethods, HasClassesOf, HasTheRest, HasFiledClasses, AreClassesMade, IsMade};

/// Items in any order come to the wanted order, where those without a place stand in that order already and each of the
/// others has its place in it.
pub fn settles_at_places()
    ensures classes { (place : ClassOf Text → Option ℕ) (now wanted : List (ClassOf Text)) → HaveSame now wanted → AreApart is_namesake now →
        StandAtPlaces place 0 wanted → unplaced_items place now ≡ unplaced_items place wanted → put_again place now ≡ wanted }
    ensures methods { (place : EntryOf Text → Option ℕ) (now wanted : List (EntryOf Text)) → HaveSame now wanted → AreApart is_counterpart now →
        StandAtPlaces place 0 wanted → unplaced_items place now ≡ unplaced_items place wanted → put_again place now ≡ wanted }
{}

/// The classes of one valid image that another has too, with those of the other that differ put in and then put at their
/// places, are those of the other, in its order; and so are the methods.
pub fn brings_the_other()
    ensures classes { (kernel i j : ImageOf Text) → IsValid text_words (reading_of Second kernel) i → IsValid text_words (reading_of Second kernel) j →
        brought is_namesake is_equal_class (user_classes i) (user_classes j) ≡ user_classes j }
    ensures methods { (kernel i j : ImageOf Text) → IsValid text_words (reading_of Second kernel) i → IsValid text_words (reading_of Second kernel) j →
        brought is_counterpart is_equal_method (user_methods i) (user_methods j) ≡ user_methods j }
{}

/// Where the methods that both images have stand behind those of the kernel, the runs of a change file are accepted one after
/// the other, each with its one method; once places are settled the methods are those of the second image, in its order.
pub fn files_methods()
    ensures { (kernel i j : ImageOf Text) (s : Stage) → CanBeMade kernel i j → AwaitsMethods kernel i j s → HasMethods i j s }
{}

/// Of classes in order some may stand under `Object` for a while, some may be without their variables, and some may be
/// missing: no variable stands twice on a chain, and no class that is defined as it will be comes to stand above itself.
pub fn mixes_classes()
    ensures once { (kind : VariableKind) (whole mixed : List (ClassOf Text)) → AreClasses whole → AllByRecursion (IsPartOf kind whole) mixed →
        AllByRecursion (DefinesOnceOnChain text_eq whole kind) whole → (name : Text) → stands_twice text_eq mixed kind name ≡ false }
    ensures no_cycle { (kind : VariableKind) (whole mixed : List (ClassOf Text)) → AreClasses whole → AllByRecursion (IsPartOf kind whole) mixed →
        (class : ClassOf Text) → IsPartOf kind whole class → stands_in text_eq class.name (chain text_eq mixed class.superclass) ≡ false }
{}

/// Where all classes of the second image are there, and the methods of classes that go are gone, all further edits of the
/// change file are accepted one after the other: methods that go are removed, those that differ are put in, and do-its that
/// differ are replaced. Once places are settled, methods and do-its are those of the second image, and classes stay as they
/// are.
pub fn files_the_rest()
    ensures { (kernel i j : ImageOf Text) (s : Stage) → CanBeMade kernel i j → HasClassesOf kernel i j s → HasTheRest i j s }
{}

/// Where the classes that both images have were made bare, and those that differ put in with their places, the classes are
/// those of the second image, in its order, once places are settled.
pub fn settles_classes()
    ensures { (kernel i j : ImageOf Text) (s : Stage) → CanBeMade kernel i j → HasFiledClasses kernel i j s → (placed text_eq s.places s.image).classes ≡ j.classes }
{}

/// Where the edits of classes are accepted and leave the classes filed, all edits are accepted one after the other, and
/// once places are settled the image is the second: classes, methods and do-its, in their order.
pub fn makes_the_other()
    ensures { (kernel i j : ImageOf Text) → CanBeMade kernel i j → AreClassesMade kernel i j → IsMade i j }
{}

/// Where the classes are the same, all edits are accepted one after the other, and once places are settled the image is
/// the second.
pub fn makes_the_other_of_its_classes()
    ensures { (kernel i j : ImageOf Text) → CanBeMade kernel i j → i.classes ≡ j.classes → IsMade i j }
{}

/// What an edit makes of an image and the stated places, its chunks make of a filing that has these: a change, a settling
/// and the replacement of a do-it by the numeral of its number are one chunk each, and a method that is put in is three.
pub fn edits_by_chunks()
    ensures change { (f : Filing) (chunk : DoItOf Text) (c : ChangeOf Text) (t : Stage) → edited (Change c) (stage_of f) ≡ Ok t → form_taken false f chunk (Changes c) ≡ Ok (rests t) }
    ensures settle { (f : Filing) (chunk : DoItOf Text) (t : Stage) → edited Settle (stage_of f) ≡ Ok t → form_taken false f chunk Settles ≡ Ok (rests t) }
    ensures put { (dialect : Dialect) (f : Filing) (opening : DoItOf Text) (m : EntryOf Text) (k : ℕ) (t : Stage) → edited (Put m k) (stage_of f) ≡ Ok t → IsPutByChunks dialect f opening m k t }
    ensures replace { (f : Filing) (numeral : Text) (k : ℕ) (d : DoItOf Text) (t : Stage) → place_in numeral ≡ Some k → edited (Replace k d) (stage_of f) ≡ Ok t →
        taken Second false f (ReplacementChunk (record { numeral = numeral; source = d.source }) d.body) ≡ Ok (rests t) }
{}
