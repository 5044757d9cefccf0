// Laws of change files. Each function does nothing; its contract is the law, for all images whose names are texts.
ghost use Rattle.std.specs.Prelude.{◌≡◌, ◌↔◌, List, [], Option, None};
ghost use Rattle.std.specs.List.{AllByRecursion};
ghost use Rattle.rb_base.specs.Names.{text_eq};
ghost use Rattle.chunk_format.specs.declared.chunk_iter.Unended.{Unended};
ghost use Rattle.chunk_format.specs.Left.{start_of};
ghost use Rattle.chunk_format.specs.Chunks.{Piece, HasChunks};
ghost use Rattle.image_model.specs.Image.{ImageOf};
ghost use Rattle.file_model.specs.Filing.{Text};
ghost use Rattle.file_model.specs.Places.{placed};
ghost use Rattle.change_model.specs.Edits.{Edit, edits};
ghost use Rattle.change_model.specs.Edited.{Stage};
ghost use Rattle.change_model.specs.Text.{change_text};
ghost use Rattle.change_laws.specs.Images.{CanBeMade, AreClassesMade, IsMade};
ghost use Rattle.change_class_laws.specs.Whole.{HasRoot, IsMadeFrom, NothingDiffers};
ghost use Rattle.change_class_laws.specs.Examples.{renamed, all_kinds};
ghost use Rattle.change_class_laws.specs.Named.{EditsDifference, HoldsDifferences};

/// Where one image can be made of another, the edits of classes are accepted one after the other: classes that differ and
/// stay are left without variables, those that go are removed, and those that differ are put in with their places.
pub fn makes_classes()
    ensures { (kernel i j : ImageOf Text) → CanBeMade kernel i j → HasRoot kernel → AreClassesMade kernel i j }
{}

/// Where one image can be made of another, all edits are accepted one after the other and make exactly the second image, at
/// the first image as it is and wherever the stated places settle to it; and where there are none, the images are the same.
pub fn law_changes_make()
    ensures at_rest { (kernel i j : ImageOf Text) → CanBeMade kernel i j → HasRoot kernel → IsMade i j }
    ensures wherever { (kernel i j : ImageOf Text) (s : Stage) → CanBeMade kernel i j → HasRoot kernel → placed text_eq s.places s.image ≡ i → IsMadeFrom i j s }
    ensures none { (kernel i j : ImageOf Text) → CanBeMade kernel i j → HasRoot kernel → edits i j ≡ [] → i ≡ j }
{}

/// That the kernel has `Object` is not asked in vain: there are images behind a kernel without it of which one can be made
/// of the other, and whose edits are refused.
pub fn needs_the_root()
    ensures { (kernel : ImageOf Text) × (i : ImageOf Text) × (j : ImageOf Text) × CanBeMade kernel i j × (IsMade i j → ⊥) }
{}

/// Each edit names a class, a method or a do-it that differs; and there is none exactly where nothing differs.
pub fn edits_name_differences()
    ensures each { (kernel i j : ImageOf Text) → CanBeMade kernel i j → AllByRecursion (EditsDifference i j) (edits i j) }
    ensures none { (kernel i j : ImageOf Text) → CanBeMade kernel i j → HasRoot kernel → ◌≡◌ {A = List Edit} (edits i j) [] ↔ NothingDiffers i j }
{}

/// The text of a change file is empty or chunks to its end: a blank one, the one that settles places, and such as are blank,
/// name what differs, open the run of a method that differs or are its source.
pub fn chunks_name_differences()
    ensures { (kernel i j : ImageOf Text) (pieces : List Piece) (end : Option Unended) → CanBeMade kernel i j → HasChunks (start_of (change_text i j)) pieces end → (end ≡ None) × HoldsDifferences i j pieces }
{}

/// The definition of the text of a change file gives the texts that stand beside the examples: a class that gets another
/// name, and edits of all kinds.
pub fn writes_examples()
    ensures renamed { change_text renamed.before renamed.after ≡ renamed.text }
    ensures all_kinds { change_text all_kinds.before all_kinds.after ≡ all_kinds.text }
{}
