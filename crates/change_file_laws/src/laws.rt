// Laws of the texts of change files. Each function does nothing; its contract is the law.
ghost use Rattle.std.specs.Prelude.{◌≡◌, ◌↔◌, ◌≤◌, ◌<◌, ◌^◌, ◌++◌, ℕ, List, [], length, codes, true, false, Option, Some, None};
ghost use Rattle.std.specs.Fmt.{decimal};
ghost use Rattle.std.specs.List.{AllByRecursion};
ghost use Rattle.rb_base.specs.Doubling.{BeginsOtherwise};
ghost use Rattle.rb_base.specs.Names.{text_eq};
ghost use Rattle.token_model.specs.declared.kind.Dialect.{Dialect};
ghost use Rattle.token_model.specs.declared.kind.Dialect.TheVariants.{Second};
ghost use Rattle.chunk_format.specs.Blank.{IsBlank};
ghost use Rattle.chunk_format.specs.declared.chunk_iter.Unended.{Unended};
ghost use Rattle.chunk_format.specs.Left.{Left, start_of};
ghost use Rattle.chunk_format.specs.Chunks.{Piece, HasChunks};
ghost use Rattle.text_model.specs.Literals.{is_identifier, quoted_text};
ghost use Rattle.grammar_model.specs.Spelling.{SpellsDoIt};
ghost use Rattle.st_kernel.specs.KernelText.{prelude_text};
ghost use Rattle.image_model.specs.Image.{ImageOf};
ghost use Rattle.file_model.specs.Changes.{ChangeOf, RunOf};
ghost use Rattle.file_model.specs.Filing.{Text, Filing};
ghost use Rattle.file_model.specs.Forms.{Changes, OpensAt, Settles, form_of, replacement_in};
ghost use Rattle.file_model.specs.Numerals.{place_in};
ghost use Rattle.file_model.specs.Places.{placed};
ghost use Rattle.file_model.specs.Reading.{IsKernelOf, IsImageOf};
ghost use Rattle.change_model.specs.Edits.{Edit, edits};
ghost use Rattle.change_model.specs.Edited.{Stage, AreMade};
ghost use Rattle.change_model.specs.Text.{change_source, change_text};
ghost use Rattle.change_class_laws.specs.Named.{HoldsDifferences};
ghost use Rattle.change_class_laws.specs.Whole.{HasRoot, NothingDiffers};
ghost use Rattle.change_laws.specs.Chunks.{rests};
ghost use Rattle.change_laws.specs.Images.{CanBeMade, at_rest};
ghost use Rattle.change_file_laws.specs.Behind.{with_edits, GoesOn, IsRead};
ghost use Rattle.change_file_laws.specs.Other.{IsOtherOf};
ghost use Rattle.change_file_laws.specs.Stated.{IsStatedNumber, IsStatedChange, IsStated};
ghost use Rattle.change_file_laws.specs.Trees.{settling_tree, replacement_tree, placed_opening_tree, placed_opening_text, change_tree};

use change_class_laws::{chunks_name_differences, edits_name_differences, law_changes_make};
use file_rereading::spells_definitions;
use kernel_image::{every_image_is_valid, kernel_is_valid};

/// The numeral of a number of at most nine digits that is 1 or more states this number as a place.
pub fn states_numbers()
    ensures { (k : ℕ) → IsStatedNumber k → place_in (decimal k) ≡ Some k }
{}

/// The text of each edit that can be stated spells its tree in the second dialect: a change, the settling of places, the
/// replacement of a do-it, and the opening of a run that states a place.
pub fn spells_edits()
    ensures change { (c : ChangeOf Text) → IsStatedChange c → SpellsDoIt Second (change_source c) (change_tree c) }
    ensures settling { SpellsDoIt Second (codes "Smalltalk settlePlaces") settling_tree }
    ensures replacement { (k : ℕ) (source : Text) → IsStatedNumber k →
        SpellsDoIt Second (codes "Smalltalk replaceDoIt: " ++ decimal k ++ codes " with: " ++ quoted_text source) (replacement_tree (decimal k) source) }
    ensures opening { (run : RunOf Text) (k : ℕ) → is_identifier run.class ≡ true → IsStatedNumber k →
        SpellsDoIt Second (placed_opening_text run (decimal k)) (placed_opening_tree run (decimal k)) }
{
    spells_definitions();
}

/// And the tree says the edit.
pub fn says_edits()
    ensures change { (c : ChangeOf Text) → IsStatedChange c → form_of Second false (change_tree c) ≡ Changes c }
    ensures settling { form_of Second false settling_tree ≡ Settles }
    ensures replacement { (k : ℕ) (source : Text) → IsStatedNumber k → replacement_in (replacement_tree (decimal k) source) ≡ Some (record { numeral = decimal k; source = source }) }
    ensures opening { (run : RunOf Text) (k : ℕ) → IsStatedNumber k → form_of Second false (placed_opening_tree run (decimal k)) ≡ OpensAt run k }
{}

/// Where a text is left at whatever filing, with a run open or not and with places stated or not, and edits are made of the
/// image that its settled places make, the end of a run, the settling of places and the text of these edits are read on from
/// there, and make what the edits make.
pub fn reads_edits()
    ensures { (es : List Edit) (f : Filing) (image : ImageOf Text) (t : Stage) (left : Left) (blanks : Text) → AllByRecursion IsStated es →
        image ≡ placed text_eq f.places f.image → AreMade es (at_rest image) t → IsBlank blanks → left.rest ≡ blanks ++ with_edits es → IsRead Second left f (rests t) }
{
    spells_definitions();
}

/// The chunks of a text whose chunks all end are the first of those of the text with more behind it, where this does not
/// begin with the mark; only blanks are left before it.
pub fn goes_on_behind_a_text()
    ensures { (text more : Text) (pieces : List Piece) → BeginsOtherwise 33 more → HasChunks (start_of text) pieces None → GoesOn text more pieces }
{}

/// Each edit that leads from one image to another can be stated, where there are fewer than 1,000,000,000 do-its: their
/// numerals have at most nine digits.
pub fn states_all_edits()
    ensures { (kernel i j : ImageOf Text) → CanBeMade kernel i j → HasRoot kernel → length j.doits < 10 ^ 9 → AllByRecursion IsStated (edits i j) }
{}

/// The image of a text has no more do-its than the text has bytes, behind a kernel without do-its.
pub fn counts_no_more_doits_than_bytes()
    ensures { (dialect : Dialect) (prelude text : Text) (kernel image : ImageOf Text) → IsKernelOf dialect prelude kernel → kernel.doits ≡ [] →
        IsImageOf dialect prelude text image → length image.doits ≤ length text }
{}

/// If one image can be made of another, the change file after any text of the first is read, and makes the second, in its
/// order. The kernel has `Object`, and there are fewer than 1,000,000,000 do-its.
pub fn makes_the_other_by_text()
    ensures { (prelude text : Text) (kernel i j : ImageOf Text) → CanBeMade kernel i j → HasRoot kernel → length j.doits < 10 ^ 9 →
        IsImageOf Second prelude text i → IsImageOf Second prelude (text ++ change_text i j) j }
{
    spells_definitions();
    law_changes_make();
}

/// After each text of fewer than 1,000,000,000 bytes that is read as an image over the program's kernel, the change file to
/// another image is read, and makes that image. It has no chunk, or it is chunks to its end: a blank one, the one that settles
/// places, and then such as are blank or name only what differs. It is empty exactly if nothing differs.
pub fn law_changed_texts()
    ensures makes { (text : Text) (kernel i j : ImageOf Text) → IsKernelOf Second prelude_text kernel → IsImageOf Second prelude_text text i → length text < 10 ^ 9 →
        IsOtherOf kernel i j → IsImageOf Second prelude_text (text ++ change_text i j) j }
    ensures names { (text : Text) (kernel i j : ImageOf Text) (pieces : List Piece) (end : Option Unended) → IsKernelOf Second prelude_text kernel →
        IsImageOf Second prelude_text text i → IsOtherOf kernel i j → HasChunks (start_of (change_text i j)) pieces end → (end ≡ None) × HoldsDifferences i j pieces }
    ensures none { (text : Text) (kernel i j : ImageOf Text) → IsKernelOf Second prelude_text kernel → IsImageOf Second prelude_text text i →
        IsOtherOf kernel i j → (change_text i j ≡ []) ↔ NothingDiffers i j }
{
    kernel_is_valid();
    every_image_is_valid();
    counts_no_more_doits_than_bytes();
    makes_the_other_by_text();
    chunks_name_differences();
    edits_name_differences();
}
