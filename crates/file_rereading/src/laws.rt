// The laws. Each function does nothing; its contract is the law.
ghost use Rattle.std.specs.Prelude.{◌≡◌, codes, unwrap_or, Bool, true, false, Some, IsTrue};
ghost use Rattle.std.specs.List.{AllByRecursion};
ghost use Rattle.token_model.specs.declared.kind.Dialect.{Dialect};
ghost use Rattle.token_model.specs.declared.kind.Dialect.TheVariants.{Second};
ghost use Rattle.text_model.specs.Literals.{is_identifier};
ghost use Rattle.grammar_model.specs.Spelling.{SpellsDoIt};
ghost use Rattle.image_model.specs.Image.{ClassOf, ImageOf};
ghost use Rattle.image_model.specs.Words.{text_words};
ghost use Rattle.image_model.specs.Valid.{IsValid, IsFileable, GivesNames, SuperclassesStandBefore, HasClass};
ghost use Rattle.file_model.specs.Changes.{Define, Comment, SetClassSide, RunOf};
ghost use Rattle.file_model.specs.Words.{may_name};
ghost use Rattle.file_model.specs.Forms.{Changes, Opens, form_of};
ghost use Rattle.file_model.specs.Filing.{Text};
ghost use Rattle.file_model.specs.Written.{definition_text, class_side_text, comment_text, file_of};
ghost use Rattle.file_model.specs.Fileable.{reading_of};
ghost use Rattle.file_model.specs.Reading.{IsKernelOf, IsImageOf};
ghost use Rattle.file_rereading.specs.Rereading.{IsWithinLimits, IsBeginning, KernelFirst, with_heads};
ghost use Rattle.file_rereading.specs.Least.{object_alone, least_prelude};
ghost use Rattle.file_rereading.specs.Trees.{definition_tree, definition_of, class_side_tree, comment_tree, opening_tree, opening_text};

/// The chunks by which the text of an image defines its classes and opens its runs of methods spell their trees in the
/// second dialect, where the names are identifiers.
pub fn spells_definitions()
    ensures definition { (class : ClassOf Text) → is_identifier (unwrap_or class.superclass (codes "nil")) ≡ true → is_identifier class.name ≡ true → SpellsDoIt Second (definition_text class) (definition_tree class) }
    ensures class_side { (class : ClassOf Text) → is_identifier class.name ≡ true → SpellsDoIt Second (class_side_text class) (class_side_tree class) }
    ensures comment { (class : ClassOf Text) → is_identifier class.name ≡ true → SpellsDoIt Second (comment_text class) (comment_tree class) }
    ensures opening { (run : RunOf Text) → is_identifier run.class ≡ true → SpellsDoIt Second (opening_text run) (opening_tree run) }
{}

/// The text of an image, read behind the text of the kernel, makes that image again. The image is valid, it can be written,
/// it has no more classes and methods than a file-out may make, and the classes and methods of the kernel stand before
/// those of the user. The kernel has `Object` and no do-its. Where the image has do-its alone, reading counts all of them
/// as those before all else; in each other image it counts those that were before all else.
pub fn reads_what_was_written()
    ensures { (prelude : Text) (kernel image : ImageOf Text) → IsKernelOf Second prelude kernel → IsBeginning kernel → KernelFirst kernel image →
        IsValid text_words (reading_of Second kernel) image → IsFileable (reading_of Second kernel) image → IsWithinLimits image →
        IsImageOf Second prelude (file_of image) (with_heads image) }
{}

/// What the second dialect makes of the chunks by which the text of an image defines its classes and opens its runs of
/// methods: a class is defined as it is, its class-instance variables and its comment are given to it, and the run is
/// that of the methods behind it. The names of the class and of its variables are names that may be given, and the class
/// has a superclass.
pub fn says_what_was_written()
    ensures definition { (class : ClassOf Text) (above : Text) → class.superclass ≡ Some above → GivesNames (λ n. IsTrue (may_name n)) class → form_of Second false (definition_tree class) ≡ Changes (Define (definition_of class)) }
    ensures class_side { (class : ClassOf Text) → GivesNames (λ n. IsTrue (may_name n)) class → form_of Second false (class_side_tree class) ≡ Changes (SetClassSide class.name class.class_side) }
    ensures comment { (class : ClassOf Text) → form_of Second false (comment_tree class) ≡ Changes (Comment class.name class.comment) }
    ensures opening { (run : RunOf Text) → form_of Second false (opening_tree run) ≡ Opens run }
{}

/// In the image of a file-out the kernel's classes and methods stand as they are, before those of the user, where the
/// kernel's superclasses stand before their subclasses and each of its methods is one of its classes; and no file-out
/// makes more classes and methods than there may be, 10,000 and 200,000 with those of the kernel.
pub fn keeps_the_kernel_first()
    ensures first { (dialect : Dialect) (prelude text : Text) (kernel image : ImageOf Text) → IsKernelOf dialect prelude kernel → SuperclassesStandBefore kernel.classes →
        AllByRecursion (HasClass kernel.classes) kernel.methods → IsImageOf dialect prelude text image → KernelFirst kernel image }
    ensures limits { (dialect : Dialect) (prelude text : Text) (image : ImageOf Text) → IsImageOf dialect prelude text image → IsWithinLimits image }
{}

/// The text of the image that was made of a file-out makes that image again, behind a valid kernel that has `Object` and no
/// do-its. Of do-its alone all are counted as those before all else.
pub fn reads_each_image_again()
    ensures { (prelude text : Text) (kernel image : ImageOf Text) → IsKernelOf Second prelude kernel → IsBeginning kernel → IsValid text_words (reading_of Second kernel) kernel →
        IsImageOf Second prelude text image → IsImageOf Second prelude (file_of image) (with_heads image) }
{}

/// The image that is read again has the same text: the text of do-its alone does not say how many of them stand before
/// all else.
pub fn writes_the_same_again()
    ensures { (image : ImageOf Text) → file_of (with_heads image) ≡ file_of image }
{}

/// The conditions of these laws can be met: the text that defines `Object` alone makes a valid kernel that has `Object` and
/// no do-its.
pub fn holds_of_some_kernel()
    ensures kernel { IsKernelOf Second least_prelude object_alone }
    ensures beginning { IsBeginning object_alone }
    ensures valid { IsValid text_words (reading_of Second object_alone) object_alone }
{}
