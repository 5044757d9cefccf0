// The laws. Each function does nothing; its contract is the law.
ghost use Rattle.std.specs.Prelude.{true, ◌≡◌, ◌⊎◌, [], map};
ghost use Rattle.std.specs.List.{AllByRecursion};
ghost use Rattle.token_model.specs.declared.kind.Dialect.{Dialect};
ghost use Rattle.token_model.specs.declared.kind.Dialect.TheVariants.{Second};
ghost use Rattle.st_kernel.specs.KernelText.{prelude_text};
ghost use Rattle.image_model.specs.Image.{ClassOf, ImageOf};
ghost use Rattle.image_model.specs.Words.{text_words};
ghost use Rattle.image_model.specs.Valid.{IsFileable, IsValid};
ghost use Rattle.file_model.specs.Causes.{Refusal};
ghost use Rattle.file_model.specs.Filing.{Text};
ghost use Rattle.file_model.specs.Fileable.{reading_of};
ghost use Rattle.file_model.specs.Reading.{HasRefusal, IsImageOf, IsKernelOf};
ghost use Rattle.file_model.specs.Written.{file_of};
ghost use Rattle.file_rereading.specs.Rereading.{IsBeginning, IsWithinLimits, KernelFirst, with_heads};
ghost use Rattle.kernel_image.specs.KernelClasses.{kernel_classes};
ghost use Rattle.kernel_image.specs.KernelCode.{whole_kernel};
ghost use Rattle.kernel_image.specs.KernelNames.{knows_names};
ghost use Rattle.kernel_image.specs.KernelMethods.{row_of, kernel_methods};

use file_laws::{gives_fileable_images, gives_valid_images};
use file_model::has_one_image;
use file_rereading::{
    keeps_the_kernel_first, reads_each_image_again, reads_what_was_written, spells_definitions,
};
use reread_law::{spells_the_tree_again, tells_which_trees_have_a_text};

/// The text of the kernel is read to its end, in either dialect: no chunk of it is refused, and it makes an image.
pub fn kernel_is_read()
    ensures { (dialect : Dialect) → (kernel : ImageOf Text) × IsKernelOf dialect prelude_text kernel }
{
    spells_definitions();
    tells_which_trees_have_a_text();
    spells_the_tree_again();
}

/// The text of the kernel makes one image, in either dialect: its classes and its methods are those of tables, and it has no
/// do-its. Of each method its class and side, its protocol, its source and its whole tree are so known: what it says.
pub fn kernel_says()
    ensures { (dialect : Dialect) (kernel : ImageOf Text) → IsKernelOf dialect prelude_text kernel → kernel ≡ whole_kernel }
{
    spells_definitions();
    tells_which_trees_have_a_text();
    spells_the_tree_again();
}

/// The text of the kernel makes its twenty classes, in either dialect: `Object` and those below it, with their superclasses
/// and instance variables, and nothing else.
pub fn kernel_has_these_classes()
    ensures { (dialect : Dialect) (kernel : ImageOf Text) → IsKernelOf dialect prelude_text kernel → kernel.classes ≡ kernel_classes }
{
    kernel_says();
}

/// The text of the kernel makes these methods, in either dialect: of each class and side these selectors, in order, each with
/// the number of its primitive where it is one.
pub fn kernel_has_these_methods()
    ensures { (dialect : Dialect) (kernel : ImageOf Text) → IsKernelOf dialect prelude_text kernel → map row_of kernel.methods ≡ kernel_methods }
{
    kernel_says();
}

/// Each name that a method of the kernel reads or assigns stands for something: for a pseudo-variable, a local of the method,
/// a variable of its class or of one above it, a class of the kernel, or `Transcript`.
pub fn kernel_knows_its_names()
    ensures { (dialect : Dialect) (kernel : ImageOf Text) → IsKernelOf dialect prelude_text kernel → knows_names kernel ≡ true }
{
    kernel_says();
}

/// The image of the kernel's text is valid, in either dialect. No class of it has class-instance variables, and images begin
/// with it: it has `Object` and no do-its.
pub fn kernel_is_valid()
    ensures valid { (dialect : Dialect) (kernel : ImageOf Text) → IsKernelOf dialect prelude_text kernel → IsValid text_words (reading_of dialect kernel) kernel }
    ensures plain { (dialect : Dialect) (kernel : ImageOf Text) → IsKernelOf dialect prelude_text kernel → AllByRecursion (λ (c : ClassOf Text). c.class_side ≡ []) kernel.classes }
    ensures beginning { (dialect : Dialect) (kernel : ImageOf Text) → IsKernelOf dialect prelude_text kernel → IsBeginning kernel }
{
    kernel_says();
}

/// Each text that is read behind the kernel makes an image, or one of its chunks is the first that is refused.
pub fn every_text_is_read_or_refused()
    ensures { (dialect : Dialect) (text : Text) → ((image : ImageOf Text) × IsImageOf dialect prelude_text text image) ⊎ ((refusal : Refusal) × HasRefusal dialect prelude_text text refusal) }
{
    kernel_is_read();
    has_one_image();
}

/// The image of each file-out that is read behind the kernel is valid and can be written as a file-out and read again, and
/// the classes and the methods of the kernel stand in it as they are, before those of the user.
pub fn every_image_is_valid()
    ensures valid { (dialect : Dialect) (text : Text) (kernel image : ImageOf Text) → IsKernelOf dialect prelude_text kernel → IsImageOf dialect prelude_text text image → IsValid text_words (reading_of dialect kernel) image }
    ensures fileable { (dialect : Dialect) (text : Text) (kernel image : ImageOf Text) → IsKernelOf dialect prelude_text kernel → IsImageOf dialect prelude_text text image → IsFileable (reading_of dialect kernel) image }
    ensures first { (dialect : Dialect) (text : Text) (kernel image : ImageOf Text) → IsKernelOf dialect prelude_text kernel → IsImageOf dialect prelude_text text image → KernelFirst kernel image }
{
    kernel_is_valid();
    gives_valid_images();
    gives_fileable_images();
    keeps_the_kernel_first();
}

/// Behind the kernel the text of an image is read again as that image: of each image that a file-out makes, and of each
/// that is valid, can be written, stands behind the kernel, and has no more classes and methods than a file-out may make. Of
/// do-its alone all are counted as those before all else.
pub fn every_image_is_read_again()
    ensures made { (text : Text) (image : ImageOf Text) → IsImageOf Second prelude_text text image → IsImageOf Second prelude_text (file_of image) (with_heads image) }
    ensures written { (kernel image : ImageOf Text) → IsKernelOf Second prelude_text kernel → KernelFirst kernel image →
        IsValid text_words (reading_of Second kernel) image → IsFileable (reading_of Second kernel) image → IsWithinLimits image →
        IsImageOf Second prelude_text (file_of image) (with_heads image) }
{
    kernel_is_valid();
    reads_each_image_again();
    reads_what_was_written();
}
