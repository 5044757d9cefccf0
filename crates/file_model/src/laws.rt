// Laws of file-outs. Each function does nothing; its contract is the law.
ghost use Rattle.std.specs.Prelude.{◌≡◌, ◌⊎◌};
ghost use Rattle.token_model.specs.declared.kind.Dialect.{Dialect};
ghost use Rattle.image_model.specs.Image.{ImageOf};
ghost use Rattle.file_model.specs.Causes.{Refusal};
ghost use Rattle.file_model.specs.Filing.{Text};
ghost use Rattle.file_model.specs.Reading.{IsKernelOf, IsImageOf, HasRefusal};
ghost use Rattle.file_model.specs.Written.{file_of};
ghost use Rattle.file_model.specs.Examples.{AllMade, accepted, refusals, written_image, written_text};

/// Chunks one after the other make the images that stand beside them, or are refused with the cause that stands beside
/// them: each form of chunk but the four that state places, settle them or replace a do-it, and each cause but `Unended`. An
/// image with everything that is written has the text that stands beside it.
pub fn judges_examples()
    ensures accepted { AllMade accepted }
    ensures refusals { AllMade refusals }
    ensures written { file_of written_image ≡ written_text }
{}

/// Behind a kernel each text is the file-out of exactly one image, or exactly one of its chunks is the first that is
/// refused, with one cause at one place; never both.
pub fn has_one_image()
    ensures either { (dialect : Dialect) (prelude text : Text) (kernel : ImageOf Text) → IsKernelOf dialect prelude kernel → ((image : ImageOf Text) × IsImageOf dialect prelude text image) ⊎ ((refusal : Refusal) × HasRefusal dialect prelude text refusal) }
    ensures not_both { (dialect : Dialect) (prelude text : Text) (image : ImageOf Text) (refusal : Refusal) → IsImageOf dialect prelude text image → ¬ HasRefusal dialect prelude text refusal }
    ensures one_image { (dialect : Dialect) (prelude text : Text) (image other : ImageOf Text) → IsImageOf dialect prelude text image → IsImageOf dialect prelude text other → image ≡ other }
    ensures one_refusal { (dialect : Dialect) (prelude text : Text) (refusal other : Refusal) → HasRefusal dialect prelude text refusal → HasRefusal dialect prelude text other → refusal ≡ other }
    ensures one_kernel { (dialect : Dialect) (prelude : Text) (kernel other : ImageOf Text) → IsKernelOf dialect prelude kernel → IsKernelOf dialect prelude other → kernel ≡ other }
{}
