// The law of the layout. The function does nothing; its contract is the law.
ghost use Rattle.std.specs.Prelude.{◌≡◌};
ghost use Rattle.file_model.specs.Written.{file_of};
ghost use Rattle.image_maker.specs.Generated.{image_text};
ghost use Rattle.image_maker.specs.Layout.{image};

/// The text of a small image is as the image would be written: the definitions of its classes, and a run for each method.
pub fn is_written_as_a_file()
    ensures one { image_text 1 ≡ file_of (image 1) }
    ensures three { image_text 3 ≡ file_of (image 3) }
    ensures eleven { image_text 11 ≡ file_of (image 11) }
{}
