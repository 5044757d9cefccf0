// Laws of imported file-outs. Each function does nothing; its contract is the law.
ghost use Rattle.std.specs.Prelude.{◌≡◌, Result, Ok};
ghost use Rattle.token_model.specs.declared.kind.Dialect.TheVariants.{Second};
ghost use Rattle.image_model.specs.Image.{ImageOf};
ghost use Rattle.file_model.specs.Causes.{Refusal};
ghost use Rattle.file_model.specs.Filing.{Text};
ghost use Rattle.file_model.specs.Reading.{IsImageOf};
ghost use Rattle.import_model.specs.Imported.{IsImported};

/// A file-out becomes one text, or has one refusal; never both.
pub fn has_one_import()
    ensures { (text : Text) (r s : Result Text Refusal) → IsImported text r → IsImported text s → r ≡ s }
{}

/// The file-out of an image stays as it is, byte for byte.
pub fn keeps_file_outs()
    ensures { (prelude text : Text) (image : ImageOf Text) → IsImageOf Second prelude text image → IsImported text (Ok text) }
{}
