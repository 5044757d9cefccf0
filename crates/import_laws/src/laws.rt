// Laws of imported file-outs. Each function does nothing; its contract is the law.
ghost use Rattle.std.specs.Prelude.{Ok};
ghost use Rattle.token_model.specs.declared.kind.Dialect.TheVariants.{Second};
ghost use Rattle.chunk_format.specs.Left.{start_of};
ghost use Rattle.file_model.specs.Causes.{Refusal};
ghost use Rattle.file_model.specs.Filing.{Text};
ghost use Rattle.file_model.specs.Reading.{HasRefusal};
ghost use Rattle.import_model.specs.Imported.{IsImported};
ghost use Rattle.import_laws.specs.Accepted.{IsLeftAt};

use file_rereading::spells_definitions;

/// What was imported stays as it is when it is imported again.
pub fn imports_once()
    ensures { (text out : Text) → IsImported text (Ok out) → IsImported out (Ok out) }
{
    spells_definitions();
}

/// If the reader refuses what was imported, it refuses a chunk for the classes and methods that are there, or one in a run of
/// methods that spells no method, or one that replaces a do-it. So it reads each other chunk as a do-it in some form; and if
/// each source in a run spells its method and no chunk replaces a do-it, only what the chunks want of classes and methods can
/// be missing.
pub fn leaves_to_the_reader()
    ensures { (prelude text out : Text) (refusal : Refusal) → IsImported text (Ok out) → HasRefusal Second prelude out refusal → IsLeftAt (start_of out) refusal }
{
    spells_definitions();
}
