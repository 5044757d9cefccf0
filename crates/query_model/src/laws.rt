// Laws of questions. The function does nothing; its contract is the law.
ghost use Rattle.std.specs.Prelude.{◌≡◌};
ghost use Rattle.image_model.specs.Image.{ImageOf};
ghost use Rattle.query_model.specs.Queries.{QueryOf};
ghost use Rattle.query_model.specs.Lines.{Text, IsAnswer};

/// A question has at most one answer.
pub fn has_one_answer()
    ensures { (i : ImageOf Text) (q : QueryOf Text) (text other : Text) → IsAnswer i q text → IsAnswer i q other → text ≡ other }
{}
