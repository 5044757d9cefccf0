// The law of what code assigns. The function does nothing; its contract is the law.
ghost use Rattle.std.specs.Prelude.{◌≡◌, Bool};
ghost use Rattle.token_model.specs.declared.kind.Dialect.{Dialect};
ghost use Rattle.grammar_model.specs.Terminal.{Text};
ghost use Rattle.grammar_model.specs.Spelling.{SpellsDoIt, SpellsMethod};
ghost use Rattle.image_model.specs.Image.{EntryOf, DoItOf, ImageOf};
ghost use Rattle.image_model.specs.Words.{text_words};
ghost use Rattle.image_model.specs.Means.{means, means_in_doit};
ghost use Rattle.rename_laws.specs.BehindKernel.{AssignsNothingFixed};

/// In a method or a do-it that some text spells, in either dialect, of the kernel or not, no node assigns a name that stands
/// for a pseudo-variable, an argument or a parameter, whatever image it stands in.
pub fn law_assigned_names()
    ensures method { (d : Dialect) (kernel : Bool) (i : ImageOf Text) (t : Text) (m : EntryOf Text) → SpellsMethod d kernel t m.tree → AssignsNothingFixed (means text_words i m) m.tree.body }
    ensures doit { (d : Dialect) (i : ImageOf Text) (t : Text) (e : DoItOf Text) → SpellsDoIt d t e.body → AssignsNothingFixed (means_in_doit text_words i e) e.body }
{}
