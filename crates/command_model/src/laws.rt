// Laws of all commands. Each function does nothing; its contract is the law.
ghost use Rattle.std.specs.Prelude.{◌≡◌, ℕ, false, List, Option, None};
ghost use Rattle.token_model.specs.declared.kind.Dialect.TheVariants.{Second};
ghost use Rattle.grammar_model.specs.Spanned.{SpannedMethod};
ghost use Rattle.grammar_model.specs.Spelling.{SpellsMethodAt};
ghost use Rattle.image_model.specs.Image.{DoItOf, ImageOf, plus};
ghost use Rattle.rename_model.specs.ClassRenamed.{WritingOf};
ghost use Rattle.command_model.specs.AllHold.{AllHold};
ghost use Rattle.command_model.specs.Asked.{AskedOf};
ghost use Rattle.command_model.specs.Beside.{HasOneMore, LeavesDoIts};
ghost use Rattle.command_model.specs.Commands.{CommandOf};
ghost use Rattle.command_model.specs.Effects.{effect};
ghost use Rattle.command_model.specs.Judged.{first_false};
ghost use Rattle.command_model.specs.Located.{HasPart, IsLocating};
ghost use Rattle.command_model.specs.Parts.{Part};
ghost use Rattle.command_model.specs.PartsOfText.{parts_of_text};

/// Where no condition of a command is false, all that it has hold, and the other way round.
pub fn law_all_hold<N>()
    ensures hold { (a : AskedOf N) (i : ImageOf N) (command : CommandOf N) → first_false a i command ≡ None → AllHold a i command }
    ensures none_false { (a : AskedOf N) (i : ImageOf N) (command : CommandOf N) → AllHold a i command → first_false a i command ≡ None }
{}

/// What a command makes of an image with one more do-it is what it makes of the image, with one more do-it; and with the same
/// one, where the command leaves do-its.
pub fn law_doit_beside<N>()
    ensures beside { (a : AskedOf N) (writing : WritingOf N) (i : ImageOf N) (e : DoItOf N) (command : CommandOf N) →
        HasOneMore (effect a writing command i) (effect a writing command (plus i e)) }
    ensures left { (a : AskedOf N) (writing : WritingOf N) (i : ImageOf N) (e : DoItOf N) (command : CommandOf N) → LeavesDoIts command →
        effect a writing command (plus i e) ≡ plus (effect a writing command i) e }
{}

/// Each part of a method is found from its place in a source that spells the method, it alone is found there, and none is
/// found in a source that spells no method of a user.
pub fn law_parts_of_text()
    ensures locating { IsLocating parts_of_text }
    ensures one_part { (source : List ℕ) (m : SpannedMethod) (from to : ℕ) (found : Option Part) → SpellsMethodAt Second false source m →
        HasPart m.body (record { from = from; to = to }) found → found ≡ parts_of_text source from to }
    ensures none_unspelled { (source : List ℕ) (from to : ℕ) → ((m : SpannedMethod) → ¬ SpellsMethodAt Second false source m) → parts_of_text source from to ≡ None }
{}
