// Laws of commands whose names are changed. Each function does nothing; its contract is the law.
ghost use Rattle.std.specs.Prelude.{◌≡◌, ◌<◌, ◌++◌, ℕ, Bool, List, length, map, option_map, IsTrue, IfOk, Ok, Err};
ghost use Rattle.std.specs.List.{AllByRecursion};
ghost use Rattle.std.specs.Result.{result_map_both};
ghost use Rattle.rb_base.specs.Names.{HasNoTwice, name_at};
ghost use Rattle.image_model.specs.Image.{ImageOf, map_image};
ghost use Rattle.image_model.specs.ImageNames.{OptionNames, ImageNames};
ghost use Rattle.rename_model.specs.ClassRenamed.{WritingOf, canonical};
ghost use Rattle.command_model.specs.Commands.{CommandOf, MovesNoCode};
ghost use Rattle.command_model.specs.Conditions.{ConditionOf};
ghost use Rattle.command_model.specs.Located.{Locating};
ghost use Rattle.command_model.specs.Asked.{AskedOf, text_asked};
ghost use Rattle.command_model.specs.Numbers.{number_asked, number_writing};
ghost use Rattle.command_model.specs.Needs.{needs};
ghost use Rattle.command_model.specs.Holds.{holds};
ghost use Rattle.command_model.specs.Effects.{effect};
ghost use Rattle.command_model.specs.Judged.{first_false, judged};
ghost use Rattle.command_numbers.specs.MappedCommands.{map_command, map_condition};
ghost use Rattle.command_numbers.specs.CommandNames.{CommandNames, ConditionNames};
ghost use Rattle.command_numbers.specs.KeepsAsked.{KeepsAsked, KeepsWriting};
ghost use Rattle.command_numbers.specs.WithoutMove.{IsWithoutMove};

/// Where names are changed one to one, and what is asked of them has the same answer after, a command that moves no code has
/// the same conditions, the same of them hold, and what it makes of an image is the same, with each name changed. Each such
/// condition has the same answer for a command that moves code, too, but `Shallow`, which looks at what the command makes.
pub fn commands_by_names<M, N>()
    ensures needs { (f : M → N) (p : M → Bool) (a : AskedOf M) (b : AskedOf N) (i : ImageOf M) (command : CommandOf M) →
        KeepsAsked (λ n. IsTrue (p n)) f a b → ImageNames (λ n. IsTrue (p n)) i → CommandNames (λ n. IsTrue (p n)) command → MovesNoCode command →
        needs b (map_image f i) (map_command f command) ≡ map (map_condition f) (needs a i command) }
    ensures holds { (f : M → N) (p : M → Bool) (a : AskedOf M) (b : AskedOf N) (i : ImageOf M) (command : CommandOf M) (condition : ConditionOf M) →
        KeepsAsked (λ n. IsTrue (p n)) f a b → ImageNames (λ n. IsTrue (p n)) i → CommandNames (λ n. IsTrue (p n)) command → ConditionNames (λ n. IsTrue (p n)) condition → IsWithoutMove command condition →
        holds b (map_image f i) (map_command f command) (map_condition f condition) ≡ holds a i command condition }
    ensures first_false { (f : M → N) (p : M → Bool) (a : AskedOf M) (b : AskedOf N) (i : ImageOf M) (command : CommandOf M) →
        KeepsAsked (λ n. IsTrue (p n)) f a b → ImageNames (λ n. IsTrue (p n)) i → CommandNames (λ n. IsTrue (p n)) command → MovesNoCode command →
        first_false b (map_image f i) (map_command f command) ≡ option_map (map_condition f) (first_false a i command) }
    ensures effect { (f : M → N) (p : M → Bool) (a : AskedOf M) (b : AskedOf N) (writing : WritingOf M) (writing_there : WritingOf N) (i : ImageOf M) (command : CommandOf M) →
        KeepsAsked (λ n. IsTrue (p n)) f a b → KeepsWriting (λ n. IsTrue (p n)) f writing writing_there →
        ImageNames (λ n. IsTrue (p n)) i → CommandNames (λ n. IsTrue (p n)) command → MovesNoCode command →
        effect b writing_there (map_command f command) (map_image f i) ≡ map_image f (effect a writing command i) }
    ensures judged { (f : M → N) (p : M → Bool) (a : AskedOf M) (b : AskedOf N) (writing : WritingOf M) (writing_there : WritingOf N) (i : ImageOf M) (command : CommandOf M) →
        KeepsAsked (λ n. IsTrue (p n)) f a b → KeepsWriting (λ n. IsTrue (p n)) f writing writing_there →
        ImageNames (λ n. IsTrue (p n)) i → CommandNames (λ n. IsTrue (p n)) command → MovesNoCode command →
        judged b writing_there (map_image f i) (map_command f command) ≡ result_map_both (map_image f) (map_condition f) (judged a writing i command) }
{}

/// The conditions of such a command, and the image after it, have no names but those of the image before and of the command.
pub fn names_of_commands<N>()
    ensures needs { (p : N → Bool) (a : AskedOf N) (i : ImageOf N) (command : CommandOf N) → ImageNames (λ n. IsTrue (p n)) i → CommandNames (λ n. IsTrue (p n)) command → MovesNoCode command →
        AllByRecursion (ConditionNames (λ n. IsTrue (p n))) (needs a i command) }
    ensures effect { (p : N → Bool) (a : AskedOf N) (writing : WritingOf N) (i : ImageOf N) (command : CommandOf N) → ImageNames (λ n. IsTrue (p n)) i → CommandNames (λ n. IsTrue (p n)) command → MovesNoCode command →
        ImageNames (λ n. IsTrue (p n)) (effect a writing command i) }
{}

/// A command that moves no code has the same conditions, the same of them hold, the same one is the first that is false, and
/// the image after it is the same, over the numbers of names in a table and over their texts. It names no part and sends
/// nothing to `self`, so neither the number of that name nor how parts are looked up matters.
pub fn commands_by_numbers()
    ensures needs { (names : List (List ℕ)) (self_number : ℕ) (part_of : Locating) (i : ImageOf ℕ) (command : CommandOf ℕ) → HasNoTwice names →
        ImageNames (λ n. n < length names) i → CommandNames (λ n. n < length names) command → MovesNoCode command →
        needs text_asked (map_image (name_at names) i) (map_command (name_at names) command) ≡ map (map_condition (name_at names)) (needs (number_asked names self_number part_of) i command) }
    ensures holds { (names : List (List ℕ)) (self_number : ℕ) (part_of : Locating) (i : ImageOf ℕ) (command : CommandOf ℕ) (condition : ConditionOf ℕ) → HasNoTwice names →
        ImageNames (λ n. n < length names) i → CommandNames (λ n. n < length names) command → ConditionNames (λ n. n < length names) condition → IsWithoutMove command condition →
        holds text_asked (map_image (name_at names) i) (map_command (name_at names) command) (map_condition (name_at names) condition) ≡ holds (number_asked names self_number part_of) i command condition }
    ensures first_false { (names : List (List ℕ)) (self_number : ℕ) (part_of : Locating) (i : ImageOf ℕ) (command : CommandOf ℕ) → HasNoTwice names →
        ImageNames (λ n. n < length names) i → CommandNames (λ n. n < length names) command → MovesNoCode command →
        first_false text_asked (map_image (name_at names) i) (map_command (name_at names) command) ≡ option_map (map_condition (name_at names)) (first_false (number_asked names self_number part_of) i command) }
    ensures effect { (names : List (List ℕ)) (self_number : ℕ) (part_of : Locating) (i : ImageOf ℕ) (command : CommandOf ℕ) → HasNoTwice names →
        ImageNames (λ n. n < length names) i → CommandNames (λ n. n < length names) command → MovesNoCode command →
        effect text_asked canonical (map_command (name_at names) command) (map_image (name_at names) i) ≡ map_image (name_at names) (effect (number_asked names self_number part_of) (number_writing names) command i) }
    ensures judged { (names : List (List ℕ)) (self_number : ℕ) (part_of : Locating) (i : ImageOf ℕ) (command : CommandOf ℕ) → HasNoTwice names →
        ImageNames (λ n. n < length names) i → CommandNames (λ n. n < length names) command → MovesNoCode command →
        judged text_asked canonical (map_image (name_at names) i) (map_command (name_at names) command) ≡ result_map_both (map_image (name_at names)) (map_condition (name_at names)) (judged (number_asked names self_number part_of) (number_writing names) i command) }
{}

/// Where such a command is accepted over numbers it is accepted over their texts, with the same image after it; and where it
/// is refused it is refused for the same condition.
pub fn verdicts_by_numbers()
    ensures accepted { (names : List (List ℕ)) (self_number : ℕ) (part_of : Locating) (i j : ImageOf ℕ) (command : CommandOf ℕ) → HasNoTwice names →
        ImageNames (λ n. n < length names) i → CommandNames (λ n. n < length names) command → MovesNoCode command → judged (number_asked names self_number part_of) (number_writing names) i command ≡ Ok j →
        judged text_asked canonical (map_image (name_at names) i) (map_command (name_at names) command) ≡ Ok (map_image (name_at names) j) }
    ensures refused { (names : List (List ℕ)) (self_number : ℕ) (part_of : Locating) (i : ImageOf ℕ) (command : CommandOf ℕ) (condition : ConditionOf ℕ) → HasNoTwice names →
        ImageNames (λ n. n < length names) i → CommandNames (λ n. n < length names) command → MovesNoCode command → judged (number_asked names self_number part_of) (number_writing names) i command ≡ Err condition →
        judged text_asked canonical (map_image (name_at names) i) (map_command (name_at names) command) ≡ Err (map_condition (name_at names) condition) }
{}

/// Each number in the conditions of such a command and in the image after it is that of a name in the table.
pub fn numbers_of_commands()
    ensures needs { (names : List (List ℕ)) (self_number : ℕ) (part_of : Locating) (i : ImageOf ℕ) (command : CommandOf ℕ) →
        ImageNames (λ n. n < length names) i → CommandNames (λ n. n < length names) command → MovesNoCode command →
        AllByRecursion (ConditionNames (λ n. n < length names)) (needs (number_asked names self_number part_of) i command) }
    ensures first_false { (names : List (List ℕ)) (self_number : ℕ) (part_of : Locating) (i : ImageOf ℕ) (command : CommandOf ℕ) →
        ImageNames (λ n. n < length names) i → CommandNames (λ n. n < length names) command → MovesNoCode command →
        OptionNames (ConditionNames (λ n. n < length names)) (first_false (number_asked names self_number part_of) i command) }
    ensures effect { (names : List (List ℕ)) (self_number : ℕ) (part_of : Locating) (i : ImageOf ℕ) (command : CommandOf ℕ) →
        ImageNames (λ n. n < length names) i → CommandNames (λ n. n < length names) command → MovesNoCode command →
        ImageNames (λ n. n < length names) (effect (number_asked names self_number part_of) (number_writing names) command i) }
    ensures judged { (names : List (List ℕ)) (self_number : ℕ) (part_of : Locating) (i : ImageOf ℕ) (command : CommandOf ℕ) →
        ImageNames (λ n. n < length names) i → CommandNames (λ n. n < length names) command → MovesNoCode command →
        IfOk (judged (number_asked names self_number part_of) (number_writing names) i command) (ImageNames (λ n. n < length names)) }
{}

/// More names at the end of the table change neither the conditions of a command, nor which of them hold, nor the image
/// after it.
pub fn commands_in_longer_tables()
    ensures needs { (names more : List (List ℕ)) (self_number : ℕ) (part_of : Locating) (i : ImageOf ℕ) (command : CommandOf ℕ) →
        ImageNames (λ n. n < length names) i → CommandNames (λ n. n < length names) command → MovesNoCode command →
        needs (number_asked (names ++ more) self_number part_of) i command ≡ needs (number_asked names self_number part_of) i command }
    ensures holds { (names more : List (List ℕ)) (self_number : ℕ) (part_of : Locating) (i : ImageOf ℕ) (command : CommandOf ℕ) (condition : ConditionOf ℕ) →
        ImageNames (λ n. n < length names) i → CommandNames (λ n. n < length names) command → ConditionNames (λ n. n < length names) condition → IsWithoutMove command condition →
        holds (number_asked (names ++ more) self_number part_of) i command condition ≡ holds (number_asked names self_number part_of) i command condition }
    ensures first_false { (names more : List (List ℕ)) (self_number : ℕ) (part_of : Locating) (i : ImageOf ℕ) (command : CommandOf ℕ) →
        ImageNames (λ n. n < length names) i → CommandNames (λ n. n < length names) command → MovesNoCode command →
        first_false (number_asked (names ++ more) self_number part_of) i command ≡ first_false (number_asked names self_number part_of) i command }
    ensures effect { (names more : List (List ℕ)) (self_number : ℕ) (part_of : Locating) (i : ImageOf ℕ) (command : CommandOf ℕ) →
        ImageNames (λ n. n < length names) i → CommandNames (λ n. n < length names) command → MovesNoCode command →
        effect (number_asked (names ++ more) self_number part_of) (number_writing (names ++ more)) command i ≡ effect (number_asked names self_number part_of) (number_writing names) command i }
    ensures judged { (names more : List (List ℕ)) (self_number : ℕ) (part_of : Locating) (i : ImageOf ℕ) (command : CommandOf ℕ) →
        ImageNames (λ n. n < length names) i → CommandNames (λ n. n < length names) command → MovesNoCode command →
        judged (number_asked (names ++ more) self_number part_of) (number_writing (names ++ more)) i command ≡ judged (number_asked names self_number part_of) (number_writing names) i command }
{}

/// The numbers of an image and of a command stand for the same texts in a longer table, and are known in it.
pub fn numbers_in_longer_tables()
    ensures image { (names more : List (List ℕ)) (i : ImageOf ℕ) → ImageNames (λ n. n < length names) i → map_image (name_at (names ++ more)) i ≡ map_image (name_at names) i }
    ensures command { (names more : List (List ℕ)) (command : CommandOf ℕ) → CommandNames (λ n. n < length names) command →
        map_command (name_at (names ++ more)) command ≡ map_command (name_at names) command }
    ensures known_image { (names more : List (List ℕ)) (i : ImageOf ℕ) → ImageNames (λ n. n < length names) i → ImageNames (λ n. n < length (names ++ more)) i }
    ensures known_command { (names more : List (List ℕ)) (command : CommandOf ℕ) → CommandNames (λ n. n < length names) command → CommandNames (λ n. n < length (names ++ more)) command }
{}
