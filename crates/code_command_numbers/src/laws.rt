// Laws of all commands whose names are changed. Each function does nothing; its contract is the law.
ghost use Rattle.std.specs.Prelude.{◌≡◌, ◌<◌, ◌++◌, ℕ, Bool, List, length, map, option_map, IsTrue, IfOk, Ok, Err};
ghost use Rattle.std.specs.List.{AllByRecursion};
ghost use Rattle.std.specs.Result.{result_map_both};
ghost use Rattle.rb_base.specs.Names.{HasNoTwice, name_at};
ghost use Rattle.image_model.specs.Image.{ImageOf, map_image};
ghost use Rattle.image_model.specs.ImageNames.{OptionNames, ImageNames};
ghost use Rattle.rename_model.specs.ClassRenamed.{WritingOf, canonical};
ghost use Rattle.command_model.specs.Commands.{CommandOf};
ghost use Rattle.command_model.specs.Conditions.{ConditionOf};
ghost use Rattle.command_model.specs.Located.{Locating};
ghost use Rattle.command_model.specs.Asked.{AskedOf, asked_of_texts};
ghost use Rattle.command_model.specs.Numbers.{number_asked, number_writing};
ghost use Rattle.command_model.specs.Needs.{needs};
ghost use Rattle.command_model.specs.Holds.{holds};
ghost use Rattle.command_model.specs.Effects.{effect};
ghost use Rattle.command_model.specs.Judged.{first_false, judged};
ghost use Rattle.command_numbers.specs.MappedCommands.{map_command, map_condition};
ghost use Rattle.command_numbers.specs.CommandNames.{CommandNames, ConditionNames};
ghost use Rattle.command_numbers.specs.KeepsAsked.{KeepsWriting};
ghost use Rattle.code_command_numbers.specs.KeepsMoves.{KeepsMoves};
ghost use Rattle.code_command_numbers.specs.SelfNumber.{IsNumberOfSelf};

use command_numbers::{
    commands_by_names, commands_by_numbers, commands_in_longer_tables, names_of_commands,
    numbers_of_commands,
};

/// Where names are changed one to one, what is asked of them has the same answer after, `self` stays `self`, and parts of
/// sources are looked up the same, each command has the same conditions, the same of all conditions hold, and what it makes
/// of an image is the same, with each name changed.
pub fn all_commands_by_names<M, N>()
    ensures needs { (f : M → N) (p : M → Bool) (a : AskedOf M) (b : AskedOf N) (i : ImageOf M) (command : CommandOf M) →
        KeepsMoves (λ n. IsTrue (p n)) f a b → ImageNames (λ n. IsTrue (p n)) i → CommandNames (λ n. IsTrue (p n)) command →
        needs b (map_image f i) (map_command f command) ≡ map (map_condition f) (needs a i command) }
    ensures holds { (f : M → N) (p : M → Bool) (a : AskedOf M) (b : AskedOf N) (i : ImageOf M) (command : CommandOf M) (condition : ConditionOf M) →
        KeepsMoves (λ n. IsTrue (p n)) f a b → ImageNames (λ n. IsTrue (p n)) i → CommandNames (λ n. IsTrue (p n)) command → ConditionNames (λ n. IsTrue (p n)) condition →
        holds b (map_image f i) (map_command f command) (map_condition f condition) ≡ holds a i command condition }
    ensures first_false { (f : M → N) (p : M → Bool) (a : AskedOf M) (b : AskedOf N) (i : ImageOf M) (command : CommandOf M) →
        KeepsMoves (λ n. IsTrue (p n)) f a b → ImageNames (λ n. IsTrue (p n)) i → CommandNames (λ n. IsTrue (p n)) command →
        first_false b (map_image f i) (map_command f command) ≡ option_map (map_condition f) (first_false a i command) }
    ensures effect { (f : M → N) (p : M → Bool) (a : AskedOf M) (b : AskedOf N) (writing : WritingOf M) (writing_there : WritingOf N) (i : ImageOf M) (command : CommandOf M) →
        KeepsMoves (λ n. IsTrue (p n)) f a b → KeepsWriting (λ n. IsTrue (p n)) f writing writing_there →
        ImageNames (λ n. IsTrue (p n)) i → CommandNames (λ n. IsTrue (p n)) command →
        effect b writing_there (map_command f command) (map_image f i) ≡ map_image f (effect a writing command i) }
    ensures judged { (f : M → N) (p : M → Bool) (a : AskedOf M) (b : AskedOf N) (writing : WritingOf M) (writing_there : WritingOf N) (i : ImageOf M) (command : CommandOf M) →
        KeepsMoves (λ n. IsTrue (p n)) f a b → KeepsWriting (λ n. IsTrue (p n)) f writing writing_there →
        ImageNames (λ n. IsTrue (p n)) i → CommandNames (λ n. IsTrue (p n)) command →
        judged b writing_there (map_image f i) (map_command f command) ≡ result_map_both (map_image f) (map_condition f) (judged a writing i command) }
{
    commands_by_names::<M, N>();
    names_of_commands::<M>();
}

/// The conditions of a command, the one that is the first false, and the image after it, have no names but those of the
/// image before, those of the command, and `self`.
pub fn names_of_all_commands<N>()
    ensures needs { (p : N → Bool) (a : AskedOf N) (i : ImageOf N) (command : CommandOf N) → IsTrue (p a.self_name) → ImageNames (λ n. IsTrue (p n)) i → CommandNames (λ n. IsTrue (p n)) command →
        AllByRecursion (ConditionNames (λ n. IsTrue (p n))) (needs a i command) }
    ensures first_false { (p : N → Bool) (a : AskedOf N) (i : ImageOf N) (command : CommandOf N) → IsTrue (p a.self_name) → ImageNames (λ n. IsTrue (p n)) i → CommandNames (λ n. IsTrue (p n)) command →
        OptionNames (ConditionNames (λ n. IsTrue (p n))) (first_false a i command) }
    ensures effect { (p : N → Bool) (a : AskedOf N) (writing : WritingOf N) (i : ImageOf N) (command : CommandOf N) → IsTrue (p a.self_name) → ImageNames (λ n. IsTrue (p n)) i → CommandNames (λ n. IsTrue (p n)) command →
        ImageNames (λ n. IsTrue (p n)) (effect a writing command i) }
{
    names_of_commands::<N>();
}

/// Each command has the same conditions, the same of all conditions hold, the same one is the first that is false, and the
/// image after it is the same, over the numbers of names in a table and over their texts: where no name has two numbers,
/// `self` has one, and parts of sources are looked up the same.
pub fn all_commands_by_numbers()
    ensures needs { (names : List (List ℕ)) (self_number : ℕ) (part_of : Locating) (i : ImageOf ℕ) (command : CommandOf ℕ) → HasNoTwice names → IsNumberOfSelf names self_number →
        ImageNames (λ n. n < length names) i → CommandNames (λ n. n < length names) command →
        needs (asked_of_texts part_of) (map_image (name_at names) i) (map_command (name_at names) command) ≡ map (map_condition (name_at names)) (needs (number_asked names self_number part_of) i command) }
    ensures holds { (names : List (List ℕ)) (self_number : ℕ) (part_of : Locating) (i : ImageOf ℕ) (command : CommandOf ℕ) (condition : ConditionOf ℕ) → HasNoTwice names → IsNumberOfSelf names self_number →
        ImageNames (λ n. n < length names) i → CommandNames (λ n. n < length names) command → ConditionNames (λ n. n < length names) condition →
        holds (asked_of_texts part_of) (map_image (name_at names) i) (map_command (name_at names) command) (map_condition (name_at names) condition) ≡ holds (number_asked names self_number part_of) i command condition }
    ensures first_false { (names : List (List ℕ)) (self_number : ℕ) (part_of : Locating) (i : ImageOf ℕ) (command : CommandOf ℕ) → HasNoTwice names → IsNumberOfSelf names self_number →
        ImageNames (λ n. n < length names) i → CommandNames (λ n. n < length names) command →
        first_false (asked_of_texts part_of) (map_image (name_at names) i) (map_command (name_at names) command) ≡ option_map (map_condition (name_at names)) (first_false (number_asked names self_number part_of) i command) }
    ensures effect { (names : List (List ℕ)) (self_number : ℕ) (part_of : Locating) (i : ImageOf ℕ) (command : CommandOf ℕ) → HasNoTwice names → IsNumberOfSelf names self_number →
        ImageNames (λ n. n < length names) i → CommandNames (λ n. n < length names) command →
        effect (asked_of_texts part_of) canonical (map_command (name_at names) command) (map_image (name_at names) i) ≡ map_image (name_at names) (effect (number_asked names self_number part_of) (number_writing names) command i) }
    ensures judged { (names : List (List ℕ)) (self_number : ℕ) (part_of : Locating) (i : ImageOf ℕ) (command : CommandOf ℕ) → HasNoTwice names → IsNumberOfSelf names self_number →
        ImageNames (λ n. n < length names) i → CommandNames (λ n. n < length names) command →
        judged (asked_of_texts part_of) canonical (map_image (name_at names) i) (map_command (name_at names) command) ≡ result_map_both (map_image (name_at names)) (map_condition (name_at names)) (judged (number_asked names self_number part_of) (number_writing names) i command) }
{
    commands_by_numbers();
    numbers_of_commands();
}

/// Where a command is accepted over numbers it is accepted over their texts, with the same image after it; and where it is
/// refused it is refused for the same condition.
pub fn all_verdicts_by_numbers()
    ensures accepted { (names : List (List ℕ)) (self_number : ℕ) (part_of : Locating) (i j : ImageOf ℕ) (command : CommandOf ℕ) → HasNoTwice names → IsNumberOfSelf names self_number →
        ImageNames (λ n. n < length names) i → CommandNames (λ n. n < length names) command → judged (number_asked names self_number part_of) (number_writing names) i command ≡ Ok j →
        judged (asked_of_texts part_of) canonical (map_image (name_at names) i) (map_command (name_at names) command) ≡ Ok (map_image (name_at names) j) }
    ensures refused { (names : List (List ℕ)) (self_number : ℕ) (part_of : Locating) (i : ImageOf ℕ) (command : CommandOf ℕ) (condition : ConditionOf ℕ) → HasNoTwice names → IsNumberOfSelf names self_number →
        ImageNames (λ n. n < length names) i → CommandNames (λ n. n < length names) command → judged (number_asked names self_number part_of) (number_writing names) i command ≡ Err condition →
        judged (asked_of_texts part_of) canonical (map_image (name_at names) i) (map_command (name_at names) command) ≡ Err (map_condition (name_at names) condition) }
{
    all_commands_by_numbers();
}

/// Each number in the conditions of a command and in the image after it is that of a name in the table, where the number of
/// `self` is.
pub fn numbers_of_all_commands()
    ensures needs { (names : List (List ℕ)) (self_number : ℕ) (part_of : Locating) (i : ImageOf ℕ) (command : CommandOf ℕ) → self_number < length names →
        ImageNames (λ n. n < length names) i → CommandNames (λ n. n < length names) command →
        AllByRecursion (ConditionNames (λ n. n < length names)) (needs (number_asked names self_number part_of) i command) }
    ensures first_false { (names : List (List ℕ)) (self_number : ℕ) (part_of : Locating) (i : ImageOf ℕ) (command : CommandOf ℕ) → self_number < length names →
        ImageNames (λ n. n < length names) i → CommandNames (λ n. n < length names) command →
        OptionNames (ConditionNames (λ n. n < length names)) (first_false (number_asked names self_number part_of) i command) }
    ensures effect { (names : List (List ℕ)) (self_number : ℕ) (part_of : Locating) (i : ImageOf ℕ) (command : CommandOf ℕ) → self_number < length names →
        ImageNames (λ n. n < length names) i → CommandNames (λ n. n < length names) command →
        ImageNames (λ n. n < length names) (effect (number_asked names self_number part_of) (number_writing names) command i) }
    ensures judged { (names : List (List ℕ)) (self_number : ℕ) (part_of : Locating) (i : ImageOf ℕ) (command : CommandOf ℕ) → self_number < length names →
        ImageNames (λ n. n < length names) i → CommandNames (λ n. n < length names) command →
        IfOk (judged (number_asked names self_number part_of) (number_writing names) i command) (ImageNames (λ n. n < length names)) }
{
    numbers_of_commands();
}

/// More names at the end of the table change neither the conditions of a command, nor which conditions hold, nor the image
/// after it; and the number of `self` stays that of `self`.
pub fn all_commands_in_longer_tables()
    ensures is_self { (names more : List (List ℕ)) (self_number : ℕ) → IsNumberOfSelf names self_number → IsNumberOfSelf (names ++ more) self_number }
    ensures needs { (names more : List (List ℕ)) (self_number : ℕ) (part_of : Locating) (i : ImageOf ℕ) (command : CommandOf ℕ) → self_number < length names →
        ImageNames (λ n. n < length names) i → CommandNames (λ n. n < length names) command →
        needs (number_asked (names ++ more) self_number part_of) i command ≡ needs (number_asked names self_number part_of) i command }
    ensures holds { (names more : List (List ℕ)) (self_number : ℕ) (part_of : Locating) (i : ImageOf ℕ) (command : CommandOf ℕ) (condition : ConditionOf ℕ) → self_number < length names →
        ImageNames (λ n. n < length names) i → CommandNames (λ n. n < length names) command → ConditionNames (λ n. n < length names) condition →
        holds (number_asked (names ++ more) self_number part_of) i command condition ≡ holds (number_asked names self_number part_of) i command condition }
    ensures first_false { (names more : List (List ℕ)) (self_number : ℕ) (part_of : Locating) (i : ImageOf ℕ) (command : CommandOf ℕ) → self_number < length names →
        ImageNames (λ n. n < length names) i → CommandNames (λ n. n < length names) command →
        first_false (number_asked (names ++ more) self_number part_of) i command ≡ first_false (number_asked names self_number part_of) i command }
    ensures effect { (names more : List (List ℕ)) (self_number : ℕ) (part_of : Locating) (i : ImageOf ℕ) (command : CommandOf ℕ) → self_number < length names →
        ImageNames (λ n. n < length names) i → CommandNames (λ n. n < length names) command →
        effect (number_asked (names ++ more) self_number part_of) (number_writing (names ++ more)) command i ≡ effect (number_asked names self_number part_of) (number_writing names) command i }
    ensures judged { (names more : List (List ℕ)) (self_number : ℕ) (part_of : Locating) (i : ImageOf ℕ) (command : CommandOf ℕ) → self_number < length names →
        ImageNames (λ n. n < length names) i → CommandNames (λ n. n < length names) command →
        judged (number_asked (names ++ more) self_number part_of) (number_writing (names ++ more)) i command ≡ judged (number_asked names self_number part_of) (number_writing names) i command }
{
    commands_in_longer_tables();
    numbers_of_commands();
}
