// Laws of bounds. Each function does nothing; its contract is the law.
ghost use Rattle.std.specs.Prelude.{◌≡◌, ◌≤◌, ◌+◌, ◌*◌, ◌++◌, ◌∷◌, [], ℕ, List, length, filter};
ghost use Rattle.std.specs.List.{flat_map, sum_by};
ghost use Rattle.image_model.specs.Image.{ImageOf};
ghost use Rattle.image_model.specs.Means.{VariableKind};
ghost use Rattle.image_model.specs.Words.{WordsOf};
ghost use Rattle.rename_model.specs.ClassRenamed.{WritingOf};
ghost use Rattle.command_model.specs.Asked.{AskedOf};
ghost use Rattle.command_model.specs.Commands.{CommandOf};
ghost use Rattle.command_model.specs.Conditions.{ConditionOf};
ghost use Rattle.command_model.specs.Effects.{effect};
ghost use Rattle.command_model.specs.Needs.{needs};
ghost use Rattle.session_model.specs.Actions.{Single};
ghost use Rattle.bound_model.specs.LookUps.{LookUpOf, of_senders, of_implementors, of_variable, of_class, of_identifier, found};
ghost use Rattle.bound_model.specs.Listed.{entries, listed, look_ups};
ghost use Rattle.bound_model.specs.Touched.{touched};
ghost use Rattle.bound_model.specs.Bounds.{looks_through, asked_for, condition_bound, command_bound, image_after, steps_bound, action_bound};

/// What is listed for a command is the number of all that the look-ups for it give, one after the other.
pub fn law_listed<N>()
    ensures length { (a : AskedOf N) (i : ImageOf N) (command : CommandOf N) → listed a i command ≡ length (flat_map (found a.words i) (look_ups a i command)) }
    ensures more { (a : AskedOf N) (i : ImageOf N) (asked others : List (LookUpOf N)) → entries a i (asked ++ others) ≡ entries a i asked + entries a i others }
{}

/// Nodes that mean a variable name it, and nodes that mean a class name it. So no look-up by what a name means gives more than
/// the look-up of the name.
pub fn law_uses_listed<N>()
    ensures variable { (w : WordsOf N) (i : ImageOf N) (kind : VariableKind) (c x : N) → length (found w i (of_variable kind c x)) ≤ length (found w i (of_identifier x)) }
{}

/// A bound grows with what is listed, with the conditions and with what is touched; each condition may open four bodies.
pub fn law_bounds_grow<N>()
    ensures condition { (a : AskedOf N) (i j : ImageOf N) (command other : CommandOf N) (condition : ConditionOf N) →
        listed a i command ≤ listed a j other → length (needs a i command) ≤ length (needs a j other) →
        condition_bound a i command condition ≤ condition_bound a j other condition }
    ensures command { (a : AskedOf N) (writing : WritingOf N) (i j : ImageOf N) (command other : CommandOf N) →
        listed a i command ≤ listed a j other → length (needs a i command) ≤ length (needs a j other) →
        touched i (effect a writing command i) ≤ touched j (effect a writing other j) →
        command_bound a i writing command ≤ command_bound a j writing other }
    ensures least { (a : AskedOf N) (i : ImageOf N) (command : CommandOf N) (condition : ConditionOf N) → 4 ≤ condition_bound a i command condition }
    ensures most { (a : AskedOf N) (i : ImageOf N) (command : CommandOf N) (condition : ConditionOf N) → condition_bound a i command condition ≤ 4 * asked_for a i command }
{}

/// At most two conditions of a command look through methods, so all of them together stay within a part of its bound.
pub fn law_conditions_together<N>()
    ensures few { (a : AskedOf N) (i : ImageOf N) (command : CommandOf N) → length (filter looks_through (needs a i command)) ≤ 2 }
    ensures together { (a : AskedOf N) (i : ImageOf N) (command : CommandOf N) →
        sum_by (condition_bound a i command) (needs a i command) ≤ 12 * asked_for a i command }
{}

/// The bound of commands in order is that of the first ones and that of the others in the image which the first ones leave. A
/// single command has its own bound.
pub fn law_steps_add<N>()
    ensures add { (a : AskedOf N) (writing : WritingOf N) (i : ImageOf N) (first second : List (CommandOf N)) →
        steps_bound a writing i (first ++ second) ≡ steps_bound a writing i first + steps_bound a writing (image_after a writing i first) second }
    ensures single { (a : AskedOf N) (writing : WritingOf N) (i : ImageOf N) (command : CommandOf N) →
        action_bound a writing i (Single command) ≡ command_bound a i writing command }
{}
