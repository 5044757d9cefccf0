// Laws of witnesses. Each function does nothing; its contract is the law.
ghost use Rattle.std.specs.Prelude.{◌≡◌, false, List, []};
ghost use Rattle.scope_model.specs.Control.{is_empty};
ghost use Rattle.image_model.specs.Image.{ImageOf};
ghost use Rattle.command_model.specs.Asked.{AskedOf, text_asked};
ghost use Rattle.command_model.specs.Spelled.{IsSpelled};
ghost use Rattle.refusal_witnesses.specs.Spelled.{IsSpelledImage};
ghost use Rattle.command_model.specs.Commands.{CommandOf};
ghost use Rattle.command_model.specs.Conditions.{ConditionOf};
ghost use Rattle.command_model.specs.Holds.{holds};
ghost use Rattle.query_model.specs.Lines.{Text};
ghost use Rattle.refusal_witnesses.specs.Witnesses.{WitnessOf};
ghost use Rattle.refusal_witnesses.specs.Lines.{AreLines};
ghost use Rattle.refusal_witnesses.specs.Refused.{HasWitnesses, IsShown, IsHindered, witnesses};

/// Of the conditions that witnesses show each holds exactly if what it speaks of is there and nothing is in its way. So if
/// it is false of what is there, something is in its way; and if something is in its way, it is false. The other conditions
/// have nothing in their way.
pub fn law_witnesses<N>()
    ensures shown { (a : AskedOf N) (i : ImageOf N) (command : CommandOf N) (condition : ConditionOf N) → HasWitnesses condition →
        IsShown a i command condition }
    ensures hindered { (a : AskedOf N) (i : ImageOf N) (command : CommandOf N) (condition : ConditionOf N) → HasWitnesses condition →
        IsHindered a i command condition }
    ensures hindering { (a : AskedOf N) (i : ImageOf N) (command : CommandOf N) (condition : ConditionOf N) →
        is_empty (witnesses a i command condition) ≡ false → holds a i command condition ≡ false }
    ensures others { (a : AskedOf N) (i : ImageOf N) (command : CommandOf N) (condition : ConditionOf N) → ¬ HasWitnesses condition →
        witnesses a i command condition ≡ [] }
{}

/// If the sources of an image and of a command spell their code, the witnesses of each condition have lines.
pub fn law_lines()
    ensures { (i : ImageOf Text) (command : CommandOf Text) (condition : ConditionOf Text) → IsSpelledImage i → IsSpelled command →
        (texts : List Text) × AreLines i (witnesses text_asked i command condition) texts }
{}

/// Witnesses have at most one list of lines.
pub fn has_one_line()
    ensures { (i : ImageOf Text) (ws : List (WitnessOf Text)) (texts others : List Text) → AreLines i ws texts → AreLines i ws others → texts ≡ others }
{}
