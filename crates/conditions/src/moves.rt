// The conditions of commands that move code.
ghost use Rattle.std.specs.Prelude.{◌≡◌, ◌∷◌, ◌++◌, [], length, map, Some, option_map, IfOk, OnOk};
ghost use Rattle.std.specs.Option.{option_map_or, ForSome};
ghost use Rattle.st_tree.specs.View.{method_of};
ghost use Rattle.class_table.specs.Valid.{IsLive, IsOrderly};
ghost use Rattle.class_table.specs.View.{class_name, number_image};
ghost use Rattle.command_model.specs.CodeEffects.{part_at};
ghost use Rattle.command_model.specs.CodeNeeds.{target_needs};
ghost use Rattle.command_model.specs.Commands as commands;
ghost use Rattle.command_model.specs.Conditions as needed;
ghost use Rattle.command_model.specs.Extracted.{free_temporaries};
ghost use Rattle.command_model.specs.Needs as model;
ghost use Rattle.command_model.specs.Places.{sent_by};
ghost use Rattle.commands.specs.Views.{asked_by, code_command, condition_of};
ghost use Rattle.part_lookup.specs.Kept.{IsKept};
ghost use Rattle.part_questions.specs.Parts.{part_of};
ghost use Rattle.inline_questions.specs.Codes.{entry_in};
ghost use Rattle.conditions.specs.Messages.{found_needs};

use class_table::{ClassId, Image};
use code_conditions::sent_of;
use commands::{CodeMove, Command, Condition, MethodName, MethodPart, NameKind, Spot};
use extracted_code::free_temporaries;
use inline_questions::{Target, target_of};
use part_lookup::{KeptPart, UsersPart, keep_part, kept_part};
use part_questions::MethodCode;
use rb_base::{Memory, NameId, Steps};
use std::alloc::Global;
use std::sync::ledger::Ledger;

/// The part that the command names, looked for once; nothing, if it names none. Counts at most one step. The error is want of
/// memory to read the source.
pub fn kept_of<L: Ledger>(
    alloc: Global,
    image: &Image,
    command: &Command,
    steps: &mut Steps<L>,
) -> Result<Option<KeptPart>, Memory>
    requires { IsOrderly image.now }
    ensures { IfOk result (λ kept. ForSome kept (IsKept image.now)) }
{
    let part = match command {
        Command::MoveCode(CodeMove::ExtractMethod { part, .. }) => part,
        Command::MoveCode(CodeMove::InlineMethod(part)) => part,
        Command::MoveCode(CodeMove::ExtractTemporary { part, .. }) => part,
        _ => return Ok(None),
    };
    Ok(Some(keep_part(alloc, image, part, steps)?))
}

/// The conditions of an instance variable that messages come to read and assign.
fn needs_of_abstraction(
    alloc: Global,
    class: NameId,
    variable: NameId,
    setter: NameId,
) -> Result<Vec<Condition>, Memory>
    ensures { IfOk result (λ found. map condition_of found.items
        ≡ needed.NoReflection ∷ needed.IsUserClass class ∷ needed.HasVariable class variable ∷ needed.SelectorFresh variable ∷ needed.NotKernelSelector variable ∷ needed.SelectorFresh setter ∷ needed.NotKernelSelector setter ∷ needed.Shallow ∷ []) }
{
    let conditions = Vec::from_array(
        alloc,
        [
            Condition::NoReflection,
            Condition::IsUserClass { class },
            Condition::HasVariable { class, variable },
            Condition::SelectorFresh { selector: variable },
            Condition::NotKernelSelector { selector: variable },
            Condition::SelectorFresh { selector: setter },
            Condition::NotKernelSelector { selector: setter },
            Condition::Shallow,
        ],
    )?;
    Ok(conditions)
}

/// How many arguments the method takes that the part becomes, if the user has the method and the part stands in it.
fn argument_count<L: Ledger>(
    alloc: Global,
    image: &Image,
    part: &MethodPart,
    kept: &Option<KeptPart>,
    steps: &mut Steps<L>,
) -> Result<Option<usize>, Memory>
    requires orderly { IsOrderly image.now }
    requires kept { ForSome kept.now (IsKept image.now) }
    ensures { IfOk result (λ count. count ≡ option_map (λ e. length (free_temporaries (asked_by image.now.names) e.0.tree e.1)) (part_at (asked_by image.now.names) (number_image image.now) part.now.method.class part.now.method.meta part.now.method.selector part.now.from part.now.to)) }
{
    let Some(found) = kept_part(alloc, image, part, kept, steps)? else {
        return Ok(None);
    };
    let free = free_temporaries(alloc, image.names(), found.method.tree, &found.part)?;
    Ok(Some(free.as_slice().len()))
}

/// The conditions of a part that becomes a method of so many arguments; the last ones only where it is known how many.
fn needs_of_new_method_of(
    alloc: Global,
    part: &MethodPart,
    to: NameId,
    count: Option<usize>,
) -> Result<Vec<Condition>, Memory>
    ensures { IfOk result (λ found. map condition_of found.items
        ≡ needed.NoReflection ∷ needed.IsUserClass part.now.method.class ∷ needed.Implements part.now.method.class part.now.method.meta part.now.method.selector
        ∷ needed.PartIs part.now.method.class part.now.method.meta part.now.method.selector part.now.from part.now.to ∷ needed.NoReturn part.now.method.class part.now.method.meta part.now.method.selector part.now.from part.now.to
        ∷ needed.AssignsNoOuter part.now.method.class part.now.method.meta part.now.method.selector part.now.from part.now.to ∷ needed.TempsSteady part.now.method.class part.now.method.meta part.now.method.selector part.now.from part.now.to
        ∷ needed.ValueUnused part.now.method.class part.now.method.meta part.now.method.selector part.now.from part.now.to ∷ needed.GoodName to needed.of_methods ∷ needed.NotKernelSelector to
        ∷ option_map_or (λ n. needed.Arity to n ∷ needed.SelectorFresh to ∷ needed.Shallow ∷ []) count []) }
{
    let mut conditions = Vec::from_array(
        alloc,
        [
            Condition::NoReflection,
            Condition::IsUserClass {
                class: part.method.class,
            },
            Condition::Implements(part.method),
            Condition::PartIs(*part),
            Condition::NoReturn(*part),
            Condition::AssignsNoOuter(*part),
            Condition::TempsSteady(*part),
            Condition::ValueUnused(*part),
            Condition::GoodName {
                name: to,
                kind: NameKind::Selector,
            },
            Condition::NotKernelSelector { selector: to },
        ],
    )?;
    if let Some(count) = count {
        conditions.extend_from_slice(&[
            Condition::Arity {
                selector: to,
                count,
            },
            Condition::SelectorFresh { selector: to },
            Condition::Shallow,
        ])?;
    }
    Ok(conditions)
}

/// The conditions of a part that becomes a method.
fn needs_of_method_extraction<L: Ledger>(
    alloc: Global,
    image: &Image,
    part: &MethodPart,
    to: NameId,
    kept: &Option<KeptPart>,
    steps: &mut Steps<L>,
) -> Result<Vec<Condition>, Memory>
    requires orderly { IsOrderly image.now }
    requires kept { ForSome kept.now (IsKept image.now) }
    ensures { IfOk result (λ found. map condition_of found.items ≡ model.needs (asked_by image.now.names) (number_image image.now) (commands.ExtractMethod part.now.method.class part.now.method.meta part.now.method.selector part.now.from part.now.to to)) }
{
    let count = argument_count(alloc, image, part, kept, steps)?;
    needs_of_new_method_of(alloc, part, to, count)
}

/// The name of the class in a slot that is live.
fn name_of_class(image: &Image, class: ClassId) -> Option<NameId>
    requires { IsLive image.now.class_order class }
    ensures { result ≡ class_name image.now.classes class }
{
    match image.class_rec(class) {
        None => None,
        Some(rec) => Some(rec.name),
    }
}

/// Puts the conditions at the end.
fn put_all(more: &[Condition], conditions: &mut Vec<Condition>) -> Result<(), Memory>
    ensures { OnOk result (map condition_of conditions.new.items ≡ map condition_of conditions.old.items ++ map condition_of more.now) }
{
    conditions.extend_from_slice(more)?;
    Ok(())
}

/// Puts the condition at the end that the body of the method may stand where a message stands, if its class has a name.
fn put_inlinable(
    class: Option<NameId>,
    meta: bool,
    selector: NameId,
    conditions: &mut Vec<Condition>,
) -> Result<(), Memory>
    ensures { OnOk result (map condition_of conditions.new.items ≡ map condition_of conditions.old.items ++ option_map_or (λ d. needed.Inlinable d meta selector ∷ []) class []) }
{
    match class {
        None => Ok(()),
        Some(class) => {
            let method = MethodName {
                class,
                meta,
                selector,
            };
            put_all(&[Condition::Inlinable(method)], conditions)
        }
    }
}

/// Puts the conditions at the end that are asked of the method which a message of the selector finds.
fn put_target_needs(
    image: &Image,
    part: &MethodPart,
    selector: NameId,
    target: &Target<'_>,
    conditions: &mut Vec<Condition>,
) -> Result<(), Memory>
    requires { IsLive image.now.class_order target.now.code.class }
    ensures { OnOk result (map condition_of conditions.new.items ≡ map condition_of conditions.old.items ++ found_needs part.now selector (entry_in image.now target.now)) }
{
    let class = name_of_class(image, target.code.class);
    put_inlinable(class, target.code.meta, selector, conditions)?;
    let more = [
        Condition::PlainActuals(*part),
        Condition::NoCapture {
            method: part.method,
            spot: Spot::Part {
                from: part.from,
                to: part.to,
            },
        },
        Condition::NoNewControl {
            method: part.method,
            spot: Spot::Part {
                from: part.from,
                to: part.to,
            },
        },
        Condition::Shallow,
    ];
    put_all(&more, conditions)
}

/// Puts the conditions at the end that are asked of the message which the part is, and of the method that it finds; none where
/// the part is no message.
fn put_message_needs<L: Ledger>(
    image: &Image,
    part: &MethodPart,
    found: &UsersPart<'_>,
    conditions: &mut Vec<Condition>,
    steps: &mut Steps<L>,
) -> Result<(), Memory>
    requires orderly { IsOrderly image.now }
    requires live { IsLive image.now.class_order found.now.method.class }
    requires named { class_name image.now.classes found.now.method.class ≡ Some part.now.method.class }
    ensures { OnOk result (map condition_of conditions.new.items ≡ map condition_of conditions.old.items ++ option_map_or (target_needs (asked_by image.now.names) (number_image image.now) part.now.method.class part.now.method.meta part.now.method.selector part.now.from part.now.to) (sent_by (method_of found.now.method.tree.now) (part_of found.now.part)) []) }
{
    let Some(sent) = sent_of(found) else {
        return Ok(());
    };
    let selector = sent.selector;
    let method = MethodName {
        class: part.method.class,
        meta: part.method.meta,
        selector,
    };
    put_all(&[Condition::OneTarget(method)], conditions)?;
    let code = MethodCode {
        class: found.method.class,
        meta: part.method.meta,
        tree: found.method.tree,
    };
    let Some(target) = target_of(image, &code, &sent, steps) else {
        return Ok(());
    };
    put_target_needs(image, part, selector, &target, conditions)
}

/// The conditions of a message that becomes the body of the method that it finds.
fn needs_of_message<L: Ledger>(
    alloc: Global,
    image: &Image,
    part: &MethodPart,
    kept: &Option<KeptPart>,
    steps: &mut Steps<L>,
) -> Result<Vec<Condition>, Memory>
    requires orderly { IsOrderly image.now }
    requires kept { ForSome kept.now (IsKept image.now) }
    ensures { IfOk result (λ found. map condition_of found.items ≡ model.needs (asked_by image.now.names) (number_image image.now) (commands.InlineMethod part.now.method.class part.now.method.meta part.now.method.selector part.now.from part.now.to)) }
{
    let mut conditions = Vec::from_array(
        alloc,
        [
            Condition::NoReflection,
            Condition::IsUserClass {
                class: part.method.class,
            },
            Condition::Implements(part.method),
            Condition::SelfSend(*part),
        ],
    )?;
    let Some(found) = kept_part(alloc, image, part, kept, steps)? else {
        return Ok(conditions);
    };
    put_message_needs(image, part, &found, &mut conditions, steps)?;
    Ok(conditions)
}

/// The conditions of an expression that becomes a temporary.
fn needs_of_extraction(
    alloc: Global,
    part: &MethodPart,
    variable: NameId,
) -> Result<Vec<Condition>, Memory>
    ensures { IfOk result (λ found. map condition_of found.items
        ≡ needed.NoReflection ∷ needed.IsUserClass part.now.method.class ∷ needed.Implements part.now.method.class part.now.method.meta part.now.method.selector
        ∷ needed.PartIs part.now.method.class part.now.method.meta part.now.method.selector part.now.from part.now.to ∷ needed.FirstEvaluated part.now.method.class part.now.method.meta part.now.method.selector part.now.from part.now.to
        ∷ needed.GoodName variable needed.of_another_variable ∷ needed.NotIn part.now.method.class part.now.method.meta part.now.method.selector variable ∷ needed.Shallow ∷ []) }
{
    let conditions = Vec::from_array(
        alloc,
        [
            Condition::NoReflection,
            Condition::IsUserClass {
                class: part.method.class,
            },
            Condition::Implements(part.method),
            Condition::PartIs(*part),
            Condition::FirstEvaluated(*part),
            Condition::GoodName {
                name: variable,
                kind: NameKind::Variable,
            },
            Condition::NotIn {
                method: part.method,
                variable,
            },
            Condition::Shallow,
        ],
    )?;
    Ok(conditions)
}

/// The conditions of a temporary that becomes what is assigned to it.
fn needs_of_inlining(
    alloc: Global,
    method: &MethodName,
    variable: NameId,
) -> Result<Vec<Condition>, Memory>
    ensures { IfOk result (λ found. map condition_of found.items
        ≡ needed.NoReflection ∷ needed.IsUserClass method.now.class ∷ needed.Implements method.now.class method.now.meta method.now.selector
        ∷ needed.Declared method.now.class method.now.meta method.now.selector variable ∷ needed.LetForm method.now.class method.now.meta method.now.selector variable
        ∷ needed.NoCapture method.now.class method.now.meta method.now.selector (needed.AtName variable) ∷ needed.NoNewControl method.now.class method.now.meta method.now.selector (needed.AtName variable) ∷ needed.Shallow ∷ []) }
{
    let conditions = Vec::from_array(
        alloc,
        [
            Condition::NoReflection,
            Condition::IsUserClass {
                class: method.class,
            },
            Condition::Implements(*method),
            Condition::Declared {
                method: *method,
                variable,
            },
            Condition::LetForm {
                method: *method,
                variable,
            },
            Condition::NoCapture {
                method: *method,
                spot: Spot::Name(variable),
            },
            Condition::NoNewControl {
                method: *method,
                spot: Spot::Name(variable),
            },
            Condition::Shallow,
        ],
    )?;
    Ok(conditions)
}

/// The conditions of code that moves.
pub(crate) fn needs_of_code<L: Ledger>(
    alloc: Global,
    image: &Image,
    change: &CodeMove,
    kept: &Option<KeptPart>,
    steps: &mut Steps<L>,
) -> Result<Vec<Condition>, Memory>
    requires orderly { IsOrderly image.now }
    requires kept { ForSome kept.now (IsKept image.now) }
    ensures { IfOk result (λ found. map condition_of found.items ≡ model.needs (asked_by image.now.names) (number_image image.now) (code_command change.now)) }
{
    match change {
        CodeMove::AbstractVariable {
            class,
            variable,
            setter,
            ..
        } => needs_of_abstraction(alloc, *class, *variable, *setter),
        CodeMove::ExtractMethod { part, to } => {
            needs_of_method_extraction(alloc, image, part, *to, kept, steps)
        }
        CodeMove::InlineMethod(part) => needs_of_message(alloc, image, part, kept, steps),
        CodeMove::ExtractTemporary { part, variable } => {
            needs_of_extraction(alloc, part, *variable)
        }
        CodeMove::InlineTemporary { method, variable } => {
            needs_of_inlining(alloc, method, *variable)
        }
    }
}
