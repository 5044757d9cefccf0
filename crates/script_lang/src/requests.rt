// What the words behind that of a command ask for.
ghost use Rattle.std.specs.Prelude.{◌≡◌, Ok, Err, IfOk, IfErr};
ghost use Rattle.event_trees.specs.Naming.{Grows};
ghost use Rattle.script_model.specs.Commands.{BadArgument};
ghost use Rattle.commands.specs.Views.{action_of, command_of, request_in, IsKnownRequest};
ghost use Rattle.script_lang.specs.declared.words.Wrong.TheVariants as wrong;
ghost use Rattle.script_lang.specs.declared.verb.Verb.TheVariants as verbs;
ghost use Rattle.script_lang.specs.Shown.{asked, texts};
ghost use Rattle.script_lang.specs.Asking.{accessor_action, pair_action, triple_command, method_command};

use crate::verb::{
    AccessorVerb, ExtractVerb, MethodVerb, NewClassVerb, PairVerb, TripleVerb, Verb,
};
use crate::words::{
    Wrong, identifier, identifiers, method_name, method_part, number, parameter, selector, setter,
};
use commands::{Action, CodeMove, Command, MethodName, NewClass, Renaming, Request, VariableMove};
use rb_base::{Ids, NameId, Names};
use std::alloc::Global;

/// What `removeClass` asks for with these words: a class.
fn remove_class(alloc: Global, words: &[&[u8]], names: &mut Names) -> Result<Request, Wrong>
    ensures said { IfOk result (λ r. asked verbs.RemoveClass (texts words.now) ≡ Ok (request_in names.new r)) }
    ensures known { IfOk result (λ r. IsKnownRequest names.new r) }
    ensures wrong { IfErr result (λ e. e ≡ wrong.Argument → asked verbs.RemoveClass (texts words.now) ≡ Err BadArgument) }
    ensures grows { Grows names.old names.new }
{
    let ids = identifiers(alloc, words, names)?;
    let [class] = ids.as_slice() else {
        return Err(Wrong::Argument);
    };
    Ok(Request::Perform(Action::Single(Command::RemoveClass { class: *class })))
}

/// What a command does with a class and another name.
fn pair_action(verb: PairVerb, class: NameId, name: NameId) -> Action
    ensures { action_of result ≡ pair_action verb class name }
{
    let variable = name;
    let moved = match verb {
        PairVerb::RenameClass => {
            return Action::Single(Command::Rename(Renaming::Class { class, to: name }));
        }
        PairVerb::UpWithMethods => return Action::PushUpWithMethods { class, variable },
        PairVerb::AddVariable(kind) => VariableMove::Add {
            kind,
            class,
            variable,
        },
        PairVerb::RemoveVariable(kind) => VariableMove::Remove {
            kind,
            class,
            variable,
        },
        PairVerb::InstanceUp => VariableMove::InstanceUp { class, variable },
        PairVerb::InstanceDown => VariableMove::InstanceDown { class, variable },
        PairVerb::SharedUp => VariableMove::SharedUp { class, variable },
    };
    Action::Single(Command::Variable(moved))
}

/// What a command of a class and another name asks for with these words.
fn pair_request(
    alloc: Global,
    verb: PairVerb,
    words: &[&[u8]],
    names: &mut Names,
) -> Result<Request, Wrong>
    ensures said { IfOk result (λ r. asked (verbs.Pair verb) (texts words.now) ≡ Ok (request_in names.new r)) }
    ensures known { IfOk result (λ r. IsKnownRequest names.new r) }
    ensures wrong { IfErr result (λ e. e ≡ wrong.Argument → asked (verbs.Pair verb) (texts words.now) ≡ Err BadArgument) }
    ensures grows { Grows names.old names.new }
{
    let ids = identifiers(alloc, words, names)?;
    let [class, name] = ids.as_slice() else {
        return Err(Wrong::Argument);
    };
    Ok(Request::Perform(pair_action(verb, *class, *name)))
}

/// What a command does with a class, a variable, the selector of its setter and what that one's argument is called.
fn accessor_action(
    verb: AccessorVerb,
    class: NameId,
    variable: NameId,
    setter: NameId,
    parameter: NameId,
) -> Action
    ensures { action_of result ≡ accessor_action verb class variable setter parameter }
{
    match verb {
        AccessorVerb::Create => Action::CreateAccessors {
            class,
            variable,
            setter,
            parameter,
        },
        AccessorVerb::Abstract => Action::Single(Command::MoveCode(CodeMove::AbstractVariable {
            class,
            variable,
            setter,
            parameter,
        })),
    }
}

/// What a command of the getter and the setter of a variable asks for with these words: a class and the variable.
fn accessors(
    alloc: Global,
    verb: AccessorVerb,
    words: &[&[u8]],
    names: &mut Names,
) -> Result<Request, Wrong>
    ensures said { IfOk result (λ r. asked (verbs.Accessors verb) (texts words.now) ≡ Ok (request_in names.new r)) }
    ensures known { IfOk result (λ r. IsKnownRequest names.new r) }
    ensures wrong { IfErr result (λ e. e ≡ wrong.Argument → asked (verbs.Accessors verb) (texts words.now) ≡ Err BadArgument) }
    ensures grows { Grows names.old names.new }
{
    let ids = identifiers(alloc, words, names)?;
    let [class, variable] = ids.as_slice() else {
        return Err(Wrong::Argument);
    };
    let setter = setter(alloc, *variable, names)?;
    let parameter = parameter(*variable, names)?;
    let action = accessor_action(verb, *class, *variable, setter, parameter);
    Ok(Request::Perform(action))
}

/// What a command does with a class, a variable and another name.
fn triple_command(verb: TripleVerb, class: NameId, variable: NameId, to: NameId) -> Command
    ensures { command_of result ≡ triple_command verb class variable to }
{
    match verb {
        TripleVerb::RenameVariable(kind) => Command::Rename(Renaming::Variable {
            kind,
            class,
            variable,
            to,
        }),
        TripleVerb::SharedDown => Command::Variable(VariableMove::SharedDown {
            class,
            variable,
            to,
        }),
    }
}

/// What a command of a class, a variable and another name asks for with these words.
fn triple_request(
    alloc: Global,
    verb: TripleVerb,
    words: &[&[u8]],
    names: &mut Names,
) -> Result<Request, Wrong>
    ensures said { IfOk result (λ r. asked (verbs.Triple verb) (texts words.now) ≡ Ok (request_in names.new r)) }
    ensures known { IfOk result (λ r. IsKnownRequest names.new r) }
    ensures wrong { IfErr result (λ e. e ≡ wrong.Argument → asked (verbs.Triple verb) (texts words.now) ≡ Err BadArgument) }
    ensures grows { Grows names.old names.new }
{
    let ids = identifiers(alloc, words, names)?;
    let [class, variable, to] = ids.as_slice() else {
        return Err(Wrong::Argument);
    };
    let command = triple_command(verb, *class, *variable, *to);
    Ok(Request::Perform(Action::Single(command)))
}

/// What a command of a new class asks for with these words: the class, its superclass, and the classes that come under it.
fn new_class(
    alloc: Global,
    verb: NewClassVerb,
    words: &[&[u8]],
    names: &mut Names,
) -> Result<Request, Wrong>
    ensures said { IfOk result (λ r. asked (verbs.NewClass verb) (texts words.now) ≡ Ok (request_in names.new r)) }
    ensures known { IfOk result (λ r. IsKnownRequest names.new r) }
    ensures wrong { IfErr result (λ e. e ≡ wrong.Argument → asked (verbs.NewClass verb) (texts words.now) ≡ Err BadArgument) }
    ensures grows { Grows names.old names.new }
{
    let ids = identifiers(alloc, words, names)?;
    let [name, superclass, under @ ..] = ids.as_slice() else {
        return Err(Wrong::Argument);
    };
    let class = NewClass {
        name: *name,
        superclass: *superclass,
        under: Ids::from_vec(Vec::from_slice(alloc, under)?),
    };
    match verb {
        NewClassVerb::Add => Ok(Request::Perform(Action::Single(Command::AddClass(class)))),
        NewClassVerb::Extract => {
            if under.is_empty() {
                return Err(Wrong::Argument);
            }
            Ok(Request::Perform(Action::ExtractSuperclass(class)))
        }
    }
}

/// What `renameSelector` asks for with these words: a selector and its new one.
fn rename_selector(words: &[&[u8]], names: &mut Names) -> Result<Request, Wrong>
    ensures said { IfOk result (λ r. asked verbs.RenameSelector (texts words.now) ≡ Ok (request_in names.new r)) }
    ensures known { IfOk result (λ r. IsKnownRequest names.new r) }
    ensures wrong { IfErr result (λ e. e ≡ wrong.Argument → asked verbs.RenameSelector (texts words.now) ≡ Err BadArgument) }
    ensures grows { Grows names.old names.new }
{
    let [old, to] = words else {
        return Err(Wrong::Argument);
    };
    let old = selector(old, names)?;
    let to = selector(to, names)?;
    Ok(Request::Perform(Action::Single(Command::Rename(Renaming::Selector { selector: old, to }))))
}

/// What a command does with a method.
fn method_command(verb: MethodVerb, method: MethodName) -> Command
    ensures { command_of result ≡ method_command verb method.class method.meta method.selector }
{
    match verb {
        MethodVerb::Remove => Command::RemoveMethod(method),
        MethodVerb::PushUp => Command::PushUpMethod(method),
        MethodVerb::PushDown => Command::PushDownMethod(method),
    }
}

/// What a command of a method asks for with these words: its class, its side and its selector.
fn method_request(verb: MethodVerb, words: &[&[u8]], names: &mut Names) -> Result<Request, Wrong>
    ensures said { IfOk result (λ r. asked (verbs.Method verb) (texts words.now) ≡ Ok (request_in names.new r)) }
    ensures known { IfOk result (λ r. IsKnownRequest names.new r) }
    ensures wrong { IfErr result (λ e. e ≡ wrong.Argument → asked (verbs.Method verb) (texts words.now) ≡ Err BadArgument) }
    ensures grows { Grows names.old names.new }
{
    let [class, of_side, of_selector] = words else {
        return Err(Wrong::Argument);
    };
    let method = method_name(class, of_side, of_selector, names)?;
    Ok(Request::Perform(Action::Single(method_command(verb, method))))
}

/// What `removeParameter` asks for with these words: a selector, the number of its argument, and its new selector.
fn remove_parameter(words: &[&[u8]], names: &mut Names) -> Result<Request, Wrong>
    ensures said { IfOk result (λ r. asked verbs.RemoveParameter (texts words.now) ≡ Ok (request_in names.new r)) }
    ensures known { IfOk result (λ r. IsKnownRequest names.new r) }
    ensures wrong { IfErr result (λ e. e ≡ wrong.Argument → asked verbs.RemoveParameter (texts words.now) ≡ Err BadArgument) }
    ensures grows { Grows names.old names.new }
{
    let [old, of_number, to] = words else {
        return Err(Wrong::Argument);
    };
    let Some(argument) = number(of_number) else {
        return Err(Wrong::Argument);
    };
    let old = selector(old, names)?;
    let to = selector(to, names)?;
    Ok(Request::Perform(Action::Single(Command::RemoveParameter {
        selector: old,
        argument,
        to,
    })))
}

/// What `renameTemp` asks for with these words: a method, a variable in it and its new name.
fn rename_temporary(words: &[&[u8]], names: &mut Names) -> Result<Request, Wrong>
    ensures said { IfOk result (λ r. asked verbs.RenameTemporary (texts words.now) ≡ Ok (request_in names.new r)) }
    ensures known { IfOk result (λ r. IsKnownRequest names.new r) }
    ensures wrong { IfErr result (λ e. e ≡ wrong.Argument → asked verbs.RenameTemporary (texts words.now) ≡ Err BadArgument) }
    ensures grows { Grows names.old names.new }
{
    let [class, of_side, of_selector, variable, to] = words else {
        return Err(Wrong::Argument);
    };
    let method = method_name(class, of_side, of_selector, names)?;
    let variable = identifier(variable, names)?;
    let to = identifier(to, names)?;
    Ok(Request::Perform(Action::Single(Command::RenameTemporary {
        method,
        variable,
        to,
    })))
}

/// What a command that puts a part of a method elsewhere asks for with these words: the part and a name.
fn extract(verb: ExtractVerb, words: &[&[u8]], names: &mut Names) -> Result<Request, Wrong>
    ensures said { IfOk result (λ r. asked (verbs.Extract verb) (texts words.now) ≡ Ok (request_in names.new r)) }
    ensures known { IfOk result (λ r. IsKnownRequest names.new r) }
    ensures wrong { IfErr result (λ e. e ≡ wrong.Argument → asked (verbs.Extract verb) (texts words.now) ≡ Err BadArgument) }
    ensures grows { Grows names.old names.new }
{
    let [class, of_side, of_selector, from, to, name] = words else {
        return Err(Wrong::Argument);
    };
    let part = method_part(class, of_side, of_selector, from, to, names)?;
    match verb {
        ExtractVerb::Method => {
            let to = selector(name, names)?;
            let moved = CodeMove::ExtractMethod { part, to };
            Ok(Request::Perform(Action::Single(Command::MoveCode(moved))))
        }
        ExtractVerb::Temporary => {
            let variable = identifier(name, names)?;
            let moved = CodeMove::ExtractTemporary { part, variable };
            Ok(Request::Perform(Action::Single(Command::MoveCode(moved))))
        }
    }
}

/// What `inlineMethod` asks for with these words: a part of a method.
fn inline_method(words: &[&[u8]], names: &mut Names) -> Result<Request, Wrong>
    ensures said { IfOk result (λ r. asked verbs.InlineMethod (texts words.now) ≡ Ok (request_in names.new r)) }
    ensures known { IfOk result (λ r. IsKnownRequest names.new r) }
    ensures wrong { IfErr result (λ e. e ≡ wrong.Argument → asked verbs.InlineMethod (texts words.now) ≡ Err BadArgument) }
    ensures grows { Grows names.old names.new }
{
    let [class, of_side, of_selector, from, to] = words else {
        return Err(Wrong::Argument);
    };
    let part = method_part(class, of_side, of_selector, from, to, names)?;
    Ok(Request::Perform(Action::Single(Command::MoveCode(CodeMove::InlineMethod(part)))))
}

/// What `inlineTemp` asks for with these words: a method and a variable in it.
fn inline_temporary(words: &[&[u8]], names: &mut Names) -> Result<Request, Wrong>
    ensures said { IfOk result (λ r. asked verbs.InlineTemporary (texts words.now) ≡ Ok (request_in names.new r)) }
    ensures known { IfOk result (λ r. IsKnownRequest names.new r) }
    ensures wrong { IfErr result (λ e. e ≡ wrong.Argument → asked verbs.InlineTemporary (texts words.now) ≡ Err BadArgument) }
    ensures grows { Grows names.old names.new }
{
    let [class, of_side, of_selector, variable] = words else {
        return Err(Wrong::Argument);
    };
    let method = method_name(class, of_side, of_selector, names)?;
    let variable = identifier(variable, names)?;
    let moved = CodeMove::InlineTemporary { method, variable };
    Ok(Request::Perform(Action::Single(Command::MoveCode(moved))))
}

/// What a command asks for with the words behind its own one.
pub(crate) fn request_of(
    alloc: Global,
    command: Verb,
    words: &[&[u8]],
    names: &mut Names,
) -> Result<Request, Wrong>
    ensures said { IfOk result (λ r. asked command (texts words.now) ≡ Ok (request_in names.new r)) }
    ensures known { IfOk result (λ r. IsKnownRequest names.new r) }
    ensures wrong { IfErr result (λ e. e ≡ wrong.Argument → asked command (texts words.now) ≡ Err BadArgument) }
    ensures grows { Grows names.old names.new }
{
    match command {
        Verb::RemoveClass => remove_class(alloc, words, names),
        Verb::Pair(verb) => pair_request(alloc, verb, words, names),
        Verb::Triple(verb) => triple_request(alloc, verb, words, names),
        Verb::NewClass(verb) => new_class(alloc, verb, words, names),
        Verb::Accessors(verb) => accessors(alloc, verb, words, names),
        Verb::RenameSelector => rename_selector(words, names),
        Verb::Method(verb) => method_request(verb, words, names),
        Verb::RemoveParameter => remove_parameter(words, names),
        Verb::RenameTemporary => rename_temporary(words, names),
        Verb::Extract(verb) => extract(verb, words, names),
        Verb::InlineMethod => inline_method(words, names),
        Verb::InlineTemporary => inline_temporary(words, names),
        Verb::Undo if words.is_empty() => Ok(Request::Undo),
        Verb::Redo if words.is_empty() => Ok(Request::Redo),
        Verb::Undo | Verb::Redo => Err(Wrong::Argument),
    }
}
