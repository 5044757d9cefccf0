// The words of conditions.
ghost use Rattle.std.specs.Prelude.{◌≡◌, ◌++◌, codes, OnOk};
ghost use Rattle.rb_base.specs.Names.{name_at};
ghost use Rattle.text_model.specs.Pieces.{pieces_behind};
ghost use Rattle.command_numbers.specs.MappedCommands.{map_condition};
ghost use Rattle.commands.specs.Views.{condition_of};
ghost use Rattle.apply_model.specs.Lines.{code_words, condition_words};
ghost use Rattle.refusal_lines.specs.Begun.{BeginsWith};

use crate::words::{
    push_counted, push_local, push_method, push_named, push_pair, push_part, push_spot, push_title,
};
use commands::Condition;
use rb_base::{Memory, Names, Text};

/// Appends the number of a condition that only commands have which change code, its name and its arguments, each behind a
/// blank; of any other condition nothing.
fn push_code_condition(condition: Condition, names: &Names, out: &mut Text) -> Result<(), Memory>
    ensures told { OnOk result (out.new ≡ out.old ++ pieces_behind (codes " ") (code_words (map_condition (name_at names.now) (condition_of condition)))) }
    ensures begins { BeginsWith out.new out.old }
{
    match condition {
        Condition::ParameterUnused { selector, argument } => {
            push_counted(b"C20", b"ParameterUnused", selector, argument, names, out)
        }
        Condition::PlainArguments { selector, argument } => {
            push_counted(b"C21", b"PlainArguments", selector, argument, names, out)
        }
        Condition::AtomLiteral => push_title(b"C22", b"AtomLiteral", out),
        Condition::PartIs(part) => push_part(b"C23", b"PartIs", part, names, out),
        Condition::NoReturn(part) => push_part(b"C24", b"NoReturn", part, names, out),
        Condition::AssignsNoOuter(part) => push_part(b"C25", b"AssignsNoOuter", part, names, out),
        Condition::TempsSteady(part) => push_part(b"C26", b"TempsSteady", part, names, out),
        Condition::ValueUnused(part) => push_part(b"C27", b"ValueUnused", part, names, out),
        Condition::SelfSend(part) => push_part(b"C28", b"SelfSend", part, names, out),
        Condition::OneTarget(method) => push_method(b"C29", b"OneTarget", method, names, out),
        Condition::Inlinable(method) => push_method(b"C30", b"Inlinable", method, names, out),
        Condition::PlainActuals(part) => push_part(b"C31", b"PlainActuals", part, names, out),
        Condition::NoCapture { method, spot } => {
            push_spot(b"C32", b"NoCapture", method, spot, names, out)
        }
        Condition::NoNewControl { method, spot } => {
            push_spot(b"C33", b"NoNewControl", method, spot, names, out)
        }
        Condition::Declared { method, variable } => {
            push_local(b"C34", b"Declared", method, variable, names, out)
        }
        Condition::NotIn { method, variable } => {
            push_local(b"C35", b"NotIn", method, variable, names, out)
        }
        Condition::LetForm { method, variable } => {
            push_local(b"C36", b"LetForm", method, variable, names, out)
        }
        Condition::FirstEvaluated(part) => push_part(b"C37", b"FirstEvaluated", part, names, out),
        Condition::Shallow => push_title(b"C38", b"Shallow", out),
        _ => Ok(()),
    }
}

/// The same of any condition. On want of memory some bytes may be appended.
pub fn push_condition(condition: Condition, names: &Names, out: &mut Text) -> Result<(), Memory>
    ensures told { OnOk result (out.new ≡ out.old ++ pieces_behind (codes " ") (condition_words (map_condition (name_at names.now) (condition_of condition)))) }
    ensures begins { BeginsWith out.new out.old }
{
    match condition {
        Condition::NoReflection => push_title(b"C1", b"NoReflection", out),
        Condition::IsUserClass { class } => push_named(b"C2", b"IsUserClass", class, names, out),
        Condition::GoodName { name, .. } => push_named(b"C3", b"GoodName", name, names, out),
        Condition::NameUnused { name } => push_named(b"C4", b"NameUnused", name, names, out),
        Condition::SelectorFresh { selector } => {
            push_named(b"C5", b"SelectorFresh", selector, names, out)
        }
        Condition::NotKernelSelector { selector } => {
            push_named(b"C6", b"NotKernelSelector", selector, names, out)
        }
        Condition::Arity { selector, count } => {
            push_counted(b"C7", b"Arity", selector, count, names, out)
        }
        Condition::Implements(method) => push_method(b"C8", b"Implements", method, names, out),
        Condition::NotImplements(method) => {
            push_method(b"C9", b"NotImplements", method, names, out)
        }
        Condition::Removable(method) => push_method(b"C10", b"Removable", method, names, out),
        Condition::NoSubclasses { class } => {
            push_named(b"C11", b"NoSubclasses", class, names, out)
        }
        Condition::NotReferenced { class } => {
            push_named(b"C12", b"NotReferenced", class, names, out)
        }
        Condition::HasVariable { class, variable } => {
            push_pair(b"C13", b"HasVariable", class, variable, names, out)
        }
        Condition::VariableFree { class, variable } => {
            push_pair(b"C14", b"VariableFree", class, variable, names, out)
        }
        Condition::VariableUnused { class, variable } => {
            push_pair(b"C15", b"VariableUnused", class, variable, names, out)
        }
        Condition::ParentIsUser { class } => {
            push_named(b"C16", b"ParentIsUser", class, names, out)
        }
        Condition::NoSuper(method) => push_method(b"C17", b"NoSuper", method, names, out),
        Condition::MeansSame { method, to } => {
            push_local(b"C18", b"MeansSame", method, to, names, out)
        }
        Condition::Unreached { selector } => {
            push_named(b"C19", b"Unreached", selector, names, out)
        }
        Condition::IsClass { class } => push_named(b"C39", b"IsClass", class, names, out),
        Condition::ChildOf { class, superclass } => {
            push_pair(b"C40", b"ChildOf", class, superclass, names, out)
        }
        Condition::LacksVariable { class, variable } => {
            push_pair(b"C41", b"LacksVariable", class, variable, names, out)
        }
        Condition::KnownSelector { selector } => {
            push_named(b"C42", b"KnownSelector", selector, names, out)
        }
        Condition::UndoLeft => push_title(b"C43", b"UndoLeft", out),
        Condition::RedoLeft => push_title(b"C44", b"RedoLeft", out),
        _ => push_code_condition(condition, names, out),
    }
}
