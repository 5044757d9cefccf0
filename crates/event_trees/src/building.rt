// What each event makes of the parts.
ghost use Rattle.std.specs.Prelude.{◌≡◌, OnOk};
ghost use Rattle.parse_events.specs.declared.event.Event.TheVariants as event;
ghost use Rattle.event_trees.specs.Stacks.{event_names};
ghost use Rattle.event_trees.specs.Held.{held, Builds};
ghost use Rattle.event_trees.specs.Naming.{Grows, Adds, AllPass};

use crate::naming::{number_of, numbers_of};
use crate::stacks::Stacks;
use parse_events::{Declarations, Event};
use rb_base::{Memory, Names};
use st_tree::LiteralKind;
use std::alloc::Global;

/// Opens a block with what it declares.
fn enter(
    alloc: Global,
    stacks: &mut Stacks,
    names: &mut Names,
    parameters: &Declarations,
    temporaries: &Declarations,
) -> Result<(), Memory>
    ensures built { OnOk result (Builds names.new (held stacks.old) (held stacks.new) (event.Enter parameters.now temporaries.now)) }
    ensures adds { OnOk result (Adds names.old names.new (AllPass (event_names (event.Enter parameters.now temporaries.now)))) }
    ensures grows { Grows names.old names.new }
{
    let first = numbers_of(alloc, names, parameters)?;
    let second = numbers_of(alloc, names, temporaries)?;
    stacks.scope(first, second)
}

/// Does with the parts what an event says, and gives its names numbers.
#[inline]
pub fn build(
    alloc: Global,
    stacks: &mut Stacks,
    names: &mut Names,
    event: Event,
) -> Result<(), Memory>
    ensures built { OnOk result (Builds names.new (held stacks.old) (held stacks.new) event) }
    ensures adds { OnOk result (Adds names.old names.new (AllPass (event_names event))) }
    ensures grows { Grows names.old names.new }
{
    match event {
        Event::Number { text } => stacks.literal(LiteralKind::Number { text }),
        Event::Str { text } => stacks.literal(LiteralKind::Str { text }),
        Event::Symbol { text } => stacks.literal(LiteralKind::Symbol { text }),
        Event::Char { byte } => stacks.literal(LiteralKind::Char { byte }),
        Event::Word { name } => stacks.word(number_of(names, &name)?),
        Event::Array { items } => stacks.array(items as usize),
        Event::Bytes { items } => stacks.bytes(items as usize),
        Event::Literal { .. } => stacks.operand(),
        Event::Var { name, .. } => stacks.variable(number_of(names, &name)?),
        Event::Send {
            selector,
            arguments,
            ..
        } => stacks.send(alloc, number_of(names, &selector)?, arguments as usize),
        Event::Message {
            selector,
            arguments,
        } => stacks.message(number_of(names, &selector)?, arguments as usize),
        Event::Cascade { messages, .. } => stacks.cascade(alloc, messages as usize),
        Event::Target { name, .. } => stacks.target(number_of(names, &name)?),
        Event::Assign { .. } => stacks.value(alloc),
        Event::Enter {
            parameters,
            temporaries,
        } => enter(alloc, stacks, names, &parameters, &temporaries),
        Event::Block {
            statements,
            tail,
            ..
        } => stacks.block(alloc, statements as usize, tail.into_comments()),
        Event::Brace { items, .. } => stacks.brace(items as usize),
        Event::Return { .. } => stacks.returned(alloc),
        Event::Statement { comments, .. } => stacks.statement(comments),
    }
}
