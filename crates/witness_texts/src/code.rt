// The method or do-it of an owner.
ghost use Rattle.std.specs.Prelude.{◌≡◌, IfOk, IfSome, OnOk};
ghost use Rattle.class_table.specs.Valid.{IsOrderly};
ghost use Rattle.command_model.specs.Parts.{Expression, Run};
ghost use Rattle.event_spans.specs.Answers.{of_span};
ghost use Rattle.witness_texts.specs.Code.{IsCodeOf, IsTold, IsUsersPart, code_title, is_users, StandsThere};

use class_table::{Image, MethodInfo, MethodSlot};
use image_queries::{doit_title, method_title};
use rb_base::{Memory, Span, Text};
use st_spans::{part_of_span, span_of, span_of_doit};
use st_tree::{Part, Path};
use std::alloc::Global;
use witness_lists::Owner;

/// A method, or a do-it of a number from 0 with its source.
#[derive(Clone, Copy, Debug)]
pub(crate) enum Code<'a> {
    Method(MethodInfo<'a>),
    DoIt { number: usize, source: &'a [u8] },
}

/// The method in a slot, if the slot is live.
fn slot_code(image: &Image, slot: MethodSlot) -> Option<Code<'_>>
    ensures { IfSome result (IsTold image.now slot) }
{
    match image.method_info(slot) {
        None => None,
        Some(info) => Some(Code::Method(info)),
    }
}

/// The code of an owner, if the owner is one of the image.
pub(crate) fn code_of<'a>(image: &'a Image, owner: &Owner) -> Option<Code<'a>>
    ensures { IfSome result (IsCodeOf image.now owner.now) }
{
    match *owner {
        Owner::Method(slot) => slot_code(image, slot),
        Owner::Numbered(number) => match image.methods().get(number) {
            None => None,
            Some(slot) => slot_code(image, *slot),
        },
        Owner::DoIt(number) => match image.doit_source(number) {
            None => None,
            Some(source) => Some(Code::DoIt { number, source }),
        },
    }
}

/// The title of code of an image: `Account>>balance`, or `doit 3`.
pub(crate) fn title(
    alloc: Global,
    image: &Image,
    owner: &Owner,
    code: &Code<'_>,
) -> Result<Text, Memory>
    requires orderly { IsOrderly image.now }
    requires code { IsCodeOf image.now owner.now code.now }
    ensures { IfOk result (λ title. title ≡ code_title image.now.names image.now.classes code.now) }
{
    match code {
        Code::Method(info) => method_title(alloc, image, info),
        Code::DoIt { number, .. } => {
            if *number == usize::MAX {
                return Err(Memory);
            }
            doit_title(alloc, *number)
        }
    }
}

/// Whether the code is the user's.
pub(crate) fn is_users(code: &Code<'_>) -> bool
    ensures { result ≡ is_users code.now }
{
    match code {
        Code::Method(info) => !info.kernel,
        Code::DoIt { .. } => true,
    }
}

/// Where the node stands in the source of the code to which a path leads. Want of memory also if it stands nowhere.
pub(crate) fn span_in(alloc: Global, code: &Code<'_>, path: &Path) -> Result<Span, Memory>
    ensures { IfOk result (λ span. StandsThere code.now (Expression path.now) (of_span span)) }
{
    let found = match code {
        Code::Method(info) => span_of(alloc, info.source, path),
        Code::DoIt { source, .. } => span_of_doit(alloc, source, path),
    };
    match found {
        Ok(Some(span)) => Ok(span),
        _ => Err(Memory),
    }
}

/// Nothing, if these statements of the user's code stand at the span; and else want of memory.
pub(crate) fn check_statements(
    alloc: Global,
    code: &Code<'_>,
    path: &Path,
    first: usize,
    count: usize,
    span: Span,
) -> Result<(), Memory>
    ensures { OnOk result (IsUsersPart code.now (Run path.now first count) (of_span span)) }
{
    let Code::Method(info) = code else {
        return Err(Memory);
    };
    if info.kernel {
        return Err(Memory);
    }
    let Ok(
        Some(
            Part::Run {
                path: way,
                first: from,
                count: number,
            },
        ),
    ) = part_of_span(alloc, info.source, span.from, span.to)
    else {
        return Err(Memory);
    };
    if way.same(path) && first == from && count == number {
        Ok(())
    } else {
        Err(Memory)
    }
}
