// The events of whole texts.
ghost use Rattle.std.specs.Prelude.{◌≡◌, true, false, List, [], ◌∷◌, IfOk, IfSome, IfNone};
ghost use Rattle.token_model.specs.declared.kind.Dialect.TheVariants.{Second};
ghost use Rattle.grammar_model.specs.Input as input;
ghost use Rattle.grammar_model.specs.Spanned.{SpannedTree, SpannedSequence, SpannedMethod};
ghost use Rattle.grammar_model.specs.Ahead.{Longest};
ghost use Rattle.grammar_model.specs.Whole.{DoIt, Method, PatternText, IsDoIt, IsMethod, IsPatternText, alone};
ghost use Rattle.grammar_model.specs.Machine.{start};
ghost use Rattle.grammar_model.specs.Lexemes.{IsLexed};
ghost use Rattle.grammar_model.specs.PatternTokens.{IsPatternLexed, IsLexedAs};
ghost use Rattle.parse_events.specs.Found.{sequence_events, method_events};
ghost use Rattle.st_faults.specs.Faults.{IsRead};
ghost use Rattle.st_faults.specs.Forms.{form_of};
ghost use Rattle.st_events.specs.Stacks.{above, machine_of};
ghost use Rattle.st_events.specs.Steps.{run};
ghost use Rattle.st_events.specs.Starts.{head_of, beginning_with, sequence_of, method_of};

use crate::part::{HeadPart, Part, SequencePart};
use crate::reader::{Head, Reader, Stack};
use crate::tokens::next_token;
use parse_events::{Declarations, Events, MethodEvents, SequenceEvents};
use rb_base::{Memory, Text};
use st_faults::{Depth, Lexeme, Sort, TextForm, depth_behind, is_too_deep};
use st_tree::Comments;
use std::alloc::Global;

/// How many parts there is room for at once.
const PARTS: usize = 16;

/// Few texts have more events than one for each so many bytes.
const BYTES_OF_EVENT: usize = 2;

/// Nothing was found in a text's head.
fn blank_head(alloc: Global) -> Head
    ensures { result ≡ head_of [] [] }
{
    Head {
        selector: Text::new(alloc),
        arguments: Declarations::new(alloc),
        opening: Comments::new(alloc),
        primitive: None,
        temporaries: Declarations::new(alloc),
        tail: Comments::new(alloc),
    }
}

/// A reader before a text in which these parts come next.
fn reader_before(alloc: Global, text: &[u8], stack: Stack) -> Result<Reader, Memory>
    ensures { IfOk result (λ reader. reader ≡ beginning_with stack) }
{
    let events = Events::with_room(alloc, text.len() / BYTES_OF_EVENT)?;
    Ok(Reader {
        stack,
        events,
        held: Comments::new(alloc),
        last: 0,
        head: blank_head(alloc),
    })
}

/// The stack of one part.
fn stack_of(alloc: Global, part: Part) -> Result<Stack, Memory>
    ensures { IfOk result (λ stack. stack ≡ part ∷ []) }
{
    let mut stack = Stack::with_room(alloc, PARTS)?;
    stack.push(part)?;
    Ok(stack)
}

/// Reads the tokens of a text of a form up to its end, or up to the first at which it has a fault, and tells whether it has none.
fn read_all(alloc: Global, form: TextForm, text: &[u8], reader: &mut Reader) -> Result<bool, Memory>
    requires { machine_of reader.old.stack ≡ start (form_of form) }
    ensures read { IfOk result (λ read. read ≡ true → IsRead (form_of form) text.now) }
    ensures found { IfOk result (λ read. read ≡ true → (ts : List input.Lexeme) → IsLexedAs (form_of form) Second text.now ts → reader.new ≡ run reader.old ts) }
    ensures fault { IfOk result (λ read. read ≡ false → ¬ IsRead (form_of form) text.now) }
{
    let mut place = 0;
    let mut depth = Depth::Open(0);
    'tokens: loop {
        let mut notes = Comments::new(alloc);
        let Some(token) = next_token(alloc, form, text, place, &mut notes)? else {
            return Ok(false);
        };
        let lexeme = Lexeme {
            sort: token.sort,
            from: token.from,
            to: token.to,
        };
        depth = depth_behind(depth, lexeme);
        if is_too_deep(depth) {
            return Ok(false);
        }
        if !reader.read(alloc, token, notes)? {
            return Ok(false);
        }
        match token.sort {
            Sort::TextEnd => return Ok(true),
            _ => place = token.to,
        }
    }
}

/// Reads a text of a form, in which this part comes next, up to its end. `None` if it has a fault.
fn reader_behind(
    alloc: Global,
    form: TextForm,
    text: &[u8],
    part: Part,
) -> Result<Option<Reader>, Memory>
    requires { above part [] ≡ start (form_of form) }
    ensures read { IfOk result (λ reader. IfSome reader (λ _. IsRead (form_of form) text.now)) }
    ensures found { IfOk result (λ reader. IfSome reader (λ reader. (ts : List input.Lexeme) → IsLexedAs (form_of form) Second text.now ts → reader ≡ run (beginning_with (part ∷ [])) ts)) }
    ensures fault { IfOk result (λ reader. IfNone reader (¬ IsRead (form_of form) text.now)) }
{
    let stack = stack_of(alloc, part)?;
    let mut reader = reader_before(alloc, text, stack)?;
    if read_all(alloc, form, text, &mut reader)? {
        Ok(Some(reader))
    } else {
        Ok(None)
    }
}

/// What a reader found in a do-it.
fn found_sequence(reader: Reader) -> SequenceEvents
    ensures { result ≡ sequence_of reader }
{
    let Reader { events, head, .. } = reader;
    let Head {
        temporaries,
        tail,
        ..
    } = head;
    SequenceEvents {
        temporaries,
        events,
        tail,
    }
}

/// What a reader found in a method.
fn found_method(reader: Reader) -> MethodEvents
    ensures { result ≡ method_of reader }
{
    let Reader { events, head, .. } = reader;
    let Head {
        selector,
        arguments,
        opening,
        primitive,
        temporaries,
        tail,
    } = head;
    MethodEvents {
        selector,
        arguments,
        opening,
        primitive,
        body: SequenceEvents {
            temporaries,
            events,
            tail,
        },
    }
}

/// What a do-it spells, in the order in which its tree is built, or `None` where the text has a fault of its tokens, its
/// brackets or the grammar, and only there; which one it is, `check_doit` of st_faults tells. The memory that it takes
/// from `alloc`, and its time, are linear in the text; where memory is wanting, it answers `Memory`. So it does where a
/// text of 4 GiB or more has no fault, since the places of events take four bytes.
pub fn doit_events(alloc: Global, text: &[u8]) -> Result<Option<SequenceEvents>, Memory>
    ensures read { IfOk result (λ found. IfSome found (λ _. IsRead DoIt text.now)) }
    ensures found { IfOk result (λ found. IfSome found (λ found. (ts : List input.Lexeme) (s : SpannedSequence) → IsLexed Second text.now ts → IsDoIt Longest ts s → found ≡ sequence_events s)) }
    ensures none { IfOk result (λ found. IfNone found (¬ IsRead DoIt text.now)) }
{
    let part = Part::Head(HeadPart::DoitTemporaries);
    match reader_behind(alloc, TextForm::DoIt, text, part)? {
        Some(reader) => Ok(Some(found_sequence(reader))),
        None => Ok(None),
    }
}

/// What a method spells, of the kernel or not, in the order in which its tree is built, or `None` where the text has a
/// fault of its tokens, its brackets or the grammar, and only there; which one it is, `check_method` of st_faults tells.
/// Memory, time and texts of 4 GiB or more are as for `doit_events`.
pub fn method_events(
    alloc: Global,
    text: &[u8],
    kernel: bool,
) -> Result<Option<MethodEvents>, Memory>
    ensures read { IfOk result (λ found. IfSome found (λ _. IsRead (Method kernel) text.now)) }
    ensures found { IfOk result (λ found. IfSome found (λ found. (ts : List input.Lexeme) (m : SpannedMethod) → IsLexed Second text.now ts → IsMethod Longest kernel ts m → found ≡ method_events m)) }
    ensures none { IfOk result (λ found. IfNone found (¬ IsRead (Method kernel) text.now)) }
{
    let part = Part::Head(HeadPart::Pattern { kernel });
    match reader_behind(alloc, TextForm::Method(kernel), text, part)? {
        Some(reader) => Ok(Some(found_method(reader))),
        None => Ok(None),
    }
}

/// What a pattern spells, as a do-it of one statement in which metavariables stand as names and keywords with their
/// backquotes, in the order in which its tree is built, or `None` where the text has a fault of its tokens, its brackets
/// or the grammar, and only there; which one it is, `check_pattern` of st_faults tells. Comments outside of blocks are
/// left out. Memory, time and texts of 4 GiB or more are as for `doit_events`.
pub fn pattern_events(alloc: Global, text: &[u8]) -> Result<Option<SequenceEvents>, Memory>
    ensures read { IfOk result (λ found. IfSome found (λ _. IsRead PatternText text.now)) }
    ensures found { IfOk result (λ found. IfSome found (λ found. (ts : List input.Lexeme) (t : SpannedTree) → IsPatternLexed Second text.now ts → IsPatternText Longest ts t → found ≡ sequence_events (alone ts t))) }
    ensures none { IfOk result (λ found. IfNone found (¬ IsRead PatternText text.now)) }
{
    let part = Part::Sequence(SequencePart::Pattern);
    match reader_behind(alloc, TextForm::Pattern, text, part)? {
        Some(reader) => Ok(Some(found_sequence(reader))),
        None => Ok(None),
    }
}
