// The lines of a refused image, of a chunk that is not imported, of a refused expression, and of a refused pattern or replacement.
ghost use Rattle.std.specs.Prelude.{◌≡◌, ◌++◌, [], OnOk, MatchOption};
ghost use Rattle.std.specs.Fmt.{decimal};
ghost use Rattle.file_model.specs.Causes.{place_of_lexical, place_of_fault};
ghost use Rattle.st_faults.specs.Faults.{fault_of};
ghost use Rattle.file_faults.specs.Faults.{cause_of};
ghost use Rattle.image_forms.specs.ImageLines.{lexical_text, fault_text, cause_text, image_refusal, import_refusal, expression_refusal, text_cause, text_place, text_refusal};
ghost use Rattle.pattern_faults.specs.Told as pattern;

use file_faults::ImageCause;
use pattern_faults::PatternFault;
use rb_base::{Memory, Text};
use st_faults::{ParseFault, word_of};
use std::alloc::Global;
use token_model::LexFault;

/// The name of a fault of tokens.
fn lexical_name(fault: LexFault) -> &'static str
    ensures { result.now ≡ lexical_text fault }
{
    match fault {
        LexFault::BadByte { .. } => "BadByte",
        LexFault::OpenString { .. } => "OpenString",
        LexFault::OpenComment { .. } => "OpenComment",
        LexFault::BadNumeral { .. } => "BadNumeral",
    }
}

/// Appends the name of a fault, and what was expected. Want of memory is no fault of a text.
fn push_fault(fault: ParseFault, out: &mut Text) -> Result<(), Memory>
    ensures { OnOk result (MatchOption (fault_of fault) ⊥ (λ f. out.new ≡ out.old ++ fault_text f)) }
{
    match fault {
        ParseFault::Lexical(lexical) => out.push_slice(lexical_name(lexical).as_bytes()),
        ParseFault::Expected { what, .. } => {
            out.push_slice(b"Expected ")?;
            out.push_slice(word_of(what).as_bytes())
        }
        ParseFault::AssignsFixed { .. } => out.push_slice(b"AssignsFixed"),
        ParseFault::TooDeep { .. } => out.push_slice(b"TooDeep"),
        ParseFault::PrimitiveInUser { .. } => out.push_slice(b"PrimitiveInUser"),
        ParseFault::DuplicateName { .. } => out.push_slice(b"DuplicateName"),
        ParseFault::Memory => Err(Memory),
    }
}

/// Appends the name of a cause.
fn push_cause(cause: ImageCause, out: &mut Text) -> Result<(), Memory>
    ensures { OnOk result (MatchOption (cause_of cause) ⊥ (λ c. out.new ≡ out.old ++ cause_text c)) }
{
    match cause {
        ImageCause::UnknownSuperclass => out.push_slice(b"UnknownSuperclass"),
        ImageCause::Cycle => out.push_slice(b"Cycle"),
        ImageCause::VariableTwice => out.push_slice(b"VariableTwice"),
        ImageCause::KernelReplaced => out.push_slice(b"KernelReplaced"),
        ImageCause::UnknownClass => out.push_slice(b"UnknownClass"),
        ImageCause::TooMany => out.push_slice(b"TooMany"),
        ImageCause::PoolsNotEmpty => out.push_slice(b"PoolsNotEmpty"),
        ImageCause::UnknownDefinition => out.push_slice(b"UnknownDefinition"),
        ImageCause::Unended => out.push_slice(b"Unended"),
        ImageCause::Syntax(fault) => push_fault(fault, out),
    }
}

/// Appends a number in decimal.
pub fn push_number(alloc: Global, number: usize, out: &mut Text) -> Result<(), Memory>
    ensures { OnOk result (out.new ≡ out.old ++ decimal number) }
{
    let digits = format!(in alloc; "{number}")?;
    out.push_slice(digits.as_bytes())
}

/// Appends the line of a refusal of a chunk.
pub fn push_image_refusal(
    alloc: Global,
    chunk: usize,
    at: usize,
    cause: ImageCause,
    out: &mut Text,
) -> Result<(), Memory>
    requires { out.old ≡ [] }
    ensures { OnOk result (MatchOption (cause_of cause) ⊥ (λ c. out.new ≡ image_refusal (record { chunk = chunk; at = at; cause = c }))) }
{
    out.push_slice(b"image chunk ")?;
    push_number(alloc, chunk, out)?;
    out.push_slice(b" at ")?;
    push_number(alloc, at, out)?;
    out.push_slice(b" ")?;
    push_cause(cause, out)?;
    out.push_slice(b"\n")
}

/// Appends the line of a chunk that is not imported.
pub(crate) fn push_import_refusal(
    alloc: Global,
    chunk: usize,
    cause: ImageCause,
    out: &mut Text,
) -> Result<(), Memory>
    requires { out.old ≡ [] }
    ensures { OnOk result (MatchOption (cause_of cause) ⊥ (λ c. out.new ≡ import_refusal chunk c)) }
{
    out.push_slice(b"import chunk ")?;
    push_number(alloc, chunk, out)?;
    out.push_slice(b" ")?;
    push_cause(cause, out)?;
    out.push_slice(b"\n")
}

/// Where a token that is none begins.
fn lexical_place(fault: LexFault) -> usize
    ensures { result ≡ place_of_lexical fault }
{
    match fault {
        LexFault::BadByte { at } => at,
        LexFault::OpenString { at } => at,
        LexFault::OpenComment { at } => at,
        LexFault::BadNumeral { at } => at,
    }
}

/// The place of a fault in its text, and 0 for want of memory.
fn place_of(fault: ParseFault) -> usize
    ensures { MatchOption (fault_of fault) (Unit {0}) (λ f. result ≡ place_of_fault f) }
{
    match fault {
        ParseFault::Lexical(fault) => lexical_place(fault),
        ParseFault::Expected { at, .. } => at,
        ParseFault::AssignsFixed { at } => at,
        ParseFault::TooDeep { at } => at,
        ParseFault::PrimitiveInUser { at } => at,
        ParseFault::DuplicateName { at } => at,
        ParseFault::Memory => 0,
    }
}

/// The place of a fault of the text of a pattern, and 0 for want of memory.
fn place_of_pattern(fault: PatternFault) -> usize
    ensures { MatchOption (pattern.cause_of fault) (Unit {0}) (λ c. result ≡ text_place c) }
{
    match fault {
        PatternFault::Text(fault) => place_of(fault),
        PatternFault::TwoLists { at } => at,
        PatternFault::UnboundInReplacement { at } => at,
        PatternFault::TwiceDoubled { at } => at,
    }
}

/// Appends the name of a fault of the text of a pattern, and what was expected. Want of memory is no fault of a text.
fn push_pattern_fault(fault: PatternFault, out: &mut Text) -> Result<(), Memory>
    ensures { OnOk result (MatchOption (pattern.cause_of fault) ⊥ (λ c. out.new ≡ out.old ++ text_cause c)) }
{
    match fault {
        PatternFault::Text(fault) => push_fault(fault, out),
        PatternFault::TwoLists { .. } => out.push_slice(b"TwoLists"),
        PatternFault::UnboundInReplacement { .. } => out.push_slice(b"UnboundInReplacement"),
        PatternFault::TwiceDoubled { .. } => out.push_slice(b"TwiceDoubled"),
    }
}

/// Appends the line of a text of the command line that is refused. Want of memory is no fault of a text.
pub(crate) fn push_text_refusal(
    alloc: Global,
    what: &str,
    fault: PatternFault,
    out: &mut Text,
) -> Result<(), Memory>
    requires { out.old ≡ [] }
    ensures { OnOk result (MatchOption (pattern.cause_of fault) ⊥ (λ c. out.new ≡ text_refusal what.now c)) }
{
    out.push_slice(what.as_bytes())?;
    out.push_slice(b" at ")?;
    push_number(alloc, place_of_pattern(fault), out)?;
    out.push_slice(b" ")?;
    push_pattern_fault(fault, out)?;
    out.push_slice(b"\n")
}

/// Appends the line of an expression that is no do-it. Want of memory is no fault of a text.
pub fn push_expression_refusal(
    alloc: Global,
    fault: ParseFault,
    out: &mut Text,
) -> Result<(), Memory>
    requires { out.old ≡ [] }
    ensures { OnOk result (MatchOption (fault_of fault) ⊥ (λ f. out.new ≡ expression_refusal f)) }
{
    push_text_refusal(alloc, "expression", PatternFault::Text(fault), out)
}
