// The reader of certificates.
ghost use Rattle.std.specs.Prelude.{◌≡◌, ◌≤◌, ◌+◌, [], ◌∷◌, ◌++◌, map, if◌then◌else◌, codes, false, IfOk, IfErr, IfSome, IfNone, MatchOption, OnOk};
ghost use Rattle.std.specs.List.{AllByRecursion};
ghost use Rattle.std.specs.Fmt.{decimal};
ghost use Rattle.certificate_model.specs.CertificateTexts.{path_text, step_text, HasNineDigits, IsStep, SaysCertificate, HasBadStep};
ghost use Rattle.certificates.specs.Shown.{step_shown};
ghost use Rattle.certificates.specs.Stops.{a_sign, a_law, an_at_sign, a_path, a_number, behind_number, behind_path, left_from, begins_with, begins_with_digit};
ghost use Rattle.certificates.specs.Halts.{HaltsFrom, bad_at};
ghost use Rattle.certificates.specs.declared.reading.Halt.TheVariants as halt;

use crate::certificate::{Certificate, CertificateFault, Step};
use rb_base::Memory;
use st_tree::Path;
use std::alloc::Global;

/// Why a text is read no further.
#[derive(Clone, Copy)]
enum Halt {
    /// So many bytes are left, and the first of them continues no certificate; if none is left, more is wanted.
    Bad { left: usize },
    /// Want of memory.
    Memory,
}

impl From<Memory> for Halt {
    ghost from_gives = { λ _ e. e ≡ halt.Memory };

    fn from(_error: Memory) -> Halt {
        Halt::Memory
    }
}

/// What stands after a byte, if a text begins with it.
fn behind_byte(text: &[u8], byte: u8) -> Option<&[u8]>
    ensures some { IfSome result (λ rest. text.now ≡ byte ∷ rest.now) }
    ensures none { IfNone result (begins_with byte text.now ≡ false) }
{
    match text.split_first() {
        Some((first, rest)) => { if *first == byte { Some(rest) } else { None } }
        None => None,
    }
}

/// The digit that a text begins with, and what stands after it.
fn digit_in(text: &[u8]) -> Option<(usize, &[u8])>
    ensures some { IfSome result (λ r. (r.0 ≤ 9) × (text.now ≡ (48 + r.0) ∷ r.1.now)) }
    ensures none { IfNone result (begins_with_digit text.now ≡ false) }
{
    let (first, rest) = text.split_first()?;
    if first.is_ascii_digit() {
        Some(((*first - b'0') as usize, rest))
    } else {
        None
    }
}

/// The direction that a text begins with, and what stands after it.
#[tactic(auto, using(crate::proofs::Stopping::behind_sign, crate::proofs::Stopping::no_sign))]
fn sign_in(text: &[u8]) -> Result<(bool, &[u8]), Halt>
    ensures spelled { IfOk result (λ r. text.now ≡ (if r.0 then codes "+" else codes "-") ++ r.1.now) }
    ensures halts { IfErr result (HaltsFrom a_sign text.now) }
{
    if let Some(rest) = behind_byte(text, b'+') {
        return Ok((true, rest));
    }
    match behind_byte(text, b'-') {
        Some(rest) => Ok((false, rest)),
        None => Err(Halt::Bad { left: text.len() }),
    }
}

/// The number of a law that a text begins with, and what stands after it.
#[tactic(auto, using(crate::proofs::Digits::one_digit, crate::proofs::Digits::ten))]
fn law_in(text: &[u8]) -> Result<(usize, &[u8]), Halt>
    ensures law { IfOk result (λ r. (1 ≤ r.0) × (r.0 ≤ 10)) }
    ensures spelled { IfOk result (λ r. text.now ≡ decimal r.0 ++ r.1.now) }
    ensures goes_on { IfOk result (λ r. left_from a_law text.now ≡ left_from an_at_sign r.1.now) }
    ensures halts { IfErr result (HaltsFrom a_law text.now) }
{
    let Some((digit, rest)) = digit_in(text) else {
        return Err(Halt::Bad { left: text.len() });
    };
    if digit == 0 {
        return Err(Halt::Bad { left: text.len() });
    }
    if digit > 1 {
        return Ok((digit, rest));
    }
    match behind_byte(rest, b'0') {
        Some(others) => Ok((10, others)),
        None => Ok((1, rest)),
    }
}

/// The number of a path that a text begins with, and what stands after it: at most nine digits.
#[tactic(auto, using(crate::proofs::Digits::one_digit, crate::proofs::Digits::one_more, crate::proofs::Digits::shorter, crate::proofs::Stopping::no_number, crate::proofs::Stopping::whole_here))]
fn number_in(text: &[u8]) -> Result<(usize, &[u8]), Halt>
    ensures number { IfOk result (λ r. HasNineDigits r.0) }
    ensures spelled { IfOk result (λ r. text.now ≡ decimal r.0 ++ r.1.now) }
    ensures goes_on { IfOk result (λ r. left_from a_number text.now ≡ left_from behind_number r.1.now) }
    ensures halts { IfErr result (HaltsFrom a_number text.now) }
{
    let Some((first, behind)) = digit_in(text) else {
        return Err(Halt::Bad { left: text.len() });
    };
    let mut number = first;
    let mut rest = behind;
    if first == 0 {
        return Ok((number, rest));
    }
    'digits: while number < 100_000_000 {
        let Some((digit, others)) = digit_in(rest) else {
            return Ok((number, rest));
        };
        number = number * 10 + digit;
        rest = others;
    }
    Ok((number, rest))
}

/// The path that a text begins with, and what stands after it.
#[tactic(auto, using(crate::proofs::Joined::path_done, crate::proofs::Joined::path_more, crate::proofs::Joined::all_more, crate::proofs::Joined::path_shorter))]
fn path_in(alloc: Global, text: &[u8]) -> Result<(Path, &[u8]), Halt>
    ensures path { IfOk result (λ r. AllByRecursion HasNineDigits r.0) }
    ensures spelled { IfOk result (λ r. text.now ≡ path_text r.0 ++ r.1.now) }
    ensures goes_on { IfOk result (λ r. left_from a_path text.now ≡ left_from behind_path r.1.now) }
    ensures halts { IfErr result (HaltsFrom a_path text.now) }
{
    let mut path = Path::new(alloc);
    let Some((_first, _behind)) = digit_in(text) else {
        return Ok((path, text));
    };
    let mut rest = text;
    'numbers: loop {
        let (number, behind) = number_in(rest)?;
        path.push(number)?;
        match behind_byte(behind, b'.') {
            None => return Ok((path, behind)),
            Some(others) => rest = others,
        }
    }
}

/// The step that a text begins with, and what stands after it.
#[tactic(auto, using(crate::proofs::Stopping::behind_sign, crate::proofs::Stopping::behind_at_sign, crate::proofs::Stopping::no_at_sign, crate::proofs::Halting::later))]
fn step_in(alloc: Global, text: &[u8]) -> Result<(Step, &[u8]), Halt>
    ensures step { IfOk result (λ r. IsStep (step_shown r.0)) }
    ensures spelled { IfOk result (λ r. text.now ≡ step_text (step_shown r.0) ++ r.1.now) }
    ensures goes_on { IfOk result (λ r. left_from a_sign text.now ≡ left_from behind_path r.1.now) }
    ensures halts { IfErr result (HaltsFrom a_sign text.now) }
{
    let (forward, rest) = sign_in(text)?;
    let (law, rest) = law_in(rest)?;
    let Some(rest) = behind_byte(rest, b'@') else {
        return Err(Halt::Bad { left: rest.len() });
    };
    let (path, rest) = path_in(alloc, rest)?;
    Ok((Step { law, forward, path }, rest))
}

/// Puts a step after others.
fn push(steps: &mut Vec<Step>, step: Step) -> Result<(), Memory>
    ensures { OnOk result (steps.new.items ≡ steps.old.items ++ step ∷ []) }
{
    steps.push(step)?;
    Ok(())
}

/// The steps that a text says.
#[tactic(auto, using(crate::proofs::Joined::steps_done, crate::proofs::Joined::steps_more, crate::proofs::Joined::steps_good, crate::proofs::Joined::steps_shorter))]
fn steps_in(alloc: Global, text: &[u8]) -> Result<Vec<Step>, Halt>
    ensures said { IfOk result (λ steps. SaysCertificate text.now (map step_shown steps.items)) }
    ensures halts { IfErr result (HaltsFrom a_sign text.now) }
{
    let mut steps = Vec::new(alloc);
    let mut rest = text;
    'steps: loop {
        let (step, behind) = step_in(alloc, rest)?;
        push(&mut steps, step)?;
        if behind.is_empty() {
            return Ok(steps);
        }
        match behind_byte(behind, b',') {
            None => return Err(Halt::Bad { left: behind.len() }),
            Some(others) => rest = others,
        }
    }
}

/// The certificate that a text says: at least one step, with commas between. A step is `+` or `-`, the number of a law from 1
/// to 10, `@`, and a path, which is numbers of at most nine digits with periods between, or nothing. No number has a leading
/// zero.
///
/// # Errors
///
/// The first byte that continues no certificate, or want of memory.
#[tactic(auto, using(crate::proofs::BadPlace::bad_place))]
pub fn parse_certificate(alloc: Global, text: &[u8]) -> Result<Certificate, CertificateFault>
    ensures said { IfOk result (λ c. SaysCertificate text.now (map step_shown c.steps.items)) }
    ensures fault { IfErr result (λ f. MatchOption (bad_at f) (Unit {0}) (HasBadStep text.now)) }
{
    match steps_in(alloc, text) {
        Ok(steps) => Ok(Certificate { steps }),
        Err(Halt::Bad { left }) => Err(CertificateFault::BadStep {
            at: text.len().saturating_sub(left),
        }),
        Err(Halt::Memory) => Err(CertificateFault::Memory),
    }
}
