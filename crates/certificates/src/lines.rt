// What stands after the word `applyRule` in a line of a script.
ghost use Rattle.std.specs.Prelude.{◌≡◌, ◌≤◌, ◌<◌, ◌++◌, ℕ, List, length, Ok, IfOk, IfErr, IsTrue, MatchOption};
ghost use Rattle.rb_base.specs.Names.{name_at};
ghost use Rattle.chunk_format.specs.Blank as blank;
ghost use Rattle.event_trees.specs.Naming.{Grows};
ghost use Rattle.patterns.specs.Names.{PatternNames};
ghost use Rattle.rule_model.specs.RuleLines.{arrow, word_length, steps_of, texts_of, HasArrowAt, IsCut, AsksForNone, RuleLineSays};
ghost use Rattle.certificates.specs.Asked.{command_in, of_steps, of_rule, IsToldBy, is_told};

use crate::certificate::{Certificate, CertificateFault};
use crate::reading::parse_certificate;
use pattern_faults::{PatternFault, RuleFault, read_rule};
use patterns::Rule;
use rb_base::Names;
use std::alloc::Global;

/// A rule and its certificate.
#[derive(Drop)]
pub struct RuleRequest {
    pub certificate: Certificate,
    pub rule: Rule,
}

/// Why a line asks for no rule.
#[derive(Clone, Copy)]
pub enum RuleLineFault {
    /// The first word is no certificate: it has a bad step at this offset in bytes.
    BadSteps { at: usize },
    /// No arrow stands after it.
    NoArrow,
    /// The text before the arrow is no pattern; or memory is wanting.
    Pattern(PatternFault),
    /// The text after the arrow is no replacement for that pattern; or memory is wanting.
    Replacement(PatternFault),
    /// Want of memory.
    Memory,
}

impl From<CertificateFault> for RuleLineFault {
    ghost from_gives = { λ f e. e ≡ of_steps f };

    fn from(fault: CertificateFault) -> RuleLineFault {
        match fault {
            CertificateFault::BadStep { at } => RuleLineFault::BadSteps { at },
            CertificateFault::Memory => RuleLineFault::Memory,
        }
    }
}

impl From<RuleFault> for RuleLineFault {
    ghost from_gives = { λ f e. e ≡ of_rule f };

    fn from(fault: RuleFault) -> RuleLineFault {
        match fault {
            RuleFault::Pattern(fault) => RuleLineFault::Pattern(fault),
            RuleFault::Replacement(fault) => RuleLineFault::Replacement(fault),
        }
    }
}

/// What stands between the texts of a rule.
const ARROW: &[u8] = b" ==> ";

/// Whether the byte is a blank: a tab, a line feed, a form feed, a carriage return or a space.
fn is_blank(byte: u8) -> bool
    ensures { result ≡ blank.is_blank byte }
{
    byte.is_ascii_whitespace()
}

/// How many bytes a text has before its first blank.
fn word_len(text: &[u8]) -> usize
    ensures value { result ≡ word_length text.now }
    ensures in_range { result ≤ length text.now }
{
    text.iter().take_while(|byte| !is_blank(**byte)).count()
}

/// The text without the blanks that it begins with.
fn behind_blanks(text: &[u8]) -> &[u8]
    ensures { result.now ≡ blank.drop_blanks text.now }
{
    text.trim_ascii_start()
}

/// The first word of a text, and what stands after it.
fn split_word(text: &[u8]) -> (&[u8], &[u8])
    ensures word { result.0.now ≡ steps_of text.now }
    ensures rest { result.1.now ≡ texts_of text.now }
{
    let text = behind_blanks(text);
    text.split_at(word_len(text))
}

/// What stands after an arrow, if a text begins with one.
fn behind_arrow(text: &[u8]) -> Option<&[u8]>
    ensures { MatchOption result ((rest : List ℕ) → text.now ≡ arrow ++ rest → ⊥) (λ rest. text.now ≡ arrow ++ rest.now) }
{
    text.strip_prefix(ARROW)
}

/// What stands before the first arrow of a text, and after it.
#[tactic(auto, using(crate::proofs::Arrows::cut_here, crate::proofs::Arrows::one_further, crate::proofs::Arrows::none_at_all))]
fn cut_at_arrow(text: &[u8]) -> Option<(&[u8], &[u8])>
    ensures { MatchOption result ((k : ℕ) → HasArrowAt text.now k → ⊥) (λ parts. IsCut text.now parts.0.now parts.1.now) }
{
    for at in 0..text.len() {
        let (before, from) = text.split_at(at);
        if let Some(behind) = behind_arrow(from) {
            return Some((before, behind));
        }
    }
    None
}

/// What a line asks for by the text after the word `applyRule`: the steps of a certificate, and the texts of a pattern and its
/// replacement with an arrow between. The names of the rule are numbers in `names`, to which those that are new are added.
///
/// # Errors
///
/// The first of these that is wrong, with its place in its text, or want of memory.
pub fn rule_line(
    alloc: Global,
    text: &[u8],
    names: &mut Names,
) -> Result<RuleRequest, RuleLineFault>
    ensures said { IfOk result (λ r. RuleLineSays text.now (Ok (command_in names.new r))) }
    ensures known_pattern { IfOk result (λ r. PatternNames (λ n. n < length names.new) r.rule.pattern) }
    ensures known_replacement { IfOk result (λ r. PatternNames (λ n. n < length names.new) r.rule.replacement) }
    ensures fault { IfErr result (IsToldBy text.now) }
    ensures none { IfErr result (λ f. IsTrue (is_told f) → AsksForNone text.now) }
    ensures grows { Grows names.old names.new }
{
    let (word, rest) = split_word(text);
    let certificate = parse_certificate(alloc, word)?;
    let Some((pattern, replacement)) = cut_at_arrow(rest) else {
        return Err(RuleLineFault::NoArrow);
    };
    let rule = read_rule(alloc, pattern, replacement, names)?;
    Ok(RuleRequest { certificate, rule })
}
