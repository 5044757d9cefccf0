// Worked certificates: what an independent implementation answers.
use crate::{CertificateFault, RuleLineFault, parse_certificate, rule_line};
use pattern_faults::PatternFault;
use rb_base::{Memory, Names};
use std::alloc::Global;
use std::test::Fail;

/// Texts, and the place of the bad step.
const TEXTS: &[(&[u8], Option<usize>)] = &[
    (b"", Some(0)),
    (b"+", Some(1)),
    (b"+1", Some(2)),
    (b"+1@", None),
    (b"-7@1.0", None),
    (b"+10@", None),
    (b"+11@", Some(2)),
    (b"+0@", Some(1)),
    (b"+01@", Some(1)),
    (b"+2@00", Some(4)),
    (b"+2@0", None),
    (b"+2@01", Some(4)),
    (b"+2@1.", Some(5)),
    (b"+2@1.,", Some(5)),
    (b"+2@1..2", Some(5)),
    (b"+2@123456789", None),
    (b"+2@1234567890", Some(12)),
    (b"+2@123456789.1234567890", Some(22)),
    (b"+2@,", Some(4)),
    (b"+2@,+3@", None),
    (b"+2@,,", Some(4)),
    (b"+2@,x", Some(4)),
    (b"x", Some(0)),
    (b"*2@", Some(0)),
    (b"+2@ ", Some(3)),
    (b"+2@a", Some(3)),
    (b"+2", Some(2)),
    (b"+10", Some(3)),
    (b"+100@", Some(3)),
    (b"+2@1.2.3,-10@0.0", None),
    (b"+2@0.0.0.", Some(9)),
    (b"+2@0123", Some(4)),
    (b" +2@", Some(0)),
    (b"+2@-1", Some(3)),
    (b"+9@4294967296", Some(12)),
    (b"1@", Some(0)),
    (b"+@", Some(1)),
    (b"+2@.", Some(3)),
    (b"+2.@", Some(2)),
];

/// The place of the bad step.
fn bad_step(alloc: Global, text: &[u8]) -> Result<Option<usize>, Memory> {
    match parse_certificate(alloc, text) {
        Ok(_) => Ok(None),
        Err(CertificateFault::BadStep { at }) => Ok(Some(at)),
        Err(CertificateFault::Memory) => Err(Memory),
    }
}

#[test]
fn bad_steps_are_found(rt: HostRuntime) -> Result<(), Fail> {
    for (i, (text, want)) in TEXTS.iter().enumerate() {
        assert_eq!(rt; bad_step(rt.alloc(), text)?, *want, "text {i}");
    }
    Ok(())
}

/// A number for each answer to a line: 0 a rule, and 1 to 4 the causes.
fn line_answer(alloc: Global, text: &[u8]) -> Result<(usize, usize), Memory> {
    let mut names = Names::new(alloc);
    match rule_line(alloc, text, &mut names) {
        Ok(request) => Ok((0, request.certificate.steps.len())),
        Err(RuleLineFault::BadSteps { at }) => Ok((1, at)),
        Err(RuleLineFault::NoArrow) => Ok((2, 0)),
        Err(RuleLineFault::Pattern(_)) => Ok((3, 0)),
        Err(RuleLineFault::Replacement(PatternFault::UnboundInReplacement { at })) => Ok((4, at)),
        Err(RuleLineFault::Replacement(_)) => Ok((5, 0)),
        Err(RuleLineFault::Memory) => Err(Memory),
    }
}

/// Lines, and the answers to them: a number for each kind, and the count of steps or the place.
const LINES: &[(&[u8], usize, usize)] = &[
    (
        b" +4@ `@x and: [`.@s] ==> `@x ifTrue: [`.@s] ifFalse: [false]",
        0,
        1,
    ),
    (b" +4@,+1@0.1 `@x ==> `@x foo", 0, 2),
    (b" +4 `@x ==> `@x foo", 1, 2),
    (b" ", 1, 0),
    (b" +4@ `@x ==>`@x foo", 2, 0),
    (b" +4@ ==> `@x foo", 3, 0),
    (b" +4@ `@x ==> `@y foo", 4, 0),
    (b" +4@ `@x ==> `@x ==> `@x", 5, 0),
];

#[test]
fn lines_are_read(rt: HostRuntime) -> Result<(), Fail> {
    for (i, (text, kind, count)) in LINES.iter().enumerate() {
        assert_eq!(rt; line_answer(rt.alloc(), text)?, (*kind, *count), "line {i}");
    }
    Ok(())
}
