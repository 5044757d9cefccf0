//! Certificates of rules as texts: the text of one read into steps, and the line of a script that asks for a rule with its
//! certificate.
#![tactic(auto)]

mod certificate;
mod lines;
mod reading;
#[cfg(test)]
mod tests;

pub use certificate::{Certificate, CertificateFault, Step};
pub use lines::{RuleLineFault, RuleRequest, rule_line};
pub use reading::parse_certificate;
