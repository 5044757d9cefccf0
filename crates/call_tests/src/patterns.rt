// Which texts are patterns, and where the others have their faults.
use rb_base::Names;
use st_parser::parse_pattern;
use st_reading::ParseFault;
use std::alloc::Global;

/// Texts of patterns, with the names in their trees, each once.
const PATTERNS: &[(&str, &[&str])] = &[
    ("`x", &["`x"]),
    (
        "`@list detect: [:each | `.@before. `@test]",
        &["`@list", "detect:", "each", "`.@before", "`@test"],
    ),
    ("`#one + `#two", &["`#one", "+", "`#two"]),
];

/// Texts that are no patterns, with the places of their faults.
const FAULTS: &[(&str, usize)] = &[("^`x", 0), ("[:`x | ]", 2), ("`x foo. `x bar", 6), ("", 0)];

/// Whether the text is a pattern with these names.
fn has_names(alloc: Global, text: &str, wanted: &[&str]) -> bool {
    let mut names = Names::new(alloc);
    match parse_pattern(alloc, text.as_bytes(), &mut names) {
        Ok(body) => {
            body.statements.as_slice().len() == 1
                && names.len() == wanted.len()
                && wanted
                    .iter()
                    .all(|name| names.find(name.as_bytes()).is_some())
        }
        Err(_) => false,
    }
}

/// Whether another token is expected at this place of the text.
fn is_refused(alloc: Global, text: &str, wanted: usize) -> bool {
    let mut names = Names::new(alloc);
    match parse_pattern(alloc, text.as_bytes(), &mut names) {
        Err(ParseFault::Expected { at, .. }) => at == wanted && names.len() == 0,
        _ => false,
    }
}

#[test]
fn patterns_are_read(rt: HostRuntime) {
    assert!(rt;
        PATTERNS
            .iter()
            .all(|(text, names)| has_names(rt.alloc(), text, names))
    );
    assert!(rt;
        FAULTS
            .iter()
            .all(|(text, at)| is_refused(rt.alloc(), text, *at))
    );
}
