// Selectors with a meaning of their own.
ghost use Rattle.std.specs.Prelude.{◌≡◌, nat_eq};
ghost use Rattle.std.specs.List.{starts_with, list_any};
ghost use Rattle.rb_base.specs.Names.{text_eq};
ghost use Rattle.st_kernel.specs.Selectors.{is_reflective_selector, is_reserved_selector, is_control};

/// The selectors by which a program looks at or changes itself.
const REFLECTIVE: [&[u8]; 22] = [
    b"perform:",
    b"perform:with:",
    b"perform:with:with:",
    b"perform:with:with:with:",
    b"perform:withArguments:",
    b"instVarAt:",
    b"instVarAt:put:",
    b"instVarNamed:",
    b"instVarNamed:put:",
    b"become:",
    b"becomeForward:",
    b"respondsTo:",
    b"canUnderstand:",
    b"allInstances",
    b"allSubclasses",
    b"subclasses",
    b"superclass",
    b"selectors",
    b"includesSelector:",
    b"compile:",
    b"compile:classified:",
    b"evaluate:",
];

/// The first keywords of the messages by which a file-out defines and removes.
const RESERVED: [&[u8]; 10] = [
    b"subclass:",
    b"variableSubclass:",
    b"variableByteSubclass:",
    b"variableWordSubclass:",
    b"instanceVariableNames:",
    b"methodsFor:",
    b"comment:",
    b"commentStamp:",
    b"removeSelector:",
    b"removeClassNamed:",
];

/// The selectors of control sends.
const CONTROL: [&[u8]; 8] = [
    b"ifTrue:",
    b"ifFalse:",
    b"ifTrue:ifFalse:",
    b"ifFalse:ifTrue:",
    b"and:",
    b"or:",
    b"whileTrue:",
    b"whileFalse:",
];

/// Whether both texts are the same.
fn same(a: &[u8], b: &[u8]) -> bool
    ensures { result ≡ text_eq a.now b.now }
{
    a == b
}

/// Whether the text is one of these.
fn is_one_of(texts: &[&[u8]], text: &[u8]) -> bool
    ensures { result ≡ list_any (λ t. text_eq text.now t.now) texts.now }
{
    texts.iter().any(|other| same(text, other))
}

/// Whether the text begins with these bytes.
fn begins(text: &[u8], bytes: &[u8]) -> bool
    ensures { result ≡ starts_with nat_eq text.now bytes.now }
{
    text.starts_with(bytes)
}

/// Whether the text begins with one of these.
fn begins_with_one_of(beginnings: &[&[u8]], text: &[u8]) -> bool
    ensures { result ≡ list_any (λ t. starts_with nat_eq text.now t.now) beginnings.now }
{
    beginnings.iter().any(|bytes| begins(text, bytes))
}

/// Whether a send of the selector looks at or changes the program itself, as `perform:` or `become:`.
#[tactic(auto, unfolding(crate::specs::Selectors::is_reflective_selector))]
pub fn is_reflective(selector: &[u8]) -> bool
    ensures { result ≡ is_reflective_selector selector.now }
{
    is_one_of(&REFLECTIVE, selector)
}

/// Whether the selector's first keyword is one by which a file-out defines or removes, as `subclass:` or `comment:`.
#[tactic(auto, unfolding(crate::specs::Selectors::is_reserved_selector))]
pub fn is_reserved(selector: &[u8]) -> bool
    ensures { result ≡ is_reserved_selector selector.now }
{
    begins_with_one_of(&RESERVED, selector)
}

/// Whether a send of the selector is a control send where the literal blocks that it demands are there.
#[tactic(auto, unfolding(crate::specs::Selectors::is_control))]
pub fn is_control_selector(selector: &[u8]) -> bool
    ensures { result ≡ is_control selector.now }
{
    is_one_of(&CONTROL, selector)
}
