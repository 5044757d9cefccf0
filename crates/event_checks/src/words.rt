// Names with a meaning of their own.
ghost use Rattle.std.specs.Prelude.{◌≡◌};
ghost use Rattle.grammar_model.specs.Words.{is_literal_word, is_pseudo};

/// Whether a name is nil, true or false.
fn is_literal_word(name: &[u8]) -> bool
    ensures { result ≡ is_literal_word name.now }
{
    name == b"nil".as_slice() || name == b"true".as_slice() || name == b"false".as_slice()
}

/// Whether a name is that of a pseudo-variable: self, super, nil, true, false or thisContext.
pub(crate) fn is_pseudo(name: &[u8]) -> bool
    ensures { result ≡ is_pseudo name.now }
{
    is_literal_word(name)
        || name == b"self".as_slice()
        || name == b"super".as_slice()
        || name == b"thisContext".as_slice()
}
