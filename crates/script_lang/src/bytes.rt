// Texts and blanks.
ghost use Rattle.std.specs.Prelude.{◌≡◌};
ghost use Rattle.rb_base.specs.Names.{text_eq};
ghost use Rattle.token_model.specs.Bytes as class;

/// Whether both texts are the same.
pub fn same_text(a: &[u8], b: &[u8]) -> bool
    ensures { result ≡ text_eq a.now b.now }
{
    a == b
}

/// Whether the byte is a blank: a tab, a line feed, a form feed, a carriage return or a space.
pub(crate) fn is_blank(byte: u8) -> bool
    ensures { result ≡ class.is_blank byte }
{
    byte.is_ascii_whitespace()
}
