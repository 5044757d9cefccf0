// What patterns ask of names.
ghost use Rattle.std.specs.Prelude.{◌≡◌, nat_eq, ◌+◌, ◌<◌, ◌^◌, IfOk, IfSome, option_map, position};
ghost use Rattle.text_model.specs.Pieces.{is_colon};
ghost use Rattle.std.specs.Cmp.Lexicographic.{pointwise};
ghost use Rattle.rb_base.specs.Names.{text_eq, name_at};
ghost use Rattle.scope_model.specs.NameTests.{is_pseudo_in};
ghost use Rattle.text_model.specs.Literals.{is_identifier};
ghost use Rattle.same_trees.specs.SameTrees.{same_literal};
ghost use Rattle.pattern_model.specs.Words.{text_keywords};
ghost use Rattle.pattern_model.specs.Matches.{may_stand};

use pattern_model::MetaKind;
use rb_base::{Memory, NameId, Names, Text};
use spelled_words::is_identifier;
use st_scope::is_pseudo;
use st_tree::{Literal, Node, NodeKind};
use std::alloc::Global;

/// The text of a number, and the empty text where the table has no such number.
pub(crate) fn text_of(names: &Names, name: NameId) -> &[u8]
    ensures { result.now ≡ name_at names.now name }
{
    if name.0 < names.len() {
        names.text_of(name)
    } else {
        &[]
    }
}

/// Whether both texts are the same.
pub(crate) fn same_text(a: &[u8], b: &[u8]) -> bool
    ensures { result ≡ text_eq a.now b.now }
{
    a == b
}

/// Whether both names are the same.
pub(crate) fn same_name(a: NameId, b: NameId) -> bool
    ensures { result ≡ nat_eq a b }
{
    a.0 == b.0
}

/// Whether both have the same names in the same order.
pub(crate) fn same_names(a: &[NameId], b: &[NameId]) -> bool
    ensures { result ≡ pointwise nat_eq a.now b.now }
{
    a == b
}

/// Whether both are the same literal.
pub(crate) fn same_literal(a: &Literal, b: &Literal) -> bool
    ensures { result ≡ same_literal nat_eq a.now b.now }
{
    a.same(b)
}

/// Whether the selector is unary.
pub(crate) fn is_unary(names: &Names, selector: NameId) -> bool
    ensures { result ≡ is_identifier (name_at names.now selector) }
{
    is_identifier(text_of(names, selector))
}

/// Whether the node may stand for a metavariable of a kind.
pub(crate) fn may_stand(kind: MetaKind, node: &Node, names: &Names) -> bool
    ensures { result ≡ may_stand (is_pseudo_in names.now) kind node.now }
{
    match (kind, &node.kind) {
        (MetaKind::Name, NodeKind::Var { name }) => !is_pseudo(names, *name),
        (MetaKind::Constant, NodeKind::Literal { .. }) => true,
        (MetaKind::Expression, NodeKind::Return { .. }) => false,
        (MetaKind::Expression | MetaKind::Statement, _) => true,
        _ => false,
    }
}

/// Where the first colon stands.
fn colon_in(text: &[u8]) -> Option<usize>
    ensures at { result ≡ position is_colon text.now }
    ensures fits { IfSome result (λ at. at + 1 < 2 ^ 64) }
{
    text.iter().position(|byte| *byte == b':')
}

/// The keywords of a text, each with its colon; None where it is none of keywords.
pub(crate) fn keywords_in(alloc: Global, text: &[u8]) -> Result<Option<Vec<Text>>, Memory>
    ensures { IfOk result (λ found. option_map (λ ks. ks.items) found ≡ text_keywords text.now) }
{
    let mut keywords = Vec::new(alloc);
    let mut rest = text;
    while let Some(at) = colon_in(rest) {
        let (keyword, others) = rest.split_at(at + 1);
        if !is_identifier(&rest[..at]) {
            return Ok(None);
        }
        keywords.push(Text::from_slice(alloc, keyword)?)?;
        rest = others;
    }
    if rest.is_empty() && !keywords.is_empty() {
        Ok(Some(keywords))
    } else {
        Ok(None)
    }
}
