// Whether the name of a question stands for what is asked for.
ghost use Rattle.std.specs.Prelude.{◌≡◌, nat_eq};
ghost use Rattle.image_model.specs.Uses.{same_kind, is_variable, is_that_class};
ghost use Rattle.st_tree.specs.View.{method_of, sequence_of};
ghost use Rattle.class_table.specs.Valid.{IsLive, IsOrderly};
ghost use Rattle.name_meanings.specs.Meanings.{kind_of, meaning_of};
ghost use Rattle.image_queries.specs.Asked.{query_of, is_meant, meaning_in_tree, meaning_in_body};

use crate::query::Query;
use class_table::{Image, MethodInfo};
use name_meanings::{Meaning, VariableKind, doit_meaning, method_meaning};
use rb_base::NameId;
use st_tree::{Method, Path, Sequence};

/// Whether two kinds are one.
fn same_kind(kind: VariableKind, other: VariableKind) -> bool
    ensures { result ≡ same_kind (kind_of kind) (kind_of other) }
{
    match kind {
        VariableKind::Instance => matches!(other, VariableKind::Instance),
        VariableKind::ClassSide => matches!(other, VariableKind::ClassSide),
        VariableKind::Shared => matches!(other, VariableKind::Shared),
    }
}

/// Whether a name stands for the variable of a kind that the class of a name defines.
fn is_variable(meaning: Meaning, kind: VariableKind, class: NameId) -> bool
    ensures { result ≡ is_variable nat_eq (kind_of kind) class (meaning_of meaning) }
{
    match meaning {
        Meaning::Variable {
            kind: found,
            definer,
        } => same_kind(kind, found) && class == definer,
        _ => false,
    }
}

/// Whether a name stands for the class of a name.
fn is_class(meaning: Meaning, name: NameId) -> bool
    ensures { result ≡ is_that_class nat_eq name (meaning_of meaning) }
{
    match meaning {
        Meaning::Class(found) => name == found,
        _ => false,
    }
}

/// Whether the name of the question stands for what is asked for at a place of a method of a live class.
pub(crate) fn is_meant_in_method(
    image: &Image,
    query: &Query,
    info: &MethodInfo<'_>,
    tree: &Method,
    path: &Path,
) -> bool
    requires orderly { IsOrderly image.now }
    requires live { IsLive image.now.class_order info.now.class }
    ensures { result ≡ is_meant (query_of query.now) (meaning_in_tree image.now info.now.class info.now.meta (method_of tree.now) path.now) }
{
    match query {
        Query::Senders(_) => true,
        Query::Implementors(_) => false,
        Query::Class(name) => {
            let meaning = method_meaning(image, info.class, info.meta, tree, path, *name);
            is_class(meaning, *name)
        }
        Query::Variable { kind, class, name } => {
            let meaning = method_meaning(image, info.class, info.meta, tree, path, *name);
            is_variable(meaning, *kind, *class)
        }
    }
}

/// The same at a place of a do-it.
pub(crate) fn is_meant_in_doit(image: &Image, query: &Query, body: &Sequence, path: &Path) -> bool
    requires { IsOrderly image.now }
    ensures { result ≡ is_meant (query_of query.now) (meaning_in_body image.now (sequence_of body.now) path.now) }
{
    match query {
        Query::Senders(_) => true,
        Query::Implementors(_) => false,
        Query::Class(name) => is_class(doit_meaning(image, body, path, *name), *name),
        Query::Variable { kind, class, name } => {
            is_variable(doit_meaning(image, body, path, *name), *kind, *class)
        }
    }
}
