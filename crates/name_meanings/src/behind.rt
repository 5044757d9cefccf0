// What names stand for behind all scopes.
ghost use Rattle.std.specs.Prelude.{◌≡◌, List, Some, None, codes, nat_eq, option_map, unwrap_or, if◌then◌else◌};
ghost use Rattle.std.specs.List.{list_any};
ghost use Rattle.std.specs.Option.{ForSome, option_and_then, option_or};
ghost use Rattle.rb_base.specs.Names.{text_eq, name_at};
ghost use Rattle.image_model.specs.Image.{ClassOf};
ghost use Rattle.image_model.specs.Words.{number_words};
ghost use Rattle.image_model.specs.Chain.{class_named, chain};
ghost use Rattle.image_model.specs.Means.{variables, a_class, transcript, undeclared, as_variable, means_outside};
ghost use Rattle.class_table.specs.declared.record.ClassRec.{ClassRec};
ghost use Rattle.class_table.specs.View.{class_name, class_of, number_image};
ghost use Rattle.class_table.specs.Valid.{IsLive, IsOrderly};
ghost use Rattle.name_meanings.specs.Meanings.{kind_of, meaning_of};

use crate::meaning::{Meaning, VariableKind, side};
use class_table::{ClassId, ClassRec, Image};
use rb_base::{Ids, NameId, Names};

/// The variables of a kind that a class itself defines.
fn variables(rec: &ClassRec, kind: VariableKind) -> &Ids
    ensures { (classes : List ClassRec) → result.now ≡ variables (kind_of kind) (class_of classes rec.now) }
{
    match kind {
        VariableKind::Instance => &rec.instance,
        VariableKind::ClassSide => &rec.class_side,
        VariableKind::Shared => &rec.shared,
    }
}

/// Whether the name is one of these.
pub fn is_among(names: &[NameId], name: NameId) -> bool
    ensures { result ≡ list_any (nat_eq name) names.now }
{
    names.iter().any(|other| name == *other)
}

/// Whether a class itself defines a variable of a kind.
pub fn defines(rec: &ClassRec, kind: VariableKind, name: NameId) -> bool
    ensures { (classes : List ClassRec) → result ≡ list_any (nat_eq name) (variables (kind_of kind) (class_of classes rec.now)) }
{
    is_among(variables(rec, kind).as_slice(), name)
}

/// The meaning of a name as a variable of a kind that a class of the chain defines, the nearest one, if one does.
fn as_variable(image: &Image, class: ClassId, kind: VariableKind, name: NameId) -> Option<Meaning>
    requires orderly { IsOrderly image.now }
    requires live { IsLive image.now.class_order class }
    ensures { option_map meaning_of result ≡ as_variable nat_eq (kind_of kind) (chain nat_eq (number_image image.now).classes (class_name image.now.classes class)) name }
{
    let mut at = Some(class);
    let mut left = image.classes().len();
    while left > 0 {
        let rec = image.class_rec(at?)?;
        if defines(rec, kind, name) {
            return Some(Meaning::Variable {
                kind,
                definer: rec.name,
            });
        }
        at = rec.superclass;
        left -= 1;
    }
    None
}

fn text_of(names: &Names, name: NameId) -> &[u8]
    ensures { result.now ≡ name_at names.now name }
{
    if name.0 < names.len() {
        names.text_of(name)
    } else {
        &[]
    }
}

fn same_text(a: &[u8], b: &[u8]) -> bool
    ensures { result ≡ text_eq a.now b.now }
{
    a == b
}

fn is_transcript(names: &Names, name: NameId) -> bool
    ensures { result ≡ text_eq (codes "Transcript") (name_at names.now name) }
{
    same_text(b"Transcript", text_of(names, name))
}

/// What a name stands for that is no variable.
fn global(image: &Image, name: NameId) -> Meaning
    ensures { meaning_of result ≡ unwrap_or (option_or (option_map (λ (c : ClassOf _). a_class c.name) (class_named nat_eq (number_image image.now).classes name)) (if text_eq (codes "Transcript") (name_at image.now.names name) then Some transcript else None)) undeclared }
{
    if image.class_named(name).is_some() {
        Meaning::Class(name)
    } else if is_transcript(image.names(), name) {
        Meaning::Transcript
    } else {
        Meaning::Undeclared
    }
}

/// What a name stands for behind all scopes in the methods of a class and a side.
fn in_class(image: &Image, class: ClassId, meta: bool, name: NameId) -> Meaning
    requires orderly { IsOrderly image.now }
    requires live { IsLive image.now.class_order class }
    ensures { meaning_of result ≡ means_outside (number_words image.now.names) (number_image image.now) (class_name image.now.classes class) meta name }
{
    if let Some(meaning) = as_variable(image, class, side(meta), name) {
        return meaning;
    }
    if let Some(meaning) = as_variable(image, class, VariableKind::Shared, name) {
        return meaning;
    }
    global(image, name)
}

/// The same where there may be no class, and then no variables.
pub(crate) fn behind_scopes(
    image: &Image,
    class: Option<ClassId>,
    meta: bool,
    name: NameId,
) -> Meaning
    requires orderly { IsOrderly image.now }
    requires live { ForSome class (IsLive image.now.class_order) }
    ensures { meaning_of result ≡ means_outside (number_words image.now.names) (number_image image.now) (option_and_then (class_name image.now.classes) class) meta name }
{
    match class {
        Some(class) => in_class(image, class, meta, name),
        None => global(image, name),
    }
}
