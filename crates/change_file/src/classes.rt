// The classes of the user in an image, and those of them that another image has not as they are.
ghost use Rattle.std.specs.Prelude.{◌≡◌, ◌<◌, ◌&&◌, ℕ, List, length, map, option_copied, IfOk};
ghost use Rattle.std.specs.List.{AllByRecursion};
ghost use Rattle.std.specs.Option.{option_eq};
ghost use Rattle.rb_base.specs.Names.{text_eq, name_at};
ghost use Rattle.class_table.specs.View.{image_of};
ghost use Rattle.class_table.specs.Valid.{IsOrderly};
ghost use Rattle.file_model.specs.Hierarchy.{has_class};
ghost use Rattle.file_model.specs.Written.{user_classes};
ghost use Rattle.image_file.specs.Writable.{IsWritableClass, text_class};
ghost use Rattle.change_model.specs.Equal.{names_eq, is_namesake, is_equal_class};
ghost use Rattle.change_laws.specs.Merged.{AreApart};
ghost use Rattle.change_file.specs.Partners.{is_listed, is_partner_equal};
ghost use Rattle.change_file.specs.Shown.{IsToldApart, class_texts, class_keys, AreWritable, AreClasses, AreOtherClasses};

use crate::keys::{partner_at, partners};
use crate::pieces::same_text;
use class_table::{ClassRec, Image};
use rb_base::{Memory, NameId, Names};
use std::alloc::Global;

/// The classes of the user in an image, in order, and their names.
#[derive(Drop)]
pub(crate) struct Classes<'a> {
    pub image: &'a Image,
    pub recs: Vec<&'a ClassRec>,
    pub names: Names,
}

/// A class, and its place among those of the user, from 1.
#[derive(Clone, Copy)]
pub(crate) struct PlacedClass<'a> {
    pub place: usize,
    pub rec: &'a ClassRec,
}

/// The classes of the user in an image.
fn user_recs(alloc: Global, image: &Image) -> Result<Vec<&ClassRec>, Memory>
    requires { IsOrderly image.now }
    ensures classes { IfOk result (λ recs. class_texts image.now recs.items ≡ user_classes (image_of image.now)) }
    ensures writable { IfOk result (λ recs. AreWritable image.now recs.items) }
{
    let mut recs = Vec::new(alloc);
    for id in image.classes() {
        if let Some(rec) = image.class_rec(*id) {
            if !rec.kernel {
                recs.push(rec)?;
            }
        }
    }
    Ok(recs)
}

/// The names of classes, no two of which have one name.
fn names_of(alloc: Global, image: &Image, recs: &[&ClassRec]) -> Result<Names, Memory>
    requires writable { AreWritable image.now recs.now }
    requires apart { AreApart is_namesake (class_texts image.now recs.now) }
    ensures { IfOk result (λ names. names ≡ class_keys (class_texts image.now recs.now)) }
{
    let mut names = Names::new(alloc);
    for rec in recs {
        let _number = names.intern(image.names().text_of(rec.name))?;
    }
    Ok(names)
}

/// The names of all classes of an image.
pub(crate) fn all_names(alloc: Global, image: &Image) -> Result<Names, Memory>
    requires { IsOrderly image.now }
    ensures { IfOk result (λ names. (name : List ℕ) → is_listed names name ≡ has_class text_eq (image_of image.now).classes name) }
{
    let mut names = Names::new(alloc);
    for id in image.classes() {
        if let Some(rec) = image.class_rec(*id) {
            let _number = names.intern(image.names().text_of(rec.name))?;
        }
    }
    Ok(names)
}

/// The classes of the user in an image, and their names.
pub(crate) fn classes_of(alloc: Global, image: &Image) -> Result<Classes<'_>, Memory>
    requires orderly { IsOrderly image.now }
    requires apart { IsToldApart (image_of image.now) }
    ensures classes { IfOk result AreClasses }
    ensures image { IfOk result (λ classes. classes.image.now ≡ image.now) }
{
    let recs = user_recs(alloc, image)?;
    let names = names_of(alloc, image, recs.as_slice())?;
    Ok(Classes { image, recs, names })
}

/// Whether names of two tables have the same texts in the same order.
fn same_names(names: &Names, ids: &[NameId], other_names: &Names, others: &[NameId]) -> bool
    requires known { AllByRecursion (λ n. n < length names.now) ids.now }
    requires others_known { AllByRecursion (λ n. n < length other_names.now) others.now }
    ensures { result ≡ names_eq (map (name_at names.now) ids.now) (map (name_at other_names.now) others.now) }
{
    if ids.len() != others.len() {
        return false;
    }
    for (place, id) in ids.iter().enumerate() {
        let other = others[place];
        if !same_text(names.text_of(*id), other_names.text_of(other)) {
            return false;
        }
    }
    true
}

/// The name of the superclass of a class, if it has one.
fn superclass_name<'a>(image: &'a Image, rec: &ClassRec) -> Option<&'a [u8]>
    requires { IsWritableClass image.now rec.now }
    ensures { option_copied result ≡ (text_class image.now rec.now).superclass }
{
    let above = image.class_rec(rec.superclass?)?;
    Some(image.names().text_of(above.name))
}

/// Whether two classes have superclasses of one name, or none.
fn same_superclass(image: &Image, rec: &ClassRec, other_image: &Image, other: &ClassRec) -> bool
    requires writable { IsWritableClass image.now rec.now }
    requires other_writable { IsWritableClass other_image.now other.now }
    ensures { result ≡ option_eq text_eq (text_class image.now rec.now).superclass (text_class other_image.now other.now).superclass }
{
    match (
        superclass_name(image, rec),
        superclass_name(other_image, other),
    ) {
        (None, None) => true,
        (Some(name), Some(other)) => same_text(name, other),
        _ => false,
    }
}

/// Whether two classes define the same variables.
fn same_variables(image: &Image, rec: &ClassRec, other_image: &Image, other: &ClassRec) -> bool
    requires writable { IsWritableClass image.now rec.now }
    requires other_writable { IsWritableClass other_image.now other.now }
    ensures { result ≡ (names_eq (text_class image.now rec.now).instance (text_class other_image.now other.now).instance
        && names_eq (text_class image.now rec.now).shared (text_class other_image.now other.now).shared
        && names_eq (text_class image.now rec.now).class_side (text_class other_image.now other.now).class_side) }
{
    let names = image.names();
    let others = other_image.names();
    same_names(
        names,
        rec.instance.as_slice(),
        others,
        other.instance.as_slice(),
    ) && same_names(
        names,
        rec.shared.as_slice(),
        others,
        other.shared.as_slice(),
    ) && same_names(
        names,
        rec.class_side.as_slice(),
        others,
        other.class_side.as_slice(),
    )
}

/// Whether two classes are equal.
fn same_class(image: &Image, rec: &ClassRec, other_image: &Image, other: &ClassRec) -> bool
    requires writable { IsWritableClass image.now rec.now }
    requires other_writable { IsWritableClass other_image.now other.now }
    ensures { result ≡ is_equal_class (text_class image.now rec.now) (text_class other_image.now other.now) }
{
    same_text(
        image.names().text_of(rec.name),
        other_image.names().text_of(other.name),
    ) && same_superclass(image, rec, other_image, other)
        && same_variables(image, rec, other_image, other)
        && same_text(rec.category.as_slice(), other.category.as_slice())
        && same_text(rec.comment.as_slice(), other.comment.as_slice())
        && rec.kernel == other.kernel
}

/// Whether a class is the same in the other image, at a place that its partner gives.
fn is_partner_same(
    mine: &Classes<'_>,
    rec: &ClassRec,
    theirs: &Classes<'_>,
    partner: Option<usize>,
) -> bool
    requires writable { IsWritableClass mine.now.image.now rec.now }
    requires theirs { AreWritable theirs.now.image.now theirs.now.recs.items }
    ensures { result ≡ is_partner_equal is_equal_class (class_texts theirs.now.image.now theirs.now.recs.items) (text_class mine.now.image.now rec.now) partner }
{
    match partner {
        None => false,
        Some(place) => match theirs.recs.get(place) {
            None => false,
            Some(other) => same_class(mine.image, rec, theirs.image, other),
        },
    }
}

/// The classes that the other image has not as they are, at their places among those that both have.
pub(crate) fn differing_classes<'a>(
    alloc: Global,
    mine: &Classes<'a>,
    theirs: &Classes<'_>,
) -> Result<Vec<PlacedClass<'a>>, Memory>
    requires mine { AreClasses mine.now }
    requires theirs { AreClasses theirs.now }
    requires apart { IsToldApart (image_of mine.now.image.now) }
    requires theirs_apart { IsToldApart (image_of theirs.now.image.now) }
    ensures { IfOk result (λ found. AreOtherClasses mine.now.image.now theirs.now.image.now found.items) }
{
    let partners = partners(alloc, &mine.names, &theirs.names)?;
    let mut found = Vec::new(alloc);
    for (number, rec) in mine.recs.iter().enumerate() {
        if !is_partner_same(mine, rec, theirs, partner_at(partners.as_slice(), number)) {
            found.push(PlacedClass {
                place: number + 1,
                rec,
            })?;
        }
    }
    Ok(found)
}
