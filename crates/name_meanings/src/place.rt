// What names stand for at a place.
ghost use Rattle.std.specs.Prelude.{◌≡◌, [], false, find, codes, option_map, if◌then◌else◌};
ghost use Rattle.std.specs.Option.{ForSome, option_and_then};
ghost use Rattle.rb_base.specs.Names.{text_eq, name_at, number_in};
ghost use Rattle.scope_model.specs.NameTests.{is_pseudo_in};
ghost use Rattle.st_tree.specs.View.{method_of, sequence_of};
ghost use Rattle.image_model.specs.Image.{ClassOf};
ghost use Rattle.image_model.specs.Words.{number_words};
ghost use Rattle.image_model.specs.Means.{pseudo, means_by, means_outside, means, means_in_doit};
ghost use Rattle.class_table.specs.View.{class_name, number_image};
ghost use Rattle.class_table.specs.Valid.{IsLive, IsOrderly};
ghost use Rattle.class_table.specs.Finding.{named_in};
ghost use Rattle.name_meanings.specs.Meanings.{meaning_of};

use crate::behind::behind_scopes;
use crate::meaning::Meaning;
use class_table::{ClassId, Image};
use rb_base::NameId;
use st_scope::{Local, is_pseudo, local_at, local_at_doit};
use st_tree::{Method, Path, Sequence};

/// What a name stands for at a place of which it is known what the scopes round it say of the name.
fn meaning_at(
    image: &Image,
    class: Option<ClassId>,
    meta: bool,
    local: Local,
    name: NameId,
) -> Meaning
    requires orderly { IsOrderly image.now }
    requires live { ForSome class (IsLive image.now.class_order) }
    ensures { let outside = means_outside (number_words image.now.names) (number_image image.now) (option_and_then (class_name image.now.classes) class) meta name in
        meaning_of result ≡ (if is_pseudo_in image.now.names name then pseudo else means_by local outside) }
{
    if is_pseudo(image.names(), name) {
        return Meaning::Pseudo;
    }
    match local {
        Local::Argument { scope } => Meaning::Argument { scope },
        Local::Temporary { scope } => Meaning::Temporary { scope },
        Local::NotLocal => behind_scopes(image, class, meta, name),
    }
}

/// What a name stands for in a method of a class and a side, at the place to which a path leads. The method need not be
/// one of the image.
pub fn method_meaning(
    image: &Image,
    class: ClassId,
    meta: bool,
    tree: &Method,
    path: &Path,
    name: NameId,
) -> Meaning
    requires orderly { IsOrderly image.now }
    requires live { IsLive image.now.class_order class }
    ensures { meaning_of result ≡ means (number_words image.now.names) (number_image image.now) (record { class = class_name image.now.classes class; meta = meta; protocol = []; source = []; tree = method_of tree.now; kernel = false }) path.now name }
{
    let local = local_at(tree, path, name, image.names());
    meaning_at(image, Some(class), meta, local, name)
}

/// The class whose name is a text.
fn class_of_text(image: &Image, text: &[u8]) -> Option<ClassId>
    ensures { result ≡ option_and_then (named_in image.now.classes image.now.class_order) (number_in image.now.names text.now) }
{
    image.class_named(image.names().find(text)?)
}

/// The class of which do-its are read as methods: `UndefinedObject`, if there is one.
fn doit_class(image: &Image) -> Option<ClassId>
    requires { IsOrderly image.now }
    ensures live { ForSome result (IsLive image.now.class_order) }
    ensures class { option_and_then (class_name image.now.classes) result ≡ option_map (λ (c : ClassOf _). c.name) (find (λ (c : ClassOf _). text_eq (codes "UndefinedObject") (name_at image.now.names c.name)) (number_image image.now).classes) }
{
    class_of_text(image, b"UndefinedObject")
}

/// What a name stands for in a do-it, at the place to which a path leads. A do-it is read like a method of the instance
/// side of `UndefinedObject`; where there is no such class it sees no variables of classes.
pub fn doit_meaning(image: &Image, body: &Sequence, path: &Path, name: NameId) -> Meaning
    requires { IsOrderly image.now }
    ensures { meaning_of result ≡ means_in_doit (number_words image.now.names) (number_image image.now) (record { source = []; body = sequence_of body.now }) path.now name }
{
    let local = local_at_doit(body, path, name, image.names());
    meaning_at(image, doit_class(image), false, local, name)
}
