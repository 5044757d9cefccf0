// What is asked of the classes of a list.
ghost use Rattle.std.specs.Prelude.{◌≡◌, false, nat_eq};
ghost use Rattle.std.specs.Option.{option_map_or};
ghost use Rattle.file_model.specs.Hierarchy.{has_class, is_kernel_class, has_subclass};
ghost use Rattle.image_draft.specs.Names.{AreOrdered};

use crate::boxed_class::BoxedClass;
use crate::class_list::ClassList;
use crate::hierarchy::from_class;
use rb_base::NameId;

/// Whether there is a class of a name.
pub fn has_class(classes: &ClassList, name: NameId) -> bool
    ensures { result ≡ has_class nat_eq classes.now name }
{
    classes.find(name).is_some()
}

/// Whether the class of a name is one of the kernel.
pub fn is_kernel_class(classes: &ClassList, name: NameId) -> bool
    ensures { result ≡ is_kernel_class nat_eq classes.now name }
{
    match classes.find(name) {
        None => false,
        Some(class) => class.kernel,
    }
}

/// Whether one of these classes has the superclass of a name.
fn is_any_below(classes: &[BoxedClass], name: NameId) -> bool
    ensures { result ≡ has_subclass nat_eq classes.now name }
{
    classes.iter().any(|class| is_below(class, name))
}

/// Whether a class is the superclass of another, which then stands behind it.
pub fn has_subclass(classes: &ClassList, name: NameId) -> bool
    requires { AreOrdered classes.now }
    ensures { result ≡ has_subclass nat_eq classes.now name }
{
    is_any_below(from_class(classes, name), name)
}

/// Whether a class has the superclass of a name.
fn is_below(class: &BoxedClass, name: NameId) -> bool
    ensures { result ≡ option_map_or (nat_eq name) class.now.superclass false }
{
    match class.superclass() {
        None => false,
        Some(above) => name == above,
    }
}
