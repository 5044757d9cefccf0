// Which classes a variable leaves, and to which it comes.
ghost use Rattle.std.specs.Prelude.{◌≡◌};
ghost use Rattle.variable_plans.specs.Routes as routes;

use class_table::{ClassRec, Image};
use commands::VariableMove;
use name_meanings::VariableKind;
use rb_base::NameId;

/// Classes of an image.
#[derive(Drop)]
pub enum Classes {
    /// No class.
    Nowhere,
    /// The class of the name.
    Named(NameId),
    /// The direct subclasses of the class of the name.
    Below(NameId),
}

/// The way of a variable of a kind.
#[derive(Drop)]
pub struct Route {
    pub kind: VariableKind,
    pub variable: NameId,
    /// The classes that it leaves.
    pub leaves: Classes,
    /// The classes whose last variable of the kind it becomes.
    pub enters: Classes,
}

/// The name of the superclass of a class, if that one is live.
fn name_above(image: &Image, rec: &ClassRec) -> Option<NameId>
    ensures { result ≡ routes.name_above image.now rec.now }
{
    Some(image.class_rec(rec.superclass?)?.name)
}

/// The name of the superclass of the class of a name.
fn superclass_name(image: &Image, class: NameId) -> Option<NameId>
    ensures { result ≡ routes.superclass_name image.now class }
{
    name_above(image, image.class_rec(image.class_named(class)?)?)
}

/// The way of the variable; none where it is to go up and the class has no superclass.
pub fn route_of(image: &Image, change: &VariableMove) -> Option<Route>
    ensures { result ≡ routes.route_of image.now change.now }
{
    let (kind, variable, leaves, enters) = match *change {
        VariableMove::Add {
            kind,
            class,
            variable,
        } => (kind, variable, Classes::Nowhere, Classes::Named(class)),
        VariableMove::Remove {
            kind,
            class,
            variable,
        } => (kind, variable, Classes::Named(class), Classes::Nowhere),
        VariableMove::InstanceUp { class, variable } => {
            let above = superclass_name(image, class)?;
            (
                VariableKind::Instance,
                variable,
                Classes::Below(above),
                Classes::Named(above),
            )
        }
        VariableMove::InstanceDown { class, variable } => (
            VariableKind::Instance,
            variable,
            Classes::Named(class),
            Classes::Below(class),
        ),
        VariableMove::SharedUp { class, variable } => (
            VariableKind::Shared,
            variable,
            Classes::Named(class),
            Classes::Named(superclass_name(image, class)?),
        ),
        VariableMove::SharedDown {
            class,
            variable,
            to,
        } => (
            VariableKind::Shared,
            variable,
            Classes::Named(class),
            Classes::Named(to),
        ),
    };
    Some(Route {
        kind,
        variable,
        leaves,
        enters,
    })
}

/// Whether a class is one of these.
pub fn is_among(image: &Image, rec: &ClassRec, classes: &Classes) -> bool
    ensures { result ≡ routes.is_among classes.now rec.now.name (routes.name_above image.now rec.now) }
{
    match *classes {
        Classes::Nowhere => false,
        Classes::Named(name) => name == rec.name,
        Classes::Below(name) => {
            name != rec.name && matches!(name_above(image, rec), Some(above) if name == above)
        }
    }
}
