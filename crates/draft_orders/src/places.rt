// The places that are stated for classes and methods.
use rb_base::NameId;
use std::marker::Model;

/// A place that is stated for the class of a name.
#[derive(Clone, Copy, Drop)]
pub struct ClassPlace {
    pub class: NameId,
    /// The place, counted from 1 among the classes of the user.
    pub place: usize,
}

impl Model for ClassPlace {
    ghost use Rattle.std.specs.Prelude.{ℕ};
    ghost use Rattle.file_model.specs.Places.{ClassPlaceOf};

    ghost Value = { ClassPlaceOf ℕ };

    ghost view = { λ a. record { class = a.class; place = a.place } };

    ghost inverse = { λ p. record { class = p.class; place = p.place } };
}

/// A place that is stated for the method of a class, a side and a selector.
#[derive(Clone, Copy, Drop)]
pub struct MethodPlace {
    pub class: NameId,
    /// Whether it is a method of the class side.
    pub meta: bool,
    pub selector: NameId,
    /// The place, counted from 1 among the methods of the user.
    pub place: usize,
}

impl Model for MethodPlace {
    ghost use Rattle.std.specs.Prelude.{ℕ};
    ghost use Rattle.file_model.specs.Places.{MethodPlaceOf};

    ghost Value = { MethodPlaceOf ℕ };

    ghost view = { λ a. record { class = a.class; meta = a.meta; selector = a.selector; place = a.place } };

    ghost inverse = { λ p. record { class = p.class; meta = p.meta; selector = p.selector; place = p.place } };
}
