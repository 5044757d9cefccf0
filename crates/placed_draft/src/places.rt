// The places that are stated and not settled yet.
ghost use Rattle.std.specs.Prelude.{◌≡◌, ◌∷◌, [], filter, not, reverse, nat_eq, None, OnOk, IsTrue};
ghost use Rattle.file_model.specs.Places.{no_places, with_class_place, with_method_place, opened_at, places_behind, places_after, is_place_of};
ghost use Rattle.image_draft.specs.Drafted.{change_of};

use draft_orders::{ClassPlace, MethodPlace};
use image_draft::Change;
use rb_base::{Memory, NameId};
use std::alloc::Global;
use std::marker::Model;

/// The places that are stated for classes and for methods, in the order in which they were stated, and the place of the next
/// method of the run, where its beginning states one. Contracts see the last one first.
#[derive(Drop)]
pub struct Places {
    classes: Vec<ClassPlace>,
    methods: Vec<MethodPlace>,
    next: Option<usize>,
}

impl Model for Places {
    ghost use Rattle.std.specs.Prelude.{ℕ, reverse};
    ghost use Rattle.file_model.specs.Places.{PlacesOf};

    ghost Value = { PlacesOf ℕ };

    ghost view = { λ a. record {
      classes = reverse a.classes.items;
      methods = reverse a.methods.items;
      next = a.next;
    } };
}

/// Takes away the places of the class of a name.
fn forget_class(places: &mut Vec<ClassPlace>, name: NameId)
    ensures { places.new.items ≡ filter (λ p. not (nat_eq name p.class)) places.old.items }
{
    places.retain(|place| name != place.class);
}

/// Takes away the places of the methods of a class.
fn forget_methods(places: &mut Vec<MethodPlace>, class: NameId)
    ensures { places.new.items ≡ filter (λ p. not (nat_eq class p.class)) places.old.items }
{
    places.retain(|place| class != place.class);
}

/// Whether a place is that of the method of a class, a side and a selector.
fn is_place_of(place: &MethodPlace, class: NameId, meta: bool, selector: NameId) -> bool
    ensures { result ≡ is_place_of nat_eq class meta selector place.now }
{
    class == place.class && meta == place.meta && selector == place.selector
}

/// Takes away the places of the method of a class, a side and a selector.
fn forget_method(places: &mut Vec<MethodPlace>, class: NameId, meta: bool, selector: NameId)
    ensures { places.new.items ≡ filter (λ p. not (is_place_of nat_eq class meta selector p)) places.old.items }
{
    places.retain(|place| !is_place_of(place, class, meta, selector));
}

impl Places {
    /// No places, which takes no memory.
    pub fn new(alloc: Global) -> Places
        ensures { result ≡ no_places }
    {
        Places {
            classes: Vec::new(alloc),
            methods: Vec::new(alloc),
            next: None,
        }
    }

    /// The places of classes, in the order in which they were stated.
    pub fn of_classes(&self) -> &[ClassPlace]
        ensures { reverse result.now ≡ self.now.classes }
    {
        &self.classes
    }

    /// The places of methods, in the order in which they were stated.
    pub fn of_methods(&self) -> &[MethodPlace]
        ensures { reverse result.now ≡ self.now.methods }
    {
        &self.methods
    }

    /// Whether no place is stated for a class.
    pub fn has_no_class(&self) -> bool
        ensures { IsTrue result → self.now.classes ≡ [] }
    {
        self.classes.is_empty()
    }

    /// Whether no place is stated for a method.
    pub fn has_no_method(&self) -> bool
        ensures { IsTrue result → self.now.methods ≡ [] }
    {
        self.methods.is_empty()
    }

    /// Forgets all places.
    pub fn clear(&mut self)
        ensures { self.new ≡ no_places }
    {
        self.classes.clear();
        self.methods.clear();
        self.next = None;
    }

    /// A run of methods begins, whose first method has a place or none.
    pub fn open(&mut self, place: Option<usize>)
        ensures { self.new ≡ opened_at place self.old }
    {
        self.next = place;
    }

    /// Puts a place for the class of a name in.
    pub fn state_class(&mut self, class: NameId, place: usize) -> Result<(), Memory>
        ensures { OnOk result (self.new ≡ with_class_place class place self.old) }
    {
        self.classes.push(ClassPlace { class, place })?;
        Ok(())
    }

    /// Puts a place for a method in.
    fn state_method(
        &mut self,
        class: NameId,
        meta: bool,
        selector: NameId,
        place: usize,
    ) -> Result<(), Memory>
        ensures { OnOk result (self.new ≡ with_method_place class meta selector place self.old) }
    {
        self.methods.push(MethodPlace {
            class,
            meta,
            selector,
            place,
        })?;
        Ok(())
    }

    /// A method of the run has the next place, where its run states places. Where there is no place behind it, it answers
    /// want of memory.
    pub fn count_method(
        &mut self,
        class: NameId,
        meta: bool,
        selector: NameId,
    ) -> Result<(), Memory>
        ensures { OnOk result (self.new ≡ places_behind class meta selector self.old) }
    {
        let Some(place) = self.next else {
            return Ok(());
        };
        let Some(next) = place.checked_add(1) else {
            return Err(Memory);
        };
        self.state_method(class, meta, selector, place)?;
        self.next = Some(next);
        Ok(())
    }

    /// Forgets the places of the method of a class, a side and a selector.
    fn forget_method(&mut self, class: NameId, meta: bool, selector: NameId)
        ensures { self.new ≡ record self.old { methods = filter (λ p. not (is_place_of nat_eq class meta selector p)) self.old.methods } }
    {
        forget_method(&mut self.methods, class, meta, selector);
    }

    /// Forgets the places of the class of a name and of its methods.
    fn forget_class(&mut self, name: NameId)
        ensures { self.new ≡ record self.old { classes = filter (λ p. not (nat_eq name p.class)) self.old.classes; methods = filter (λ p. not (nat_eq name p.class)) self.old.methods } }
    {
        forget_class(&mut self.classes, name);
        forget_methods(&mut self.methods, name);
    }

    /// Forgets the places of what a change removes.
    pub fn forget(&mut self, change: &Change)
        ensures { self.new ≡ places_after nat_eq (change_of change.now) self.old }
    {
        match change {
            Change::RemoveMethod {
                class,
                meta,
                selector,
            } => self.forget_method(*class, *meta, *selector),
            Change::RemoveClass(class) => self.forget_class(*class),
            _ => {}
        }
    }
}
