// Which classes have which variables, and which names are those of superclasses.
ghost use Rattle.std.specs.Prelude.{◌≡◌, [], true, false, nat_eq, IfOk, OnOk};
ghost use Rattle.std.specs.List.{AllByRecursion, list_any};
ghost use Rattle.std.specs.Option.{option_map_or};
ghost use Rattle.image_model.specs.Means.{of_instance, of_class_side};
ghost use Rattle.file_model.specs.Hierarchy as hierarchy;
ghost use Rattle.image_draft.specs.NameSets.{has};
ghost use Rattle.image_draft.specs.Owners.{is_noted_for, AreNoted, AreOwned, IsUnderNoted, KeepsNames, KeepsNotes, NoneShared};

use crate::boxed_class::BoxedClass;
use crate::class_draft::{ClassDraft, Definition};
use crate::hierarchy::{has_repeat, meets};
use crate::kept::KeptChains;
use crate::name_set::NameSet;
use crate::place_table::PlaceTable;
use rb_base::{Memory, NameId};
use std::alloc::Global;

/// Which class has a variable of a kind, or had it, by the name of the variable.
#[derive(Drop)]
pub struct VariableOwners {
    // The number of the class for which a variable was noted first.
    first: PlaceTable,
    // The variables that were noted for another class, too.
    shared: NameSet,
}

impl VariableOwners {
    /// No variables, which takes no memory.
    fn new(alloc: Global) -> VariableOwners
        ensures first { result.first ≡ [] }
        ensures shared { result.shared ≡ [] }
    {
        VariableOwners {
            first: PlaceTable::new(alloc),
            shared: NameSet::new(alloc),
        }
    }

    /// Whether no variable is noted for more than one class.
    fn none_shared(&self) -> bool
        ensures { result ≡ true → NoneShared self.now }
    {
        self.shared.is_empty()
    }

    /// Notes a variable for a class.
    fn note(&mut self, class: NameId, variable: NameId) -> Result<(), Memory>
        ensures noted { OnOk result (is_noted_for self.new class variable ≡ true) }
        ensures kept { OnOk result (KeepsNotes self.old self.new) }
    {
        let Some(first) = self.first.get(variable) else {
            return self.first.note(variable, class.0);
        };
        if first != class.0 {
            self.shared.note(variable)?;
        }
        Ok(())
    }

    /// Notes variables for a class.
    fn note_all(&mut self, class: NameId, variables: &[NameId]) -> Result<(), Memory>
        ensures noted { OnOk result (AllByRecursion (λ m. is_noted_for self.new class m ≡ true) variables.now) }
        ensures kept { OnOk result (KeepsNotes self.old self.new) }
    {
        for variable in variables {
            self.note(class, *variable)?;
        }
        Ok(())
    }
}

/// What is known of the variables of a definition once they are noted.
#[derive(Clone, Copy)]
pub struct Noted {
    /// Whether no other class has one of its instance variables, and it has none twice.
    pub alone: bool,
    /// Of which kinds no two classes have a variable of one name, nor the class of the definition two.
    pub apart: KeptChains,
}

/// Which classes have which variables, for the two kinds of which no two of one name may stand on a chain.
#[derive(Drop)]
pub struct Owners {
    instance: VariableOwners,
    class_side: VariableOwners,
    // The names that are or were those of superclasses.
    superclasses: NameSet,
}

impl Owners {
    /// No variables, which takes no memory.
    pub fn new(alloc: Global) -> Owners
        ensures instance { NoneShared result.instance }
        ensures class_side { NoneShared result.class_side }
    {
        Owners {
            instance: VariableOwners::new(alloc),
            class_side: VariableOwners::new(alloc),
            superclasses: NameSet::new(alloc),
        }
    }

    /// Whether a class of this name is or was a superclass.
    pub fn is_superclass(&self, name: NameId) -> bool
        ensures { result ≡ has self.now.superclasses name }
    {
        self.superclasses.has(name)
    }

    /// Notes the instance variables and the superclass of a definition, and tells what is known of the variables.
    pub fn note_definition(
        &mut self,
        alloc: Global,
        definition: &Definition,
    ) -> Result<Noted, Memory>
        ensures noted { OnOk result (AllByRecursion (λ m. is_noted_for self.new.instance definition.now.name m ≡ true) definition.now.instance) }
        ensures instance_kept { OnOk result (KeepsNotes self.old.instance self.new.instance) }
        ensures class_side_kept { OnOk result (KeepsNotes self.old.class_side self.new.class_side) }
        ensures superclass { OnOk result (option_map_or (has self.new.superclasses) definition.now.superclass true ≡ true) }
        ensures superclasses_kept { OnOk result (KeepsNames self.old.superclasses self.new.superclasses) }
        ensures alone { IfOk result (λ noted. noted.alone ≡ true → (list_any (has self.new.instance.shared) definition.now.instance ≡ false) × (hierarchy.has_repeat nat_eq definition.now.instance ≡ false)) }
        ensures instance { IfOk result (λ noted. noted.apart.instance ≡ true → (NoneShared self.new.instance) × (hierarchy.has_repeat nat_eq definition.now.instance ≡ false)) }
        ensures class_side { IfOk result (λ noted. noted.apart.class_side ≡ true → NoneShared self.new.class_side) }
    {
        let names = definition.instance.as_slice();
        self.instance.note_all(definition.name, names)?;
        note_superclass(&mut self.superclasses, definition.superclass)?;
        let repeats = has_repeat(alloc, names)?;
        Ok(Noted {
            alone: !meets(names, &self.instance.shared) && !repeats,
            apart: KeptChains {
                instance: self.instance.none_shared() && !repeats,
                class_side: self.class_side.none_shared(),
            },
        })
    }

    /// Notes class-instance variables of a class, and tells whether no two classes have one of one name, nor this class two.
    pub fn note_side(
        &mut self,
        alloc: Global,
        class: NameId,
        names: &[NameId],
    ) -> Result<bool, Memory>
        ensures noted { OnOk result (AllByRecursion (λ m. is_noted_for self.new.class_side class m ≡ true) names.now) }
        ensures instance_kept { OnOk result (KeepsNotes self.old.instance self.new.instance) }
        ensures class_side_kept { OnOk result (KeepsNotes self.old.class_side self.new.class_side) }
        ensures superclasses_kept { OnOk result (KeepsNames self.old.superclasses self.new.superclasses) }
        ensures apart { IfOk result (λ apart. apart ≡ true → (NoneShared self.new.class_side) × (hierarchy.has_repeat nat_eq names.now ≡ false)) }
    {
        self.class_side.note_all(class, names)?;
        let repeats = has_repeat(alloc, names)?;
        Ok(self.class_side.none_shared() && !repeats)
    }

    /// Notes the variables and the superclass of a class.
    fn note_class(&mut self, class: &ClassDraft) -> Result<(), Memory>
        ensures instance { OnOk result (AllByRecursion (λ m. is_noted_for self.new.instance class.now.name m ≡ true) class.now.instance) }
        ensures class_side { OnOk result (AllByRecursion (λ m. is_noted_for self.new.class_side class.now.name m ≡ true) class.now.class_side) }
        ensures instance_kept { OnOk result (KeepsNotes self.old.instance self.new.instance) }
        ensures class_side_kept { OnOk result (KeepsNotes self.old.class_side self.new.class_side) }
        ensures superclass { OnOk result (IsUnderNoted self.new.superclasses class.now) }
        ensures superclasses_kept { OnOk result (KeepsNames self.old.superclasses self.new.superclasses) }
    {
        self.instance
            .note_all(class.name, class.instance.as_slice())?;
        self.class_side
            .note_all(class.name, class.class_side.as_slice())?;
        note_superclass(&mut self.superclasses, class.superclass)
    }
}

/// Notes the name of a superclass, if there is one.
fn note_superclass(names: &mut NameSet, superclass: Option<NameId>) -> Result<(), Memory>
    ensures noted { OnOk result (option_map_or (has names.new) superclass true ≡ true) }
    ensures kept { OnOk result (KeepsNames names.old names.new) }
{
    let Some(name) = superclass else {
        return Ok(());
    };
    names.note(name)?;
    Ok(())
}

/// Which variables and which superclasses these classes have.
pub fn owners_of(alloc: Global, classes: &[BoxedClass]) -> Result<Owners, Memory>
    ensures { IfOk result (λ owners. AreOwned owners classes.now) }
{
    let mut owners = Owners::new(alloc);
    for class in classes {
        owners.note_class(class.class())?;
    }
    Ok(owners)
}
