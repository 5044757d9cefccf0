// Laws of mapped names. Each function does nothing; its contract is the law, for all images whose names are texts.
ghost use Rattle.std.specs.Prelude.{◌≡◌, ℕ};
ghost use Rattle.std.specs.List.{AllByRecursion};
ghost use Rattle.scope_model.specs.Scope.{ScopeOf};
ghost use Rattle.image_model.specs.Image.{ImageOf};
ghost use Rattle.image_model.specs.Means.{of_instance, of_class_side};
ghost use Rattle.run_model.specs.Values.{Name};
ghost use Rattle.run_model.specs.Runs.{run};
ghost use Rattle.run_model.specs.Renamings.{Renaming, class_image, selector_image};
ghost use Rattle.mapped_model.specs.RenamedRuns.{RunsAsRenamed};
ghost use Rattle.resolved_model.specs.Resolving.{MeantAt, resolved_scope};
ghost use Rattle.resolved_model.specs.ResolvedImages.{ResolvedImage, resolved_image};
ghost use Rattle.resolved_model.specs.ResolvedRuns.{resolved_run_to, resolved_run};
ghost use Rattle.mapped_model.specs.NameMaps.{NameMaps, IsOneToOne, IsSameInAllClasses, KeepsWords};
ghost use Rattle.mapped_model.specs.MappedImages.{mapped_code, mapped_image};
ghost use Rattle.mapped_model.specs.MappedRuns.{mapped_run};
ghost use Rattle.mapped_model.specs.ChangedTrees.{NewNames, changed_scope, MeaningsAreMapped};
ghost use Rattle.mapped_model.specs.NamesOfImages.{names_in, CallsAsAbove, HasOrderedClasses};
ghost use Rattle.mapped_model.specs.ChangedImages.{IsChangedImage};
ghost use Rattle.mapped_model.specs.RenamedVariables.{MayBeRenamed, with_instance_renamed, with_class_side_renamed};
ghost use Rattle.mapped_model.specs.NamesInUse.{NamesInUse, IsOneToOneOn, IsOneToOneAcross, HasWords, UsesOnly, AreInherited};

/// The run of an image whose names are mapped is the mapped run of the image: with the depth of a run, and with any other.
/// The maps are one to one on all names, and keep those of which the language itself speaks. Each instance variable and
/// class-instance variable is called the same after in all classes; or each class has the variables of its superclass and
/// calls them the same after, and code has no variables but those of its class.
pub fn law_mapped_runs()
    ensures run { (f : NameMaps) (i : ResolvedImage) (n : ℕ) → IsOneToOne f → KeepsWords f → IsSameInAllClasses f →
        resolved_run (mapped_image f i) n ≡ mapped_run f (resolved_run i n) }
    ensures any_depth { (f : NameMaps) (i : ResolvedImage) (d n : ℕ) → IsOneToOne f → KeepsWords f → IsSameInAllClasses f →
        resolved_run_to (mapped_image f i) d n ≡ mapped_run f (resolved_run_to i d n) }
    ensures images { (f : NameMaps) (i j : ImageOf Name) (n : ℕ) → IsOneToOne f → KeepsWords f → IsSameInAllClasses f →
        resolved_image j ≡ mapped_image f (resolved_image i) → run j n ≡ mapped_run f (run i n) }
    ensures run_by_class { (f : NameMaps) (u : NamesInUse) (i : ResolvedImage) (n : ℕ) → IsOneToOne f → KeepsWords f → UsesOnly u i →
        AreInherited u f i → resolved_run (mapped_image f i) n ≡ mapped_run f (resolved_run i n) }
    ensures any_depth_by_class { (f : NameMaps) (u : NamesInUse) (i : ResolvedImage) (d n : ℕ) → IsOneToOne f → KeepsWords f →
        UsesOnly u i → AreInherited u f i → resolved_run_to (mapped_image f i) d n ≡ mapped_run f (resolved_run_to i d n) }
{}

/// An image is matched, up to a renaming, by each image whose resolved names are its own with the renaming's maps put on
/// them. The maps are one to one on the names in use, which are those of the image and those of which the language itself
/// speaks; the latter stay. Of instance variables and class-instance variables they are one to one in each class, which has
/// the variables of its superclass and calls them the same after, so that classes of different chains may call them
/// differently; or they are one to one throughout, and the same in all classes.
pub fn law_matched_by_maps()
    ensures by_class { (r : Renaming) (f : NameMaps) (u : NamesInUse) (i j : ImageOf Name) →
        ((c : Name) → f.class c ≡ class_image r c) → ((s : Name) → f.selector s ≡ selector_image r s) →
        IsOneToOneOn u f → HasWords u → KeepsWords f → UsesOnly u (resolved_image i) → AreInherited u f (resolved_image i) →
        resolved_image j ≡ mapped_image f (resolved_image i) → RunsAsRenamed i j r }
    ensures same_in_all_classes { (r : Renaming) (f : NameMaps) (u : NamesInUse) (i j : ImageOf Name) →
        ((c : Name) → f.class c ≡ class_image r c) → ((s : Name) → f.selector s ≡ selector_image r s) →
        IsOneToOneOn u f → IsOneToOneAcross u f → HasWords u → KeepsWords f → IsSameInAllClasses f → UsesOnly u (resolved_image i) →
        resolved_image j ≡ mapped_image f (resolved_image i) → RunsAsRenamed i j r }
{}

/// An image has no names but those of its lists, and among these are those of which the language itself speaks. Each class
/// has the variables of its superclass, if the classes of the image have names of their own, none of them empty, and each
/// superclass stands before its subclasses; so it is matched, up to a renaming, by each image whose resolved names are its
/// own with maps put on them that are one to one on these lists, and by which a class calls the variables that its
/// superclass has as that does.
pub fn law_matched_images()
    ensures names { (i : ImageOf Name) → UsesOnly (names_in i) (resolved_image i) }
    ensures words { (i : ImageOf Name) → HasWords (names_in i) }
    ensures inherited { (f : NameMaps) (i : ImageOf Name) → HasOrderedClasses i → AllByRecursion (CallsAsAbove i f) i.classes →
        AreInherited (names_in i) f (resolved_image i) }
    ensures matched { (r : Renaming) (f : NameMaps) (i j : ImageOf Name) →
        ((c : Name) → f.class c ≡ class_image r c) → ((s : Name) → f.selector s ≡ selector_image r s) →
        HasOrderedClasses i → IsOneToOneOn (names_in i) f → KeepsWords f → AllByRecursion (CallsAsAbove i f) i.classes →
        resolved_image j ≡ mapped_image f (resolved_image i) → RunsAsRenamed i j r }
{}

/// A method or do-it in which names are changed at their places is, once its names are resolved, the one before with the
/// maps put on it, if what each node reads or assigns means after what it meant before with the maps put on it.
pub fn law_changed_names()
    ensures { (f : NameMaps) (c : Name) (to : NewNames) (scope : ScopeOf Name) (before after : MeantAt) → MeaningsAreMapped f c to scope before after →
        resolved_scope after (changed_scope to f.selector scope) ≡ mapped_code f c (resolved_scope before scope) }
{}

/// An image in which names are changed at their places, of methods and do-its, and mapped, of classes, is once its names
/// are resolved the one before with the maps put on it, if what each node reads or assigns means after what it meant
/// before with the maps put on it. So it matches the one before, as `law_matched_images` says.
pub fn law_changed_images()
    ensures resolved { (f : NameMaps) (i j : ImageOf Name) → IsChangedImage f i j → resolved_image j ≡ mapped_image f (resolved_image i) }
    ensures matched { (r : Renaming) (f : NameMaps) (i j : ImageOf Name) →
        ((c : Name) → f.class c ≡ class_image r c) → ((s : Name) → f.selector s ≡ selector_image r s) →
        HasOrderedClasses i → IsOneToOneOn (names_in i) f → KeepsWords f → AllByRecursion (CallsAsAbove i f) i.classes →
        IsChangedImage f i j → RunsAsRenamed i j r }
{}

/// An image is matched, with classes and selectors as they are, by each in which an instance variable or a class-instance
/// variable of one class is renamed, in it and in the classes below, and all else is called as before. The superclass of
/// the class has no variable of the old name, and neither the class nor one below has one of the new name.
pub fn law_renamed_variable()
    ensures instance { (r : Renaming) (i j : ImageOf Name) (c old new : Name) →
        ((d : Name) → class_image r d ≡ d) → ((s : Name) → selector_image r s ≡ s) → HasOrderedClasses i →
        MayBeRenamed i of_instance c old new → IsChangedImage (with_instance_renamed i c old new) i j → RunsAsRenamed i j r }
    ensures class_side { (r : Renaming) (i j : ImageOf Name) (c old new : Name) →
        ((d : Name) → class_image r d ≡ d) → ((s : Name) → selector_image r s ≡ s) → HasOrderedClasses i →
        MayBeRenamed i of_class_side c old new → IsChangedImage (with_class_side_renamed i c old new) i j → RunsAsRenamed i j r }
{}
