// Laws of file-outs. Each function does nothing; its contract is the law.
ghost use Rattle.std.specs.Prelude.{◌≡◌, ◌↔◌, map, filter, [], ◌∷◌, ◌++◌, List, Bool, true, false, Some, IsTrue, Ok, Err};
ghost use Rattle.std.specs.List.{AllByRecursion};
ghost use Rattle.token_model.specs.declared.kind.Dialect.{Dialect};
ghost use Rattle.token_model.specs.declared.kind.Dialect.TheVariants.{First, Second};
ghost use Rattle.rb_base.specs.Names.{text_eq};
ghost use Rattle.image_model.specs.Image.{ImageOf, ClassOf, EntryOf};
ghost use Rattle.image_model.specs.Valid.{IsFileable, IsUserMethod, IsUserDoIt, IsValid, SuperclassesStandBefore};
ghost use Rattle.image_model.specs.Words.{text_words};
ghost use Rattle.std.specs.List.Sorted.{IsPermutation};
ghost use Rattle.image_model.specs.Valid.{HasNoRepeat, class_names, signature, GivesNames};
ghost use Rattle.tree_model.specs.Tree.{MethodOf};
ghost use Rattle.file_model.specs.Causes.{Cause};
ghost use Rattle.file_model.specs.Changes.{DefinitionOf, ChangeOf, RunOf};
ghost use Rattle.file_model.specs.Hierarchy.{has_class, settled};
ghost use Rattle.file_model.specs.Refusals.{makes_cycle};
ghost use Rattle.file_model.specs.Applied.{with_definition, defined, changed, method_added};
ghost use Rattle.file_model.specs.Filing.{Text};
ghost use Rattle.file_model.specs.Places.{PlacesOf, no_places, placed};
ghost use Rattle.file_model.specs.Fileable.{reading_of};
ghost use Rattle.file_model.specs.Words.{may_name};
ghost use Rattle.file_model.specs.Reading.{IsKernelOf, IsImageOf};
ghost use Rattle.file_laws.specs.Fronts.{HasKernelInFront, IsAllOfKernel};
ghost use Rattle.file_laws.specs.Settling.{staying, moving, WaitsFor};
ghost use Rattle.file_laws.specs.Orders.{AreSameClasses, unplaced, with_classes, IsChangedAlike};

/// The image of a file-out can be written as one and read again: each source of a user may stand as a chunk, each do-it is
/// read as one, and no more do-its stand at the head than there are. Each source of a user's method spells its tree, which
/// has its comments in normal form, a height of at most 200 and no primitive, and each do-it's source spells its tree,
/// of a height of at most 200.
pub fn gives_fileable_images()
    ensures fileable { (dialect : Dialect) (prelude text : Text) (kernel image : ImageOf Text) → IsImageOf dialect prelude text image → IsFileable (reading_of dialect kernel) image }
    ensures methods { (dialect : Dialect) (prelude text : Text) (kernel image : ImageOf Text) → IsImageOf dialect prelude text image → AllByRecursion (λ (m : EntryOf Text). m.kernel ≡ false → IsUserMethod (reading_of dialect kernel) m) image.methods }
    ensures doits { (dialect : Dialect) (prelude text : Text) (kernel image : ImageOf Text) → IsImageOf dialect prelude text image → AllByRecursion (IsUserDoIt (reading_of dialect kernel)) image.doits }
{}

/// Where the first dialect has an image for a text, the second has the same image.
pub fn reads_the_same_with_braces()
    ensures { (prelude text : Text) (image : ImageOf Text) → IsImageOf First prelude text image → IsImageOf Second prelude text image }
{}

/// Classes of which each stands behind its superclass are in order. Where one class waits for another that stands behind
/// it, it goes behind that one with those that move with it, and all others stay: so putting classes in order takes time
/// in the number of classes between the two.
pub fn settles_by_moving()
    ensures in_order { (classes : List (ClassOf Text)) → SuperclassesStandBefore classes → settled text_eq classes ≡ classes }
    ensures moved { (moves : ClassOf Text → Bool) (front : List (ClassOf Text)) (class : ClassOf Text) (middle : List (ClassOf Text)) (above : ClassOf Text) (back : List (ClassOf Text)) →
        WaitsFor text_eq moves front class middle above back →
        settled text_eq (front ++ (class ∷ (middle ++ (above ∷ back)))) ≡ front ++ (staying moves middle ++ (above ∷ class ∷ (moving moves middle ++ back))) }
{}

/// Where a class is defined again under another that is not below it, each superclass stands before its subclasses, and
/// the classes are those with the new definition: none is lost and none stands twice.
pub fn keeps_superclasses_first()
    ensures first { (classes : List (ClassOf Text)) (definition : DefinitionOf Text) (above : Text) (kernel : Bool) →
        SuperclassesStandBefore classes → HasNoRepeat (class_names classes) → has_class text_eq classes definition.name ≡ true →
        definition.superclass ≡ Some above → has_class text_eq classes above ≡ true → makes_cycle text_eq classes definition ≡ false →
        SuperclassesStandBefore (defined text_eq kernel definition classes) }
    ensures same { (classes : List (ClassOf Text)) (definition : DefinitionOf Text) (above : Text) (kernel : Bool) →
        SuperclassesStandBefore classes → HasNoRepeat (class_names classes) → has_class text_eq classes definition.name ≡ true →
        definition.superclass ≡ Some above → has_class text_eq classes above ≡ true → makes_cycle text_eq classes definition ≡ false →
        IsPermutation (with_definition text_eq kernel definition classes) (defined text_eq kernel definition classes) }
{}

/// Where it is so of the kernel, no two classes of a file-out's image have one name, each superclass stands before its
/// subclasses, and classes and variables have names that may be given: identifiers that are no pseudo-variables and neither
/// `Smalltalk` nor `Transcript`.
pub fn gives_named_classes()
    ensures distinct { (dialect : Dialect) (prelude text : Text) (kernel image : ImageOf Text) → IsKernelOf dialect prelude kernel →
        HasNoRepeat (class_names kernel.classes) → SuperclassesStandBefore kernel.classes → AllByRecursion (GivesNames (λ n. IsTrue (may_name n))) kernel.classes →
        IsImageOf dialect prelude text image → HasNoRepeat (class_names image.classes) }
    ensures before { (dialect : Dialect) (prelude text : Text) (kernel image : ImageOf Text) → IsKernelOf dialect prelude kernel →
        HasNoRepeat (class_names kernel.classes) → SuperclassesStandBefore kernel.classes → AllByRecursion (GivesNames (λ n. IsTrue (may_name n))) kernel.classes →
        IsImageOf dialect prelude text image → SuperclassesStandBefore image.classes }
    ensures given { (dialect : Dialect) (prelude text : Text) (kernel image : ImageOf Text) → IsKernelOf dialect prelude kernel →
        HasNoRepeat (class_names kernel.classes) → SuperclassesStandBefore kernel.classes → AllByRecursion (GivesNames (λ n. IsTrue (may_name n))) kernel.classes →
        IsImageOf dialect prelude text image → AllByRecursion (GivesNames (λ n. IsTrue (may_name n))) image.classes }
{}

/// Where it is so of the kernel, no two methods of a file-out's image have one class, one side and one selector.
pub fn gives_methods_once()
    ensures { (dialect : Dialect) (prelude text : Text) (kernel image : ImageOf Text) → IsKernelOf dialect prelude kernel →
        HasNoRepeat (map signature kernel.methods) → IsImageOf dialect prelude text image → HasNoRepeat (map signature image.methods) }
{}

/// The image of a file-out is valid, where that of the kernel is and no class of the kernel has class-instance variables: a
/// file-out may say of a class of the kernel that it has none.
pub fn gives_valid_images()
    ensures { (dialect : Dialect) (prelude text : Text) (kernel image : ImageOf Text) → IsKernelOf dialect prelude kernel →
        IsValid text_words (reading_of dialect kernel) kernel → AllByRecursion (λ (c : ClassOf Text). c.class_side ≡ []) kernel.classes →
        IsImageOf dialect prelude text image → IsValid text_words (reading_of dialect kernel) image }
{}

/// In the first dialect no class has class-instance variables, of the kernel or of the image of a file-out.
pub fn gives_plain_classes()
    ensures kernel { (prelude : Text) (kernel : ImageOf Text) → IsKernelOf First prelude kernel → AllByRecursion (λ (c : ClassOf Text). c.class_side ≡ []) kernel.classes }
    ensures image { (prelude text : Text) (image : ImageOf Text) → IsImageOf First prelude text image → AllByRecursion (λ (c : ClassOf Text). c.class_side ≡ []) image.classes }
{}

/// Changes do not depend on the order of the classes: of the same classes in another order a change is refused for the same
/// cause, or gives the same image in another order, whether or not it states a place. Where each superclass stands before
/// its subclasses, it does so again.
pub fn changes_in_any_order()
    ensures refused { (kernel : Bool) (change : ChangeOf Text) (image : ImageOf Text) (others : List (ClassOf Text)) (cause : Cause) → AreSameClasses image.classes others →
        (changed text_eq kernel change image ≡ Err cause) ↔ (changed text_eq kernel (unplaced change) (with_classes others image) ≡ Err cause) }
    ensures given { (kernel : Bool) (change : ChangeOf Text) (image changed_image : ImageOf Text) (others : List (ClassOf Text)) → AreSameClasses image.classes others → SuperclassesStandBefore others →
        changed text_eq kernel change image ≡ Ok changed_image → IsChangedAlike text_eq kernel change image others changed_image }
{}

/// Classes of which some order has each superclass before its subclasses are put in such an order from any order of them:
/// none is lost and none stands twice.
pub fn settles_any_order()
    ensures first { (classes order : List (ClassOf Text)) → IsPermutation classes order → SuperclassesStandBefore order → SuperclassesStandBefore (settled text_eq classes) }
    ensures same { (classes order : List (ClassOf Text)) → IsPermutation classes order → SuperclassesStandBefore order → IsPermutation classes (settled text_eq classes) }
{}

/// Where classes and methods are put in again at the places that are stated for them, each superclass stands before its
/// subclasses, none is lost and none stands twice, and those of the kernel keep their order. Where no place is stated, an
/// image stays in which those of the kernel stand in front.
pub fn puts_in_again()
    ensures first { (places : PlacesOf Text) (image : ImageOf Text) (order : List (ClassOf Text)) → IsPermutation image.classes order → SuperclassesStandBefore order →
        SuperclassesStandBefore (placed text_eq places image).classes }
    ensures classes { (places : PlacesOf Text) (image : ImageOf Text) (order : List (ClassOf Text)) → IsPermutation image.classes order → SuperclassesStandBefore order →
        IsPermutation image.classes (placed text_eq places image).classes }
    ensures methods { (places : PlacesOf Text) (image : ImageOf Text) → IsPermutation image.methods (placed text_eq places image).methods }
    ensures methods_once { (places : PlacesOf Text) (image : ImageOf Text) → HasNoRepeat (map signature image.methods) → HasNoRepeat (map signature (placed text_eq places image).methods) }
    ensures names_once { (places : PlacesOf Text) (image : ImageOf Text) (order : List (ClassOf Text)) → IsPermutation image.classes order → SuperclassesStandBefore order →
        HasNoRepeat (class_names image.classes) → HasNoRepeat (class_names (placed text_eq places image).classes) }
    ensures kernel_classes { (places : PlacesOf Text) (image : ImageOf Text) → SuperclassesStandBefore (filter (λ (c : ClassOf Text). c.kernel) image.classes) →
        filter (λ (c : ClassOf Text). c.kernel) (placed text_eq places image).classes ≡ filter (λ (c : ClassOf Text). c.kernel) image.classes }
    ensures kernel_methods { (places : PlacesOf Text) (image : ImageOf Text) → filter (λ (m : EntryOf Text). m.kernel) (placed text_eq places image).methods ≡ filter (λ (m : EntryOf Text). m.kernel) image.methods }
    ensures stays { (image : ImageOf Text) → SuperclassesStandBefore image.classes → HasKernelInFront image → placed text_eq no_places image ≡ image }
{}

/// What is of the kernel stands in front in an image whose classes and methods were put in again, and after each change and each
/// method of a user it stands there. While all is of the kernel, all stays so in each change and each method of the kernel's own.
pub fn keeps_kernel_in_front()
    ensures placed { (places : PlacesOf Text) (image : ImageOf Text) → SuperclassesStandBefore (filter (λ (c : ClassOf Text). c.kernel) image.classes) → HasKernelInFront (placed text_eq places image) }
    ensures changed { (change : ChangeOf Text) (image new : ImageOf Text) → SuperclassesStandBefore image.classes → HasKernelInFront image →
        changed text_eq false change image ≡ Ok new → HasKernelInFront new }
    ensures method { (run : RunOf Text) (source : Text) (tree : MethodOf Text) (image new : ImageOf Text) → HasKernelInFront image →
        method_added text_eq false run source tree image ≡ Ok new → HasKernelInFront new }
    ensures kernel { (image : ImageOf Text) → IsAllOfKernel image → HasKernelInFront image }
    ensures kernel_changed { (change : ChangeOf Text) (image new : ImageOf Text) → IsAllOfKernel image →
        changed text_eq true change image ≡ Ok new → IsAllOfKernel new }
    ensures kernel_method { (run : RunOf Text) (source : Text) (tree : MethodOf Text) (image new : ImageOf Text) → IsAllOfKernel image →
        method_added text_eq true run source tree image ≡ Ok new → IsAllOfKernel new }
{}
