// Laws of images in which something is put in, taken out or replaced, and of where a search begins. Each function does nothing; its contract is the law.
ghost use Rattle.std.specs.Prelude.{◌≡◌, ◌∷◌, [], ◌++◌, ℕ, Bool, true, false, List, map, Contains, Option, Some, None};
ghost use Rattle.image_model.specs.Image.{ClassOf, EntryOf, DoItOf, ImageOf, plus};
ghost use Rattle.image_model.specs.Words.{WordsOf};
ghost use Rattle.std.specs.List.{list_any};
ghost use Rattle.image_model.specs.Chain.{class_named, chain};
ghost use Rattle.image_model.specs.Lookup.{as_object, lookup, super_lookup};
ghost use Rattle.image_model.specs.Means.{VariableKind, of_class, variables, variable, a_class, definer, side_kind, means_along, means};
ghost use Rattle.image_model.specs.Valid.{ReadingOf, class_names, SuperclassesStandBefore, signature, HasClass, IsUserMethod, IsUserDoIt, IsValid};
ghost use Rattle.image_model.specs.Replaced.{with_methods};
ghost use Rattle.image_model.specs.Grown.{with_class, with_method, IsNewClass, IsNewMethod, hierarchy};

/// What the laws of valid images take as given: good names, which tree a text spells, and the image of the kernel.
pub trait Reading<N> {
    ghost reading: { ReadingOf N };
}

/// A valid image stays valid with a new class at its end. The chains and look-ups of the other classes stay, and in their
/// methods each other name stands for what it stood for; `Class` is not the new class, since every class is one of it.
pub fn law_class_added<N, R: Reading<N>>()
    ensures valid { (w : WordsOf N) (i : ImageOf N) (c : ClassOf N) →
        ((n : N) → w.tests.same n n ≡ true) → IsValid w R.reading i → IsNewClass w R.reading i c → IsValid w R.reading (with_class i c) }
    ensures chain { (same : N → N → Bool) (classes : List (ClassOf N)) (c : ClassOf N) (n : N) →
        ((m : N) → same m m ≡ true) → SuperclassesStandBefore classes → Contains (class_names classes) n →
        chain same (classes ++ c ∷ []) (Some n) ≡ chain same classes (Some n) }
    ensures lookup { (w : WordsOf N) (i : ImageOf N) (c : ClassOf N) (n : N) (meta : Bool) (s : N) →
        ((m : N) → w.tests.same m m ≡ true) → SuperclassesStandBefore i.classes → Contains (class_names i.classes) n → w.is_class c.name ≡ false →
        lookup w (with_class i c) (Some n) meta s ≡ lookup w i (Some n) meta s }
    ensures means { (w : WordsOf N) (i : ImageOf N) (c : ClassOf N) (m : EntryOf N) (path : List ℕ) (n : N) →
        ((m : N) → w.tests.same m m ≡ true) → SuperclassesStandBefore i.classes → HasClass i.classes m → w.tests.same n c.name ≡ false →
        means w (with_class i c) m path n ≡ means w i m path n }
{}

/// A valid image stays valid with a new method at its end, and no name changes what it stands for.
pub fn law_method_added<N, R: Reading<N>>()
    ensures valid { (w : WordsOf N) (i : ImageOf N) (m : EntryOf N) →
        IsValid w R.reading i → IsNewMethod R.reading i m → IsValid w R.reading (with_method i m) }
    ensures means { (w : WordsOf N) (i : ImageOf N) (m other : EntryOf N) (path : List ℕ) (n : N) →
        means w (with_method i m) other path n ≡ means w i other path n }
{}

/// A valid image stays valid without one of its methods, and with another method of the same class, side and selector in
/// its place. A method is moved where it is taken out and another one is added.
pub fn law_method_changed<N, R: Reading<N>>()
    ensures taken_out { (w : WordsOf N) (i : ImageOf N) (front : List (EntryOf N)) (m : EntryOf N) (back : List (EntryOf N)) →
        IsValid w R.reading (with_methods i (front ++ m ∷ back)) → m.kernel ≡ false → IsValid w R.reading (with_methods i (front ++ back)) }
    ensures replaced { (w : WordsOf N) (i : ImageOf N) (front : List (EntryOf N)) (m n : EntryOf N) (back : List (EntryOf N)) →
        IsValid w R.reading (with_methods i (front ++ m ∷ back)) → m.kernel ≡ false → signature n ≡ signature m → IsUserMethod R.reading n → n.kernel ≡ false →
        IsValid w R.reading (with_methods i (front ++ n ∷ back)) }
{}

/// A valid image stays valid with one more do-it, and no message runs another method and no name changes what it stands
/// for.
pub fn law_doit_added<N, R: Reading<N>>()
    ensures valid { (w : WordsOf N) (i : ImageOf N) (d : DoItOf N) →
        IsValid w R.reading i → IsUserDoIt R.reading d → IsValid w R.reading (plus i d) }
    ensures lookup { (w : WordsOf N) (i : ImageOf N) (d : DoItOf N) (c : Option N) (meta : Bool) (s : N) →
        lookup w (plus i d) c meta s ≡ lookup w i c meta s }
    ensures means { (w : WordsOf N) (i : ImageOf N) (d : DoItOf N) (m : EntryOf N) (path : List ℕ) (n : N) →
        means w (plus i d) m path n ≡ means w i m path n }
{}

/// A message to `super` is looked up from the superclass. Above `Object` nothing is found for the instance side, and for
/// the class side what a class understands as an object.
pub fn law_super<N>()
    ensures above { (w : WordsOf N) (i : ImageOf N) (n : N) (c : ClassOf N) (meta : Bool) (s : N) →
        class_named w.tests.same i.classes n ≡ Some c → super_lookup w i (Some n) meta s ≡ lookup w i c.superclass meta s }
    ensures root { (w : WordsOf N) (i : ImageOf N) (n : N) (c : ClassOf N) (s : N) →
        class_named w.tests.same i.classes n ≡ Some c → c.superclass ≡ None → super_lookup w i (Some n) false s ≡ None }
    ensures root_class { (w : WordsOf N) (i : ImageOf N) (n : N) (c : ClassOf N) (s : N) →
        class_named w.tests.same i.classes n ≡ Some c → c.superclass ≡ None → super_lookup w i (Some n) true s ≡ as_object w i s }
{}

/// Behind the scopes of a method a name stands for a variable of its side before a class variable, and for a class
/// variable before a class, each of the nearest class that defines it.
pub fn law_nearest<N>()
    ensures side { (w : WordsOf N) (classes above : List (ClassOf N)) (meta : Bool) (n : N) (c : ClassOf N) →
        definer w.tests.same (side_kind meta) above n ≡ Some c → means_along w classes above meta n ≡ variable (side_kind meta) c.name }
    ensures shared { (w : WordsOf N) (classes above : List (ClassOf N)) (meta : Bool) (n : N) (c : ClassOf N) →
        definer w.tests.same (side_kind meta) above n ≡ None → definer w.tests.same of_class above n ≡ Some c →
        means_along w classes above meta n ≡ variable of_class c.name }
    ensures class { (w : WordsOf N) (classes above : List (ClassOf N)) (meta : Bool) (n : N) (c : ClassOf N) →
        definer w.tests.same (side_kind meta) above n ≡ None → definer w.tests.same of_class above n ≡ None → class_named w.tests.same classes n ≡ Some c →
        means_along w classes above meta n ≡ a_class c.name }
    ensures hides { (same : N → N → Bool) (kind : VariableKind) (c : ClassOf N) (above : List (ClassOf N)) (n : N) →
        list_any (same n) (variables kind c) ≡ true → definer same kind (c ∷ above) n ≡ Some c }
{}

/// The chains of two lists of classes are of the same names where the lists have the same names and superclasses.
pub fn law_hierarchy<N>()
    ensures { (same : N → N → Bool) (before after : List (ClassOf N)) (o : Option N) →
        map hierarchy before ≡ map hierarchy after → map hierarchy (chain same before o) ≡ map hierarchy (chain same after o) }
{}
