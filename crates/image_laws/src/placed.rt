// Laws of valid images in which a class or a method is put in at a place or taken out of it. Each function does nothing;
// its contract is the law.
ghost use Rattle.std.specs.Prelude.{◌≡◌, ℕ, Bool, false, List, slice_get, Option, Some, Contains};
ghost use Rattle.image_model.specs.Image.{ClassOf, EntryOf, ImageOf};
ghost use Rattle.image_model.specs.Words.{WordsOf, text_words, number_words};
ghost use Rattle.image_model.specs.Chain.{chain};
ghost use Rattle.image_model.specs.Lookup.{lookup};
ghost use Rattle.image_model.specs.Means.{means};
ghost use Rattle.image_model.specs.Valid.{class_names, HasClass, IsValid};
ghost use Rattle.image_model.specs.Grown.{IsNewClass, IsNewMethod};
ghost use Rattle.image_laws.specs.Placed.{without_class, with_class_at, without_method, with_method_at, TellsApart, IsUnused, FollowsSuperclass};

use image_model::Reading;

/// Texts are told apart by the words of texts, and numbers by the words of numbers.
pub fn law_told_apart()
    ensures texts { TellsApart text_words.tests.same }
    ensures numbers { (names : List (List ℕ)) → TellsApart (number_words names).tests.same }
{}

/// A valid image stays valid without a class that is none of the kernel, where no class is below it and no method is one
/// of it. In the other classes chains and look-ups stay, and each other name stands for what it stood for; for look-ups the
/// class is not `Class`, since every class is one of it.
pub fn law_class_unused<N, R: Reading<N>>()
    ensures valid { (w : WordsOf N) (i : ImageOf N) (p : ℕ) (c : ClassOf N) → TellsApart w.tests.same → IsValid w R.reading i →
        slice_get i.classes p ≡ Some c → c.kernel ≡ false → IsUnused i c.name → IsValid w R.reading (without_class i p) }
    ensures chain { (w : WordsOf N) (i : ImageOf N) (p : ℕ) (c : ClassOf N) (n : N) → TellsApart w.tests.same → IsValid w R.reading i →
        slice_get i.classes p ≡ Some c → IsUnused i c.name → (n ≡ c.name → ⊥) →
        chain w.tests.same (without_class i p).classes (Some n) ≡ chain w.tests.same i.classes (Some n) }
    ensures lookup { (w : WordsOf N) (i : ImageOf N) (p : ℕ) (c : ClassOf N) (n : N) (meta : Bool) (s : N) → TellsApart w.tests.same → IsValid w R.reading i →
        slice_get i.classes p ≡ Some c → IsUnused i c.name → w.is_class c.name ≡ false → (n ≡ c.name → ⊥) →
        lookup w (without_class i p) (Some n) meta s ≡ lookup w i (Some n) meta s }
    ensures means { (w : WordsOf N) (i : ImageOf N) (p : ℕ) (c : ClassOf N) (m : EntryOf N) (path : List ℕ) (n : N) → TellsApart w.tests.same → IsValid w R.reading i →
        slice_get i.classes p ≡ Some c → IsUnused i c.name → HasClass (without_class i p).classes m → (n ≡ c.name → ⊥) →
        means w (without_class i p) m path n ≡ means w i m path n }
{}

/// A valid image stays valid with a new class at a place behind its superclass. In the other classes chains and look-ups
/// stay, and each other name stands for what it stood for; for look-ups the class is not `Class`.
pub fn law_class_placed<N, R: Reading<N>>()
    ensures valid { (w : WordsOf N) (i : ImageOf N) (p : ℕ) (c : ClassOf N) → TellsApart w.tests.same → IsValid w R.reading i →
        IsNewClass w R.reading i c → FollowsSuperclass i p c → IsValid w R.reading (with_class_at i p c) }
    ensures chain { (w : WordsOf N) (i : ImageOf N) (p : ℕ) (c : ClassOf N) (n : N) → TellsApart w.tests.same → IsValid w R.reading i →
        (Contains (class_names i.classes) c.name → ⊥) → (n ≡ c.name → ⊥) →
        chain w.tests.same (with_class_at i p c).classes (Some n) ≡ chain w.tests.same i.classes (Some n) }
    ensures lookup { (w : WordsOf N) (i : ImageOf N) (p : ℕ) (c : ClassOf N) (n : N) (meta : Bool) (s : N) → TellsApart w.tests.same → IsValid w R.reading i →
        (Contains (class_names i.classes) c.name → ⊥) → w.is_class c.name ≡ false → (n ≡ c.name → ⊥) →
        lookup w (with_class_at i p c) (Some n) meta s ≡ lookup w i (Some n) meta s }
    ensures means { (w : WordsOf N) (i : ImageOf N) (p : ℕ) (c : ClassOf N) (m : EntryOf N) (path : List ℕ) (n : N) → TellsApart w.tests.same → IsValid w R.reading i →
        (Contains (class_names i.classes) c.name → ⊥) → HasClass i.classes m → (n ≡ c.name → ⊥) →
        means w (with_class_at i p c) m path n ≡ means w i m path n }
{}

/// A valid image stays valid without a method that is none of the kernel, and with a new method at any place; and a method
/// put in changes no look-up of another selector.
pub fn law_method_placed<N, R: Reading<N>>()
    ensures taken_out { (w : WordsOf N) (i : ImageOf N) (p : ℕ) (m : EntryOf N) → IsValid w R.reading i →
        slice_get i.methods p ≡ Some m → m.kernel ≡ false → IsValid w R.reading (without_method i p) }
    ensures put_in { (w : WordsOf N) (i : ImageOf N) (p : ℕ) (m : EntryOf N) → IsValid w R.reading i →
        IsNewMethod R.reading i m → IsValid w R.reading (with_method_at i p m) }
    ensures lookup { (w : WordsOf N) (i : ImageOf N) (p : ℕ) (m : EntryOf N) (c : Option N) (meta : Bool) (s : N) → w.tests.same s m.tree.selector ≡ false →
        lookup w (with_method_at i p m) c meta s ≡ lookup w i c meta s }
{}
