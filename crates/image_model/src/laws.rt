// Laws of images. Each function does nothing; its contract is the law, for all images over all names.
ghost use Rattle.std.specs.Prelude.{◌≡◌, ◌<◌, ◌∷◌, ◌++◌, ℕ, Bool, true, false, List, length, map, slice_get, Option, Some, option_map, IsTrue};
ghost use Rattle.std.specs.List.{AllByRecursion};
ghost use Rattle.rb_base.specs.Names.{HasNoTwice, name_at};
ghost use Rattle.image_model.specs.Image.{ClassOf, EntryOf, DoItOf, ImageOf, map_entry, map_doit, map_image};
ghost use Rattle.image_model.specs.ImageNames.{OptionNames, EntryNames, DoItNames, ImageNames};
ghost use Rattle.image_model.specs.Words.{WordsOf, KeepsWords, number_words, text_words};
ghost use Rattle.image_model.specs.Upwards.{upwards, nth_above};
ghost use Rattle.image_model.specs.Chain.{superclass_of, chain_from, chain};
ghost use Rattle.image_model.specs.Lookup.{lookup, super_lookup};
ghost use Rattle.image_model.specs.Means.{map_meaning, means, means_in_doit};
ghost use Rattle.image_model.specs.Valid.{HasNoRepeat, SuperclassesStandBefore, OnlyObjectIsRoot, signature, HasClass};
ghost use Rattle.image_model.specs.Replaced.{replaced_by, KeepsHierarchy, KeepsVariables, KeepsSignature, with_methods};

/// An image is the same where no name of it is changed, where its names are changed twice or at once, and where they are
/// changed by two functions that agree on all names in it.
pub fn law_names_changed<K, M, N>()
    ensures nothing { (i : ImageOf M) → map_image (λ n. n) i ≡ i }
    ensures twice { (f : K → M) (g : M → N) (i : ImageOf K) → map_image g (map_image f i) ≡ map_image (λ n. g (f n)) i }
    ensures agreeing { (f g : M → N) (i : ImageOf M) → ImageNames (λ n. f n ≡ g n) i → map_image f i ≡ map_image g i }
{}

/// A message runs the same method where names are changed one to one, and those of which the language itself speaks to
/// themselves. So a look-up may be made over the numbers of names or over their texts.
pub fn law_lookup_named<M, N>()
    ensures message { (f : M → N) (p : M → Bool) (w : WordsOf M) (v : WordsOf N) (i : ImageOf M) (c : Option M) (meta : Bool) (s : M) →
        KeepsWords (λ k. IsTrue (p k)) f w v → ImageNames (λ k. IsTrue (p k)) i → OptionNames (λ k. IsTrue (p k)) c → IsTrue (p s) →
        lookup v (map_image f i) (option_map f c) meta (f s) ≡ option_map (map_entry f) (lookup w i c meta s) }
    ensures to_super { (f : M → N) (p : M → Bool) (w : WordsOf M) (v : WordsOf N) (i : ImageOf M) (c : Option M) (meta : Bool) (s : M) →
        KeepsWords (λ k. IsTrue (p k)) f w v → ImageNames (λ k. IsTrue (p k)) i → OptionNames (λ k. IsTrue (p k)) c → IsTrue (p s) →
        super_lookup v (map_image f i) (option_map f c) meta (f s) ≡ option_map (map_entry f) (super_lookup w i c meta s) }
{}

/// A name stands for the same where names are changed so.
pub fn law_meaning_named<M, N>()
    ensures method { (f : M → N) (p : M → Bool) (w : WordsOf M) (v : WordsOf N) (i : ImageOf M) (m : EntryOf M) (path : List ℕ) (n : M) →
        KeepsWords (λ k. IsTrue (p k)) f w v → ImageNames (λ k. IsTrue (p k)) i → EntryNames (λ k. IsTrue (p k)) m → IsTrue (p n) →
        means v (map_image f i) (map_entry f m) path (f n) ≡ map_meaning f (means w i m path n) }
    ensures doit { (f : M → N) (p : M → Bool) (w : WordsOf M) (v : WordsOf N) (i : ImageOf M) (d : DoItOf M) (path : List ℕ) (n : M) →
        KeepsWords (λ k. IsTrue (p k)) f w v → ImageNames (λ k. IsTrue (p k)) i → DoItNames (λ k. IsTrue (p k)) d → IsTrue (p n) →
        means_in_doit v (map_image f i) (map_doit f d) path (f n) ≡ map_meaning f (means_in_doit w i d path n) }
{}

/// The number of a name in a table answers what its text answers.
pub fn law_number_words()
    ensures { (names : List (List ℕ)) → HasNoTwice names →
        KeepsWords (λ n. n < length names) (name_at names) (number_words names) text_words }
{}

/// The list of a thing and what is above it gives by number what is so many steps above.
pub fn law_nth_above<X>()
    ensures { (above : X → Option X) (k n : ℕ) (o : Option X) → n < k → slice_get (upwards above k o) n ≡ nth_above above n o }
{}

/// Where each superclass stands before its subclasses, the chain of a class is the class and then the chain of its
/// superclass.
pub fn law_chain_step<N>()
    ensures { (same : N → N → Bool) (classes : List (ClassOf N)) (place : ℕ) (c : ClassOf N) →
        ((n : N) → same n n ≡ true) → SuperclassesStandBefore classes → slice_get classes place ≡ Some c →
        chain_from same classes (Some c) ≡ c ∷ chain_from same classes (superclass_of same classes c) }
{}

/// Where classes are replaced by ones of the same names and superclasses, and methods by ones of the same classes, sides
/// and selectors, chains and look-ups lead to what stands at the same places; and where the variables stay too, names
/// stand for the same.
pub fn law_replaced<N>()
    ensures chain { (w : WordsOf N) (h : ClassOf N → ClassOf N) (classes : List (ClassOf N)) (c : Option N) →
        AllByRecursion (KeepsHierarchy h) classes → chain w.tests.same (map h classes) c ≡ map h (chain w.tests.same classes c) }
    ensures lookup { (w : WordsOf N) (i : ImageOf N) (h : ClassOf N → ClassOf N) (g : EntryOf N → EntryOf N) (c : Option N) (meta : Bool) (s : N) →
        AllByRecursion (KeepsHierarchy h) i.classes → AllByRecursion (KeepsSignature g) i.methods →
        lookup w (replaced_by h g i) c meta s ≡ option_map g (lookup w i c meta s) }
    ensures super_lookup { (w : WordsOf N) (i : ImageOf N) (h : ClassOf N → ClassOf N) (g : EntryOf N → EntryOf N) (c : Option N) (meta : Bool) (s : N) →
        AllByRecursion (KeepsHierarchy h) i.classes → AllByRecursion (KeepsSignature g) i.methods →
        super_lookup w (replaced_by h g i) c meta s ≡ option_map g (super_lookup w i c meta s) }
    ensures means { (w : WordsOf N) (i : ImageOf N) (h : ClassOf N → ClassOf N) (g : EntryOf N → EntryOf N) (m : EntryOf N) (path : List ℕ) (n : N) →
        AllByRecursion (KeepsHierarchy h) i.classes → AllByRecursion (KeepsVariables h) i.classes →
        means w (replaced_by h g i) m path n ≡ means w i m path n }
{}

/// What is demanded of the hierarchy and of the methods of a valid image stays where they are replaced so.
pub fn law_replaced_valid<N>()
    ensures superclasses { (h : ClassOf N → ClassOf N) (classes : List (ClassOf N)) →
        AllByRecursion (KeepsHierarchy h) classes → SuperclassesStandBefore classes → SuperclassesStandBefore (map h classes) }
    ensures root { (w : WordsOf N) (h : ClassOf N → ClassOf N) (classes : List (ClassOf N)) →
        AllByRecursion (KeepsHierarchy h) classes → OnlyObjectIsRoot w classes → OnlyObjectIsRoot w (map h classes) }
    ensures class { (h : ClassOf N → ClassOf N) (classes : List (ClassOf N)) (m n : EntryOf N) →
        AllByRecursion (KeepsHierarchy h) classes → m.class ≡ n.class → HasClass classes m → HasClass (map h classes) n }
    ensures methods { (g : EntryOf N → EntryOf N) (methods : List (EntryOf N)) →
        AllByRecursion (KeepsSignature g) methods → HasNoRepeat (map signature methods) → HasNoRepeat (map signature (map g methods)) }
{}

/// A method that is put in or taken out changes no look-up of another selector.
pub fn law_other_selector<N>()
    ensures { (w : WordsOf N) (i : ImageOf N) (front : List (EntryOf N)) (m : EntryOf N) (back : List (EntryOf N)) (c : Option N) (meta : Bool) (s : N) →
        w.tests.same s m.tree.selector ≡ false →
        lookup w (with_methods i (front ++ m ∷ back)) c meta s ≡ lookup w (with_methods i (front ++ back)) c meta s }
{}
