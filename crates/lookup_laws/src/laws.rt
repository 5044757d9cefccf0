// Laws of images after additions, removals and moves of methods. Each function does nothing; its contract is the law, for all
// images whose names are texts.
ghost use Rattle.std.specs.Prelude.{◌≡◌, ℕ, List, Bool, true, Some, None};
ghost use Rattle.rb_base.specs.Names.{text_eq};
ghost use Rattle.tree_model.specs.Tree.{MethodOf};
ghost use Rattle.image_model.specs.Image.{ImageOf};
ghost use Rattle.image_model.specs.Words.{text_words};
ghost use Rattle.run_model.specs.Values.{Name};
ghost use Rattle.run_model.specs.Runs.{run};
ghost use Rattle.run_model.specs.Renamings.{no_renaming};
ghost use Rattle.run_model.specs.Matched.{AreMatched};
ghost use Rattle.mapped_model.specs.RenamedRuns.{RunsAsRenamed};
ghost use Rattle.mapped_model.specs.NamesOfImages.{HasOrderedClasses};
ghost use Rattle.rename_model.specs.ClassRenamed.{WritingOf};
ghost use Rattle.rename_model.specs.Conditions.{is_user_class};
ghost use Rattle.rename_laws.specs.BehindKernel.{IsBehindKernel};
ghost use Rattle.command_model.specs.Asked.{text_asked};
ghost use Rattle.command_model.specs.Commands.{AddClass, RemoveClass, AddMethod, RemoveMethod, PushUpMethod, PushDownMethod};
ghost use Rattle.command_model.specs.Effects.{effect};
ghost use Rattle.command_model.specs.Judged.{first_false};
ghost use Rattle.command_model.specs.Hierarchy.{is_class, superclass_name};
ghost use Rattle.command_model.specs.MethodConditions.{is_sent_nowhere, is_removable, is_unreached};
ghost use Rattle.command_model.specs.MethodEffects.{method_added, method_removed, method_pushed_up, method_pushed_down};
ghost use Rattle.agreement_laws.specs.KernelChains.{HasKernelChains};
ghost use Rattle.lookup_laws.specs.OtherMethods.{DifferInSelector};

/// Two images that differ in methods of one selector alone, which no node of the first one sends, have the same runs. So do
/// an image and what an addition, a removal or a move of a method of that selector makes of it. Nothing else is asked.
pub fn law_unsent_selector()
    ensures run { (i j : ImageOf Name) (s : Name) (n : ℕ) → DifferInSelector s i j → is_sent_nowhere text_words i s ≡ true → run j n ≡ run i n }
    ensures matched { (i j : ImageOf Name) (s : Name) → DifferInSelector s i j → is_sent_nowhere text_words i s ≡ true → AreMatched i j no_renaming }
    ensures removed { (i : ImageOf Name) (c : Name) (meta : Bool) (s : Name) → DifferInSelector s i (method_removed text_eq c meta s i) }
    ensures pushed_up { (i : ImageOf Name) (c : Name) (meta : Bool) (s : Name) → DifferInSelector s i (method_pushed_up text_eq c meta s i) }
    ensures pushed_down { (i : ImageOf Name) (c : Name) (meta : Bool) (s : Name) → DifferInSelector s i (method_pushed_down text_eq c meta s i) }
    ensures added { (i : ImageOf Name) (c : Name) (meta : Bool) (protocol text : List ℕ) (tree : MethodOf Name) → DifferInSelector tree.selector i (method_added c meta protocol text tree i) }
{}

/// An image without one of its methods has the same runs, if the selector is sent nowhere or what is inherited in place of
/// the method is the same. Of the image it is asked that its classes are in order and have names of their own.
pub fn law_removed_method()
    ensures run { (i : ImageOf Name) (c : Name) (meta : Bool) (s : Name) (n : ℕ) → HasOrderedClasses i → is_class text_eq i c ≡ true →
        is_removable text_words text_asked.is_super i c meta s ≡ true → run (method_removed text_eq c meta s i) n ≡ run i n }
    ensures matched { (i : ImageOf Name) (c : Name) (meta : Bool) (s : Name) → HasOrderedClasses i → is_class text_eq i c ≡ true →
        is_removable text_words text_asked.is_super i c meta s ≡ true → AreMatched i (method_removed text_eq c meta s i) no_renaming }
{}

/// An image with one more method, or with one that is moved to the superclass of its class or to the direct subclasses that
/// have none of their own, has the same runs, if no class that finds another method then is reached: none that a node means,
/// and none in which the look-up for `super` of the selector begins. Of the image it is asked that its classes are in order
/// and have names of their own, and that those of which the language itself speaks are the kernel's, with all above them.
pub fn law_moved_methods()
    ensures added { (i : ImageOf Name) (c : Name) (meta : Bool) (protocol text : List ℕ) (tree : MethodOf Name) (n : ℕ) → HasOrderedClasses i → HasKernelChains i →
        is_user_class text_eq i c ≡ true → is_unreached text_words text_asked.is_super i (method_added c meta protocol text tree i) meta tree.selector ≡ true →
        run (method_added c meta protocol text tree i) n ≡ run i n }
    ensures pushed_up { (i : ImageOf Name) (c p : Name) (meta : Bool) (s : Name) (n : ℕ) → HasOrderedClasses i → HasKernelChains i →
        is_user_class text_eq i c ≡ true → superclass_name text_eq i c ≡ Some p → is_user_class text_eq i p ≡ true →
        is_unreached text_words text_asked.is_super i (method_pushed_up text_eq c meta s i) meta s ≡ true → run (method_pushed_up text_eq c meta s i) n ≡ run i n }
    ensures pushed_down { (i : ImageOf Name) (c : Name) (meta : Bool) (s : Name) (n : ℕ) → HasOrderedClasses i → HasKernelChains i →
        is_user_class text_eq i c ≡ true → is_unreached text_words text_asked.is_super i (method_pushed_down text_eq c meta s i) meta s ≡ true →
        run (method_pushed_down text_eq c meta s i) n ≡ run i n }
{}

/// Where the conditions of an addition, a removal or a move of a method hold of an image, what the command makes of it
/// runs as it does, with nothing renamed, and so matches it.
pub fn law_method_commands()
    ensures added { (writing : WritingOf Name) (i : ImageOf Name) (c : Name) (meta : Bool) (protocol text : List ℕ) (tree : MethodOf Name) → HasOrderedClasses i → HasKernelChains i →
        first_false text_asked i (AddMethod c meta protocol text tree) ≡ None → RunsAsRenamed i (effect text_asked writing (AddMethod c meta protocol text tree) i) no_renaming }
    ensures removed { (writing : WritingOf Name) (i : ImageOf Name) (c : Name) (meta : Bool) (s : Name) → HasOrderedClasses i →
        first_false text_asked i (RemoveMethod c meta s) ≡ None → RunsAsRenamed i (effect text_asked writing (RemoveMethod c meta s) i) no_renaming }
    ensures pushed_up { (writing : WritingOf Name) (i : ImageOf Name) (c : Name) (meta : Bool) (s : Name) → HasOrderedClasses i → HasKernelChains i →
        first_false text_asked i (PushUpMethod c meta s) ≡ None → RunsAsRenamed i (effect text_asked writing (PushUpMethod c meta s) i) no_renaming }
    ensures pushed_down { (writing : WritingOf Name) (i : ImageOf Name) (c : Name) (meta : Bool) (s : Name) → HasOrderedClasses i → HasKernelChains i →
        first_false text_asked i (PushDownMethod c meta s) ≡ None → RunsAsRenamed i (effect text_asked writing (PushDownMethod c meta s) i) no_renaming }
{}

/// Where the conditions of an addition or a removal of a class hold of an image, what the command makes of it runs as
/// it does, with nothing renamed, and so matches it.
pub fn law_class_commands()
    ensures added { (writing : WritingOf Name) (i : ImageOf Name) (d p : Name) (under : List Name) → IsBehindKernel i →
        first_false text_asked i (AddClass d p under) ≡ None → RunsAsRenamed i (effect text_asked writing (AddClass d p under) i) no_renaming }
    ensures removed { (writing : WritingOf Name) (i : ImageOf Name) (c : Name) → HasOrderedClasses i → HasKernelChains i →
        first_false text_asked i (RemoveClass c) ≡ None → RunsAsRenamed i (effect text_asked writing (RemoveClass c) i) no_renaming }
{}
