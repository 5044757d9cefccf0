// Laws of changed parameters. Each function does nothing; its contract is the law, for all images whose names are texts.
ghost use Rattle.std.specs.Prelude.{◌≡◌, ℕ, ◌-◌, true, false};
ghost use Rattle.std.specs.List.{AllByRecursion};
ghost use Rattle.rb_base.specs.Names.{text_eq};
ghost use Rattle.tree_model.specs.Tree.{LiteralOf};
ghost use Rattle.image_model.specs.Image.{ImageOf};
ghost use Rattle.st_kernel.specs.Selectors.{is_control};
ghost use Rattle.run_model.specs.Values.{Name};
ghost use Rattle.run_model.specs.Renamings.{no_renaming};
ghost use Rattle.run_model.specs.Matched.{AreMatched};
ghost use Rattle.resolved_model.specs.ResolvedImages.{resolved_image};
ghost use Rattle.argument_laws.specs.ArgumentGone.{image_without};
ghost use Rattle.argument_laws.specs.PlainArguments.{ImageMayLose};
ghost use Rattle.rename_model.specs.ClassRenamed.{WritingOf};
ghost use Rattle.rename_model.specs.Conditions.{is_selector_fresh};
ghost use Rattle.rename_model.specs.OneRenamed.{one_selector};
ghost use Rattle.rename_model.specs.SelectorRenamed.{selector_renamed};
ghost use Rattle.rename_laws.specs.BehindKernel.{IsBehindKernel};
ghost use Rattle.command_model.specs.Allowed.{Meets};
ghost use Rattle.command_model.specs.Asked.{text_asked};
ghost use Rattle.command_model.specs.Commands.{AddParameter, RemoveParameter};
ghost use Rattle.command_model.specs.Conditions.{NoReflection, SelectorFresh, NotKernelSelector, ParameterUnused, PlainArguments};
ghost use Rattle.command_model.specs.Effects.{effect};
ghost use Rattle.command_model.specs.Plain.{is_passed_atom, literal_node};
ghost use Rattle.command_model.specs.Renamings.{renaming_of};
ghost use Rattle.parameter_laws.specs.Arities.{IsPlainlyWritten, MayTakeMore};
ghost use Rattle.parameter_laws.specs.ArgumentsChanged.{argument_appended, argument_dropped};

use argument_laws::law_argument_gone;
use rename_laws::law_renamed_selector;
use resolved_model::law_same_resolved;
use run_model::law_matched;

/// An image is matched by the one in which an argument of a selector, counted from 0, is gone, with nothing renamed, if what
/// messages pass for it is plain and no method reads it. The selector is not that of a control send. However methods and do-its
/// are written, the runs are the same but for ticks.
pub fn law_dropped_argument()
    ensures { (writing : WritingOf Name) (i : ImageOf Name) (s : Name) (k : ℕ) → is_control s ≡ false → IsBehindKernel i →
        ImageMayLose s k (resolved_image i) → AreMatched i (argument_dropped text_eq writing s k i) no_renaming }
{
    law_argument_gone();
}

/// An image is matched, up to the renaming of one selector, by what `removeParameter` makes of it: an argument of the
/// selector, counted from 1, is gone, and it has a new name that no method has and no code sends. What messages pass for the
/// argument is plain, no method reads it, and neither selector is that of a control send. The conditions of the command say as
/// much, where the user's methods are no primitives and take as many arguments as their selectors do. However methods and
/// do-its are written, the runs are the same but for ticks.
pub fn law_removed_parameter()
    ensures matched { (writing : WritingOf Name) (i : ImageOf Name) (s t : Name) (k : ℕ) → is_control s ≡ false → is_control t ≡ false →
        is_selector_fresh text_eq i t ≡ true → IsBehindKernel i → ImageMayLose s (k - 1) (resolved_image i) →
        AreMatched i (effect text_asked writing (RemoveParameter s k t) i) (renaming_of i (RemoveParameter s k t)) }
    ensures by_command { (writing : WritingOf Name) (i : ImageOf Name) (s t : Name) (k : ℕ) → IsBehindKernel i → AllByRecursion IsPlainlyWritten i.methods →
        Meets text_asked i (RemoveParameter s k t) NoReflection → Meets text_asked i (RemoveParameter s k t) (NotKernelSelector s) →
        Meets text_asked i (RemoveParameter s k t) (NotKernelSelector t) → Meets text_asked i (RemoveParameter s k t) (SelectorFresh t) →
        Meets text_asked i (RemoveParameter s k t) (ParameterUnused s k) → Meets text_asked i (RemoveParameter s k t) (PlainArguments s k) →
        AreMatched i (effect text_asked writing (RemoveParameter s k t) i) (renaming_of i (RemoveParameter s k t)) }
{
    law_dropped_argument();
    law_renamed_selector();
    law_matched();
    law_same_resolved();
}

/// An image is matched by the one in which a selector has one more argument, with nothing renamed: each message of it passes
/// an atom literal as well, and each method of it takes one more argument, whose name nothing in it has. Before, messages pass
/// and methods take so many arguments, and the methods are no primitives. The selector is not that of a control send.
pub fn law_appended_argument()
    ensures { (writing : WritingOf Name) (i : ImageOf Name) (s x : Name) (k : ℕ) (l : LiteralOf Name) → is_control s ≡ false → is_passed_atom text_asked l ≡ true →
        MayTakeMore s x k i → AreMatched i (argument_appended text_eq writing s x (literal_node l) i) no_renaming }
{
    law_argument_gone();
}

/// An image is matched, up to the renaming of one selector, by what `addParameter` makes of it: the selector has one more
/// argument, which its methods do not name before and for which its messages pass an atom literal, and a new name that no
/// method has and no code sends. Before, messages pass and methods take so many arguments, and the methods are no primitives.
/// Neither selector is that of a control send. A word as literal is `nil`, `true` or `false`.
pub fn law_added_parameter()
    ensures { (writing : WritingOf Name) (i : ImageOf Name) (s t x : Name) (k : ℕ) (l : LiteralOf Name) → is_control s ≡ false → is_control t ≡ false →
        is_selector_fresh text_eq i t ≡ true → is_passed_atom text_asked l ≡ true → MayTakeMore s x k i →
        AreMatched i (effect text_asked writing (AddParameter s t x l) i) (renaming_of i (AddParameter s t x l)) }
{
    law_appended_argument();
    law_renamed_selector();
    law_matched();
    law_same_resolved();
}

/// The law of one more argument: in the image j each message of t passes something plain for an argument of which no method
/// of t reads the parameter, and without it j is, once names are resolved, the image i with s called t, which i does not
/// use. Neither is a control selector. Then i is matched by j up to this renaming, and j by i up to the one back.
pub fn law_extra_argument()
    ensures forward { (writing : WritingOf Name) (i j : ImageOf Name) (s t : Name) (k : ℕ) → is_control s ≡ false → is_control t ≡ false →
        is_selector_fresh text_eq i t ≡ true → ImageMayLose t k (resolved_image j) →
        resolved_image (selector_renamed text_eq writing i s t) ≡ image_without t k (resolved_image j) → AreMatched i j (one_selector s t) }
    ensures backward { (writing : WritingOf Name) (i j : ImageOf Name) (s t : Name) (k : ℕ) → is_control s ≡ false → is_control t ≡ false →
        text_eq s t ≡ false → is_selector_fresh text_eq i t ≡ true → ImageMayLose t k (resolved_image j) →
        resolved_image (selector_renamed text_eq writing i s t) ≡ image_without t k (resolved_image j) → AreMatched j i (one_selector t s) }
{
    law_argument_gone();
    law_renamed_selector();
    law_matched();
    law_same_resolved();
}
