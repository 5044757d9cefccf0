ghost use Rattle.std.specs.Prelude.{◌≡◌, ◌<◌, length, IsTrue, IsSome, IfOk, IfErr};
ghost use Rattle.token_model.specs.declared.kind.Dialect.TheVariants.{Second};
ghost use Rattle.tree_model.specs.Tree.{map_sequence, map_method};
ghost use Rattle.tree_model.specs.AllNames.{SequenceNames, MethodNames};
ghost use Rattle.grammar_model.specs.Whole as whole;
ghost use Rattle.grammar_model.specs.Spelling.{SpellsDoIt, SpellsMethod};
ghost use Rattle.st_tree.specs.View.{sequence_of, method_of};
ghost use Rattle.rb_base.specs.Names.{name_at};
ghost use Rattle.st_faults.specs.Faults.{fault_of, IsRefused};
ghost use Rattle.event_trees.specs.Naming.{Grows, Adds};

use event_trees::{build_doit, build_method};
use rb_base::Names;
use st_reading::{ParseFault, read_doit, read_method};
use st_tree::{Method, Sequence};
use std::alloc::Global;

/// The tree of a do-it of Smalltalk-80 (Goldberg and Robson 1983), with brace arrays. The names of the tree are numbers
/// in `names`, to which those that are new are added and no others. Comments go to the statement that they stand before
/// or in, and those behind the last statement to the tail.
///
/// The text is refused with its first fault, as `ParseFault` tells, at an offset in bytes from the text's start; then
/// `names` stays as it was. On want of memory some names of the tree may have been added. Nothing recurs, so a text of
/// any depth is read or refused; the time and the memory that it takes from `alloc` are linear in the text. A text of
/// 4 GiB or more that has no fault is answered with `Memory`, since places take four bytes.
pub fn parse_doit(alloc: Global, text: &[u8], names: &mut Names) -> Result<Sequence, ParseFault>
    ensures tree { IfOk result (λ body. SpellsDoIt Second text.now (map_sequence (name_at names.new) (sequence_of body))) }
    ensures known { IfOk result (λ body. SequenceNames (λ n. n < length names.new) (sequence_of body)) }
    ensures adds { IfOk result (λ body. Adds names.old names.new (λ p. SequenceNames (λ t. IsTrue (p t)) (map_sequence (name_at names.new) (sequence_of body)))) }
    ensures fault { IfErr result (IsRefused whole.DoIt text.now) }
    ensures unchanged { IfErr result (λ answer. IsSome (fault_of answer) → names.new ≡ names.old) }
    ensures grows { Grows names.old names.new }
{
    let found = read_doit(alloc, text)?;
    let body = build_doit(alloc, found, names)?;
    Ok(body)
}

/// The tree of a method of Smalltalk-80 (Goldberg and Robson 1983), with brace arrays, of the kernel, where a primitive
/// may be its body, or of a user. Comments in the pattern and before the bar that opens the temporaries are the head; in
/// a method without temporaries those of the first statement go to the end of the head, and where there is no statement
/// the tail does. Names, other comments, faults, memory, time and texts of 4 GiB or more are as for `parse_doit`.
pub fn parse_method(
    alloc: Global,
    text: &[u8],
    kernel: bool,
    names: &mut Names,
) -> Result<Method, ParseFault>
    ensures tree { IfOk result (λ method. SpellsMethod Second kernel text.now (map_method (name_at names.new) (method_of method))) }
    ensures known { IfOk result (λ method. MethodNames (λ n. n < length names.new) (method_of method)) }
    ensures adds { IfOk result (λ method. Adds names.old names.new (λ p. MethodNames (λ t. IsTrue (p t)) (map_method (name_at names.new) (method_of method)))) }
    ensures fault { IfErr result (IsRefused (whole.Method kernel) text.now) }
    ensures unchanged { IfErr result (λ answer. IsSome (fault_of answer) → names.new ≡ names.old) }
    ensures grows { Grows names.old names.new }
{
    let found = read_method(alloc, text, kernel)?;
    let method = build_method(alloc, found, names)?;
    Ok(method)
}
