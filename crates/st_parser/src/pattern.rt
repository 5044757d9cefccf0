ghost use Rattle.std.specs.Prelude.{◌≡◌, ◌<◌, length, IsTrue, IsSome, IfOk, IfErr};
ghost use Rattle.tree_model.specs.Tree.{map_sequence};
ghost use Rattle.tree_model.specs.AllNames.{SequenceNames};
ghost use Rattle.grammar_model.specs.Whole.{PatternText};
ghost use Rattle.st_tree.specs.View.{sequence_of};
ghost use Rattle.rb_base.specs.Names.{name_at};
ghost use Rattle.st_faults.specs.Faults.{fault_of, IsRefused};
ghost use Rattle.event_trees.specs.Naming.{Grows, Adds};
ghost use Rattle.st_parser.specs.Alone.{SpellsAlone};

use event_trees::build_doit;
use rb_base::Names;
use st_reading::{ParseFault, read_pattern};
use st_tree::Sequence;
use std::alloc::Global;

/// The tree of a pattern, as the one statement of a do-it: one expression of Smalltalk-80 in which metavariables stand as
/// names, selectors and keywords, spelled with their backquotes and marks. Its names are numbers in `names`, to which
/// those that are new are added and no others. Comments outside of blocks are left out.
///
/// The text is refused with its first fault, as `ParseFault` tells, at an offset in bytes from the text's start; then
/// `names` stays as it was. Which metavariables may stand beside each other is not judged here. Want of memory, time and
/// texts of 4 GiB or more are as for `parse_doit`.
pub fn parse_pattern(alloc: Global, text: &[u8], names: &mut Names) -> Result<Sequence, ParseFault>
    ensures tree { IfOk result (λ body. SpellsAlone text.now (map_sequence (name_at names.new) (sequence_of body))) }
    ensures known { IfOk result (λ body. SequenceNames (λ n. n < length names.new) (sequence_of body)) }
    ensures adds { IfOk result (λ body. Adds names.old names.new (λ p. SequenceNames (λ t. IsTrue (p t)) (map_sequence (name_at names.new) (sequence_of body)))) }
    ensures fault { IfErr result (IsRefused PatternText text.now) }
    ensures unchanged { IfErr result (λ answer. IsSome (fault_of answer) → names.new ≡ names.old) }
    ensures grows { Grows names.old names.new }
{
    let found = read_pattern(alloc, text)?;
    let body = build_doit(alloc, found, names)?;
    Ok(body)
}
