// The law of the places that a search finds. The function does nothing; its contract is the law, for all patterns over all
// names.
ghost use Rattle.std.specs.Prelude.{map};
ghost use Rattle.tree_model.specs.Tree.{TreeOf, SequenceOf};
ghost use Rattle.tree_model.specs.Nodes.{tree_nodes, nodes};
ghost use Rattle.pattern_model.specs.Patterns.{PatternOf};
ghost use Rattle.pattern_model.specs.Words.{PatternWordsOf};
ghost use Rattle.pattern_model.specs.Search.{found, all_matches};
ghost use Rattle.search_laws.specs.Preorder.{paths_of, IsAscending, EachOnce, IsPartInOrder};

use pattern_laws::law_rewritten;
use tree_model::law_nodes;

/// The nodes of a tree and of a sequence stand in preorder: of two of them the one before stands above the other, or further to
/// the left. So do the nodes that a search finds, whatever the pattern: they are nodes of the code, in the order of the
/// preorder with some left out, and each once.
pub fn law_found_in_preorder<N>()
    ensures tree_order { (t : TreeOf N) → IsAscending (paths_of (tree_nodes t)) }
    ensures order { (b : SequenceOf N) → IsAscending (paths_of (nodes b)) }
    ensures found_order { (w : PatternWordsOf N) (p : PatternOf N) (t : TreeOf N) → IsAscending (found w p t) }
    ensures matches_order { (w : PatternWordsOf N) (p : PatternOf N) (b : SequenceOf N) → IsAscending (all_matches w p b) }
    ensures part { (w : PatternWordsOf N) (p : PatternOf N) (b : SequenceOf N) → IsPartInOrder (all_matches w p b) (paths_of (nodes b)) }
    ensures once { (w : PatternWordsOf N) (p : PatternOf N) (b : SequenceOf N) → EachOnce (all_matches w p b) }
{
    law_rewritten::<N>();
    law_nodes::<N>();
}
