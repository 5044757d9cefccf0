// Laws on the nodes of a sequence with their spans. The function does nothing; its contract is the law.
ghost use Rattle.std.specs.Prelude.{◌≡◌, ◌↔◌, ℕ, List, map, Some, Contains};
ghost use Rattle.tree_model.specs.Tree.{TreeOf};
ghost use Rattle.tree_model.specs.Nodes.{nodes, Placed};
ghost use Rattle.grammar_model.specs.Terminal.{Text};
ghost use Rattle.grammar_model.specs.Spanned.{SpannedSequence, plain_sequence};
ghost use Rattle.grammar_model.specs.Spans.{Span, span_at};
ghost use Rattle.event_spans.specs.declared.search.NodeSpan.{NodeSpan};
ghost use Rattle.event_spans.specs.Answers.{to_span, sequence_spans};

/// The spans of a sequence: a span stands there with a path exactly where the path leads to a node with the span, and
/// the paths stand in the order of the nodes of the sequence without places.
pub fn law_spans()
    ensures members { (s : SpannedSequence) (path : List ℕ) (span : Span) → Contains (sequence_spans s) (record { path = path; span = to_span span }) ↔ (span_at s path ≡ Some span) }
    ensures order { (s : SpannedSequence) → map (λ (e : NodeSpan). e.path) (sequence_spans s) ≡ map (λ (e : Placed Text). e.0) (nodes (plain_sequence s)) }
{}
