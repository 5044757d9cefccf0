// Nodes that send a selector or name a name.
ghost use Rattle.std.specs.Prelude.{◌≡◌};
ghost use Rattle.image_queries.specs.Asked.{query_of, mentions};

use crate::query::Query;
use node_questions::{sends, uses};
use st_tree::Node;

/// Whether the node may be asked for, as far as it tells by itself.
pub(crate) fn mentions(query: &Query, node: &Node) -> bool
    ensures { result ≡ mentions (query_of query.now) node.now }
{
    match query {
        Query::Senders(selector) => sends(node, *selector),
        Query::Implementors(_) => false,
        Query::Class(name) | Query::Variable { name, .. } => uses(node, *name),
    }
}
