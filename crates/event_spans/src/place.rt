// The nodes of a text in preorder.
ghost use Rattle.std.specs.Prelude.{◌≡◌, IfOk, Option, option_map};
ghost use Rattle.grammar_model.specs.Spanned.{SpannedSequence};
ghost use Rattle.grammar_model.specs.Spans.{span_at};
ghost use Rattle.parse_events.specs.Found.{sequence_events};
ghost use Rattle.event_spans.specs.Answers.{to_span, of_span, sequence_spans, HasPart};
ghost use Rattle.event_spans.specs.Preorder.{sequence_places};

use crate::building::preorder;
use crate::descent::node_at;
use crate::search::{Spans, listed, part_found};
use parse_events::SequenceEvents;
use rb_base::{Memory, Span};
use st_tree::{Part, Path};
use std::alloc::Global;
use std::marker::Model;

/// A node of a text: where it stands, in bytes from the text's start, and how many nodes stand above and below it.
/// Parentheses round a node are no part of it.
#[derive(Clone, Copy, Debug, PartialEq, Eq)]
pub struct Place {
    /// The first byte of the node.
    pub from: usize,
    /// The place behind its last byte.
    pub to: usize,
    /// How many nodes it stands in.
    pub depth: usize,
    /// How many nodes stand in it.
    pub below: usize,
    /// Whether it is a block.
    pub block: bool,
}

/// All nodes of a do-it or of a method in preorder: each before the nodes in it. Contracts see a list.
#[derive(Drop)]
pub struct Places {
    pub(crate) items: Vec<Place>,
}

impl Model for Places {
    ghost use Rattle.std.specs.Prelude.{List};
    ghost use Rattle.event_spans.specs.declared.place.Place.{Place};

    ghost Value = { List Place };

    ghost view = { λ a. a.items.items };
}

impl Places {
    /// The nodes of a do-it, or of a method behind its pattern, from what is found in it. Fails only on want of memory.
    pub fn of(alloc: Global, found: &SequenceEvents) -> Result<Places, Memory>
        ensures { IfOk result (λ places. (s : SpannedSequence) → found.now ≡ sequence_events s → places ≡ sequence_places s) }
    {
        Ok(Places {
            items: preorder(alloc, found.events.as_slice())?,
        })
    }

    /// Where the node stands to which a path leads; None exactly where it leads to no node.
    pub fn span_at(&self, path: &Path) -> Option<Span>
        ensures { (s : SpannedSequence) → self.now ≡ sequence_places s → result ≡ option_map to_span (span_at s path.now) }
    {
        match node_at(self.items.as_slice(), path.as_slice()) {
            Some(place) => Some(Span {
                from: place.from,
                to: place.to,
            }),
            None => None,
        }
    }

    /// All nodes in preorder, each with its path and where it stands. Fails only on want of memory.
    pub fn spans(&self, alloc: Global) -> Result<Spans, Memory>
        ensures { IfOk result (λ spans. (s : SpannedSequence) → self.now ≡ sequence_places s → spans ≡ sequence_spans s) }
    {
        Ok(Spans {
            items: listed(alloc, self.items.as_slice())?,
        })
    }

    /// The part that stands from the span's beginning up to its end: a node, or where no node stands there two or more
    /// neighbouring statements. None exactly where neither stands there. Fails only on want of memory.
    pub fn part_at(&self, alloc: Global, span: Span) -> Result<Option<Part>, Memory>
        ensures { IfOk result (λ part. (s : SpannedSequence) → self.now ≡ sequence_places s → HasPart s (of_span span) part) }
    {
        part_found(alloc, self.items.as_slice(), span)
    }
}
