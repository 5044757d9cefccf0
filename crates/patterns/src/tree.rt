// The tree of a pattern.

use pattern_model::MetaKind;
use rb_base::{Ids, NameId, Text};
use st_tree::{Comments, Literal};
use std::marker::Model;

/// A metavariable.
#[derive(Clone, Copy)]
pub struct Meta {
    /// What the metavariable stands for.
    pub kind: MetaKind,
    /// The name behind its backquotes.
    pub name: NameId,
    /// Whether what it stands for is searched and rewritten, too.
    pub doubled: bool,
}

/// An expression, a return or a metavariable. Contracts see it as abstract data, a `PatternOf ℕ`.
#[cycle(pattern)]
#[derive(Drop)]
pub struct Pattern {
    /// What the pattern is.
    pub kind: PatternKind,
}

/// What a pattern is.
#[cycle(pattern)]
#[derive(Drop)]
pub enum PatternKind {
    /// A metavariable.
    Meta {
        meta: Meta,
    },
    /// A variable.
    Var {
        name: NameId,
    },
    /// A literal.
    Literal {
        value: Literal,
    },
    /// A message and its receiver.
    Send {
        receiver: Box<Pattern>,
        message: PatternMessage,
    },
    /// Messages to one receiver.
    Cascade {
        receiver: Box<Pattern>,
        messages: Vec<PatternMessage>,
    },
    /// An assignment to a variable.
    Assign {
        name: NameId,
        value: Box<Pattern>,
    },
    /// A block.
    Block {
        parameters: Ids,
        body: Box<PatternSequence>,
    },
    /// An array that is made of the values of expressions.
    Brace {
        items: Vec<Pattern>,
    },
    /// A return, `^`.
    Return {
        value: Box<Pattern>,
    },
}

/// A message.
#[cycle(pattern)]
#[derive(Drop)]
pub struct PatternMessage {
    pub selector: PatternSelector,
    /// As many as the selector takes; none for any message, which has its own.
    pub arguments: Vec<Pattern>,
}

/// The body of a block.
#[cycle(pattern)]
#[derive(Drop)]
pub struct PatternSequence {
    pub temporaries: Ids,
    pub statements: Vec<PatternStatement>,
    /// The comments after the last statement.
    pub tail: Comments,
}

/// A statement; a metavariable for statements is such a node.
#[cycle(pattern)]
#[derive(Drop)]
pub struct PatternStatement {
    /// The comments before and inside the statement.
    pub comments: Comments,
    pub node: Pattern,
}

/// The selector of a message.
#[derive(Drop)]
pub enum PatternSelector {
    /// This selector.
    Plain(NameId),
    /// Any unary selector.
    Unary(Meta),
    /// Keywords, of which at least one is a metavariable.
    Keywords(Vec<PatternKeyword>),
    /// Any message, with its arguments.
    Whole(Meta),
}

/// A keyword of a selector.
#[derive(Drop)]
pub enum PatternKeyword {
    /// This keyword, with its colon.
    Plain(Text),
    /// Any keyword.
    Any(Meta),
}

/// What is replaced, and by what.
#[derive(Drop)]
pub struct Rule {
    pub pattern: Pattern,
    pub replacement: Pattern,
}

impl Model for Pattern {
    ghost use Rattle.std.specs.Prelude.{ℕ};
    ghost use Rattle.pattern_model.specs.Patterns.{PatternOf};
    ghost use Rattle.patterns.specs.PatternCode.{coded_pattern};

    ghost Value = { PatternOf ℕ };

    ghost coded = { coded_pattern };

    ghost use Rattle.patterns.specs.Weights.{pattern_weight};
    ghost use Rattle.patterns.specs.View.{pattern_from};

    ghost view = { λ a. pattern_from a.kind };

    ghost size = { pattern_weight };

    ghost use Rattle.patterns.specs.Falls.{depth_le-pattern_weight};

    ghost size_decreases = { λ a h. depth_le-pattern_weight a.kind };
}
