// The forms of chunks.
use rb_base::NameId;

/// The definition of a class, as its chunk spells it.
#[derive(Clone, Copy)]
pub struct ClassDefinition<'a> {
    pub name: &'a [u8],
    /// The name of the superclass; `None` where the text of the kernel defines a class without one.
    pub superclass: Option<NameId>,
    /// The names of the instance variables, with blanks between them.
    pub instance: &'a [u8],
    /// The names of the class variables, with blanks between them.
    pub shared: &'a [u8],
    pub category: &'a [u8],
}

/// What a chunk says.
#[derive(Clone, Copy)]
pub enum ChunkForm<'a> {
    /// It is a do-it.
    Evaluates,
    /// A class is defined, for the first time or again.
    Defines(ClassDefinition<'a>),
    /// A class is defined, for the first time or again, and a place is stated for it.
    DefinesAt {
        definition: ClassDefinition<'a>,
        place: usize,
    },
    /// A class has a comment.
    Comments {
        class: NameId,
        text: &'a [u8],
    },
    /// A class has class-instance variables of these names, with blanks between them.
    SetsClassSide {
        class: NameId,
        names: &'a [u8],
    },
    /// The methods that follow are of this class, this side and this protocol.
    Opens {
        class: NameId,
        meta: bool,
        protocol: &'a [u8],
    },
    /// The same, and a place is stated for the first of the methods.
    OpensAt {
        class: NameId,
        meta: bool,
        protocol: &'a [u8],
        place: usize,
    },
    /// Methods and classes go to the places that were stated for them.
    Settles,
    /// The method of a class, a side and a selector is removed.
    RemovesMethod {
        class: NameId,
        meta: bool,
        selector: &'a [u8],
    },
    /// A class is removed.
    RemovesClass {
        name: &'a [u8],
    },
    /// It defines a class with pool dictionaries, and is refused.
    HasPools,
    /// It is a message by which file-outs define and remove, but in no form that has a meaning, and is refused.
    IsUnknown,
}
