// Causes and faults of file-outs.
ghost use Rattle.std.specs.Prelude.{◌≡◌};
ghost use Rattle.file_faults.specs.declared.fault.ImageFault.TheVariants as fault;

use rb_base::Memory;
use st_faults::ParseFault;
use thiserror::Error;

/// Why a chunk of a file-out is refused.
#[derive(Clone, Copy, Debug, Error)]
pub enum ImageCause {
    /// A definition names a superclass that is no class, or a class that is removed has subclasses.
    #[error("the superclass is unknown, or the class has subclasses")]
    UnknownSuperclass,
    /// A definition names a superclass that is the class itself or stands below it.
    #[error("the class would stand above itself")]
    Cycle,
    /// An instance variable or a class-instance variable would stand twice on a chain, or a class variable twice in its
    /// list.
    #[error("a variable would stand twice")]
    VariableTwice,
    /// The chunk would change or remove a class or a method of the kernel.
    #[error("a part of the kernel would be replaced")]
    KernelReplaced,
    /// The chunk speaks of a class that is not there.
    #[error("the class is unknown")]
    UnknownClass,
    /// There are 10,000 classes or 200,000 methods already, those of the kernel among them.
    #[error("too many classes or methods")]
    TooMany,
    /// A definition names pool dictionaries.
    #[error("the class has pool dictionaries")]
    PoolsNotEmpty,
    /// The chunk is a message by which file-outs define and remove, but in no form that has a meaning.
    #[error("the definition is unknown")]
    UnknownDefinition,
    /// No mark ends the last chunk.
    #[error("the last chunk has no end")]
    Unended,
    /// The source of the chunk is no text of the grammar. The fault is never want of memory.
    #[error(transparent)]
    Syntax(ParseFault),
}

/// Why a file-out was not read.
#[derive(Clone, Copy, Debug, Error)]
pub enum ImageFault {
    /// The chunk of this number, from 1, is the first that is refused. `at` is an offset in bytes from 0: for `Syntax` in
    /// the source of the chunk, for `Unended` in the file, and 0 for any other cause.
    #[error("chunk {chunk} at byte {at}: {cause}")]
    Refused {
        chunk: usize,
        at: usize,
        cause: ImageCause,
    },
    /// Want of memory.
    #[error("out of memory")]
    Memory,
}

impl From<Memory> for ImageFault {
    ghost from_gives = { λ _ e. e ≡ fault.Memory };

    fn from(_error: Memory) -> ImageFault {
        ImageFault::Memory
    }
}
