// What was read of a file-out, and why a chunk of it was not.
ghost use Rattle.std.specs.Prelude.{◌≡◌, IfOk};
ghost use Rattle.rb_base.specs.Names.{text_eq};
ghost use Rattle.file_model.specs.Places.{placed};
ghost use Rattle.file_reading.specs.Filed.{text_image, image_so_far, places_so_far, IsSoundSoFar, IsSound};
ghost use Rattle.file_reading.specs.declared.reading.Stop.TheVariants as stop;

use crate::words::names_differ;
use file_faults::ImageCause;
use file_numbers::places_by_numbers;
use image_draft::Draft;
use placed_draft::PlacedDraft;
use rb_base::{Memory, Names};
use std::alloc::Global;

/// What was read of a file-out, and the names to which its numbers belong.
#[derive(Drop)]
pub struct Reading {
    pub names: Names,
    pub draft: Draft,
}

/// How far a file-out was read, and the names to which its numbers belong.
pub(crate) struct Progress {
    pub(crate) names: Names,
    pub(crate) draft: Box<PlacedDraft>,
}

/// It is written out and not derived: a function that gives up what was read calls this one, and goes over no field of the
/// draft itself.
impl Drop for Progress {
    fn drop(self) {
        let Progress { names: _, draft: _ } = self;
    }
}

impl Progress {
    /// Puts methods and classes at the places that are stated for them and not settled yet. Nothing more is read then.
    pub(crate) fn finish(self, alloc: Global) -> Result<Reading, Memory>
        requires { IsSoundSoFar self }
        ensures sound { IfOk result IsSound }
        ensures image { IfOk result (λ last. text_image last ≡ placed text_eq (places_so_far self) (image_so_far self)) }
    {
        places_by_numbers();
        let Progress { names, draft } = self;
        names_differ(&names);
        let draft = Box::into_inner(draft).finish(alloc)?;
        Ok(Reading { names, draft })
    }
}

/// Why a chunk was not taken.
pub(crate) enum Stop {
    /// It is refused.
    Refused(ImageCause),
    /// Want of memory.
    Memory,
}

impl From<Memory> for Stop {
    ghost from_gives = { λ _ e. e ≡ stop.Memory };

    fn from(_error: Memory) -> Stop {
        Stop::Memory
    }
}
