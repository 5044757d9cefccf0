// Comments behind a pointer.
ghost use Rattle.std.specs.Prelude.{◌≡◌, [], IfOk};

use rb_base::Memory;
use st_tree::Comments;
use std::alloc::Global;
use std::marker::Model;

/// Comments where there seldom are any: they stand in memory of their own, and none take no memory. Contracts see the
/// list of the comments.
#[derive(Drop)]
pub struct BoxedComments {
    alloc: Global,
    comments: Option<Box<Comments>>,
}

impl Model for BoxedComments {
    ghost use Rattle.std.specs.Prelude.{ℕ, List};
    ghost use Rattle.parse_events.specs.Boxed.{comments_of};

    ghost Value = { List (List ℕ) };

    ghost view = { λ a. comments_of a.comments };
}

impl BoxedComments {
    /// The same comments.
    #[inline]
    pub fn new(alloc: Global, comments: Comments) -> Result<BoxedComments, Memory>
        ensures { IfOk result (λ boxed. boxed ≡ comments) }
    {
        if comments.as_slice().is_empty() {
            return Ok(BoxedComments {
                alloc,
                comments: None,
            });
        }
        Ok(BoxedComments {
            alloc,
            comments: Some(Box::new(alloc, comments)?),
        })
    }

    /// The same comments.
    #[inline]
    pub fn into_comments(self) -> Comments
        ensures { result ≡ self }
    {
        let BoxedComments { alloc, comments } = self;
        match comments {
            Some(comments) => Box::into_inner(comments),
            None => Comments::new(alloc),
        }
    }
}
