// Texts whose gaps are filled.
ghost use Rattle.std.specs.Prelude.{◌≡◌, IfOk};

use crate::backward::Backward;
use crate::trees::{DEPTH, write_expression};
use rb_base::Memory;

/// The bytes of a text, with its gaps filled from the first to the last.
pub(crate) fn written(text: &mut Backward<'_, '_>) -> Result<Vec<u8>, Memory>
    ensures { IfOk result (λ bytes. bytes.items ≡ text.old) }
{
    let mut done = Vec::new(text.alloc());
    // No memory holds a tree with so many gaps.
    for _ in 0..u64::MAX {
        match text.take_gap(&mut done)? {
            None => return Ok(done),
            Some(gap) => {
                write_expression(gap.node, gap.level, DEPTH, gap.names, text)?;
            }
        }
    }
    Err(Memory)
}
