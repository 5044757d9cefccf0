// The script that renames classes and methods of the image, and the expression that runs the last method.
ghost use Rattle.std.specs.Prelude.{◌≡◌, ◌++◌, OnOk, OnErr};
ghost use Rattle.image_maker.specs.Generated.{pieces, renaming_line, command_lines, script_text, expression_text};

use crate::image::push_numbered;
use rb_base::{Memory, Text};
use std::alloc::Global;

/// How many classes and methods the script renames at most.
const MOST_RENAMED: u32 = 100;

/// Appends the line that renames what has this number.
fn push_renaming(
    alloc: Global,
    old: &str,
    new: &str,
    number: u32,
    out: &mut Text,
) -> Result<(), Memory>
    ensures { OnOk result (out.new ≡ out.old ++ renaming_line old.now new.now number) }
{
    push_numbered(alloc, old, number, out)?;
    push_numbered(alloc, new, number, out)?;
    out.push_slice(b"\n")
}

/// Appends the two lines that rename the class and the method of this number.
fn push_commands(alloc: Global, number: u32, out: &mut Text) -> Result<(), Memory>
    ensures { OnOk result (out.new ≡ out.old ++ command_lines number) }
{
    push_renaming(alloc, "renameClass C", " D", number, out)?;
    push_renaming(alloc, "renameSelector m", " k", number, out)
}

/// Appends the lines that rename so many classes and methods.
fn push_all_commands(alloc: Global, count: u32, out: &mut Text) -> Result<(), Memory>
    ensures { OnOk result (out.new ≡ out.old ++ pieces command_lines count) }
{
    for number in 0..count {
        push_commands(alloc, number + 1, out)?;
    }
    Ok(())
}

/// Appends the script for the image of so many classes, which renames the first hundred classes and methods.
///
/// # Errors
///
/// `Memory` where there is no memory for the script; `out` is then as it was.
pub fn make_script(alloc: Global, count: u32, out: &mut Text) -> Result<(), Memory>
    ensures made { OnOk result (out.new ≡ out.old ++ script_text count) }
    ensures kept { OnErr result (out.new ≡ out.old) }
{
    let mut script = Text::new(alloc);
    push_all_commands(alloc, count.min(MOST_RENAMED), &mut script)?;
    out.push_slice(script.as_slice())
}

/// Appends the expression that sends the last method of the image of so many classes to a new object of its last class.
///
/// # Errors
///
/// `Memory` where there is no memory for the expression; `out` is then as it was.
pub fn make_expression(alloc: Global, count: u32, out: &mut Text) -> Result<(), Memory>
    ensures made { OnOk result (out.new ≡ out.old ++ expression_text count) }
    ensures kept { OnErr result (out.new ≡ out.old) }
{
    let mut expression = Text::new(alloc);
    push_numbered(alloc, "C", count, &mut expression)?;
    push_numbered(alloc, " new m", count, &mut expression)?;
    out.push_slice(expression.as_slice())
}
