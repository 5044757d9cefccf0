// The image: its classes, and then its methods.
ghost use Rattle.std.specs.Prelude.{◌≡◌, ◌++◌, OnOk, OnErr};
ghost use Rattle.image_maker.specs.Generated.{pieces, numbered, superclass_name, definition_text, body_text, source_text, run_text, image_text};

use rb_base::{Memory, Text};
use std::alloc::Global;

/// Appends a text, and behind it a number in decimal.
pub(crate) fn push_numbered(
    alloc: Global,
    text: &str,
    number: u32,
    out: &mut Text,
) -> Result<(), Memory>
    ensures { OnOk result (out.new ≡ out.old ++ numbered text.now number) }
{
    let digits = format!(in alloc; "{number}")?;
    out.push_slice(text.as_bytes())?;
    out.push_slice(digits.as_bytes())
}

/// Appends the name of the superclass of the class of this number.
fn push_superclass(alloc: Global, number: u32, out: &mut Text) -> Result<(), Memory>
    ensures { OnOk result (out.new ≡ out.old ++ superclass_name number) }
{
    if number == 1 {
        out.push_slice(b"Object")
    } else {
        push_numbered(alloc, "C", number / 2, out)
    }
}

/// Appends the definition of the class of this number.
fn push_definition(alloc: Global, number: u32, out: &mut Text) -> Result<(), Memory>
    ensures { OnOk result (out.new ≡ out.old ++ definition_text number) }
{
    push_superclass(alloc, number, out)?;
    push_numbered(alloc, " subclass: #C", number, out)?;
    out.push_slice(
        b"\n\tinstanceVariableNames: ''\n\tclassVariableNames: ''\n\tpoolDictionaries: ''\n\tcategory: 'Demo'!\n\n",
    )
}

/// Appends what stands behind the selector of the method of this number.
fn push_body(alloc: Global, number: u32, out: &mut Text) -> Result<(), Memory>
    ensures { OnOk result (out.new ≡ out.old ++ body_text number) }
{
    if number == 1 {
        out.push_slice(b"1")
    } else {
        push_numbered(alloc, "self m", number / 2, out)?;
        push_numbered(alloc, " + ", number, out)
    }
}

/// Appends the source of the method of this number.
fn push_source(alloc: Global, number: u32, out: &mut Text) -> Result<(), Memory>
    ensures { OnOk result (out.new ≡ out.old ++ source_text number) }
{
    push_numbered(alloc, "m", number, out)?;
    out.push_slice(b" ^")?;
    push_body(alloc, number, out)
}

/// Appends the run of the method of this number.
fn push_run(alloc: Global, number: u32, out: &mut Text) -> Result<(), Memory>
    ensures { OnOk result (out.new ≡ out.old ++ run_text number) }
{
    push_numbered(alloc, "!C", number, out)?;
    out.push_slice(b" methodsFor: 'demo'!\n")?;
    push_source(alloc, number, out)?;
    out.push_slice(b"! !\n\n")
}

/// Appends the definitions of so many classes.
fn push_definitions(alloc: Global, count: u32, out: &mut Text) -> Result<(), Memory>
    ensures { OnOk result (out.new ≡ out.old ++ pieces definition_text count) }
{
    for number in 0..count {
        push_definition(alloc, number + 1, out)?;
    }
    Ok(())
}

/// Appends the runs of so many methods.
fn push_runs(alloc: Global, count: u32, out: &mut Text) -> Result<(), Memory>
    ensures { OnOk result (out.new ≡ out.old ++ pieces run_text count) }
{
    for number in 0..count {
        push_run(alloc, number + 1, out)?;
    }
    Ok(())
}

/// Appends the image of so many classes, each with one method, which adds its number to what the method of half its number
/// answers.
///
/// # Errors
///
/// `Memory` where there is no memory for the image; `out` is then as it was.
pub fn make_image(alloc: Global, count: u32, out: &mut Text) -> Result<(), Memory>
    ensures made { OnOk result (out.new ≡ out.old ++ image_text count) }
    ensures kept { OnErr result (out.new ≡ out.old) }
{
    let mut image = Text::new(alloc);
    push_definitions(alloc, count, &mut image)?;
    push_runs(alloc, count, &mut image)?;
    out.push_slice(image.as_slice())
}
