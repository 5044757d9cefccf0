// Methods in runs.
ghost use Rattle.std.specs.Prelude.{◌≡◌, ◌++◌, [], codes, None, unwrap_or, option_map, IfOk, OnOk};
ghost use Rattle.rb_base.specs.Names.{text_eq, name_at};
ghost use Rattle.text_model.specs.Literals.{quoted_text};
ghost use Rattle.class_table.specs.View.{class_name, image_of};
ghost use Rattle.class_table.specs.Valid.{IsLive};
ghost use Rattle.file_model.specs.Written.{is_one_run, side_text, run_start, method_opening, methods_text, user_methods};
ghost use Rattle.image_file.specs.Writable.{IsWritable};
ghost use Rattle.image_file.specs.Runs.{run_text, IsUserMethodAt};

use crate::strings::{write_ended_chunk, write_string};
use class_table::{ClassId, Image, MethodSlot};
use rb_base::{Memory, Text};
use std::alloc::Global;

/// A method of the user as it is written.
#[derive(Clone, Copy)]
pub struct UserMethod<'a> {
    pub class: &'a [u8],
    pub meta: bool,
    pub protocol: &'a [u8],
    pub source: &'a [u8],
}

/// The text of the name of a live class, or nothing where its slot is not there.
fn class_name(image: &Image, class: ClassId) -> &[u8]
    requires writable { IsWritable image.now }
    requires live { IsLive image.now.class_order class }
    ensures { result.now ≡ unwrap_or (option_map (name_at image.now.names) (class_name image.now.classes class)) [] }
{
    match image.class_rec(class) {
        None => b"",
        Some(rec) => image.names().text_of(rec.name),
    }
}

/// The method in a slot, if it is one of the user.
pub fn user_method(image: &Image, slot: MethodSlot) -> Option<UserMethod<'_>>
    requires writable { IsWritable image.now }
    requires live { IsLive image.now.method_order slot }
    ensures { IsUserMethodAt image.now slot result }
{
    match image.method_info(slot) {
        None => None,
        Some(info) => {
            if info.kernel {
                return None;
            }
            Some(UserMethod {
                class: class_name(image, info.class),
                meta: info.meta,
                protocol: info.protocol,
                source: info.source,
            })
        }
    }
}

/// Whether two texts are equal.
fn same(a: &[u8], b: &[u8]) -> bool
    ensures { result ≡ text_eq a.now b.now }
{
    a == b
}

/// Whether two methods stand in one run: they have one class, one side and one protocol.
fn is_one_run(before: &UserMethod<'_>, method: &UserMethod<'_>) -> bool
    ensures { result ≡ is_one_run (run_text before.now) (run_text method.now) }
{
    same(before.class, method.class)
        && before.meta == method.meta
        && same(before.protocol, method.protocol)
}

/// Appends the class or the class side of a method.
pub fn write_side(method: &UserMethod<'_>, out: &mut Text) -> Result<(), Memory>
    ensures { OnOk result (out.new ≡ out.old ++ side_text (run_text method.now)) }
{
    out.push_slice(method.class)?;
    if method.meta {
        out.push_slice(b" class")?;
    }
    Ok(())
}

/// The message by which the run of a method begins.
pub fn run_source(alloc: Global, method: &UserMethod<'_>) -> Result<Text, Memory>
    ensures { IfOk result (λ source. source ≡ side_text (run_text method.now) ++ codes " methodsFor: " ++ quoted_text method.now.protocol.now) }
{
    let mut source = Text::new(alloc);
    write_side(method, &mut source)?;
    source.push_slice(b" methodsFor: ")?;
    write_string(method.protocol, &mut source)?;
    Ok(source)
}

/// Appends the beginning of the run of a method.
fn write_run_start(alloc: Global, method: &UserMethod<'_>, out: &mut Text) -> Result<(), Memory>
    ensures { OnOk result (out.new ≡ out.old ++ run_start (run_text method.now)) }
{
    let source = run_source(alloc, method)?;
    out.push_slice(b"!")?;
    write_ended_chunk(alloc, source.as_slice(), out)?;
    out.push_slice(b"\n")
}

/// Appends what stands before a method, behind another one.
fn write_opening(
    alloc: Global,
    before: &Option<UserMethod<'_>>,
    method: &UserMethod<'_>,
    out: &mut Text,
) -> Result<(), Memory>
    ensures { OnOk result (out.new ≡ out.old ++ method_opening (option_map run_text before.now) (run_text method.now)) }
{
    match before {
        None => write_run_start(alloc, method, out),
        Some(before) => {
            if is_one_run(before, method) {
                return out.push_slice(b"\n\n");
            }
            out.push_slice(b" !\n\n")?;
            write_run_start(alloc, method, out)
        }
    }
}

/// Appends the methods of the user in runs.
pub(crate) fn write_methods(alloc: Global, image: &Image, out: &mut Text) -> Result<(), Memory>
    requires { IsWritable image.now }
    ensures { OnOk result (out.new ≡ out.old ++ methods_text None (user_methods (image_of image.now))) }
{
    let mut before = None;
    for slot in image.methods() {
        match user_method(image, *slot) {
            None => {}
            Some(method) => {
                write_opening(alloc, &before, &method, out)?;
                write_ended_chunk(alloc, method.source, out)?;
                before = Some(method);
            }
        }
    }
    if before.is_some() {
        out.push_slice(b" !\n\n")?;
    }
    Ok(())
}
