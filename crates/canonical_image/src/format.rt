// The sources of an image made canonical.
ghost use Rattle.std.specs.Prelude.{◌≡◌, ◌<◌, length, map, slice_get, take, ℕ, IfOk, OnOk, OnErr};
ghost use Rattle.std.specs.Option.{ForSome};
ghost use Rattle.class_table.specs.Changing.{changed_at};
ghost use Rattle.class_table.specs.View.{live_at, image_of};
ghost use Rattle.class_table.specs.Valid.{IsLive, IsOrderly};
ghost use Rattle.canonical_image.specs.Formatted.{formatted};
ghost use Rattle.canonical_image.specs.Sources.{method_text, doit_text, canonical_rec, canonical_doit_rec, all_changed, first_changed, formatted_to, is_user, KnowsMethod, KnowsDoIt};

use class_table::{Image, MethodSlot, Place};
use rb_base::{Memory, Steps, Text};
use st_formatter::{format_doit, format_method};
use std::alloc::Global;
use std::marker::Brand;
use std::sync::ledger::{Blank, Ledger};

/// Whether the method in a slot is one of the user.
fn is_user(image: &Image, slot: MethodSlot) -> bool
    ensures { result ≡ is_user (live_at image.now.methods image.now.method_order slot) }
{
    match image.method_info(slot) {
        None => false,
        Some(info) => !info.kernel,
    }
}

/// The canonical text of the method in a slot, and nothing where the slot is not live.
fn method_text<L: Ledger>(
    alloc: Global,
    image: &Image,
    slot: MethodSlot,
    steps: &mut Steps<L>,
) -> Result<Text, Memory>
    requires { ForSome (live_at image.now.methods image.now.method_order slot) (KnowsMethod image.now.names) }
    ensures { IfOk result (λ text. ForSome (live_at image.now.methods image.now.method_order slot) (λ m. text ≡ method_text image.now.names m)) }
{
    let mut text = Text::new(alloc);
    if let Some(method) = image.open_body(slot, steps) {
        format_method(alloc, method, image.names(), &mut text)?;
    }
    Ok(text)
}

/// Makes the source of the method in a live slot canonical, if it is one of the user.
fn format_slot<L: Ledger>(
    alloc: Global,
    image: &mut Image,
    slot: MethodSlot,
    steps: &mut Steps<L>,
) -> Result<(), Memory>
    requires orderly { IsOrderly image.old }
    requires live { IsLive image.old.method_order slot }
    ensures methods { OnOk result (image.new ≡ record image.old { methods = changed_at (canonical_rec image.old.names) image.old.methods slot }) }
    ensures kept { OnErr result (image.new ≡ image.old) }
{
    if is_user(image, slot) {
        let mut source = method_text(alloc, image, slot, steps)?;
        image.swap_source(Place::Method(slot), &mut source);
    }
    Ok(())
}

/// Makes the sources of all methods of the user canonical.
fn format_methods<L: Ledger>(
    alloc: Global,
    image: &mut Image,
    steps: &mut Steps<L>,
) -> Result<(), Memory>
    requires { IsOrderly image.old }
    ensures orderly { IsOrderly image.new }
    ensures methods { OnOk result (image.new ≡ record image.old { methods = all_changed (canonical_rec image.old.names) image.old.methods image.old.method_order }) }
    ensures part { OnErr result ((p : ℕ) × (image.new ≡ record image.old { methods = all_changed (canonical_rec image.old.names) image.old.methods (take p image.old.method_order) })) }
{
    let mut place = 0;
    while place < image.methods().len() {
        let slot = image.methods()[place];
        format_slot(alloc, image, slot, steps)?;
        place += 1;
    }
    Ok(())
}

/// The canonical text of the do-it of a number, and nothing where there is none.
fn doit_text<L: Ledger>(
    alloc: Global,
    image: &Image,
    number: usize,
    steps: &mut Steps<L>,
) -> Result<Text, Memory>
    requires { ForSome (slice_get image.now.doits number) (KnowsDoIt image.now.names) }
    ensures { IfOk result (λ text. ForSome (slice_get image.now.doits number) (λ d. text ≡ doit_text image.now.names d)) }
{
    let mut text = Text::new(alloc);
    if let Some(body) = image.open_doit(number, steps) {
        format_doit(alloc, body, image.names(), &mut text)?;
    }
    Ok(text)
}

/// Makes the source of the do-it of a number canonical.
fn format_number<L: Ledger>(
    alloc: Global,
    image: &mut Image,
    number: usize,
    steps: &mut Steps<L>,
) -> Result<(), Memory>
    requires known { ForSome (slice_get image.old.doits number) (KnowsDoIt image.old.names) }
    requires there { number < length image.old.doits }
    ensures doits { OnOk result (image.new ≡ record image.old { doits = changed_at (canonical_doit_rec image.old.names) image.old.doits number }) }
    ensures kept { OnErr result (image.new ≡ image.old) }
{
    let mut source = doit_text(alloc, image, number, steps)?;
    image.swap_source(Place::DoIt(number), &mut source);
    Ok(())
}

/// Makes the sources of all do-its canonical.
fn format_doits<L: Ledger>(
    alloc: Global,
    image: &mut Image,
    steps: &mut Steps<L>,
) -> Result<(), Memory>
    requires { IsOrderly image.old }
    ensures orderly { IsOrderly image.new }
    ensures doits { OnOk result (image.new ≡ record image.old { doits = map (canonical_doit_rec image.old.names) image.old.doits }) }
    ensures part { OnErr result ((n : ℕ) × (image.new ≡ record image.old { doits = first_changed (canonical_doit_rec image.old.names) n image.old.doits })) }
{
    let mut number = 0;
    while number < image.doits() {
        format_number(alloc, image, number, steps)?;
        number += 1;
    }
    Ok(())
}

/// Makes all sources canonical, and counts the trees that it opens.
fn format_counted<L: Ledger>(alloc: Global, image: &mut Image, blank: Blank) -> Result<(), Memory>
    requires orderly { IsOrderly image.old }
    requires name { blank.name ≡ L.name }
    requires parts { blank.parts ≡ L.parts }
    requires some { 0 < L.parts }
    ensures formatted { OnOk result (image_of image.new ≡ formatted (image_of image.old)) }
    ensures orderly { IsOrderly image.new }
    ensures part { OnErr result ((p : ℕ) × (n : ℕ) × (image.new ≡ formatted_to image.old p n)) }
{
    let mut steps = Steps::<L>::new(blank);
    format_methods(alloc, image, &mut steps)?;
    format_doits(alloc, image, &mut steps)
}

/// Gives each method and each do-it of the user the canonical text of its tree as source; methods of the kernel, classes,
/// names and the order of all stay as they are. On want of memory the sources of the first methods and of the first do-its are
/// canonical, as many as there was memory for, and the others are as they were.
pub fn format_image(alloc: Global, image: &mut Image) -> Result<(), Memory>
    requires { IsOrderly image.old }
    ensures formatted { OnOk result (image_of image.new ≡ formatted (image_of image.old)) }
    ensures orderly { IsOrderly image.new }
    ensures part { OnErr result ((p : ℕ) × (n : ℕ) × (image.new ≡ formatted_to image.old p n)) }
{
    format_counted::<Brand>(alloc, image, Blank::new(1))
}
