// That what classes and selectors are called after commands is told where there is memory; no clause says so.
ghost use Rattle.std.specs.Prelude.{◌≡◌, ◌<◌, length, IfSome};
ghost use Rattle.class_table.specs.Valid.{IsOrderly};
ghost use Rattle.wider_slots.specs.Closed.{IsClosed};
ghost use Rattle.command_numbers.specs.CommandNames.{CommandNames};
ghost use Rattle.commands.specs.Views.{renaming_command, HasSelf};
ghost use Rattle.session.specs.Log.{IsLogOf};

use class_table::Image;
use commands::{Action, Command, Renaming, Request};
use file_reading::read_image;
use new_names::NewName;
use rb_base::{Names, Steps};
use session::{AllRenames, Session};
use std::alloc::Global;
use std::marker::Brand;
use std::sync::ledger::{Blank, Ledger};
use wider_slots::law_closed;

/// A class with one method. The names that the commands ask for are a message and a temporary each, so that nothing is called so.
const FILE: &[u8] =
    b"Object subclass: #A instanceVariableNames: '' classVariableNames: '' poolDictionaries: ''
    category: ''! !A methodsFor: ''! foo | bar baz | ^self B C! !";

/// What has a name, and its new name.
type Row = (&'static [u8], &'static [u8]);

const CLASSES: &[Row] = &[(b"A", b"B"), (b"B", b"C")];

const SELECTORS: &[Row] = &[(b"foo", b"bar"), (b"bar", b"baz")];

/// What the class had as names, with its last one.
const CLASSES_CALLED: &[Row] = &[(b"A", b"C"), (b"B", b"C")];

/// The same of the selector.
const SELECTORS_CALLED: &[Row] = &[(b"foo", b"baz"), (b"bar", b"baz")];

/// The image of the file.
fn image_in(alloc: Global) -> Option<Image>
    ensures orderly { IfSome result IsOrderly }
    ensures closed { IfSome result IsClosed }
{
    law_closed();
    match read_image(alloc, FILE) {
        Ok(image) => Some(image),
        Err(_) => None,
    }
}

/// The renaming of a row, of classes or of selectors; none if the image has not both names.
fn renaming_of(image: &Image, of_classes: bool, row: Row) -> Option<Renaming>
    ensures { IfSome result (λ r. CommandNames (λ n. n < length image.now.names) (renaming_command r)) }
{
    let from = image.names().find(row.0)?;
    let to = image.names().find(row.1)?;
    if of_classes {
        Some(Renaming::Class { class: from, to })
    } else {
        Some(Renaming::Selector { selector: from, to })
    }
}

/// Whether the renaming of the row is done.
fn is_done<L: Ledger>(
    session: &mut Session,
    image: &mut Image,
    of_classes: bool,
    row: Row,
    steps: &mut Steps<L>,
) -> bool
    requires log { IsLogOf image.old session.old }
    requires self_known { HasSelf image.old.names }
    ensures log { IsLogOf image.new session.new }
    ensures self_known { HasSelf image.new.names }
{
    let Some(renaming) = renaming_of(image, of_classes, row) else {
        return false;
    };
    let request = Request::Perform(Action::Single(Command::Rename(renaming)));
    session.step(image, request, steps).is_ok()
}

/// Whether the renamings of all rows are done, one after the other.
fn are_done<L: Ledger>(
    session: &mut Session,
    image: &mut Image,
    of_classes: bool,
    rows: &[Row],
    steps: &mut Steps<L>,
) -> bool
    requires log { IsLogOf image.old session.old }
    requires self_known { HasSelf image.old.names }
    ensures log { IsLogOf image.new session.new }
    ensures self_known { HasSelf image.new.names }
{
    for row in rows {
        if !is_done(session, image, of_classes, *row, steps) {
            return false;
        }
    }
    true
}

/// What a session tells after the renamings; nothing if one of them is not done.
fn told<L: Ledger>(alloc: Global, image: &mut Image, blank: Blank) -> Option<AllRenames>
    requires orderly { IsOrderly image.old }
    requires closed { IsClosed image.old }
    requires name { blank.name ≡ L.name }
    requires parts { blank.parts ≡ L.parts }
    requires some { 0 < L.parts }
{
    let _self_name = image.names().find(b"self")?;
    let mut steps = Steps::<L>::new(blank);
    let mut session = Session::new(alloc);
    let Ok(()) = session.open(image, &mut steps) else {
        return None;
    };
    if !are_done(&mut session, image, true, CLASSES, &mut steps) {
        return None;
    }
    if !are_done(&mut session, image, false, SELECTORS, &mut steps) {
        return None;
    }
    session.renames(alloc).ok()
}

/// Whether the new names are those of the rows.
fn are_so(names: &Names, found: &[NewName], rows: &[Row]) -> bool {
    found.len() == rows.len()
        && found.iter().zip(rows).all(|(new, (from, to))| {
            names.find(from) == Some(new.from) && names.find(to) == Some(new.to)
        })
}

/// Whether it is told what the class and the selector are called, and what each command renames.
fn are_told(alloc: Global) -> bool {
    let Some(mut image) = image_in(alloc) else {
        return false;
    };
    match told::<Brand>(alloc, &mut image, Blank::new(1)) {
        Some(renames) => {
            are_so(image.names(), &renames.classes, CLASSES_CALLED)
                && are_so(image.names(), &renames.selectors, SELECTORS_CALLED)
                && renames.commands.len() == 4
        }
        None => false,
    }
}

#[test]
fn what_is_renamed_is_told(rt: HostRuntime) {
    assert!(rt; are_told(rt.alloc()));
}
