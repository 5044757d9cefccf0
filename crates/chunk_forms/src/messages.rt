// What a message to a class says.
ghost use Rattle.std.specs.Prelude.{◌≡◌, nat_eq, codes};
ghost use Rattle.std.specs.List.{starts_with};
ghost use Rattle.rb_base.specs.Names.{name_at};
ghost use Rattle.token_model.specs.declared.kind.Dialect.TheVariants.{Second};
ghost use Rattle.tree_model.specs.Tree.{map_sequence};
ghost use Rattle.st_tree.specs.View.{sequence_of};
ghost use Rattle.file_model.specs.Forms as forms;
ghost use Rattle.chunk_forms.specs.Told.{sent_text, form_text};

use crate::arguments::{one_argument, one_place, string_first};
use crate::definitions::{placed_subclass_form, subclass_form};
use crate::form::ChunkForm;
use crate::sent::{Argument, Sent, is_to_system, sent_in, text_of};
use crate::words::{may_name_all, same_text};
use rb_base::Names;
use st_kernel::is_reserved;
use st_tree::Sequence;

/// What `comment:` says.
fn comment_form<'a>(sent: &Sent<'a>, names: &Names) -> ChunkForm<'a>
    ensures { form_text names.now result ≡ forms.comment_form (name_at names.now sent.now.class) sent.now.meta (forms.the_argument (sent_text names.now sent.now).arguments) }
{
    if sent.meta {
        return ChunkForm::IsUnknown;
    }
    match one_argument(sent.arguments) {
        Argument::String(text) => ChunkForm::Comments {
            class: sent.class,
            text,
        },
        _ => ChunkForm::IsUnknown,
    }
}

/// What `methodsFor:` says.
fn run_form<'a>(sent: &Sent<'a>, names: &Names) -> ChunkForm<'a>
    ensures { form_text names.now result ≡ forms.run_form (name_at names.now sent.now.class) sent.now.meta (forms.the_argument (sent_text names.now sent.now).arguments) }
{
    match one_argument(sent.arguments) {
        Argument::String(protocol) => ChunkForm::Opens {
            class: sent.class,
            meta: sent.meta,
            protocol,
        },
        _ => ChunkForm::IsUnknown,
    }
}

/// What `methodsFor:at:` says.
fn placed_run_form<'a>(sent: &Sent<'a>, names: &Names) -> ChunkForm<'a>
    ensures { form_text names.now result ≡ forms.placed_run_form (name_at names.now sent.now.class) sent.now.meta (sent_text names.now sent.now).arguments }
{
    let Some(protocol) = string_first(sent.arguments) else {
        return ChunkForm::IsUnknown;
    };
    match one_place(protocol.others) {
        None => ChunkForm::IsUnknown,
        Some(place) => ChunkForm::OpensAt {
            class: sent.class,
            meta: sent.meta,
            protocol: protocol.text,
            place,
        },
    }
}

/// What `removeSelector:` says.
fn removal_form<'a>(sent: &Sent<'a>, names: &Names) -> ChunkForm<'a>
    ensures { form_text names.now result ≡ forms.removal_form (name_at names.now sent.now.class) sent.now.meta (forms.the_argument (sent_text names.now sent.now).arguments) }
{
    match one_argument(sent.arguments) {
        Argument::Symbol(selector) => ChunkForm::RemovesMethod {
            class: sent.class,
            meta: sent.meta,
            selector,
        },
        _ => ChunkForm::IsUnknown,
    }
}

/// What `removeClassNamed:` says.
fn class_removal_form<'a>(sent: &Sent<'a>, names: &Names) -> ChunkForm<'a>
    ensures { form_text names.now result ≡ forms.class_removal_form (name_at names.now sent.now.class) sent.now.meta (forms.the_argument (sent_text names.now sent.now).arguments) }
{
    if sent.meta || !same_text(text_of(names, sent.class), b"Smalltalk") {
        return ChunkForm::IsUnknown;
    }
    match one_argument(sent.arguments) {
        Argument::Symbol(name) => ChunkForm::RemovesClass { name },
        _ => ChunkForm::IsUnknown,
    }
}

/// What `instanceVariableNames:` says.
fn class_side_form<'a>(sent: &Sent<'a>, names: &Names) -> ChunkForm<'a>
    ensures { form_text names.now result ≡ forms.class_side_form Second (name_at names.now sent.now.class) sent.now.meta (forms.the_argument (sent_text names.now sent.now).arguments) }
{
    if !sent.meta {
        return ChunkForm::IsUnknown;
    }
    match one_argument(sent.arguments) {
        Argument::String(text) => {
            if may_name_all(text) {
                ChunkForm::SetsClassSide {
                    class: sent.class,
                    names: text,
                }
            } else {
                ChunkForm::IsUnknown
            }
        }
        _ => ChunkForm::IsUnknown,
    }
}

/// What a message to a class says that neither defines a class nor sets variables.
fn other_form<'a>(sent: &Sent<'a>, selector: &[u8], names: &Names) -> ChunkForm<'a>
    ensures { form_text names.now result ≡ forms.other_form (name_at names.now sent.now.class) sent.now.meta selector.now (forms.the_argument (sent_text names.now sent.now).arguments) }
{
    if same_text(selector, b"comment:") {
        comment_form(sent, names)
    } else if same_text(selector, b"methodsFor:") {
        run_form(sent, names)
    } else if same_text(selector, b"removeSelector:") {
        removal_form(sent, names)
    } else if same_text(selector, b"removeClassNamed:") {
        class_removal_form(sent, names)
    } else if is_reserved(selector) {
        ChunkForm::IsUnknown
    } else {
        ChunkForm::Evaluates
    }
}

/// Whether a text begins with the keyword by which a do-it is replaced.
fn begins_replacement(selector: &[u8]) -> bool
    ensures { result ≡ starts_with nat_eq selector.now (codes "replaceDoIt:") }
{
    selector.starts_with(b"replaceDoIt:")
}

/// What a message says that neither defines a class without a place nor sets variables.
fn further_form<'a>(kernel: bool, sent: &Sent<'a>, selector: &[u8], names: &Names) -> ChunkForm<'a>
    requires { selector.now ≡ name_at names.now sent.now.selector }
    ensures { form_text names.now result ≡ forms.further_form kernel (sent_text names.now sent.now) }
{
    if same_text(
        selector,
        b"subclass:instanceVariableNames:classVariableNames:poolDictionaries:category:at:",
    ) {
        placed_subclass_form(kernel, sent, names)
    } else if same_text(selector, b"methodsFor:at:") {
        placed_run_form(sent, names)
    } else if is_to_system(sent, names) && same_text(selector, b"settlePlaces") {
        ChunkForm::Settles
    } else if is_to_system(sent, names) && begins_replacement(selector) {
        ChunkForm::IsUnknown
    } else {
        other_form(sent, selector, names)
    }
}

/// What a message to a class says.
fn sent_form<'a>(kernel: bool, sent: &Sent<'a>, names: &Names) -> ChunkForm<'a>
    ensures { form_text names.now result ≡ forms.sent_form Second kernel (sent_text names.now sent.now) }
{
    let selector = text_of(names, sent.selector);
    if same_text(
        selector,
        b"subclass:instanceVariableNames:classVariableNames:poolDictionaries:category:",
    ) {
        subclass_form(kernel, sent, names)
    } else if same_text(selector, b"instanceVariableNames:") {
        class_side_form(sent, names)
    } else {
        further_form(kernel, sent, selector, names)
    }
}

/// What a chunk says whose source spells this do-it, in the text of the kernel or in a user's. It takes no memory, and its
/// texts are those of the tree's literals.
pub fn chunk_form<'a>(body: &'a Sequence, kernel: bool, names: &Names) -> ChunkForm<'a>
    ensures { form_text names.now result ≡ forms.form_of Second kernel (map_sequence (name_at names.now) (sequence_of body.now)) }
{
    match sent_in(body, names) {
        None => ChunkForm::Evaluates,
        Some(sent) => sent_form(kernel, &sent, names),
    }
}
