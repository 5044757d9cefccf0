// Messages that parts of the user's methods are.
ghost use Rattle.std.specs.Prelude.{◌≡◌, option_map};
ghost use Rattle.st_tree.specs.View.{method_of};
ghost use Rattle.class_table.specs.Slots.{Slots};
ghost use Rattle.command_model.specs.Places.{sent_by};
ghost use Rattle.part_questions.specs.Codes.{entry_of};
ghost use Rattle.part_questions.specs.Parts.{part_of};
ghost use Rattle.inlined_code.specs.Sending.{send_of};
ghost use Rattle.inline_questions.specs.Codes.{code_alone};
ghost use Rattle.users_methods.specs.Users.{entry_in};

use inlined_code::{Sent, sent_by};
use part_lookup::UsersPart;
use part_questions::MethodCode;
use st_tree::Part;
use users_methods::UsersMethod;

/// The message that the part is, if it is one.
pub fn sent_of<'a>(found: &'a UsersPart<'_>) -> Option<Sent<'a>>
    ensures sent { option_map send_of result ≡ sent_by (method_of found.now.method.tree.now) (part_of found.now.part) }
{
    match &found.part {
        Part::Expression { path } => sent_by(found.method.tree, path),
        Part::Run { .. } => None,
    }
}

/// The code of the method.
pub fn code_of<'a>(method: &UsersMethod<'a>) -> MethodCode<'a>
    ensures code { (s : Slots) → entry_of s result ≡ code_alone (entry_in s.classes method.now) }
    ensures class { result.class ≡ method.now.class }
{
    MethodCode {
        class: method.class,
        meta: method.meta,
        tree: method.tree,
    }
}
