// The methods of the user for a class, a side and a selector.
ghost use Rattle.std.specs.Prelude.{◌≡◌, Some, option_map};
ghost use Rattle.std.specs.Option.{ForSome};
ghost use Rattle.class_table.specs.Valid.{IsLive, IsOrderly};
ghost use Rattle.class_table.specs.View.{class_name, number_image};
ghost use Rattle.command_model.specs.CodeEffects.{method_at};
ghost use Rattle.commands.specs.Views.{asked_by};
ghost use Rattle.users_methods.specs.Users.{entry_in};
ghost use Rattle.users_methods.specs.declared.methods.UsersMethod.{UsersMethod};

use class_table::{ClassId, Image};
use commands::MethodName;
use hierarchy_questions::own_method;
use rb_base::Steps;
use st_tree::Method;
use std::sync::ledger::Ledger;

/// A method of the user.
#[derive(Clone, Copy)]
pub struct UsersMethod<'a> {
    pub class: ClassId,
    /// Whether it is a method of the class side.
    pub meta: bool,
    pub protocol: &'a [u8],
    pub source: &'a [u8],
    pub tree: &'a Method,
}

/// The method of these names, if the class itself has it and it is one of the user. Counts at most one step.
pub fn users_method<'a, L: Ledger>(
    image: &'a Image,
    method: MethodName,
    steps: &mut Steps<L>,
) -> Option<UsersMethod<'a>>
    requires { IsOrderly image.now }
    ensures method { option_map (entry_in image.now.classes) result ≡ method_at (asked_by image.now.names) (number_image image.now) method.class method.meta method.selector }
    ensures live { ForSome result (λ (m : UsersMethod). IsLive image.now.class_order m.class) }
    ensures named { ForSome result (λ (m : UsersMethod). class_name image.now.classes m.class ≡ Some method.class) }
{
    let slot = own_method(image, method)?;
    let Some(info) = image.method_info(slot) else {
        return None;
    };
    if info.kernel {
        return None;
    }
    let tree = image.open_body(slot, steps)?;
    Some(UsersMethod {
        class: info.class,
        meta: info.meta,
        protocol: info.protocol,
        source: info.source,
        tree,
    })
}
