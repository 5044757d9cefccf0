// What is in the way in a method that a command brings.
ghost use Rattle.std.specs.Prelude.{◌≡◌, ◌++◌, length, OnOk};
ghost use Rattle.image_model.specs.Nodes.{in_method};
ghost use Rattle.st_tree.specs.View.{method_of};
ghost use Rattle.refusal_witnesses.specs.Witnesses.{AtPlace};
ghost use Rattle.witness_lists.specs.declared.nodes.Sought.TheVariants as sought;
ghost use Rattle.witness_lists.specs.Views.{shown};
ghost use Rattle.witness_lists.specs.Walks.{standing_in};

use class_table::Image;
use commands::NewMethod;
use name_questions::is_not_understood;
use rb_base::Memory;
use std::alloc::Global;
use witness_lists::{Owner, Sought, Witness, nodes_that, push_if, text_of};

/// Appends what looks at the program itself in the method that comes: the method, if it is one for messages that are not
/// understood, and nodes. The method has the number then that comes after those of the image.
pub fn reflections_brought(
    alloc: Global,
    image: &Image,
    new: &NewMethod,
    found: &mut Vec<Witness>,
) -> Result<(), Memory>
    ensures { OnOk result (shown image.now found.new.items ≡ shown image.now found.old.items ++ standing_in image.now.names sought.Reflection (AtPlace (in_method (length image.now.method_order))) (method_of new.now.tree)) }
{
    let owner = Owner::Numbered(image.methods().len());
    let is_whole = is_not_understood(text_of(image.names(), new.tree.selector));
    push_if(is_whole, Witness::Whole(owner), found)?;
    let body = &new.tree.body;
    nodes_that(alloc, image, &Sought::Reflection, &owner, body, found)
}
