// Whether what is of the kernel stands in front.
ghost use Rattle.std.specs.Prelude.{◌≡◌, ◌&&◌, not, false};
ghost use Rattle.std.specs.List.{list_any};
ghost use Rattle.std.specs.Option.{option_map_or};
ghost use Rattle.image_draft.specs.Fronts.{in_front};
ghost use Rattle.image_draft.specs.MethodSlots.{those_there};
ghost use Rattle.image_draft.specs.declared.method_draft.MethodDraft.{MethodDraft};

use crate::boxed_class::BoxedClass;
use crate::method_draft::MethodDraft;

/// Whether one of these classes is of the kernel.
fn has_kernel_class(classes: &[BoxedClass]) -> bool
    ensures { result ≡ list_any (λ c. c.kernel) classes.now }
{
    classes.iter().any(|class| class.class().kernel)
}

/// Whether no class of the kernel stands behind one of the user.
pub fn kernel_classes_first(classes: &[BoxedClass]) -> bool
    ensures { result ≡ in_front (λ c. c.kernel) classes.now }
{
    let mut rest = classes;
    while let Some((class, others)) = rest.split_first() {
        if !class.class().kernel {
            return !has_kernel_class(others);
        }
        rest = others;
    }
    true
}

/// Whether a slot has a method of the kernel.
fn is_kernel_slot(slot: &Option<MethodDraft>) -> bool
    ensures { result ≡ option_map_or (λ (m : MethodDraft). m.kernel) slot.now false }
{
    match slot {
        None => false,
        Some(method) => method.kernel,
    }
}

/// Whether a slot has a method of the user.
fn is_user_slot(slot: &Option<MethodDraft>) -> bool
    ensures { result ≡ option_map_or (λ (m : MethodDraft). not m.kernel) slot.now false }
{
    match slot {
        None => false,
        Some(method) => !method.kernel,
    }
}

/// Whether one of these slots has a method of the kernel.
fn has_kernel_slot(slots: &[Option<MethodDraft>]) -> bool
    ensures { result ≡ list_any (λ m. m.kernel) (those_there slots.now) }
{
    let mut rest = slots;
    while let Some((slot, others)) = rest.split_first() {
        if is_kernel_slot(slot) {
            return true;
        }
        rest = others;
    }
    false
}

/// Whether no method of the kernel stands behind one of the user.
pub fn kernel_slots_first(slots: &[Option<MethodDraft>]) -> bool
    ensures { result ≡ in_front (λ m. m.kernel) (those_there slots.now) }
{
    let mut rest = slots;
    while let Some((slot, others)) = rest.split_first() {
        if is_user_slot(slot) {
            return !has_kernel_slot(others);
        }
        rest = others;
    }
    true
}
