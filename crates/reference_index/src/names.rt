// Names in order.
ghost use Rattle.std.specs.Prelude.{◌≡◌, nat_eq};
ghost use Rattle.std.specs.List.{list_any};
ghost use Rattle.std.specs.List.Sorted.{IsStrictlyIncreasing};

use rb_base::NameId;

/// Whether a name is among names that rise. Each step halves those that are left.
pub fn is_among(name: NameId, names: &[NameId]) -> bool
    requires { IsStrictlyIncreasing names.now }
    ensures { result ≡ list_any (nat_eq name) names.now }
{
    names.binary_search_by(|other| other.0.cmp(&name.0)).is_ok()
}
