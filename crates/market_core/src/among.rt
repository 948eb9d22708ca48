//! Whether an id is one of some that rise.

ghost use Rattle.std.specs.Prelude.{◌≡◌, ◌==◌};
ghost use Rattle.std.specs.List.{list_any};
ghost use Rattle.wire_in.specs.Bases.{AreRising};

/// Whether an id is one of these, which rise.
pub(crate) fn is_among(ids: &[u16], id: u16) -> bool
    requires { AreRising ids.now }
    ensures { result ≡ list_any (λ t. t == id) ids.now }
{
    ids.binary_search(&id).is_ok()
}
