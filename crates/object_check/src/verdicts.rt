//! What a check finds.

ghost use Rattle.std.specs.Prelude.{◌≡◌, ◌≤◌, IfSome};
ghost use Rattle.object_check.specs.Verdicts.{live_objects};

/// What became of a check of all live objects.
#[derive(Clone, Copy, Debug, PartialEq, Eq)]
pub enum Verdict {
    /// Each live object is what its record gives; there are this many.
    Sound(u64),
    /// This is the first live object that is not.
    Unsound(u64),
}

/// What the row of a number is.
#[derive(Clone, Copy)]
pub(crate) enum Found {
    /// No live object.
    Dead,
    /// A live object that is what its record gives.
    Same,
    /// A live object that is not.
    Other,
}

/// How many live objects a row is, where it is none that is not what its record gives.
pub(crate) fn live_objects(found: Found) -> Option<u64>
    ensures count { result ≡ live_objects found }
    ensures few { IfSome result (λ count. count ≤ 1) }
{
    match found {
        Found::Dead => Some(0),
        Found::Same => Some(1),
        Found::Other => None,
    }
}
