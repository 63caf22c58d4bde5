//! Values whose past can be known.

/// A value with a story: a list that its type defines, and that only proofs read.
///
/// A story only grows: who takes a value from a lock gives it back with a story that begins with the one found.
/// Nothing is said of what a step of a story means. That is left to the value's own type.
pub trait Storied {
    ghost use Rattle.std.specs.Prelude.{List};

    /// What one step of a story tells. No value of it is ever made.
    type Step;

    ghost story: { Self → List Self.Step };
}
