//! Where a byte of a line stands by the macro references in it.

/// Where a byte stands by the macro references.
#[derive(Clone, Copy, Drop)]
pub enum Position {
    /// Outside them.
    Outside,
    /// Directly after a `$`.
    Dollar,
    /// Before this byte, which closes one.
    Within(u8),
}
