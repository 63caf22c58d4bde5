//! What a script of a makefile expands to.

use cc_names::texts::Text;

/// A script whose macros were expanded.
#[derive(Debug, Drop)]
pub enum Expanded {
    /// It passes 65,536 bytes.
    TooLong,
    /// Its lines, each ended by a newline.
    Lines(Text),
}
