//! A line of a makefile as make reads it.

use cc_names::texts::Text;

/// A line, with what a backslash before its newline joins to it, and the number of its first line.
#[derive(Drop)]
pub struct LogicalLine {
    pub number: u32,
    pub bytes: Text,
}
