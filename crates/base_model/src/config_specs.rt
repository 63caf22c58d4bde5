//! What the lines of a config spec say, as plain data: the definitions of its grammar speak of these.

use cc_names::selection::Rule;

/// What a line of a config spec says.
#[derive(Drop)]
pub enum Line {
    /// Nothing: the line is blank or a comment.
    Skipped,
    /// A block of rules with this time begins.
    BeginsBlock(u64),
    /// The innermost open block ends.
    EndsBlock,
    /// A rule.
    Gives(Rule),
}

/// Which option a word names.
#[derive(Clone, Copy)]
pub enum Named {
    Time,
    NoCheckout,
    MkBranch,
    Unknown,
}
