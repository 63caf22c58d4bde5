//! What a rule line names.

use cc_names::lists::List;
use cc_names::paths::Path;

/// The words of a rule line, and whether its targets are made together. All of them are paths below the root.
#[derive(Drop)]
pub struct RuleWords {
    pub is_group: bool,
    pub targets: List<Path>,
    pub prerequisites: List<Path>,
}
