//! What a run comes to.

use cc_names::lists::List;
use cc_names::paths::Path;
use cc_names::refusals::ScriptFault;
use cc_names::texts::Text;

/// What a run without a fault wrote: an output for each target, in their order.
#[derive(Debug, Drop)]
pub struct Written {
    pub outputs: List<Text>,
}

/// The outcome of a run, and the paths that it read, also those without a file: each once, in the order of the first
/// read.
#[derive(Debug, Drop)]
pub struct Ended {
    pub result: Result<Written, ScriptFault>,
    pub reads: List<Path>,
}
