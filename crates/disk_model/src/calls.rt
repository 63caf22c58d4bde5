//! The trace of device calls that a disk in memory keeps.

use cc_names::texts::Text;

/// A device call that did something.
#[derive(Debug, Drop)]
pub enum Call {
    Length {
        file: u8,
    },
    Read {
        file: u8,
        place: u64,
        size: u64,
    },
    /// This piece was written from a place on.
    Write {
        file: u8,
        place: u64,
        piece: Text,
    },
    /// A write failed: of the piece these bytes landed from a place on, and so many after them were lost.
    Tear {
        file: u8,
        place: u64,
        landed: Text,
        lost: u64,
    },
    Sync {
        file: u8,
    },
}

/// A call that did something, and how many calls directly before it failed and changed nothing: one call of a trace.
#[derive(Debug, Drop)]
pub struct TracedCall {
    pub failed_before: u64,
    pub call: Call,
}
