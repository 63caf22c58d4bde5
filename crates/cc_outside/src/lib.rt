//! The outside of the program: where its bytes come from, where they go, and the clock.
//!
//! What it is for: the traits `Source`, `Sink` and `Clock`, each with ghost state that says what a source has left, what a sink
//! holds or what a clock tells, and how many calls failed or were made; a double in memory of each, for tests; an adapter
//! of each over the standard library; the two calls that move a whole text, `read_whole` and `write_whole`; and the trait
//! `Hook`, which runs of scripts ask before and after, with the hook that does nothing.
//!
//! What it promises: each double and each adapter is proved against its trait. A fault is answered only where the
//! count of faults rose. The adapters show contracts no content: what a file or a terminal gives is known only as it comes.
//!
//! What it stands on: `cc_names` and the standard library.
#![tactic(auto)]

mod clocks;
mod hooks;
mod list_clock;
mod memory_sink;
mod memory_source;
mod sinks;
mod sources;
mod std_sink;
mod std_source;
mod system_clock;

pub use clocks::Clock;
pub use hooks::{Hook, OpenHook};
pub use list_clock::ListClock;
pub use memory_sink::MemorySink;
pub use memory_source::MemorySource;
pub use sinks::{Sink, WriteFault, write_whole};
pub use sources::{ReadFault, Source, Unread, read_whole};
pub use std_sink::StdSink;
pub use std_source::StdSource;
pub use system_clock::SystemClock;
