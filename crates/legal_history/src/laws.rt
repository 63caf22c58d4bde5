//! The laws that users of the model may rely on, by what they speak of.

pub mod bases;
pub mod builds;
pub mod decisions;
pub mod later;
pub mod outputs;
pub mod records;
pub mod reuse;
pub mod stops;
pub mod stories;
pub mod taken;
