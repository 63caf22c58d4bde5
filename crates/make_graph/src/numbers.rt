//! What makes a path, by its number.

pub(crate) use make_text::numbers::{Numbers, number, number_all};
