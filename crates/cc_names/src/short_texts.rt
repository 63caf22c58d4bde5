//! A text that is short enough to stand in the value itself.

ghost use Rattle.std.specs.Prelude.{◌≡◌, ◌≤◌, length};

use std::marker::Model;

/// The most bytes of a short text. With their number and the mark of a longer one, they take four words.
pub(crate) const MOST: usize = 30;

/// A text of at most 30 bytes, which takes no memory beside the value. Contracts see it as its bytes.
#[derive(Debug, Drop)]
pub(crate) struct ShortText {
    length: u8,
    /// The bytes, and after them places that say nothing.
    places: [u8; MOST],
}

impl Model for ShortText {
    ghost use Rattle.std.specs.Prelude.{List, ℕ, ◌≤◌, take};

    ghost Value = { List ℕ };

    ghost view = { λ text. take text.length text.places };

    ghost invariant = { λ text. text.length ≤ 30 };
}

impl ShortText {
    /// The text of these bytes.
    pub(crate) fn of(bytes: &[u8]) -> ShortText
        requires { length bytes.now ≤ 30 }
        ensures { result ≡ bytes.now }
    {
        let mut places = [0; MOST];
        places[..bytes.len()].copy_from_slice(bytes);
        ShortText {
            length: bytes.len() as u8,
            places,
        }
    }

    /// The bytes.
    pub(crate) fn as_bytes(&self) -> &[u8]
        ensures { result.now ≡ self.now }
    {
        &self.places[..self.length as usize]
    }
}
