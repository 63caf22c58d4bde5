//! The texts that `pp` is inside of.

ghost use Rattle.std.specs.Prelude.{◌≡◌, ◌+◌, ◌≤◌, drop, length};

use cc_names::texts::Text;

/// A text that `pp` is inside of, from a place on.
#[derive(Drop)]
pub(crate) struct OpenText {
    pub(crate) text: Text,
    pub(crate) place: usize,
    ghost within: { place ≤ length text },
}

impl OpenText {
    ghost use Rattle.build_script.specs.OpenTexts.{rest_of};

    /// The whole of a text.
    pub(crate) fn of(text: Text) -> OpenText
        ensures { rest_of result ≡ text }
    {
        OpenText { text, place: 0 }
    }

    /// What is left of it.
    pub(crate) fn rest(&self) -> &[u8]
        ensures { result.now ≡ rest_of self.now }
    {
        &self.text.as_bytes()[self.place..]
    }

    /// The same text past so many bytes more.
    pub(crate) fn past(self, count: usize) -> OpenText
        requires { count ≤ length (rest_of self) }
        ensures { rest_of result ≡ drop count (rest_of self) }
    {
        OpenText {
            place: self.place + count,
            text: self.text,
        }
    }
}
