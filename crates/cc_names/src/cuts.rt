//! Where a text is cut into lines, and a line into words.

ghost use Rattle.std.specs.Prelude.{◌≡◌, ◌<◌, [], ◌∷◌, MatchOption, IfSome, true, ◌⊎◌, length};
ghost use Rattle.std.specs.List.{position};
ghost use Rattle.cc_names.specs.Cuts.{is_blank, is_newline, lines_of, words_of, starts_with_word, before, behind};

use std::marker::Model;

/// Whether a byte is a space or a tab.
pub fn is_blank(byte: u8) -> bool
    ensures { result ≡ is_blank byte }
{
    matches!(byte, b' ' | b'\t')
}

/// Where the first newline stands.
pub fn first_newline(bytes: &[u8]) -> Option<usize>
    ensures place { result ≡ position is_newline bytes.now }
    ensures within { IfSome result (λ place. place < length bytes.now) }
{
    bytes.iter().position(|byte| *byte == b'\n')
}

fn first_blank(bytes: &[u8]) -> Option<usize>
    ensures place { result ≡ position is_blank bytes.now }
    ensures within { IfSome result (λ place. place < length bytes.now) }
{
    bytes.iter().position(|byte| is_blank(*byte))
}

/// What stands before a place and what after it; all and nothing where there is no place.
fn cut_at(bytes: &[u8], place: Option<usize>) -> (&[u8], &[u8])
    requires { IfSome place (λ end. end < length bytes.now) }
    ensures { (result.0.now ≡ before bytes.now place) × (result.1.now ≡ behind bytes.now place) }
{
    match place {
        Some(end) => (&bytes[..end], &bytes[end + 1..]),
        None => (bytes, &[]),
    }
}

/// The lines that are left of a text. Contracts see them as the list of their bytes.
pub struct Lines<'a> {
    rest: &'a [u8],
}

impl<'a> Model for Lines<'a> {
    ghost use Rattle.std.specs.Prelude.{List, ℕ};
    ghost use Rattle.cc_names.specs.Cuts.{lines_of};

    ghost Value = { List (List ℕ) };

    ghost view = { λ s. lines_of s.rest.now };
}

impl Drop for Lines<'_> {
    fn drop(self) {
        let Lines { rest: _ } = self;
    }
}

impl<'a> Lines<'a> {
    /// The lines of a text.
    pub fn of(text: &'a [u8]) -> Lines<'a>
        ensures { result ≡ lines_of text.now }
    {
        Lines { rest: text }
    }

    /// The same lines again.
    pub fn again(&self) -> Lines<'a>
        ensures { result ≡ self.now }
    {
        Lines { rest: self.rest }
    }

    /// The next line, without its newline. Takes time linear in it.
    pub fn next(&mut self) -> Option<&'a [u8]>
        ensures { MatchOption result ((self.old ≡ []) × (self.new ≡ []))
            (λ line. self.old ≡ line.now ∷ self.new) }
    {
        if self.rest.is_empty() {
            return None;
        }
        let (line, rest) = cut_at(self.rest, first_newline(self.rest));
        self.rest = rest;
        Some(line)
    }
}

/// The words that are left of a line. Contracts see them as the list of their bytes.
pub struct Words<'a> {
    rest: &'a [u8],
}

impl<'a> Model for Words<'a> {
    ghost use Rattle.std.specs.Prelude.{List, ℕ};
    ghost use Rattle.cc_names.specs.Cuts.{words_of};

    ghost Value = { List (List ℕ) };

    ghost view = { λ s. words_of s.rest.now };
}

impl Drop for Words<'_> {
    fn drop(self) {
        let Words { rest: _ } = self;
    }
}

impl<'a> Words<'a> {
    /// The words of a line.
    pub fn of(line: &'a [u8]) -> Words<'a>
        ensures { result ≡ words_of line.now }
    {
        Words { rest: line }
    }

    /// The same words again.
    pub fn again(&self) -> Words<'a>
        ensures { result ≡ self.now }
    {
        Words { rest: self.rest }
    }

    /// The next word. Takes time linear in it and the blanks before it.
    pub fn next(&mut self) -> Option<&'a [u8]>
        ensures { MatchOption result ((self.old ≡ []) × (self.new ≡ []))
            (λ word. self.old ≡ word.now ∷ self.new) }
    {
        let rest = past_blanks(self.rest);
        if rest.is_empty() {
            self.rest = rest;
            return None;
        }
        let (word, behind) = cut_at(rest, first_blank(rest));
        self.rest = behind;
        Some(word)
    }
}

/// A line past its first blanks.
fn past_blanks(line: &[u8]) -> &[u8]
    ensures words { words_of result.now ≡ words_of line.now }
    ensures first { (result.now ≡ []) ⊎ (starts_with_word result.now ≡ true) }
{
    let mut rest = line;
    while let Some((byte, behind)) = rest.split_first() {
        if !is_blank(*byte) {
            break;
        }
        rest = behind;
    }
    rest
}
