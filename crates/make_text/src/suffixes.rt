//! The suffixes of a makefile.

ghost use Rattle.std.specs.Prelude.{◌≡◌, ◌≤◌, ◌&&◌, true, take, drop, length, fold, position, IfOk, OnOk};
ghost use Rattle.std.specs.List.{IsDistinct, list_all};
ghost use Rattle.std.specs.Str.{bytes_eq};
ghost use Rattle.make_grammar.specs.Contents.{is_pair_of};
ghost use Rattle.make_grammar.specs.Grammar.{first_suffixes};
ghost use Rattle.make_grammar.specs.Macros.{is_among};
ghost use Rattle.make_grammar.specs.Statements.{is_suffix, with_suffixes};
ghost use Rattle.make_grammar.specs.WordPaths.{with_path_once};
ghost use Rattle.make_text.specs.SuffixRules.{before_period, first_length};

use crate::special_targets::first_suffixes;
use cc_names::memory::NoMemory;
use cc_names::paths::Path;
use cc_names::texts::Text;
use indexmap::IndexSet;
use std::alloc::Global;
use std::hash::RandomState;
use std::marker::Model;

/// The suffixes of a makefile, in order, each once: a `.` and then bytes other than `.`. Contracts see the list of them.
#[derive(Drop)]
pub(crate) struct Suffixes {
    texts: IndexSet<Text, RandomState>,
}

impl Model for Suffixes {
    ghost use Rattle.std.specs.Prelude.{◌≡◌, true, List, ℕ};
    ghost use Rattle.std.specs.List.{list_all};
    ghost use Rattle.make_grammar.specs.Statements.{is_suffix};

    ghost Value = { List (List ℕ) };

    ghost view = { λ s. s.texts.keys };

    ghost invariant = { λ s. list_all is_suffix s.texts.keys ≡ true };
}

/// How many bytes stand before the first `.`.
fn before_period(bytes: &[u8]) -> usize
    ensures place { result ≡ before_period bytes.now }
    ensures within { result ≤ length bytes.now }
{
    for (place, byte) in bytes.iter().enumerate() {
        if *byte == b'.' {
            return place;
        }
    }
    bytes.len()
}

/// Bytes cut before the first `.` after their first byte.
pub(crate) fn cut(bytes: &[u8]) -> (&[u8], &[u8])
    ensures first { result.0.now ≡ take (first_length bytes.now) bytes.now }
    ensures second { result.1.now ≡ drop (first_length bytes.now) bytes.now }
{
    match bytes.split_first() {
        Some((_, rest)) => bytes.split_at(before_period(rest) + 1),
        None => (bytes, bytes),
    }
}

impl Suffixes {
    /// Those of a makefile that says nothing of them.
    pub(crate) fn first(alloc: Global, hashing: RandomState) -> Result<Suffixes, NoMemory>
        ensures { IfOk result (λ suffixes. suffixes ≡ first_suffixes) }
    {
        let mut suffixes = Suffixes {
            texts: IndexSet::with_hasher(alloc, hashing),
        };
        suffixes.put_all(alloc, first_suffixes(alloc)?.as_slice())?;
        Ok(suffixes)
    }

    /// Puts a suffix after the others, unless it is there.
    fn put(&mut self, alloc: Global, suffix: &Path) -> Result<(), NoMemory>
        requires { is_suffix suffix.now ≡ true }
        ensures { OnOk result (self.new ≡ with_path_once self.old suffix.now) }
    {
        self.texts
            .insert(Text::from_bytes(alloc, suffix.as_bytes())?)?;
        Ok(())
    }

    /// Puts those of the suffixes that are not there after the others.
    fn put_all(&mut self, alloc: Global, suffixes: &[Path]) -> Result<(), NoMemory>
        requires { list_all is_suffix suffixes.now ≡ true }
        ensures { OnOk result (self.new ≡ fold with_path_once self.old suffixes.now) }
    {
        for suffix in suffixes {
            self.put(alloc, suffix)?;
        }
        Ok(())
    }

    /// Puts the suffixes after `.SUFFIXES` after the others, or leaves none where there are none of these. Takes time linear in
    /// them.
    pub(crate) fn take(&mut self, alloc: Global, suffixes: &[Path]) -> Result<(), NoMemory>
        requires { list_all is_suffix suffixes.now ≡ true }
        ensures { OnOk result (self.new ≡ with_suffixes self.old suffixes.now) }
    {
        if suffixes.is_empty() {
            self.texts.clear();
            return Ok(());
        }
        self.put_all(alloc, suffixes)
    }

    /// How many there are, in constant time.
    pub(crate) fn len(&self) -> usize
        ensures count { result ≡ length self.now }
        ensures apart { IsDistinct bytes_eq self.now }
        ensures suffixes { list_all is_suffix self.now ≡ true }
    {
        self.texts.len()
    }

    /// The place of bytes among the suffixes, if they are one. Takes time linear in them.
    pub(crate) fn place(&self, alloc: Global, bytes: &[u8]) -> Result<Option<usize>, NoMemory>
        ensures { IfOk result (λ place. place ≡ position (bytes_eq bytes.now) self.now) }
    {
        let text = Text::from_bytes(alloc, bytes)?;
        Ok(self.texts.get_index_of(&text))
    }

    /// Whether bytes are a suffix. Takes time linear in them.
    fn has(&self, alloc: Global, bytes: &[u8]) -> Result<bool, NoMemory>
        ensures { IfOk result (λ has. has ≡ is_among self.now bytes.now) }
    {
        let text = Text::from_bytes(alloc, bytes)?;
        Ok(self.texts.contains(&text))
    }

    /// Whether both are suffixes. Takes time linear in them.
    fn has_both(&self, alloc: Global, from: &[u8], to: &[u8]) -> Result<bool, NoMemory>
        ensures { IfOk result
            (λ both. both ≡ (is_among self.now from.now && is_among self.now to.now)) }
    {
        Ok(self.has(alloc, from)? && self.has(alloc, to)?)
    }

    /// Whether bytes are two suffixes put together. Takes time linear in them: only the first byte of a suffix is a `.`, so the
    /// second begins at the first `.` after their first byte.
    pub(crate) fn has_pair(&self, alloc: Global, bytes: &[u8]) -> Result<bool, NoMemory>
        ensures { IfOk result (λ is_pair. is_pair ≡ is_pair_of self.now bytes.now) }
    {
        let _texts = &self.texts;
        let (from, to) = cut(bytes);
        self.has_both(alloc, from, to)
    }
}
