//! What a makefile says.

ghost use Rattle.std.specs.Prelude.{◌≡◌, ℕ, List, Option, IfOk, flat_map, option_copied, unwrap_or, []};
ghost use Rattle.cc_names.specs.Answers.{Gives};
ghost use Rattle.make_grammar.specs.Contents.{unless_too_long, expansion};
ghost use Rattle.make_grammar.specs.Grammar.{makefile_of};
ghost use Rattle.make_grammar.specs.Serving.{prerequisites_of};
ghost use Rattle.make_grammar.specs.Statements.{macros_of};
ghost use Rattle.make_grammar.specs.WordPaths.{each_once};
ghost use Rattle.make_grammar.specs.Macros.{Expansion, is_among, in_script};
ghost use Rattle.make_text.specs.Steps.{automatic_of, IsExpandedText};

use crate::endings::checked_contents;
use crate::expansions::{Automatic, ExpandedText, expand};
use crate::including::read_all;
use crate::macros::MacroTable;
use crate::rules::{MakeRule, SuffixRule};
use cc_names::commands::Macro;
use cc_names::memory::{NoMemory, Or};
use cc_names::paths::Path;
use cc_names::refusals::MakeError;
use cc_names::texts::Text;
use indexmap::IndexSet;
pub use make_grammar::contents::Expanded;
use std::alloc::Global;
use std::hash::RandomState;
use std::marker::Model;
use std::rc::Rc;

/// The files that a makefile may be read from.
pub trait Texts {
    /// The text at a path, if there is one.
    ghost texts: { Self → List ℕ → Option (List ℕ) };

    /// The text at the path.
    fn text(&self, path: &Path) -> Option<&[u8]>
        ensures { option_copied result ≡ texts self.now path.now };
}

/// A makefile. Contracts see it as what it says.
#[derive(Drop)]
pub struct Makefile {
    rules: Vec<MakeRule>,
    /// All that the rules are made of, each once.
    prerequisites: IndexSet<Path, RandomState>,
    suffix_rules: Vec<SuffixRule>,
    phony: IndexSet<Path, RandomState>,
    macros: MacroTable,
}

impl Model for Makefile {
    ghost use Rattle.std.specs.Prelude.{◌≡◌, flat_map};
    ghost use Rattle.make_grammar.specs.Contents.{Contents};
    ghost use Rattle.make_grammar.specs.Serving.{prerequisites_of};
    ghost use Rattle.make_grammar.specs.Statements.{macros_of};
    ghost use Rattle.make_grammar.specs.WordPaths.{each_once};

    ghost Value = { Contents };

    ghost view = { λ make.
        record {
          rules = make.rules.items;
          suffix_rules = make.suffix_rules.items;
          phony = make.phony.keys;
          macros = macros_of make.macros;
        } };

    ghost invariant = { λ make.
        make.prerequisites.keys ≡ each_once (flat_map prerequisites_of make.rules.items) };
}

impl Makefile {
    /// Reads the makefile at a path, with the macros of the command line and the files that it includes, or answers the first
    /// line that fails and why. Takes time linear in the texts that are read, in the values of the macros that each line
    /// is the first to reach since one was last defined, and in what lines and macros expand to. Takes memory linear in what is
    /// read and in what lines and macros expand to: rules share what their lines say.
    pub fn read<X: Texts>(
        alloc: Global,
        hashing: RandomState,
        file: &Path,
        texts: &X,
        overrides: &[Macro],
    ) -> Result<Makefile, Or<MakeError>>
        ensures { Gives result (makefile_of (X.texts texts.now) file.now overrides.now) }
    {
        let text = text_or_empty(texts, file);
        let file = Rc::new(alloc, file.copy(alloc)?)?;
        match read_all(alloc, hashing, &file, texts, text, overrides) {
            Ok(reading) => checked_contents(alloc, hashing, reading),
            Err(fault) => Err(fault),
        }
    }

    /// A makefile of these parts, where the second is all that the rules are made of, each once.
    pub(crate) fn of_parts(
        rules: Vec<MakeRule>,
        prerequisites: IndexSet<Path, RandomState>,
        suffix_rules: Vec<SuffixRule>,
        phony: IndexSet<Path, RandomState>,
        macros: MacroTable,
    ) -> Makefile
        requires { prerequisites.keys ≡ each_once (flat_map prerequisites_of rules.items) }
        ensures { result
            ≡ record {
              rules = rules.items;
              suffix_rules = suffix_rules.items;
              phony = phony.keys;
              macros = macros_of macros;
            } }
    {
        Makefile {
            rules,
            prerequisites,
            suffix_rules,
            phony,
            macros,
        }
    }

    /// The rules, in the order of first reading.
    pub fn rules(&self) -> &[MakeRule]
        ensures { result.now ≡ self.now.rules }
    {
        self.rules.as_slice()
    }

    /// All that the rules are made of, each once, in constant time.
    pub fn prerequisites(&self) -> &[Path]
        ensures { result.now ≡ each_once (flat_map prerequisites_of self.now.rules) }
    {
        self.prerequisites.as_slice()
    }

    /// The suffix rules, in the order in which they are tried.
    pub fn suffix_rules(&self) -> &[SuffixRule]
        ensures { result.now ≡ self.now.suffix_rules }
    {
        self.suffix_rules.as_slice()
    }

    /// Whether no script makes the path, in constant time.
    pub fn is_phony(&self, path: &Path) -> bool
        ensures { result ≡ is_among self.now.phony path.now }
    {
        self.phony.contains(path)
    }

    /// A script of this makefile with its macros expanded for a target, its first prerequisite and its stem. Takes time
    /// linear in the script, in the values of the macros that it reaches, each once, and in what it expands to, up to the
    /// most bytes of a script; and memory for as many bytes, and for one state a macro.
    pub fn expand(
        &self,
        alloc: Global,
        script: &[u8],
        target: &Path,
        first: Option<&Path>,
        stem: &[u8],
    ) -> Result<Expanded, NoMemory>
        ensures { IfOk result
            (λ expanded.
            expanded
            ≡ expansion self.now script.now target.now (option_copied first.entry) stem.now) }
    {
        let automatic = automatic_of(target, first, stem);
        Ok(answer_expansion(expand(alloc, &self.macros, &automatic, script)?))
    }
}

/// The text at a path, which is empty where there is none.
fn text_or_empty<'a, X: Texts>(texts: &'a X, file: &Path) -> &'a [u8]
    ensures { result.now ≡ unwrap_or (X.texts texts.now file.now) [] }
{
    match texts.text(file) {
        Some(text) => text,
        None => &[],
    }
}

/// The bytes of a path, if there is one.
fn path_bytes(path: Option<&Path>) -> Option<&[u8]>
    ensures { option_copied result ≡ option_copied path.entry }
{
    match path {
        Some(path) => Some(path.as_bytes()),
        None => None,
    }
}

/// The values of `$@`, `$<` and `$*` in a script.
fn automatic_of<'a>(target: &'a Path, first: Option<&'a Path>, stem: &'a [u8]) -> Automatic<'a>
    ensures { automatic_of result ≡ in_script target.now (option_copied first.entry) stem.now }
{
    Automatic {
        target: target.as_bytes(),
        first: path_bytes(first),
        stem,
    }
}

/// What a script expands to, by what its expansion gave. A loop does not come in a makefile that was read.
fn answer_expansion(outcome: ExpandedText) -> Expanded
    ensures { (total : Expansion) → IsExpandedText total outcome → result ≡ unless_too_long total }
{
    match outcome {
        ExpandedText::TooLong => Expanded::TooLong,
        ExpandedText::Loop(bytes) => Expanded::Lines(Text::of(bytes)),
        ExpandedText::Bytes(bytes) => Expanded::Lines(Text::of(bytes)),
    }
}
