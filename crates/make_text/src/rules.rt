//! The rules of a makefile.

ghost use Rattle.std.specs.Prelude.{◌≡◌, ◌==◌, ◌&&◌, [], IfOk, OnOk, is_some, length, option_copied, option_map};
ghost use Rattle.make_grammar.specs.Contents.{rule_without, with_joined_line};

use crate::line_cache::RuleLine;
use crate::special_targets::put_paths;
use cc_names::copies::Copied;
use cc_names::lists::List;
use cc_names::memory::NoMemory;
use cc_names::paths::Path;
use cc_names::texts::Text;
use indexmap::IndexSet;
use std::alloc::{AllocError, Global};
use std::hash::RandomState;
use std::marker::Model;
use std::rc::Rc;

/// A rule: what its targets are made of, and by which script. The script is as it was read, each of its lines without the tab
/// and ended by a newline; its macros are not expanded yet. Contracts see it with its prerequisites joined; in memory it
/// shares them, and the script, with the other rules of its lines.
#[derive(Drop)]
pub struct MakeRule {
    targets: List<Path>,
    /// The prerequisites of each line that was joined to it.
    parts: Vec<Rc<List<Path>>>,
    script: Option<Rc<Vec<u8>>>,
}

impl Model for MakeRule {
    ghost use Rattle.std.specs.Prelude.{map};
    ghost use Rattle.std.specs.Option.{option_map};
    ghost use Rattle.make_grammar.specs.Rules.{MakeRule};
    ghost use Rattle.make_grammar.specs.WordPaths.{once_joined};

    ghost Value = { MakeRule };

    ghost view = { λ r.
        record {
          targets = r.targets;
          prerequisites = once_joined (map (λ part. part.value) r.parts.items);
          script = option_map (λ s. s.value.items) r.script;
        } };
}

/// How paths that end with one suffix are made from those that end with another. The script is as in a rule, with which it is
/// shared in memory.
#[derive(Drop)]
pub struct SuffixRule {
    from: Text,
    to: Text,
    script: Rc<Vec<u8>>,
}

impl Model for SuffixRule {
    ghost use Rattle.make_grammar.specs.Rules.{SuffixRule};

    ghost Value = { SuffixRule };

    ghost view = { λ r. record { from = r.from; to = r.to; script = r.script.value.items } };
}

/// The paths of a set as a list.
fn list_of_set(alloc: Global, paths: IndexSet<Path, RandomState>) -> Result<List<Path>, AllocError>
    ensures { IfOk result (λ list_of_set. list_of_set ≡ paths.keys) }
{
    Ok(List::of(paths.into_iter().collect(alloc)?))
}

impl MakeRule {
    /// A rule that nothing was said of. Takes no memory.
    pub fn without(alloc: Global, targets: List<Path>) -> MakeRule
        ensures { result ≡ rule_without targets }
    {
        MakeRule {
            targets,
            parts: Vec::new(alloc),
            script: None,
        }
    }

    /// Joins a rule line to it, in constant time.
    pub(crate) fn join(&mut self, line: &RuleLine) -> Result<(), NoMemory>
        ensures { OnOk result (self.new ≡ with_joined_line line.now self.old) }
    {
        self.parts.push(line.shared_prerequisites()?)?;
        if let Some(script) = line.script()? {
            self.script = Some(script);
        }
        Ok(())
    }

    /// What it makes, in constant time.
    pub fn targets(&self) -> &[Path]
        ensures { result.now ≡ self.now.targets }
    {
        self.targets.as_slice()
    }

    /// Its script, in constant time.
    pub fn script(&self) -> Option<&[u8]>
        ensures { option_copied result ≡ self.now.script }
    {
        match &self.script {
            Some(script) => Some(script.as_slice()),
            None => None,
        }
    }

    /// Its script, which is shared with it, in constant time.
    pub fn shared_script(&self) -> Result<Option<Rc<Vec<u8>>>, NoMemory>
        ensures { IfOk result
            (λ script. option_map (λ s. s.value.items) script ≡ self.now.script) }
    {
        match &self.script {
            Some(script) => Ok(Some(script.clone()?)),
            None => Ok(None),
        }
    }

    /// Whether there is a script and no prerequisite. Takes time linear in the lines that were joined to it.
    pub(crate) fn has_only_script(&self) -> bool
        ensures { result ≡ (is_some self.now.script && (length self.now.prerequisites == 0)) }
    {
        self.has_script() && self.has_no_prerequisites()
    }

    /// Whether there is no prerequisite. Takes time linear in the lines that were joined to it.
    fn has_no_prerequisites(&self) -> bool
        ensures { result ≡ (length self.now.prerequisites == 0) }
    {
        for part in &self.parts {
            if !part.as_slice().is_empty() {
                return false;
            }
        }
        true
    }

    /// Whether there is a script, in constant time.
    pub fn has_script(&self) -> bool
        ensures { result ≡ is_some self.now.script }
    {
        self.script.is_some()
    }

    /// The prerequisites, each once. Takes time linear in those of the lines that were joined to it, and memory linear in the
    /// result.
    pub fn prerequisites(&self, alloc: Global, hashing: RandomState) -> Result<List<Path>, NoMemory>
        ensures { IfOk result (λ paths. paths ≡ self.now.prerequisites) }
    {
        let mut paths = IndexSet::with_hasher(alloc, hashing);
        self.put_prerequisites(alloc, &mut paths)?;
        Ok(list_of_set(alloc, paths)?)
    }

    /// Puts those of the prerequisites that are not there after paths.
    fn put_prerequisites(
        &self,
        alloc: Global,
        paths: &mut IndexSet<Path, RandomState>,
    ) -> Result<(), NoMemory>
        requires { paths.old.keys ≡ [] }
        ensures { OnOk result (paths.new.keys ≡ self.now.prerequisites) }
    {
        for part in &self.parts {
            put_paths(alloc, paths, part.as_slice())?;
        }
        Ok(())
    }

    /// A copy that shares what it can. Takes time and memory linear in the targets and the lines that were joined to it.
    pub fn copy(&self, alloc: Global) -> Result<MakeRule, NoMemory>
        ensures { IfOk result (λ copy. copy ≡ self.now) }
    {
        let mut parts = Vec::new(alloc);
        for part in &self.parts {
            parts.push(part.clone()?)?;
        }
        Ok(MakeRule {
            targets: self.targets.copy(alloc)?,
            parts,
            script: self.shared_script()?,
        })
    }
}

impl SuffixRule {
    /// The suffix rule of these suffixes, with this script.
    pub(crate) fn of(from: Text, to: Text, script: Rc<Vec<u8>>) -> SuffixRule
        ensures { result ≡ record { from = from; to = to; script = script.value.items } }
    {
        SuffixRule { from, to, script }
    }

    /// The suffix of what it is made from, in constant time.
    pub fn from_suffix(&self) -> &[u8]
        ensures { result.now ≡ self.now.from }
    {
        self.from.as_bytes()
    }

    /// The suffix of what it makes, in constant time.
    pub fn to_suffix(&self) -> &[u8]
        ensures { result.now ≡ self.now.to }
    {
        self.to.as_bytes()
    }

    /// Its script, in constant time.
    pub fn script(&self) -> &[u8]
        ensures { result.now ≡ self.now.script }
    {
        self.script.as_slice()
    }

    /// Its script, which is shared with it, in constant time.
    pub fn shared_script(&self) -> Result<Rc<Vec<u8>>, NoMemory>
        ensures { IfOk result (λ script. script.value.items ≡ self.now.script) }
    {
        Ok(self.script.clone()?)
    }
}
