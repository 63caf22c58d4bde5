//! The rule lines that were read.

ghost use Rattle.std.specs.Prelude.{◌≡◌, ◌&&◌, [], ◌∷◌, ◌++◌, drop, None, IfOk, OnOk, is_some, option_copied, option_map, unwrap_or};
ghost use Rattle.make_grammar.specs.Statements.{with_script_line};

use cc_names::copies::Copied;
use cc_names::lists::List;
use cc_names::memory::NoMemory;
use cc_names::paths::Path;
use std::alloc::Global;
use std::marker::Model;
use std::rc::Rc;

/// A rule line and the script below it, which the rules that it is joined to share. Contracts see it without how it lies in
/// memory.
#[derive(Drop)]
pub(crate) struct RuleLine {
    file: Rc<Path>,
    line: u32,
    targets: List<Path>,
    prerequisites: Rc<List<Path>>,
    is_group: bool,
    is_special: bool,
    script: Option<Rc<Vec<u8>>>,
}

impl Model for RuleLine {
    ghost use Rattle.std.specs.Option.{option_map};
    ghost use Rattle.make_grammar.specs.Contents.{RuleLine};

    ghost Value = { RuleLine };

    ghost view = { λ r.
        record {
          file = r.file.value;
          line = r.line;
          targets = r.targets;
          prerequisites = r.prerequisites.value;
          is_group = r.is_group;
          is_special = r.is_special;
          script = option_map (λ s. s.value.items) r.script;
        } };
}

/// The bytes of a script, which no rule shares yet.
fn script_bytes(alloc: Global, script: Option<Rc<Vec<u8>>>) -> Result<Vec<u8>, NoMemory>
    ensures { IfOk result
        (λ bytes. bytes.items ≡ unwrap_or (option_map (λ s. s.value.items) script) []) }
{
    let Some(shared) = script else {
        return Ok(Vec::new(alloc));
    };
    match Rc::try_unwrap(shared) {
        Ok(bytes) => Ok(bytes),
        Err(shared) => Ok(Vec::from_slice(alloc, shared.as_slice())?),
    }
}

/// A line of a script without its tab.
fn behind_tab(line: &[u8]) -> &[u8]
    ensures { result.now ≡ drop 1 line.now }
{
    match line.split_first() {
        Some((_, rest)) => rest,
        None => line,
    }
}

/// Puts a line, with its newline, after a script.
fn put_line(script: &mut Vec<u8>, line: &[u8]) -> Result<(), NoMemory>
    ensures { OnOk result (script.new.items ≡ script.old.items ++ line.now ++ (10 ∷ [])) }
{
    script.extend_from_slice(line)?;
    script.push(b'\n')?;
    Ok(())
}

/// A script with a line of it after, without its tab and with its newline.
fn with_line(alloc: Global, mut script: Vec<u8>, line: &[u8]) -> Result<Rc<Vec<u8>>, NoMemory>
    ensures { IfOk result
        (λ longer. longer.value.items ≡ script.items ++ drop 1 line.now ++ (10 ∷ [])) }
{
    put_line(&mut script, behind_tab(line))?;
    Ok(Rc::new(alloc, script)?)
}

impl RuleLine {
    /// A rule line without a script, of this file and number.
    pub(crate) fn of(
        file: &Rc<Path>,
        line: u32,
        targets: List<Path>,
        prerequisites: Rc<List<Path>>,
        is_group: bool,
        is_special: bool,
    ) -> Result<RuleLine, NoMemory>
        ensures { IfOk result
            (λ made.
            made
            ≡ record {
              file = file.now.value;
              line = line;
              targets = targets;
              prerequisites = prerequisites.value;
              is_group = is_group;
              is_special = is_special;
              script = None;
            }) }
    {
        Ok(RuleLine {
            file: file.clone()?,
            line,
            targets,
            prerequisites,
            is_group,
            is_special,
            script: None,
        })
    }

    /// Where the line stands.
    pub(crate) fn place(&self) -> (&Path, u32)
        ensures file { result.0.now ≡ self.now.file }
        ensures line { result.1 ≡ self.now.line }
    {
        (&self.file, self.line)
    }

    /// Whether it had a special target.
    pub(crate) fn is_special(&self) -> bool
        ensures { result ≡ self.now.is_special }
    {
        self.is_special
    }

    /// Whether there is a script below it.
    pub(crate) fn has_script(&self) -> bool
        ensures { result ≡ is_some self.now.script }
    {
        self.script.is_some()
    }

    /// Whether its targets are those of a group that has a script.
    pub(crate) fn is_made_together(&self) -> bool
        ensures { result ≡ (self.now.is_group && is_some self.now.script) }
    {
        self.is_group && self.has_script()
    }

    /// The script below it, which is shared.
    pub(crate) fn script(&self) -> Result<Option<Rc<Vec<u8>>>, NoMemory>
        ensures { IfOk result
            (λ script. option_map (λ s. s.value.items) script ≡ self.now.script) }
    {
        match &self.script {
            Some(script) => Ok(Some(script.clone()?)),
            None => Ok(None),
        }
    }

    pub(crate) fn prerequisites(&self) -> &[Path]
        ensures { result.now ≡ self.now.prerequisites }
    {
        self.prerequisites.as_slice()
    }

    /// The prerequisites, which are shared.
    pub(crate) fn shared_prerequisites(&self) -> Result<Rc<List<Path>>, NoMemory>
        ensures { IfOk result (λ paths. paths.value ≡ self.now.prerequisites) }
    {
        Ok(self.prerequisites.clone()?)
    }

    /// Puts a line of a script below it.
    pub(crate) fn add_script_line(&mut self, alloc: Global, line: &[u8]) -> Result<(), NoMemory>
        ensures { OnOk result (self.new ≡ with_script_line self.old line.now) }
    {
        let script = script_bytes(alloc, self.script.take())?;
        self.script = Some(with_line(alloc, script, line)?);
        Ok(())
    }

    /// A copy of the targets, in time and memory linear in them.
    pub(crate) fn copy_targets(&self, alloc: Global) -> Result<List<Path>, NoMemory>
        ensures { IfOk result (λ copy. copy ≡ self.now.targets) }
    {
        self.targets.copy(alloc)
    }

    /// The targets, special ones left out.
    pub(crate) fn targets(&self) -> &[Path]
        ensures { result.now ≡ self.now.targets }
    {
        self.targets.as_slice()
    }
}
