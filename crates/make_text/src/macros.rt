//! The macros of a makefile, by their names.

ghost use Rattle.std.specs.Prelude.{◌≡◌, ◌<◌, ◌&&◌, not, IfOk, OnOk, [], length};
ghost use Rattle.make_text.specs.MacroChecks.{definition_at};
ghost use Rattle.make_text.specs.MacroEntries.{definition_in};
ghost use Rattle.make_text.specs.Runs.{macro_at, HasNamesApart, IsMacroFound};
ghost use Rattle.make_grammar.specs.Statements.{macros_of, has_fixed, with_definition};

use cc_names::memory::NoMemory;
use cc_names::paths::Path;
use cc_names::texts::Text;
use indexmap::IndexMap;
use std::alloc::Global;
use std::hash::RandomState;
use std::marker::Model;
use std::rc::Rc;

/// What a macro is defined as: its value, with the place of its last definition.
#[derive(Drop)]
pub(crate) struct Defined {
    pub(crate) value: Text,
    pub(crate) file: Rc<Path>,
    pub(crate) line: u32,
    /// Whether the command line defines it, which no line of the makefile changes.
    pub(crate) is_fixed: bool,
}

impl Defined {
    /// What a macro of this value is defined as at a line of a file.
    pub(crate) fn at(
        alloc: Global,
        file: &Rc<Path>,
        line: u32,
        value: &[u8],
        is_fixed: bool,
    ) -> Result<Defined, NoMemory>
        ensures value { IfOk result (λ made. made.value ≡ value.now) }
        ensures file { IfOk result (λ made. made.file.value ≡ file.now.value) }
        ensures line { IfOk result (λ made. made.line ≡ line) }
        ensures is_fixed { IfOk result (λ made. made.is_fixed ≡ is_fixed) }
    {
        let file = file.clone()?;
        Ok(Defined {
            value: Text::from_bytes(alloc, value)?,
            file,
            line,
            is_fixed,
        })
    }
}

/// The macros of a makefile: of each name the definition that counts, in the order of first definition. Contracts see them
/// as their list.
#[derive(Drop)]
pub(crate) struct MacroTable {
    defined: IndexMap<Text, Defined, RandomState>,
}

impl Model for MacroTable {
    ghost use Rattle.std.specs.Prelude.{List};
    ghost use Rattle.make_grammar.specs.Statements.{Definition};
    ghost use Rattle.make_text.specs.MacroEntries.{definitions_in};

    ghost Value = { List Definition };

    ghost view = { λ table. definitions_in table.defined.entries };
}

impl MacroTable {
    /// No macros. Takes no memory.
    pub(crate) fn new(alloc: Global, hashing: RandomState) -> MacroTable
        ensures { result ≡ [] }
    {
        MacroTable {
            defined: IndexMap::with_hasher(alloc, hashing),
        }
    }

    /// Whether a macro of this name is there and fixed.
    fn has_fixed(&self, name: &Text) -> bool
        ensures { result ≡ has_fixed self.now name.now }
    {
        match self.defined.get(name) {
            Some(older) => older.is_fixed,
            None => false,
        }
    }

    /// Whether a macro keeps its definition, since it is fixed and another is not.
    fn keeps(&self, name: &Text, is_fixed: bool) -> bool
        ensures { result ≡ (not is_fixed && has_fixed self.now name.now) }
    {
        !is_fixed && self.has_fixed(name)
    }

    /// Defines a macro: a name that is there keeps its place and takes the value, unless it is fixed and this is not, and a
    /// new one goes last.
    pub(crate) fn define(&mut self, name: Text, defined: Defined) -> Result<(), NoMemory>
        ensures { OnOk result
            (self.new ≡ with_definition (definition_in (name, defined)) self.old) }
    {
        if self.keeps(&name, defined.is_fixed) {
            return Ok(());
        }
        self.defined.insert(name, defined)?;
        Ok(())
    }

    /// How many there are.
    pub(crate) fn len(&self) -> usize
        ensures count { result ≡ length (macros_of self.now) }
        ensures apart { HasNamesApart (macros_of self.now) }
    {
        self.defined.len()
    }

    /// The index of the macro of this name. Takes time linear in the name.
    pub(crate) fn find(&self, alloc: Global, name: &[u8]) -> Result<Option<usize>, NoMemory>
        ensures { IfOk result (λ found. IsMacroFound (macros_of self.now) name.now found) }
    {
        let name = Text::from_bytes(alloc, name)?;
        Ok(self.defined.get_index_of(&name))
    }

    /// The value of the macro at an index.
    pub(crate) fn value(&self, index: usize) -> &[u8]
        requires { index < length (macros_of self.now) }
        ensures { result.now ≡ (macro_at (macros_of self.now) index).value }
    {
        match self.defined.get_index(index) {
            Some((_, defined)) => defined.value.as_bytes(),
            None => unreachable!(),
        }
    }

    /// The macro at an index, by its name and the place of its last definition.
    pub(crate) fn definition(&self, index: usize) -> (&[u8], &Path, u32)
        requires { index < length (macros_of self.now) }
        ensures name { result.0.now ≡ (definition_at self.now index).name }
        ensures file { result.1.now ≡ (definition_at self.now index).file }
        ensures line { result.2 ≡ (definition_at self.now index).line }
    {
        match self.defined.get_index(index) {
            Some((name, defined)) => (name.as_bytes(), &defined.file, defined.line),
            None => unreachable!(),
        }
    }
}
