//! The rule of paths, and a path that meets it.

ghost use Rattle.std.specs.Prelude.{◌≡◌, ◌+◌, ◌<◌, ◌^◌, false, IfOk, IfSome, MatchOption, length, take, drop};
ghost use Rattle.std.specs.List.{position, slice_split};
ghost use Rattle.cc_names.specs.Answers.{Gives};
ghost use Rattle.cc_names.specs.Names.{IsName};
ghost use Rattle.cc_names.specs.Paths.{is_slash, root, is_root, first_fault, path_fault, path_of, parent_of, last_of, join_of, IsPath};
ghost use Rattle.cc_names.specs.PathLaws.{JoinHasParts, PartsJoin};
ghost use Rattle.cc_names.specs.PathBytes.{bytes_of, PartsAre};

use crate::memory::{NoMemory, Or};
use crate::names::{Name, NameFault, fault_at};
use crate::short_texts::{MOST, ShortText};
use crate::texts::Text;
use std::alloc::Global;
use std::marker::Model;
use std::mem::size_of;

/// The bytes of a path. Lists of a million paths are read from rows, and most paths are short.
#[derive(Debug, Drop)]
pub(crate) enum PathText {
    /// Those of a short path, in the value itself.
    Short(ShortText),
    /// Those of a longer one, in memory of their own.
    Long(Text),
}

impl PathText {
    /// A copy of these bytes.
    fn from_bytes(alloc: Global, bytes: &[u8]) -> Result<PathText, NoMemory>
        ensures { IfOk result (λ text. bytes_of text ≡ bytes.now) }
    {
        if bytes.len() <= MOST {
            return Ok(PathText::Short(ShortText::of(bytes)));
        }
        Ok(PathText::Long(Text::from_bytes(alloc, bytes)?))
    }

    /// The bytes of this text. Takes no memory.
    fn of(text: Text) -> PathText
        ensures { bytes_of result ≡ text }
    {
        let bytes = text.as_bytes();
        if bytes.len() <= MOST {
            return PathText::Short(ShortText::of(bytes));
        }
        PathText::Long(text)
    }
}

/// A path: `.` for the root, or names joined by `/`, at most 1,024 bytes in all. Contracts see it as its bytes.
#[derive(Debug, Drop)]
pub struct Path {
    text: PathText,
}

impl Model for Path {
    ghost use Rattle.std.specs.Prelude.{List, ℕ};
    ghost use Rattle.cc_names.specs.Paths.{IsPath};
    ghost use Rattle.cc_names.specs.PathBytes.{bytes_of};

    ghost Value = { List ℕ };

    ghost view = { λ path. bytes_of path.text };

    ghost invariant = { λ path. IsPath (bytes_of path.text) };
}

// A path is no larger for the bytes of a short one, which lie where a longer one keeps its vector.
const _: () = prove!(size_of::<Path>() == 32);

impl Path {
    /// The root. Takes no memory.
    pub fn root() -> Path
        ensures { result ≡ root }
    {
        Path {
            text: PathText::Short(ShortText::of(b".")),
        }
    }

    /// The path of these bytes, which are those of a path.
    fn of(alloc: Global, bytes: &[u8]) -> Result<Path, NoMemory>
        requires { IsPath bytes.now }
        ensures { IfOk result (λ path. path ≡ bytes.now) }
    {
        let text = PathText::from_bytes(alloc, bytes)?;
        Ok(Path { text })
    }

    /// Whether it is the root.
    pub fn is_root(&self) -> bool
        ensures { result ≡ is_root self.now }
    {
        is_root(self.as_bytes())
    }

    /// Reads bytes as a path, or answers their first fault. Takes time linear in the bytes.
    pub fn read(alloc: Global, bytes: &[u8]) -> Result<Path, Or<NameFault>>
        ensures { Gives result (path_of bytes.now) }
    {
        if let Some(fault) = fault_of_path(bytes) {
            return Err(Or::Is(fault));
        }
        Ok(Path::of(alloc, bytes)?)
    }

    /// A copy.
    pub fn copy(&self, alloc: Global) -> Result<Path, NoMemory>
        ensures copy { IfOk result (λ path. path ≡ self.now) }
        ensures path { IsPath self.now }
    {
        Path::of(alloc, self.as_bytes())
    }

    /// The path of the directory that holds this one; the root has none.
    pub fn parent(&self, alloc: Global) -> Result<Option<Path>, NoMemory>
        ensures { IfOk result (λ parent. parent ≡ parent_of self.now) }
    {
        let bytes = self.as_bytes();
        if is_root(bytes) {
            return Ok(None);
        }
        let Some(slash) = last_slash(bytes) else {
            return Ok(Some(Path::root()));
        };
        let directory = Path::of(alloc, &bytes[..slash])?;
        Ok(Some(directory))
    }

    /// The last name; the root has none.
    pub fn last(&self, alloc: Global) -> Result<Option<Name>, NoMemory>
        ensures { IfOk result (λ name. name ≡ last_of self.now) }
    {
        let bytes = self.as_bytes();
        if is_root(bytes) {
            return Ok(None);
        }
        let name = match last_slash(bytes) {
            Some(slash) => Name::of(alloc, &bytes[slash + 1..])?,
            None => Name::of(alloc, bytes)?,
        };
        Ok(Some(name))
    }

    /// The path of this name in the directory that this path names, refused only where it would pass 1,024 bytes.
    pub fn join(&self, alloc: Global, name: &Name) -> Result<Path, Or<NameFault>>
        ensures { Gives result (join_of self.now name.now) }
    {
        let directory = self.as_bytes();
        if is_root(directory) {
            return Ok(Path::of(alloc, name.as_bytes())?);
        }
        let text = join_bytes(alloc, directory, name.as_bytes())?;
        Ok(Path {
            text: PathText::of(text),
        })
    }

    /// The bytes, which are those of a path.
    pub fn as_bytes(&self) -> &[u8]
        ensures bytes { result.now ≡ self.now }
        ensures path { IsPath self.now }
    {
        match &self.text {
            PathText::Short(text) => text.as_bytes(),
            PathText::Long(text) => text.as_bytes(),
        }
    }
}

/// A path that is joined from a directory and a name has that parent and that last name.
pub fn join_has_parts()
    ensures { JoinHasParts }
{}

/// A path below the root is the join of its parent and its last name.
pub fn parts_join()
    ensures { PartsJoin }
{}

fn is_root(bytes: &[u8]) -> bool
    ensures { result ≡ is_root bytes.now }
{
    matches!(bytes, [b'.'])
}

/// The bytes of the directory, which is not the root, and of the name, with a slash between them.
fn join_bytes(alloc: Global, directory: &[u8], name: &[u8]) -> Result<Text, Or<NameFault>>
    requires path { IsPath directory.now }
    requires below { is_root directory.now ≡ false }
    requires name { IsName name.now }
    ensures joined { Gives result (join_of directory.now name.now) }
    ensures path { IfOk result IsPath }
{
    let length = directory.len() + 1 + name.len();
    if length > 1024 {
        return Err(Or::Is(NameFault::TooLong(length as u64)));
    }
    let mut bytes = Vec::with_capacity(alloc, length)?;
    bytes.extend_from_slice(directory)?;
    bytes.push(b'/')?;
    bytes.extend_from_slice(name)?;
    Ok(Text::of(bytes))
}

/// The place of the last slash of a path below the root: before it stands the path of the directory, after it the
/// last name.
fn last_slash(path: &[u8]) -> Option<usize>
    requires path { IsPath path.now }
    requires below { is_root path.now ≡ false }
    ensures within { IfSome result (λ slash. slash < length path.now) }
    ensures below { IfSome result (λ slash. is_root (take slash path.now) ≡ false) }
    ensures parts { MatchOption result (PartsAre path.now root path.now)
        (λ slash. PartsAre path.now (take slash path.now) (drop (slash + 1) path.now)) }
{
    let mut end = path.len();
    'end: while end > 0 {
        end -= 1;
        if path[end] == b'/' {
            return Some(end);
        }
    }
    None
}

/// The place of the first slash. Takes time linear in the bytes before it.
pub fn first_slash(bytes: &[u8]) -> Option<usize>
    ensures place { result ≡ position is_slash bytes.now }
    ensures within { IfSome result (λ index. index < length bytes.now) }
{
    bytes.iter().position(|byte| *byte == b'/')
}

/// The first fault of the names of a path, from the left.
fn first_fault(bytes: &[u8]) -> Option<NameFault>
    requires { length bytes.now < 2 ^ 63 }
    ensures { result ≡ first_fault 0 (slice_split is_slash bytes.now) }
{
    let mut place = 0;
    let mut rest = bytes;
    'rest: while let Some(index) = first_slash(rest) {
        let fault = fault_at(place, &rest[..index]);
        if fault.is_some() {
            return fault;
        }
        place += index as u64 + 1;
        rest = &rest[index + 1..];
    }
    fault_at(place, rest)
}

fn fault_of_path(bytes: &[u8]) -> Option<NameFault>
    ensures { result ≡ path_fault bytes.now }
{
    if bytes.is_empty() {
        return Some(NameFault::Empty);
    }
    if bytes.len() > 1024 {
        return Some(NameFault::TooLong(bytes.len() as u64));
    }
    if is_root(bytes) {
        return None;
    }
    first_fault(bytes)
}
