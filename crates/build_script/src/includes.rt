//! Which lines include a file, and where it is looked for.

ghost use Rattle.std.specs.Prelude.{◌≡◌, ◌++◌, ◌∷◌, IfOk};
ghost use Rattle.script_grammar.specs.Includes.{without_newline, quoted_path, include_of, under};

use crate::lines::read_path;
use cc_names::memory::NoMemory;
use cc_names::paths::Path;
use std::alloc::Global;

/// The most bytes that a path may have.
const PATH_LIMIT: usize = 1_024;

/// What an include line begins with, before its path and a `"`.
const INCLUDE_START: &[u8] = b"#include \"";

fn without_newline(line: &[u8]) -> &[u8]
    ensures { result.now ≡ without_newline line.now }
{
    if line.ends_with(b"\n") {
        &line[..line.len() - 1]
    } else {
        line
    }
}

/// The path before a last `"`.
fn quoted_path(alloc: Global, bytes: &[u8]) -> Result<Option<Path>, NoMemory>
    ensures { IfOk result (λ path. path ≡ quoted_path bytes.now) }
{
    if !bytes.ends_with(b"\"") {
        return Ok(None);
    }
    read_path(alloc, &bytes[..bytes.len() - 1])
}

/// The path that a line includes, if it is an include line.
pub(crate) fn include_of(alloc: Global, line: &[u8]) -> Result<Option<Path>, NoMemory>
    ensures { IfOk result (λ path. path ≡ include_of line.now) }
{
    let line = without_newline(line);
    if !line.starts_with(INCLUDE_START) {
        return Ok(None);
    }
    quoted_path(alloc, &line[INCLUDE_START.len()..])
}

/// A path under a directory, or nothing where it would be longer than a path may be: that is given by the lengths alone.
#[tactic(auto, using(crate::proofs::IncludeLemmas::under_too_long))]
pub(crate) fn under(alloc: Global, path: &Path, directory: &Path) -> Result<Option<Path>, NoMemory>
    ensures { IfOk result (λ place. place ≡ under path.now directory.now) }
{
    if directory.is_root() {
        return Ok(Some(path.copy(alloc)?));
    }
    if directory.as_bytes().len() + 1 + path.as_bytes().len() > PATH_LIMIT {
        return Ok(None);
    }
    let mut bytes = Vec::from_slice(alloc, directory.as_bytes())?;
    bytes.push(b'/')?;
    bytes.extend_from_slice(path.as_bytes())?;
    read_path(alloc, bytes.as_slice())
}
