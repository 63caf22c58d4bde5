//! The numbers of the large session.

ghost use Rattle.std.specs.Prelude.{◌≡◌, ◌<◌, IfOk};
ghost use Rattle.large_session.specs.Draws.{next_state, draw_of, drawn_file, files_of};

use cc_names::memory::NoMemory;
use std::alloc::Global;

/// A source file: its number, the number in its word, and the number of the file that it is joined with.
#[derive(Drop)]
pub(crate) struct SourceFile {
    pub(crate) number: u64,
    pub(crate) content: u64,
    pub(crate) joined: u64,
}

fn next_state(state: u64) -> u64
    ensures { result ≡ next_state state }
{
    state
        .wrapping_mul(6_364_136_223_846_793_005)
        .wrapping_add(1_442_695_040_888_963_407)
}

fn draw_of(state: u64) -> u64
    ensures { result ≡ draw_of state }
{
    state >> 33
}

/// The file of this number, from the state before its draws.
fn drawn_file(size: u32, number: u32, state: u64) -> SourceFile
    requires { 0 < size }
    ensures { result ≡ drawn_file size number state }
{
    let first = next_state(state);
    let second = next_state(first);
    SourceFile {
        number: number as u64,
        content: draw_of(first) % 1000,
        joined: 1 + draw_of(second) % size as u64,
    }
}

/// The source files, in order of their numbers.
pub(crate) fn files_of(alloc: Global, seed: u64, size: u32) -> Result<Vec<SourceFile>, NoMemory>
    ensures { IfOk result (λ files. files.items ≡ files_of seed size) }
{
    let mut files = Vec::new(alloc);
    let mut state = seed;
    for index in 0..size {
        files.push(drawn_file(size, index + 1, state))?;
        state = next_state(next_state(state));
    }
    Ok(files)
}
