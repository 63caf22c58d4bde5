//! The lines of a makefile one after the other, with the files that it includes read in place.

ghost use Rattle.std.specs.Prelude.{◌≡◌, IfOk};
ghost use Rattle.cc_names.specs.Answers.{Gives};
ghost use Rattle.make_grammar.specs.Grammar.{lines_behind, lines_read};
ghost use Rattle.make_grammar.specs.LogicalLines.{logical_lines};
ghost use Rattle.make_text.specs.ReadingSteps.{counted_line_read};
ghost use Rattle.make_grammar.specs.Statements.{reading_of_include, include_line, read_line, read_lines};

use crate::contents::Texts;
use crate::line_kinds::{Kind, line_kind, trimmed_bytes, without_comment};
use crate::logical_lines::LogicalLines;
use crate::readers::Reader;
use crate::readings::{Reading, reading_fault};
use crate::words::is_script_line;
use cc_names::commands::Macro;
use cc_names::memory::{NoMemory, Or};
use cc_names::paths::Path;
use cc_names::refusals::{MakeCause, MakeError};
use make_grammar::logical_lines::LogicalLine;
use std::alloc::Global;
use std::hash::RandomState;
use std::rc::Rc;

/// The most files that are included inside each other.
const DEPTH_LIMIT: u32 = 16;

/// A copy of a path that may be shared.
fn shared_copy(alloc: Global, path: &Path) -> Result<Rc<Path>, NoMemory>
    ensures { IfOk result (λ copy. copy.value ≡ path.now) }
{
    Ok(Rc::new(alloc, path.copy(alloc)?)?)
}

/// Reads the file at a path, which a line of another file includes, in place. So many files can still be included inside
/// each other.
#[cycle(files)]
fn reading_of_include<X: Texts>(
    reader: Reader,
    alloc: Global,
    texts: &X,
    left: u32,
    file: &Rc<Path>,
    line: u32,
    path: &Path,
) -> Result<Reader, Or<MakeError>>
    ensures { Gives result
        (reading_of_include (X.texts texts.now) left file.now.value line reader path.now) }
{
    let Some(text) = texts.text(path) else {
        return reader.refuse(reading_fault(alloc, file, line, MakeCause::IncludeAbsent));
    };
    if left == 0 {
        return reader.refuse(reading_fault(alloc, file, line, MakeCause::IncludeDepth));
    }
    match reader.open_file(alloc, file, line) {
        Ok(reader) => match shared_copy(alloc, path) {
            Ok(path) => read_lines(reader, alloc, texts, left - 1, &path, text),
            Err(NoMemory) => reader.refuse(Or::NoMemory),
        },
        Err(fault) => Err(fault),
    }
}

/// Reads the lines of a text, which stands at this path.
#[cycle(files)]
pub(crate) fn read_lines<X: Texts>(
    reader: Reader,
    alloc: Global,
    texts: &X,
    left: u32,
    file: &Rc<Path>,
    text: &[u8],
) -> Result<Reader, Or<MakeError>>
    ensures { Gives result
        (read_lines (reading_of_include (X.texts texts.now) left file.now.value) file.now.value
        (logical_lines text.now) reader) }
{
    let mut reader = reader;
    let mut lines = LogicalLines::of(text);
    'lines: while let Some(line) = lines.next(alloc)? {
        reader = match counted_line(reader, alloc, texts, left, file, &line) {
            Ok(reader) => reader,
            Err(fault) => return Err(fault),
        };
    }
    Ok(reader)
}

/// Counts and reads a line, and tests the counts after it.
#[cycle(files)]
fn counted_line<X: Texts>(
    reader: Reader,
    alloc: Global,
    texts: &X,
    left: u32,
    file: &Rc<Path>,
    line: &LogicalLine,
) -> Result<Reader, Or<MakeError>>
    ensures { Gives result
        (counted_line_read (reading_of_include (X.texts texts.now) left file.now.value) file.now.value
        line.now reader) }
{
    match read_line(reader.count_line()?, alloc, texts, left, file, line) {
        Ok(reader) => reader.within_limits(alloc, file, line.number),
        Err(fault) => Err(fault),
    }
}

/// Reads a line.
#[cycle(files)]
fn read_line<X: Texts>(
    reader: Reader,
    alloc: Global,
    texts: &X,
    left: u32,
    file: &Rc<Path>,
    line: &LogicalLine,
) -> Result<Reader, Or<MakeError>>
    ensures { Gives result
        (read_line (reading_of_include (X.texts texts.now) left file.now.value) file.now.value line.now
        reader) }
{
    let (number, bytes) = (line.number, line.bytes.as_bytes());
    if is_script_line(bytes) {
        return reader.script_line(alloc, file, number, bytes);
    }
    match line_kind(without_comment(bytes)) {
        Kind::Blank => Ok(reader),
        Kind::Include(behind) => include_line(reader, alloc, texts, left, file, number, behind),
        Kind::Assignment(before, behind) => {
            reader.assign(
                alloc,
                file,
                number,
                trimmed_bytes(before),
                trimmed_bytes(behind),
            )
        }
        Kind::Rule(before, behind) => reader.rule_line(alloc, file, number, before, behind),
        Kind::Unclosed => reader.refuse(reading_fault(alloc, file, number, MakeCause::BadMacro)),
        Kind::Neither => reader.refuse(reading_fault(alloc, file, number, MakeCause::BadLine)),
    }
}

/// Reads an include line, each file in place before the next is looked for.
#[cycle(files)]
fn include_line<X: Texts>(
    reader: Reader,
    alloc: Global,
    texts: &X,
    left: u32,
    file: &Rc<Path>,
    line: u32,
    behind: &[u8],
) -> Result<Reader, Or<MakeError>>
    ensures { Gives result
        (include_line (reading_of_include (X.texts texts.now) left file.now.value line) file.now.value
        line behind.now reader) }
{
    let (mut reader, paths) = match reader.open_include(alloc, file, line, behind) {
        Ok(opened) => opened,
        Err(fault) => return Err(fault),
    };
    for path in paths.as_slice() {
        reader = match reading_of_include(reader, alloc, texts, left, file, line, path) {
            Ok(reader) => reader,
            Err(fault) => return Err(fault),
        };
    }
    Ok(reader)
}

/// Reads the macros of the command line, and then the lines of a makefile.
fn read_behind<X: Texts>(
    reader: Reader,
    alloc: Global,
    texts: &X,
    file: &Rc<Path>,
    text: &[u8],
    overrides: &[Macro],
) -> Result<Reader, Or<MakeError>>
    ensures { Gives result
        (lines_behind (X.texts texts.now) file.now.value text.now overrides.now
        reader) }
{
    match reader.fix_all(alloc, file, overrides) {
        Ok(reader) => read_lines(reader, alloc, texts, DEPTH_LIMIT, file, text),
        Err(fault) => Err(fault),
    }
}

/// Reads the lines of a makefile after the macros of the command line. Takes time linear in the texts, in the values of the
/// macros that each line is the first to reach since one was last defined, and in what the lines expand to.
pub(crate) fn read_all<X: Texts>(
    alloc: Global,
    hashing: RandomState,
    file: &Rc<Path>,
    texts: &X,
    text: &[u8],
    overrides: &[Macro],
) -> Result<Reading, Or<MakeError>>
    ensures { Gives result
        (lines_read (X.texts texts.now) file.now.value text.now overrides.now) }
{
    let reader = Reader::new(alloc, hashing)?;
    match read_behind(reader, alloc, texts, file, text, overrides) {
        Ok(reader) => Ok(reader.into_reading()),
        Err(fault) => Err(fault),
    }
}
