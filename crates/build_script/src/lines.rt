//! What the lines of a script say.

ghost use Rattle.std.specs.Prelude.{◌≡◌, ◌+◌, ◌≤◌, ◌^◌, IfOk, length, map, reverse};
ghost use Rattle.script_grammar.specs.Lines.{path_in, paths_of, cat_of, link_of, include_directory, directories_of, preprocess_of, preprocess_of_reversed, only_path, substitute_of, head_by, head_of, digest_work, work_of, appends_of, makes, fail_of, line_of_reversed, script_line_of};

use crate::words::{without_at, words};
use cc_names::lists::List;
use cc_names::memory::{NoMemory, Or};
use cc_names::numbers::number;
use cc_names::paths::Path;
use cc_names::texts::Text;
use script_grammar::lines::{Line, Work};
use std::alloc::Global;

/// A word as a path, or nothing where it is none.
pub(crate) fn read_path(alloc: Global, word: &[u8]) -> Result<Option<Path>, NoMemory>
    ensures { IfOk result (λ read. read ≡ path_in word.now) }
{
    match Path::read(alloc, word) {
        Ok(path) => Ok(Some(path)),
        Err(Or::Is(_)) => Ok(None),
        Err(Or::NoMemory) => Err(NoMemory),
    }
}

/// The words as texts.
fn read_texts(alloc: Global, words: &[&[u8]]) -> Result<List<Text>, NoMemory>
    ensures { IfOk result (λ texts. texts ≡ map (λ word. word.now) words.now) }
{
    let mut texts = Vec::new(alloc);
    for word in words {
        texts.push(Text::from_bytes(alloc, word)?)?;
    }
    Ok(List::of(texts))
}

/// The words as paths, where all of them are paths.
fn read_paths(alloc: Global, words: &[&[u8]]) -> Result<Option<List<Path>>, NoMemory>
    ensures { IfOk result (λ paths. paths ≡ paths_of (map (λ word. word.now) words.now)) }
{
    let mut paths = Vec::new(alloc);
    for word in words {
        let Some(path) = read_path(alloc, word)? else {
            return Ok(None);
        };
        paths.push(path)?;
    }
    Ok(Some(List::of(paths)))
}

/// The work of `cat`, which takes one path or more.
fn cat_of(paths: Option<List<Path>>) -> Option<Work>
    ensures { result ≡ cat_of paths }
{
    match paths {
        Some(paths) if !paths.as_slice().is_empty() => Some(Work::Cat(paths)),
        _ => None,
    }
}

/// The work of `link`, which takes one path or more.
fn link_of(paths: Option<List<Path>>) -> Option<Work>
    ensures { result ≡ link_of paths }
{
    match paths {
        Some(paths) if !paths.as_slice().is_empty() => Some(Work::Link(paths)),
        _ => None,
    }
}

/// One word and no more, as a path.
fn read_only_path(alloc: Global, words: &[&[u8]]) -> Result<Option<Path>, NoMemory>
    ensures { IfOk result (λ path. path ≡ only_path (map (λ word. word.now) words.now)) }
{
    let [path] = words else {
        return Ok(None);
    };
    read_path(alloc, path)
}

/// The directory of a pair of `-I` and a path, where the words are such a pair.
fn read_pair(alloc: Global, words: &[&[u8]]) -> Result<Option<Path>, NoMemory>
    ensures { IfOk result (λ path. path ≡ include_directory (map (λ word. word.now) words.now)) }
{
    match words.split_first() {
        Some((flag, behind)) if *flag == b"-I".as_slice() => read_only_path(alloc, behind),
        _ => Ok(None),
    }
}

/// The directories of pairs of a `-I` and a path, where the words are such pairs.
fn read_directories(alloc: Global, words: &[&[u8]]) -> Result<Option<List<Path>>, NoMemory>
    ensures { IfOk result (λ paths. paths ≡ directories_of (map (λ word. word.now) words.now)) }
{
    let mut paths = Vec::new(alloc);
    for pair in words.chunks(2) {
        let Some(path) = read_pair(alloc, pair)? else {
            return Ok(None);
        };
        paths.push(path)?;
    }
    Ok(Some(List::of(paths)))
}

/// The work of `pp`, which takes pairs of a `-I` and a directory, and then a path.
fn read_preprocess(alloc: Global, words: &[&[u8]]) -> Result<Option<Work>, NoMemory>
    ensures { IfOk result
        (λ work. work ≡ preprocess_of_reversed (reverse (map (λ word. word.now) words.now))) }
{
    let Some((path, pairs)) = words.split_last() else {
        return Ok(None);
    };
    let Some(directories) = read_directories(alloc, pairs)? else {
        return Ok(None);
    };
    let Some(path) = read_path(alloc, path)? else {
        return Ok(None);
    };
    Ok(Some(Work::Preprocess { directories, path }))
}

/// The work of `sub`, which takes two words and a path.
fn read_substitute(alloc: Global, words: &[&[u8]]) -> Result<Option<Work>, NoMemory>
    ensures { IfOk result (λ work. work ≡ substitute_of (map (λ word. word.now) words.now)) }
{
    let Some((from, behind)) = words.split_first() else {
        return Ok(None);
    };
    let Some((to, behind)) = behind.split_first() else {
        return Ok(None);
    };
    let Some(path) = read_only_path(alloc, behind)? else {
        return Ok(None);
    };
    let from = Text::from_bytes(alloc, from)?;
    let to = Text::from_bytes(alloc, to)?;
    Ok(Some(Work::Substitute { from, to, path }))
}

/// The work of `head`, which takes a number and a path.
fn read_head(alloc: Global, words: &[&[u8]]) -> Result<Option<Work>, NoMemory>
    ensures { IfOk result (λ work. work ≡ head_of (map (λ word. word.now) words.now)) }
{
    let Some((lines, behind)) = words.split_first() else {
        return Ok(None);
    };
    let Some(lines) = number(lines) else {
        return Ok(None);
    };
    let Some(path) = read_only_path(alloc, behind)? else {
        return Ok(None);
    };
    Ok(Some(Work::Head { lines, path }))
}

/// The work of `sha`, which takes a path.
fn read_digest(alloc: Global, words: &[&[u8]]) -> Result<Option<Work>, NoMemory>
    ensures { IfOk result (λ work. work ≡ digest_work (map (λ word. word.now) words.now)) }
{
    Ok(read_only_path(alloc, words)?.map(Work::Digest))
}

/// The work that words name: a command and what it takes.
fn read_work(alloc: Global, words: &[&[u8]]) -> Result<Option<Work>, NoMemory>
    ensures { IfOk result (λ work. work ≡ work_of (map (λ word. word.now) words.now)) }
{
    let Some((command, arguments)) = words.split_first() else {
        return Ok(None);
    };
    if *command == b"echo".as_slice() {
        Ok(Some(Work::Echo(read_texts(alloc, arguments)?)))
    } else if *command == b"cat".as_slice() {
        Ok(cat_of(read_paths(alloc, arguments)?))
    } else if *command == b"pp".as_slice() {
        read_preprocess(alloc, arguments)
    } else if *command == b"sub".as_slice() {
        read_substitute(alloc, arguments)
    } else if *command == b"head".as_slice() {
        read_head(alloc, arguments)
    } else if *command == b"sha".as_slice() {
        read_digest(alloc, arguments)
    } else if *command == b"link".as_slice() {
        Ok(link_of(read_paths(alloc, arguments)?))
    } else {
        Ok(None)
    }
}

/// Whether an arrow appends or replaces, and nothing for any other word.
fn read_arrow_word(word: &[u8]) -> Option<bool>
    ensures { result ≡ appends_of word.now }
{
    match word {
        b">>" => Some(true),
        b">" => Some(false),
        _ => None,
    }
}

/// A line of a work, an arrow and an output, where each of them can be read.
fn read_line_parts(
    alloc: Global,
    before: &[&[u8]],
    arrow: &[u8],
    output: &[u8],
) -> Result<Option<Line>, NoMemory>
    ensures { IfOk result
        (λ line.
        line
        ≡ makes (work_of (map (λ word. word.now) before.now)) (appends_of arrow.now)
        (path_in output.now)) }
{
    let Some(work) = read_work(alloc, before)? else {
        return Ok(None);
    };
    let Some(appends) = read_arrow_word(arrow) else {
        return Ok(None);
    };
    let Some(output) = read_path(alloc, output)? else {
        return Ok(None);
    };
    Ok(Some(Line::Makes {
        work,
        appends,
        output,
    }))
}

/// The line of this number that is one word: `fail`.
fn fail_of(number: u32, word: &[u8]) -> Option<Line>
    ensures { result ≡ fail_of number word.now }
{
    (word == b"fail".as_slice()).then_some(Line::Fail(number))
}

/// The line of this number, by its words.
fn read_words(alloc: Global, number: u32, words: &[&[u8]]) -> Result<Option<Line>, NoMemory>
    ensures { IfOk result
        (λ line. line ≡ line_of_reversed number (reverse (map (λ word. word.now) words.now))) }
{
    let Some((output, words)) = words.split_last() else {
        return Ok(Some(Line::Empty));
    };
    let Some((arrow, before)) = words.split_last() else {
        return Ok(fail_of(number, output));
    };
    read_line_parts(alloc, before, arrow, output)
}

/// The line of this number of a script, or nothing where its words are outside the language. Takes time linear in its
/// bytes.
pub(crate) fn read_script_line(
    alloc: Global,
    number: u64,
    bytes: &[u8],
) -> Result<Option<Line>, NoMemory>
    requires { number + length bytes.now ≤ 2 ^ 32 }
    ensures { IfOk result (λ line. line ≡ script_line_of number bytes.now) }
{
    if bytes.is_empty() {
        return Ok(Some(Line::Empty));
    }
    let words = words(alloc, without_at(bytes))?;
    read_words(alloc, number as u32, words.as_slice())
}
