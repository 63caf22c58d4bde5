//! The text of the large session.
#![tactic(auto, using(std::proofs::lemmas::List::append_assoc))]

ghost use Rattle.std.specs.Prelude.{◌≡◌, ◌≤◌, ◌+◌, ◌*◌, ◌++◌, IfOk, OnOk, codes, length};
ghost use Rattle.std.specs.List.{flat_map};
ghost use Rattle.large_session.specs.LargeSession.{line, source_name, object_name, object_sources, object_rule_line, object_script_line, rule, wanted_name, makefile, made, source_text, made_source, making, session_text_of, large_session};

use crate::draws::{SourceFile, files_of};
use cc_names::memory::NoMemory;
use cc_names::numbers::push_number;
use cc_names::texts::Text;
use std::alloc::Global;

// The lines before the Makefile's, and those after the source files'.
const OPENING: &[u8] = b"phase\nlane a\nmkview v0\ncheckout v0 .\n";

const VIEWS: &[u8] =
    b"checkin v0 .\nmkview v1\nmkview v2\nmkview v3\nmkview v4\nmkview v5\nmkview v6\nmkview v7\n";

// The second and the third phase.
const BUILDING: &[u8] =
    b"phase\nlane b1\nclearmake v1 -J 4\nlane b2\nclearmake v2 -J 4\nlane b3\nclearmake v3 -J 4\nlane b4\nclearmake v4 -J 4\nlane b5\nclearmake v5 -J 4\nlane b6\nclearmake v6 -J 4\nlane b7\nclearmake v7 -J 4\n";

const CHANGING: &[u8] =
    b"phase\nlane a\ncheckout v0 s1\nsave v0 s1\n|changed\ncheckin v0 s1\nclearmake v1\n";

fn push_bytes(text: &mut Vec<u8>, bytes: &[u8]) -> Result<(), NoMemory>
    ensures { OnOk result (text.new.items ≡ text.old.items ++ bytes.now) }
{
    text.extend_from_slice(bytes)?;
    Ok(())
}

fn push_source(alloc: Global, text: &mut Vec<u8>, number: u64) -> Result<(), NoMemory>
    ensures { OnOk result (text.new.items ≡ text.old.items ++ source_name number) }
{
    text.extend_from_slice(b"s")?;
    push_number(alloc, text, number)
}

fn push_object_lines(alloc: Global, text: &mut Vec<u8>, number: u64) -> Result<(), NoMemory>
    ensures { OnOk result (text.new.items ≡ text.old.items ++ object_name number) }
{
    text.extend_from_slice(b"o")?;
    push_number(alloc, text, number)
}

fn push_sources(alloc: Global, text: &mut Vec<u8>, file: &SourceFile) -> Result<(), NoMemory>
    ensures { OnOk result (text.new.items ≡ text.old.items ++ object_sources file.now) }
{
    push_source(alloc, text, file.number)?;
    text.extend_from_slice(b" ")?;
    push_source(alloc, text, file.joined)
}

fn push_rule_line(alloc: Global, text: &mut Vec<u8>, file: &SourceFile) -> Result<(), NoMemory>
    ensures { OnOk result (text.new.items ≡ text.old.items ++ object_rule_line file.now) }
{
    text.extend_from_slice(b"|")?;
    push_object_lines(alloc, text, file.number)?;
    text.extend_from_slice(b": ")?;
    push_sources(alloc, text, file)?;
    push_bytes(text, b"\n")
}

fn push_script_line(alloc: Global, text: &mut Vec<u8>, file: &SourceFile) -> Result<(), NoMemory>
    ensures { OnOk result (text.new.items ≡ text.old.items ++ object_script_line file.now) }
{
    text.extend_from_slice(b"|\tcat ")?;
    push_sources(alloc, text, file)?;
    text.extend_from_slice(b" > ")?;
    push_object_lines(alloc, text, file.number)?;
    push_bytes(text, b"\n")
}

/// The names of all objects, each after a blank.
fn push_objects(alloc: Global, text: &mut Vec<u8>, files: &[SourceFile]) -> Result<(), NoMemory>
    ensures { OnOk result (text.new.items ≡ text.old.items ++ flat_map wanted_name files.now) }
{
    for file in files {
        text.extend_from_slice(b" ")?;
        push_object_lines(alloc, text, file.number)?;
    }
    Ok(())
}

fn push_rules(alloc: Global, text: &mut Vec<u8>, files: &[SourceFile]) -> Result<(), NoMemory>
    ensures { OnOk result (text.new.items ≡ text.old.items ++ flat_map rule files.now) }
{
    for file in files {
        push_rule_line(alloc, text, file)?;
        push_script_line(alloc, text, file)?;
    }
    Ok(())
}

/// The text of the Makefile, as lines of a body.
fn makefile(alloc: Global, files: &[SourceFile]) -> Result<Vec<u8>, NoMemory>
    ensures { IfOk result (λ text. text.items ≡ makefile files.now) }
{
    let mut text = Vec::new(alloc);
    text.extend_from_slice(b"|all:")?;
    push_objects(alloc, &mut text, files)?;
    text.extend_from_slice(b"\n")?;
    push_rules(alloc, &mut text, files)?;
    Ok(text)
}

/// The text of a source file, as a line of a body.
fn source_text(alloc: Global, file: &SourceFile) -> Result<Vec<u8>, NoMemory>
    ensures { IfOk result (λ text. text.items ≡ source_text file.now) }
{
    let mut text = Vec::new(alloc);
    text.extend_from_slice(b"|w")?;
    push_number(alloc, &mut text, file.content)?;
    text.extend_from_slice(b"\n")?;
    Ok(text)
}

/// A line of these words and this name.
fn push_words_line(text: &mut Vec<u8>, words: &[u8], name: &[u8]) -> Result<(), NoMemory>
    ensures { OnOk result (text.new.items ≡ text.old.items ++ line (words.now ++ name.now)) }
{
    text.extend_from_slice(words)?;
    text.extend_from_slice(name)?;
    push_bytes(text, b"\n")
}

/// The commands that make a file of this name, with the lines of its body.
#[tactic(auto, using(std::proofs::lemmas::List::append_assoc), unfolding(crate::specs::LargeSession::made))]
fn push_made(text: &mut Vec<u8>, name: &[u8], body: &[u8]) -> Result<(), NoMemory>
    ensures { OnOk result (text.new.items ≡ text.old.items ++ made name.now body.now) }
{
    push_words_line(text, b"mkelem v0 ", name)?;
    push_words_line(text, b"save v0 ", name)?;
    text.extend_from_slice(body)?;
    push_words_line(text, b"checkin v0 ", name)
}

fn push_made_source(alloc: Global, text: &mut Vec<u8>, file: &SourceFile) -> Result<(), NoMemory>
    ensures { OnOk result (text.new.items ≡ text.old.items ++ made_source file.now) }
{
    let mut name = Vec::new(alloc);
    push_source(alloc, &mut name, file.number)?;
    let body = source_text(alloc, file)?;
    push_made(text, name.as_slice(), body.as_slice())
}

fn push_made_sources(
    alloc: Global,
    text: &mut Vec<u8>,
    files: &[SourceFile],
) -> Result<(), NoMemory>
    ensures { OnOk result (text.new.items ≡ text.old.items ++ flat_map made_source files.now) }
{
    for file in files {
        push_made_source(alloc, text, file)?;
    }
    Ok(())
}

fn push_made_makefile(
    alloc: Global,
    text: &mut Vec<u8>,
    files: &[SourceFile],
) -> Result<(), NoMemory>
    ensures { OnOk result
        (text.new.items ≡ text.old.items ++ made (codes "Makefile") (makefile files.now)) }
{
    let body = makefile(alloc, files)?;
    push_made(text, b"Makefile", body.as_slice())
}

/// The first phase.
fn push_making(alloc: Global, text: &mut Vec<u8>, files: &[SourceFile]) -> Result<(), NoMemory>
    ensures { OnOk result (text.new.items ≡ text.old.items ++ making files.now) }
{
    text.extend_from_slice(OPENING)?;
    push_made_makefile(alloc, text, files)?;
    push_made_sources(alloc, text, files)?;
    text.extend_from_slice(VIEWS)?;
    Ok(())
}

fn push_session(alloc: Global, text: &mut Vec<u8>, files: &[SourceFile]) -> Result<(), NoMemory>
    ensures { OnOk result (text.new.items ≡ text.old.items ++ session_text_of files.now) }
{
    push_making(alloc, text, files)?;
    text.extend_from_slice(BUILDING)?;
    text.extend_from_slice(CHANGING)?;
    Ok(())
}

/// The text of the large session of this seed and size, a session of three phases. Of as many source files as the size says,
/// counted from 1, each has one line of one word and is joined with another; phase 1 makes them, a Makefile of as many rules,
/// and seven views; in phase 2 the views build in a lane each; in phase 3 one file is changed, and one view builds again.
///
/// Answers NoMemory alone. Takes time and memory linear in the text.
pub fn make_session(alloc: Global, seed: u64, size: u32) -> Result<Text, NoMemory>
    ensures text { IfOk result (λ text. text ≡ large_session seed size) }
    ensures short { IfOk result (λ text. length text ≤ 600 + 300 * size) }
{
    let files = files_of(alloc, seed, size)?;
    let mut text = Vec::new(alloc);
    push_session(alloc, &mut text, files.as_slice())?;
    Ok(Text::of(text))
}
