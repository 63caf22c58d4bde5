//! `pp`: a text with each include line replaced by the text that it includes.

ghost use Rattle.std.specs.Prelude.{◌≡◌, ◌+◌, ◌-◌, ◌<◌, ◌≤◌, ◌∷◌, ℕ, List, Err, IfOk, OnOk, OnSome, length};
ghost use Rattle.script_grammar.specs.Run.{Preprocessed, probe_of, found_or, preprocessed_text, with_part, depth_limit};
ghost use Rattle.std.specs.List.{filter_map};
ghost use Rattle.cc_names.specs.declared.refusals.ScriptFault.TheVariants.{Absent};
ghost use Rattle.script_grammar.specs.Includes.{probes_of, under};
ghost use Rattle.build_script.specs.Making.{output_by_parts, resumed_making, left_of, includes, preprocessing, made_by_parts, found_with};
ghost use Rattle.build_script.specs.OpenTexts.{rest_of, rests_of};
ghost use Rattle.script_grammar.specs.Parts.{Performed, PartGave, gives, own_of};
ghost use Rattle.build_script.specs.MadeOf.{made_of};

use crate::files::Files;
use crate::forms::split_first_line;
use crate::includes::{include_of, under};
use crate::making::{Made, Making, needed_text, say, see};
use crate::open_texts::OpenText;
use cc_names::memory::NoMemory;
use cc_names::paths::Path;
use cc_names::refusals::ScriptFault;
use cc_names::texts::Text;
use indexmap::IndexSet;
use script_grammar::halts::Halt;
use std::alloc::Global;
use std::hash::RandomState;

/// The most files that `pp` is inside of, the one that it is given aside.
const DEPTH_LIMIT: usize = 32;

/// The most probes that a run makes.
const PROBE_LIMIT: u32 = 100_000;

/// Looks for an included path at one place. Each such probe counts.
fn probe<F: Files>(
    making: Making<'_>,
    reads: &mut IndexSet<Path, RandomState>,
    files: &mut F,
    probes: &mut u32,
    include: &Path,
    place: &Path,
) -> Result<Option<Text>, Halt>
    ensures went { (more : List (List ℕ))
        → Performed F.stands F.broken F.follows reads.old.keys
        (probe_of (own_of making.entry.written.now) include.now (place.now ∷ more) probes.old)
        (found_or (probe_of (own_of making.entry.written.now) include.now more probes.new)
        probes.new) result reads.new.keys files.old files.new }
    ensures counted { OnOk result (probes.new ≡ probes.old + 1) }
    ensures within { OnOk result (probes.new ≤ 100000) }
{
    if *probes >= PROBE_LIMIT {
        let path = include.copy(making.alloc)?;
        return Err(Halt::Fault(ScriptFault::IncludeDepth(path)));
    }
    *probes += 1;
    see(making, reads, files, place)
}

/// The fault that nothing stands at a path.
fn absent(alloc: Global, path: &Path) -> Halt
    ensures { (probes : ℕ) → PartGave (Err (Absent path.now)) (found_with probes) (Err result) }
{
    match path.copy(alloc) {
        Ok(path) => Halt::Fault(ScriptFault::Absent(path)),
        Err(NoMemory) => Halt::NoMemory,
    }
}

/// Looks for an included path under a directory, unless it would be too long there.
fn probe_under<F: Files>(
    making: Making<'_>,
    reads: &mut IndexSet<Path, RandomState>,
    files: &mut F,
    probes: &mut u32,
    path: &Path,
    directory: &Path,
) -> Result<Option<Text>, Halt>
    ensures went { (more : List (List ℕ))
        → Performed F.stands F.broken F.follows reads.old.keys
        (probe_of (own_of making.entry.written.now) path.now
        (filter_map (under path.now) (directory.now ∷ more)) probes.old)
        (found_or
        (probe_of (own_of making.entry.written.now) path.now (filter_map (under path.now) more)
        probes.new) probes.new) result reads.new.keys files.old files.new }
    ensures counted { OnOk result (probes.old ≤ probes.new) }
    ensures found { IfOk result (λ found. OnSome found (probes.old < probes.new)) }
    ensures within { IfOk result (λ found. OnSome found (probes.new ≤ 100000)) }
{
    let Some(place) = under(making.alloc, path, directory)? else {
        return Ok(None);
    };
    probe(making, reads, files, probes, path, &place)
}

/// The text of an included path under the first directory where it stands.
fn find_under<F: Files>(
    making: Making<'_>,
    reads: &mut IndexSet<Path, RandomState>,
    files: &mut F,
    probes: &mut u32,
    directories: &[Path],
    path: &Path,
) -> Result<Text, Halt>
    ensures went { Performed F.stands F.broken F.follows reads.old.keys
        (probe_of (own_of making.entry.written.now) path.now
        (filter_map (under path.now) directories.now) probes.old)
        (gives (found_with probes.new)) result reads.new.keys files.old files.new }
    ensures counted { OnOk result (probes.old < probes.new) }
    ensures within { OnOk result (probes.new ≤ 100000) }
{
    for directory in directories {
        let found = probe_under(making, reads, files, probes, path, directory)?;
        if let Some(text) = found {
            return Ok(text);
        }
    }
    Err(absent(making.alloc, path))
}

/// The text of an included path: at itself, else under the first directory where it stands.
fn find_included<F: Files>(
    making: Making<'_>,
    reads: &mut IndexSet<Path, RandomState>,
    files: &mut F,
    probes: &mut u32,
    directories: &[Path],
    path: &Path,
) -> Result<Text, Halt>
    ensures went { Performed F.stands F.broken F.follows reads.old.keys
        (probe_of (own_of making.entry.written.now) path.now (probes_of directories.now path.now)
        probes.old) (gives (found_with probes.new)) result reads.new.keys files.old files.new }
    ensures counted { OnOk result (probes.old < probes.new) }
    ensures within { OnOk result (probes.new ≤ 100000) }
{
    let found = probe(making, reads, files, probes, path, path)?;
    if let Some(text) = found {
        return Ok(text);
    }
    if path.is_root() {
        return Err(absent(making.alloc, path));
    }
    find_under(making, reads, files, probes, directories, path)
}

/// The text of an included path, in a text inside of so many others.
fn include<F: Files>(
    making: Making<'_>,
    reads: &mut IndexSet<Path, RandomState>,
    files: &mut F,
    probes: &mut u32,
    directories: &[Path],
    inside: usize,
    path: &Path,
) -> Result<Text, Halt>
    ensures went { (bytes : List ℕ)
        → Performed F.stands F.broken F.follows reads.old.keys
        (includes (depth_limit - inside)
        (preprocessing (own_of making.entry.written.now) directories.now
        (output_by_parts making.entry.path.now making.entry.before)) path.now
        (made_by_parts bytes probes.old))
        (λ text.
        preprocessed_text (depth_limit - (inside + 1))
        (preprocessing (own_of making.entry.written.now) directories.now
        (output_by_parts making.entry.path.now making.entry.before)) text
        (made_by_parts bytes probes.new)) result reads.new.keys files.old files.new }
    ensures counted { OnOk result (probes.old < probes.new) }
    ensures within { OnOk result (probes.new ≤ 100000) }
    ensures inside { OnOk result (inside < 32) }
{
    if inside >= DEPTH_LIMIT {
        let path = path.copy(making.alloc)?;
        return Err(Halt::Fault(ScriptFault::IncludeDepth(path)));
    }
    find_included(making, reads, files, probes, directories, path)
}

/// Puts a text back after the others.
fn put_back(inside: &mut Vec<OpenText>, text: OpenText) -> Result<(), NoMemory>
    ensures rests { OnOk result
        (rests_of inside.new.items ≡ rest_of text ∷ rests_of inside.old.items) }
    ensures count { OnOk result (length inside.new.items ≡ length inside.old.items + 1) }
{
    inside.push(text)?;
    Ok(())
}

/// Puts a text back, and goes inside of another.
fn enter(inside: &mut Vec<OpenText>, outer: OpenText, text: Text) -> Result<(), NoMemory>
    ensures rests { OnOk result
        (rests_of inside.new.items ≡ text ∷ rest_of outer ∷ rests_of inside.old.items) }
    ensures count { OnOk result (length inside.new.items ≡ length inside.old.items + 2) }
{
    put_back(inside, outer)?;
    put_back(inside, OpenText::of(text))
}

/// The next line of the innermost text, which is taken off the others.
fn step<F: Files>(
    making: Making<'_>,
    reads: &mut IndexSet<Path, RandomState>,
    files: &mut F,
    made: &mut Made,
    directories: &[Path],
    inside: &mut Vec<OpenText>,
    innermost: OpenText,
) -> Result<(), Halt>
    ensures went { Performed F.stands F.broken F.follows reads.old.keys
        (resumed_making
        (preprocessing (own_of making.entry.written.now) directories.now
        (output_by_parts making.entry.path.now making.entry.before))
        (rest_of innermost ∷ rests_of inside.old.items) (made_of made.old))
        (λ _.
        resumed_making
        (preprocessing (own_of making.entry.written.now) directories.now
        (output_by_parts making.entry.path.now making.entry.before)) (rests_of inside.new.items)
        (made_of made.new)) result reads.new.keys files.old files.new }
    ensures shrinks { OnOk result
        (left_of (output_by_parts making.entry.path.now making.entry.before) (made_of made.new)
        (length inside.new.items)
        < left_of (output_by_parts making.entry.path.now making.entry.before) (made_of made.old)
        (length inside.old.items + 1)) }
{
    let Some((line, _)) = split_first_line(innermost.rest()) else {
        return Ok(());
    };
    let count = line.len();
    let Some(path) = include_of(making.alloc, line)? else {
        say(making, made, line)?;
        put_back(inside, innermost.past(count))?;
        return Ok(());
    };
    let text = include(
        making,
        reads,
        files,
        &mut made.probes,
        directories,
        inside.len(),
        &path,
    )?;
    enter(inside, innermost.past(count), text)?;
    Ok(())
}

/// A text with each include line replaced.
fn replace_includes<F: Files>(
    making: Making<'_>,
    reads: &mut IndexSet<Path, RandomState>,
    files: &mut F,
    made: &mut Made,
    directories: &[Path],
    text: Text,
) -> Result<(), Halt>
    ensures { Performed F.stands F.broken F.follows reads.old.keys
        (preprocessed_text depth_limit
        (preprocessing (own_of making.entry.written.now) directories.now
        (output_by_parts making.entry.path.now making.entry.before)) text (made_of made.old))
        (gives (λ _. made_of made.new)) result reads.new.keys files.old files.new }
{
    let mut inside = Vec::new(making.alloc);
    put_back(&mut inside, OpenText::of(text))?;
    while let Some(innermost) = inside.pop() {
        step(
            making,
            reads,
            files,
            made,
            directories,
            &mut inside,
            innermost,
        )?;
    }
    Ok(())
}

/// The text at a path with each include line replaced. Takes time linear in the bytes that it reads and says and in
/// the paths of its probes.
pub(crate) fn preprocess<F: Files>(
    making: Making<'_>,
    reads: &mut IndexSet<Path, RandomState>,
    files: &mut F,
    made: &mut Made,
    directories: &[Path],
    path: &Path,
) -> Result<(), Halt>
    ensures { Performed F.stands F.broken F.follows reads.old.keys
        (with_part (own_of making.entry.written.now)
        (output_by_parts making.entry.path.now making.entry.before)
        (Preprocessed directories.now path.now) (made_of made.old))
        (gives (λ _. made_of made.new)) result reads.new.keys files.old files.new }
{
    let text = needed_text(making, reads, files, path)?;
    replace_includes(making, reads, files, made, directories, text)
}
