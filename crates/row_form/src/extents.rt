//! Outputs in the file of objects: how a row is spelled whose large outputs have extents, and the row of the base that it gives.
#![tactic(auto, using(std::proofs::lemmas::List::append_assoc))]

ghost use Rattle.std.specs.Prelude.{◌≡◌, ◌<◌, ◌^◌, ◌++◌, length, map, IfOk, OnOk};
ghost use Rattle.std.specs.List.{AllByRecursion};
ghost use Rattle.cc_names.specs.Formed.{IsText};
ghost use Rattle.cc_names.specs.declared.rows.Deed.TheVariants as deeds;
ghost use Rattle.row_form.specs.Fields.{list_bytes, stored_bytes};
ghost use Rattle.row_form.specs.Spelled.{spelling_of};
ghost use Rattle.row_form.specs.Extents.{is_large, stored_first, stored_at, row_at_extents, in_frame, plain_row};

use crate::writing::{put_head, put_here, put_object, put_there, put_word, spell};
use cc_names::copies::Copied;
use cc_names::lists::List;
use cc_names::memory::NoMemory;
use cc_names::names::Name;
use cc_names::paths::Path;
use cc_names::rows::{Deed, Extent, ReadOf, Row, Stored};
use cc_names::texts::Text;
use std::alloc::Global;

/// Whether an output has an extent of its own: 4,096 bytes or more.
pub fn is_large(output: &[u8]) -> bool
    ensures { result ≡ is_large output.now }
{
    4_096 <= output.len()
}

/// The spelling of a row of which each large output has the next of these extents; of the row itself where there are no
/// extents. Takes time and memory linear in what it writes, and copies no output that has an extent.
pub fn spell_at(alloc: Global, row: &Row, extents: &[Extent]) -> Result<Text, NoMemory>
    ensures { IfOk result (λ bytes. bytes ≡ spelling_of (row_at_extents extents.now row.now)) }
{
    if extents.is_empty() {
        return spell(alloc, row);
    }
    match row.deed() {
        Deed::Publish {
            view,
            targets,
            script,
            entries,
            outputs,
        } => {
            let mut out = Vec::new(alloc);
            put_head(&mut out, row)?;
            out.push(23)?;
            put_object(
                &mut out,
                view,
                targets.as_slice(),
                script,
                entries.as_slice(),
            )?;
            put_outputs(&mut out, outputs.as_slice(), extents)?;
            Ok(Text::of(out))
        }
        _ => spell(alloc, row),
    }
}

/// Writes outputs, each large one as the next of these extents.
fn put_outputs(out: &mut Vec<u8>, outputs: &[Text], extents: &[Extent]) -> Result<(), NoMemory>
    requires short { length outputs.now < 2 ^ 32 }
    requires texts { AllByRecursion IsText outputs.now }
    ensures { OnOk result
        (out.new.items
        ≡ out.old.items ++ list_bytes stored_bytes (stored_at outputs.now extents.now)) }
{
    put_word(out, outputs.len() as u32)?;
    let mut left = extents;
    for output in outputs {
        left = put_output(out, output, left)?;
    }
    Ok(())
}

/// Writes an output, and answers the extents that are left for the others.
fn put_output<'a>(
    out: &mut Vec<u8>,
    output: &Text,
    extents: &'a [Extent],
) -> Result<&'a [Extent], NoMemory>
    requires { IsText output.now }
    ensures { IfOk result
        (λ left. (out.new.items
        ≡ out.old.items ++ stored_bytes (stored_first output.now extents.now).0)
        × (left.now ≡ (stored_first output.now extents.now).1)) }
{
    match extents {
        [extent, left @ ..] if is_large(output.as_bytes()) => {
            put_there(out, *extent)?;
            Ok(left)
        }
        _ => {
            put_here(out, output)?;
            Ok(extents)
        }
    }
}

/// The row of the base that a row as a frame spells it gives: each output that has an extent is empty. Takes time and memory
/// linear in the frame of a publish that has extents, and none for any other row.
pub fn plain_row(alloc: Global, row: Row) -> Result<Row, NoMemory>
    ensures { IfOk result (λ plain. plain ≡ plain_row row) }
{
    match row.deed() {
        Deed::PublishAt {
            view,
            targets,
            script,
            entries,
            outputs,
        } => {
            let deed = plain_publish(alloc, view, targets, script, entries, outputs.as_slice())?;
            Ok(Row::of(row.tag(), row.moment(), deed))
        }
        _ => Ok(row),
    }
}

fn plain_publish(
    alloc: Global,
    view: &Name,
    targets: &List<Path>,
    script: &Text,
    entries: &List<ReadOf>,
    outputs: &[Stored],
) -> Result<Deed, NoMemory>
    ensures { IfOk result
        (λ deed. deed
        ≡ deeds.Publish view.now targets.now script.now entries.now (map in_frame outputs.now)) }
{
    Ok(Deed::Publish {
        view: view.copy(alloc)?,
        targets: targets.copy(alloc)?,
        script: script.copy(alloc)?,
        entries: entries.copy(alloc)?,
        outputs: plain_outputs(alloc, outputs)?,
    })
}

fn plain_outputs(alloc: Global, outputs: &[Stored]) -> Result<List<Text>, NoMemory>
    ensures { IfOk result (λ texts. texts ≡ map in_frame outputs.now) }
{
    let mut texts = Vec::new(alloc);
    for output in outputs {
        texts.push(in_frame(alloc, output)?)?;
    }
    Ok(List::of(texts))
}

fn in_frame(alloc: Global, output: &Stored) -> Result<Text, NoMemory>
    ensures { IfOk result (λ text. text ≡ in_frame output.now) }
{
    match output {
        Stored::Here(text) => text.copy(alloc),
        Stored::There(_) => Ok(Text::of(Vec::new(alloc))),
    }
}
