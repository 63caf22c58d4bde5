//! How a deed is read. A deed has its reader, and a line in `read_plain`.

ghost use Rattle.std.specs.Prelude.{◌≡◌, List, ℕ, length};
ghost use Rattle.std.specs.List.{list_any};
ghost use Rattle.cc_names.specs.Formed.{is_there};
ghost use Rattle.row_form.specs.Answers.{Answers};
ghost use Rattle.row_form.specs.DeedReaders.{read_mkview, read_rmview, read_setcs, read_mkelem, read_checkout, read_branch, read_save, read_checkin, read_uncheckout, read_rmname, read_mv, read_put, read_rm, read_mktype, read_label, read_unlabel, read_wink, read_drop, read_arrow, read_scrub, read_labels, read_record, read_outputs, read_publish, read_stored_outputs, read_publish_at, plain_deeds, deeds_under, read_fields, read_deed};

use crate::cursor::{Cursor, Unread};
use crate::fields::{Field, TypeName};
use crate::lists::{read_entries, read_objects, read_places, read_targets};
use cc_names::lists::List;
use cc_names::memory::Or;
use cc_names::names::Name;
use cc_names::paths::Path;
use cc_names::rows::{Deed, Kind, Out, ReadOf, Stored, TypeKind};
use cc_names::texts::Text;
use std::alloc::Global;
use std::hash::RandomState;

fn read_mkview(alloc: Global, cursor: &mut Cursor<'_>) -> Result<Deed, Or<Unread>>
    ensures { Answers result (read_mkview cursor.old.rest.now) cursor.new.rest.now }
{
    let view: Name = Field::read(alloc, cursor)?;
    Ok(Deed::Mkview { view })
}

fn read_rmview(alloc: Global, cursor: &mut Cursor<'_>) -> Result<Deed, Or<Unread>>
    ensures { Answers result (read_rmview cursor.old.rest.now) cursor.new.rest.now }
{
    let view: Name = Field::read(alloc, cursor)?;
    Ok(Deed::Rmview { view })
}

fn read_setcs(alloc: Global, cursor: &mut Cursor<'_>) -> Result<Deed, Or<Unread>>
    ensures { Answers result (read_setcs cursor.old.rest.now) cursor.new.rest.now }
{
    let fields: (Name, Text) = Field::read(alloc, cursor)?;
    let (view, text) = fields;
    Ok(Deed::Setcs { view, text })
}

fn read_mkelem(alloc: Global, cursor: &mut Cursor<'_>) -> Result<Deed, Or<Unread>>
    ensures { Answers result (read_mkelem cursor.old.rest.now) cursor.new.rest.now }
{
    let fields: (Name, (u64, (Name, (Kind, bool)))) = Field::read(alloc, cursor)?;
    let (view, (directory, (name, (kind, out)))) = fields;
    Ok(Deed::Mkelem {
        view,
        directory,
        name,
        kind,
        out,
    })
}

fn read_checkout(alloc: Global, cursor: &mut Cursor<'_>) -> Result<Deed, Or<Unread>>
    ensures { Answers result (read_checkout cursor.old.rest.now) cursor.new.rest.now }
{
    let fields: (Name, (u64, (u64, bool))) = Field::read(alloc, cursor)?;
    let (view, (element, (origin, reserved))) = fields;
    Ok(Deed::Checkout {
        view,
        element,
        origin,
        reserved,
    })
}

fn read_branch(alloc: Global, cursor: &mut Cursor<'_>) -> Result<Deed, Or<Unread>>
    ensures { Answers result (read_branch cursor.old.rest.now) cursor.new.rest.now }
{
    let fields: (Name, (u64, (u64, (TypeName, Out)))) = Field::read(alloc, cursor)?;
    let (view, (element, (origin, (name, out)))) = fields;
    Ok(Deed::Branch {
        view,
        element,
        origin,
        name: name.into_name(),
        out,
    })
}

fn read_save(alloc: Global, cursor: &mut Cursor<'_>) -> Result<Deed, Or<Unread>>
    ensures { Answers result (read_save cursor.old.rest.now) cursor.new.rest.now }
{
    let fields: (Name, (u64, Text)) = Field::read(alloc, cursor)?;
    let (view, (element, text)) = fields;
    Ok(Deed::Save {
        view,
        element,
        text,
    })
}

fn read_checkin(alloc: Global, cursor: &mut Cursor<'_>) -> Result<Deed, Or<Unread>>
    ensures { Answers result (read_checkin cursor.old.rest.now) cursor.new.rest.now }
{
    let fields: (Name, u64) = Field::read(alloc, cursor)?;
    let (view, element) = fields;
    Ok(Deed::Checkin { view, element })
}

fn read_uncheckout(alloc: Global, cursor: &mut Cursor<'_>) -> Result<Deed, Or<Unread>>
    ensures { Answers result (read_uncheckout cursor.old.rest.now) cursor.new.rest.now }
{
    let fields: (Name, u64) = Field::read(alloc, cursor)?;
    let (view, element) = fields;
    Ok(Deed::Uncheckout { view, element })
}

fn read_rmname(alloc: Global, cursor: &mut Cursor<'_>) -> Result<Deed, Or<Unread>>
    ensures { Answers result (read_rmname cursor.old.rest.now) cursor.new.rest.now }
{
    let fields: (Name, (u64, Name)) = Field::read(alloc, cursor)?;
    let (view, (directory, name)) = fields;
    Ok(Deed::Rmname {
        view,
        directory,
        name,
    })
}

fn read_mv(alloc: Global, cursor: &mut Cursor<'_>) -> Result<Deed, Or<Unread>>
    ensures { Answers result (read_mv cursor.old.rest.now) cursor.new.rest.now }
{
    let fields: (Name, (u64, (Name, Name))) = Field::read(alloc, cursor)?;
    let (view, (directory, (from_name, to_name))) = fields;
    Ok(Deed::Mv {
        view,
        directory,
        from_name,
        to_name,
    })
}

fn read_put(alloc: Global, cursor: &mut Cursor<'_>) -> Result<Deed, Or<Unread>>
    ensures { Answers result (read_put cursor.old.rest.now) cursor.new.rest.now }
{
    let fields: (Name, (Path, Text)) = Field::read(alloc, cursor)?;
    let (view, (path, text)) = fields;
    Ok(Deed::Put { view, path, text })
}

fn read_rm(alloc: Global, cursor: &mut Cursor<'_>) -> Result<Deed, Or<Unread>>
    ensures { Answers result (read_rm cursor.old.rest.now) cursor.new.rest.now }
{
    let fields: (Name, Path) = Field::read(alloc, cursor)?;
    let (view, path) = fields;
    Ok(Deed::Rm { view, path })
}

fn read_mktype(alloc: Global, cursor: &mut Cursor<'_>) -> Result<Deed, Or<Unread>>
    ensures { Answers result (read_mktype cursor.old.rest.now) cursor.new.rest.now }
{
    let fields: (TypeKind, TypeName) = Field::read(alloc, cursor)?;
    let (kind, name) = fields;
    Ok(Deed::Mktype {
        kind,
        name: name.into_name(),
    })
}

fn read_label(alloc: Global, cursor: &mut Cursor<'_>) -> Result<Deed, Or<Unread>>
    ensures { Answers result (read_label cursor.old.rest.now) cursor.new.rest.now }
{
    let fields: (TypeName, (u64, u64)) = Field::read(alloc, cursor)?;
    let (label, (element, version)) = fields;
    Ok(Deed::Label {
        label: label.into_name(),
        element,
        version,
    })
}

fn read_unlabel(alloc: Global, cursor: &mut Cursor<'_>) -> Result<Deed, Or<Unread>>
    ensures { Answers result (read_unlabel cursor.old.rest.now) cursor.new.rest.now }
{
    let fields: (TypeName, u64) = Field::read(alloc, cursor)?;
    let (label, element) = fields;
    Ok(Deed::Unlabel {
        label: label.into_name(),
        element,
    })
}

fn read_wink(alloc: Global, cursor: &mut Cursor<'_>) -> Result<Deed, Or<Unread>>
    ensures { Answers result (read_wink cursor.old.rest.now) cursor.new.rest.now }
{
    let fields: (Name, u64) = Field::read(alloc, cursor)?;
    let (view, object) = fields;
    Ok(Deed::Wink { view, object })
}

fn read_drop(alloc: Global, cursor: &mut Cursor<'_>) -> Result<Deed, Or<Unread>>
    ensures { Answers result (read_drop cursor.old.rest.now) cursor.new.rest.now }
{
    let fields: (Name, Path) = Field::read(alloc, cursor)?;
    let (view, path) = fields;
    Ok(Deed::Drop { view, path })
}

fn read_arrow(alloc: Global, cursor: &mut Cursor<'_>) -> Result<Deed, Or<Unread>>
    ensures { Answers result (read_arrow cursor.old.rest.now) cursor.new.rest.now }
{
    let fields: (u64, (u64, u64)) = Field::read(alloc, cursor)?;
    let (element, (tail, head)) = fields;
    Ok(Deed::Arrow {
        element,
        tail,
        head,
    })
}

fn read_scrub(alloc: Global, cursor: &mut Cursor<'_>) -> Result<Deed, Or<Unread>>
    ensures { Answers result (read_scrub cursor.old.rest.now) cursor.new.rest.now }
{
    let objects = read_objects(alloc, cursor)?;
    Ok(Deed::Scrub { objects })
}

fn read_labels(alloc: Global, cursor: &mut Cursor<'_>) -> Result<Deed, Or<Unread>>
    ensures { Answers result (read_labels cursor.old.rest.now) cursor.new.rest.now }
{
    let label: TypeName = Field::read(alloc, cursor)?;
    let placed = read_places(alloc, cursor)?;
    Ok(Deed::Labels {
        label: label.into_name(),
        placed,
    })
}

/// What every publish has before its outputs.
type Record = (Name, (List<Path>, (Text, List<ReadOf>)));

fn read_record(
    alloc: Global,
    hashing: RandomState,
    cursor: &mut Cursor<'_>,
    form: u8,
) -> Result<Record, Or<Unread>>
    ensures { Answers result (read_record form cursor.old.rest.now) cursor.new.rest.now }
{
    let view: Name = Field::read(alloc, cursor)?;
    let targets = read_targets(alloc, hashing, cursor, form)?;
    let script: Text = Field::read(alloc, cursor)?;
    let entries = read_entries(alloc, cursor)?;
    Ok((view, (targets, (script, entries))))
}

fn read_outputs(
    alloc: Global,
    cursor: &mut Cursor<'_>,
    count: usize,
) -> Result<List<Text>, Or<Unread>>
    ensures { Answers result (read_outputs count cursor.old.rest.now) cursor.new.rest.now }
{
    let here = cursor.unread();
    let outputs: List<Text> = Field::read(alloc, cursor)?;
    if outputs.len() == count {
        return Ok(outputs);
    }
    Err(Or::Is(here))
}

fn read_publish(
    alloc: Global,
    hashing: RandomState,
    cursor: &mut Cursor<'_>,
    form: u8,
) -> Result<Deed, Or<Unread>>
    ensures { Answers result (read_publish form cursor.old.rest.now) cursor.new.rest.now }
{
    let record = read_record(alloc, hashing, cursor, form)?;
    let (view, (targets, (script, entries))) = record;
    let outputs = read_outputs(alloc, cursor, targets.len())?;
    Ok(Deed::Publish {
        view,
        targets,
        script,
        entries,
        outputs,
    })
}

fn is_there(output: &Stored) -> bool
    ensures { result ≡ is_there output.now }
{
    match output {
        Stored::Here(_) => false,
        Stored::There(_) => true,
    }
}

/// Whether one output or more has an extent.
fn has_extent(outputs: &[Stored]) -> bool
    ensures { result ≡ list_any is_there outputs.now }
{
    outputs.iter().any(|output| is_there(output))
}

fn read_stored_outputs(
    alloc: Global,
    cursor: &mut Cursor<'_>,
    count: usize,
) -> Result<List<Stored>, Or<Unread>>
    ensures { Answers result (read_stored_outputs count cursor.old.rest.now) cursor.new.rest.now }
{
    let here = cursor.unread();
    let outputs: List<Stored> = Field::read(alloc, cursor)?;
    if outputs.len() == count && has_extent(outputs.as_slice()) {
        return Ok(outputs);
    }
    Err(Or::Is(here))
}

fn read_publish_at(
    alloc: Global,
    hashing: RandomState,
    cursor: &mut Cursor<'_>,
    form: u8,
) -> Result<Deed, Or<Unread>>
    ensures { Answers result (read_publish_at form cursor.old.rest.now) cursor.new.rest.now }
{
    let record = read_record(alloc, hashing, cursor, form)?;
    let (view, (targets, (script, entries))) = record;
    let outputs = read_stored_outputs(alloc, cursor, targets.len())?;
    Ok(Deed::PublishAt {
        view,
        targets,
        script,
        entries,
        outputs,
    })
}

/// The deed of this code, one of those that have the first byte 1 alone; `here` says where the code is.
fn read_plain(
    alloc: Global,
    cursor: &mut Cursor<'_>,
    code: u8,
    here: Unread,
) -> Result<Deed, Or<Unread>>
    ensures { (bytes : List ℕ)
        → here.left ≡ length bytes
        → Answers result (read_fields plain_deeds code bytes cursor.old.rest.now)
        cursor.new.rest.now }
{
    match code {
        1 => read_mkview(alloc, cursor),
        2 => read_rmview(alloc, cursor),
        3 => read_setcs(alloc, cursor),
        4 => read_mkelem(alloc, cursor),
        5 => read_checkout(alloc, cursor),
        6 => read_branch(alloc, cursor),
        7 => read_save(alloc, cursor),
        8 => read_checkin(alloc, cursor),
        9 => read_uncheckout(alloc, cursor),
        10 => read_rmname(alloc, cursor),
        11 => read_mv(alloc, cursor),
        12 => read_put(alloc, cursor),
        13 => read_rm(alloc, cursor),
        14 => read_mktype(alloc, cursor),
        15 => read_label(alloc, cursor),
        16 => read_unlabel(alloc, cursor),
        18 => read_wink(alloc, cursor),
        19 => read_drop(alloc, cursor),
        20 => read_scrub(alloc, cursor),
        21 => read_labels(alloc, cursor),
        22 => read_arrow(alloc, cursor),
        _ => Err(Or::Is(here)),
    }
}

/// The code and the fields of the deed of a row of this first byte.
pub(crate) fn read_deed(
    alloc: Global,
    hashing: RandomState,
    cursor: &mut Cursor<'_>,
    form: u8,
) -> Result<Deed, Or<Unread>>
    ensures { Answers result (read_deed form cursor.old.rest.now) cursor.new.rest.now }
{
    let here = cursor.unread();
    match cursor.byte()? {
        17 => read_publish(alloc, hashing, cursor, form),
        23 => read_publish_at(alloc, hashing, cursor, form),
        code if form == 1 => read_plain(alloc, cursor, code, here),
        _ => Err(Or::Is(here)),
    }
}
