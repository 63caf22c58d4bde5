//! How a row is spelled.
#![tactic(auto, using(std::proofs::lemmas::List::append_assoc))]

ghost use Rattle.std.specs.Prelude.{◌≡◌, ◌<◌, ◌^◌, ◌∷◌, [], ◌++◌, List, ℕ, length, IfOk, OnOk};
ghost use Rattle.std.specs.List.{flat_map, AllByRecursion};
ghost use Rattle.cc_names.specs.Formed.{IsText, IsStored};
ghost use Rattle.cc_names.specs.declared.rows.Stored.TheVariants.{Here, There};
ghost use Rattle.row_form.specs.Fields.{word, long, text, list_bytes, flag, kind, type_kind, out_byte, entry, place_of, stored_bytes};
ghost use Rattle.row_form.specs.Spelled.{spelling_of, head_of, code_of, first_byte, form_of};

use crate::deed_fields::put_fields;
use cc_names::memory::NoMemory;
use cc_names::names::Name;
use cc_names::paths::Path;
use cc_names::rows::{Deed, Extent, Kind, Out, Placed, ReadOf, Row, Stored, TypeKind};
use cc_names::texts::Text;
use std::alloc::Global;

/// The spelling of a row, in time linear in it.
pub fn spell(alloc: Global, row: &Row) -> Result<Text, NoMemory>
    ensures { IfOk result (λ bytes. bytes ≡ spelling_of row.now) }
{
    let deed = row.deed();
    let mut out = Vec::new(alloc);
    put_head(&mut out, row)?;
    out.push(code_of(deed))?;
    put_fields(&mut out, deed)?;
    Ok(Text::of(out))
}

/// What a row has before its deed's code: the first byte, the tag and the moment.
pub(crate) fn put_head(out: &mut Vec<u8>, row: &Row) -> Result<(), NoMemory>
    ensures { OnOk result (out.new.items ≡ out.old.items ++ head_of row.now) }
{
    let tag = row.tag();
    out.push(first_byte(row.deed()))?;
    put_word(out, tag.phase)?;
    put_word(out, tag.lane)?;
    put_word(out, tag.command)?;
    put_long(out, row.moment())
}

/// The first byte of a publish with these targets.
pub(crate) fn form_of(targets: &[Path]) -> u8
    ensures { result ≡ form_of targets.now }
{
    match targets {
        [_, _, ..] => 2,
        _ => 1,
    }
}

fn first_byte(deed: &Deed) -> u8
    ensures { result ≡ first_byte deed.now }
{
    match deed {
        Deed::Publish {
            view: _,
            targets,
            script: _,
            entries: _,
            outputs: _,
        } => form_of(targets.as_slice()),
        Deed::PublishAt {
            view: _,
            targets,
            script: _,
            entries: _,
            outputs: _,
        } => form_of(targets.as_slice()),
        _ => 1,
    }
}

fn code_of(deed: &Deed) -> u8
    ensures { result ≡ code_of deed.now }
{
    match deed {
        Deed::Mkview { .. } => 1,
        Deed::Rmview { .. } => 2,
        Deed::Setcs { .. } => 3,
        Deed::Mkelem { .. } => 4,
        Deed::Checkout { .. } => 5,
        Deed::Branch { .. } => 6,
        Deed::Save { .. } => 7,
        Deed::Checkin { .. } => 8,
        Deed::Uncheckout { .. } => 9,
        Deed::Rmname { .. } => 10,
        Deed::Mv { .. } => 11,
        Deed::Put { .. } => 12,
        Deed::Rm { .. } => 13,
        Deed::Mktype { .. } => 14,
        Deed::Label { .. } => 15,
        Deed::Unlabel { .. } => 16,
        Deed::Publish { .. } => 17,
        Deed::Wink { .. } => 18,
        Deed::Drop { .. } => 19,
        Deed::Scrub { .. } => 20,
        Deed::Labels { .. } => 21,
        Deed::Arrow { .. } => 22,
        Deed::PublishAt { .. } => 23,
    }
}

pub(crate) fn put_word(out: &mut Vec<u8>, number: u32) -> Result<(), NoMemory>
    ensures { OnOk result (out.new.items ≡ out.old.items ++ word number) }
{
    out.extend_from_slice(&number.to_le_bytes())?;
    Ok(())
}

pub(crate) fn put_long(out: &mut Vec<u8>, number: u64) -> Result<(), NoMemory>
    ensures { OnOk result (out.new.items ≡ out.old.items ++ long number) }
{
    out.extend_from_slice(&number.to_le_bytes())?;
    Ok(())
}

fn put_byte(out: &mut Vec<u8>, byte: u8) -> Result<(), NoMemory>
    ensures { OnOk result (out.new.items ≡ out.old.items ++ byte ∷ []) }
{
    out.push(byte)?;
    Ok(())
}

fn put_text(out: &mut Vec<u8>, bytes: &[u8]) -> Result<(), NoMemory>
    requires { length bytes.now < 2 ^ 32 }
    ensures { OnOk result (out.new.items ≡ out.old.items ++ text bytes.now) }
{
    put_word(out, bytes.len() as u32)?;
    out.extend_from_slice(bytes)?;
    Ok(())
}

pub(crate) fn put_body(out: &mut Vec<u8>, body: &Text) -> Result<(), NoMemory>
    requires { IsText body.now }
    ensures { OnOk result (out.new.items ≡ out.old.items ++ text body.now) }
{
    put_text(out, body.as_bytes())
}

pub(crate) fn put_name(out: &mut Vec<u8>, name: &Name) -> Result<(), NoMemory>
    ensures { OnOk result (out.new.items ≡ out.old.items ++ text name.now) }
{
    put_text(out, name.as_bytes())
}

pub(crate) fn put_path(out: &mut Vec<u8>, path: &Path) -> Result<(), NoMemory>
    ensures { OnOk result (out.new.items ≡ out.old.items ++ text path.now) }
{
    put_text(out, path.as_bytes())
}

pub(crate) fn put_flag(out: &mut Vec<u8>, is: bool) -> Result<(), NoMemory>
    ensures { OnOk result (out.new.items ≡ out.old.items ++ flag is) }
{
    if is {
        put_byte(out, 1)
    } else {
        put_byte(out, 0)
    }
}

pub(crate) fn put_kind(out: &mut Vec<u8>, sort: Kind) -> Result<(), NoMemory>
    ensures { OnOk result (out.new.items ≡ out.old.items ++ kind sort) }
{
    match sort {
        Kind::File => put_byte(out, 1),
        Kind::Directory => put_byte(out, 2),
    }
}

pub(crate) fn put_type_kind(out: &mut Vec<u8>, sort: TypeKind) -> Result<(), NoMemory>
    ensures { OnOk result (out.new.items ≡ out.old.items ++ type_kind sort) }
{
    match sort {
        TypeKind::Label => put_byte(out, 1),
        TypeKind::Branch => put_byte(out, 2),
    }
}

pub(crate) fn put_out(out: &mut Vec<u8>, how: Out) -> Result<(), NoMemory>
    ensures { OnOk result (out.new.items ≡ out.old.items ++ out_byte how) }
{
    match how {
        Out::No => put_byte(out, 0),
        Out::Reserved => put_byte(out, 1),
        Out::Unreserved => put_byte(out, 2),
    }
}

/// A member of a list, as it is spelled.
pub(crate) trait Put {
    ghost spelling_of: { Self → List ℕ };

    ghost fits: { Self → Type 0 };

    fn put(&self, out: &mut Vec<u8>) -> Result<(), NoMemory>
        requires { fits self.now }
        ensures { OnOk result (out.new.items ≡ out.old.items ++ spelling_of self.now) };
}

impl Put for Path {
    ghost spelling_of = { text };

    ghost fits = { λ path. Unit {0} };

    fn put(&self, out: &mut Vec<u8>) -> Result<(), NoMemory> {
        put_path(out, self)
    }
}

impl Put for Text {
    ghost spelling_of = { text };

    ghost fits = { IsText };

    fn put(&self, out: &mut Vec<u8>) -> Result<(), NoMemory> {
        put_text(out, self.as_bytes())
    }
}

impl Put for ReadOf {
    ghost spelling_of = { entry };

    ghost fits = { λ read. Unit {0} };

    fn put(&self, out: &mut Vec<u8>) -> Result<(), NoMemory> {
        put_path(out, &self.path)?;
        put_long(out, self.row)
    }
}

impl Put for u64 {
    ghost spelling_of = { long };

    ghost fits = { λ number. Unit {0} };

    fn put(&self, out: &mut Vec<u8>) -> Result<(), NoMemory> {
        put_long(out, *self)
    }
}

impl Put for Placed {
    ghost spelling_of = { place_of };

    ghost fits = { λ placed. Unit {0} };

    fn put(&self, out: &mut Vec<u8>) -> Result<(), NoMemory> {
        put_pair(out, self.element, self.version)
    }
}

pub(crate) fn put_pair(out: &mut Vec<u8>, first: u64, second: u64) -> Result<(), NoMemory>
    ensures { OnOk result (out.new.items ≡ out.old.items ++ (long first ++ long second)) }
{
    put_long(out, first)?;
    put_long(out, second)
}

/// An output that is in the row itself.
pub(crate) fn put_here(out: &mut Vec<u8>, output: &Text) -> Result<(), NoMemory>
    requires { IsText output.now }
    ensures { OnOk result (out.new.items ≡ out.old.items ++ stored_bytes (Here output.now)) }
{
    put_byte(out, 0)?;
    put_body(out, output)
}

/// An output that has this extent.
pub(crate) fn put_there(out: &mut Vec<u8>, extent: Extent) -> Result<(), NoMemory>
    ensures { OnOk result (out.new.items ≡ out.old.items ++ stored_bytes (There extent)) }
{
    put_byte(out, 1)?;
    put_pair(out, extent.place, extent.length)
}

impl Put for Stored {
    ghost spelling_of = { stored_bytes };

    ghost fits = { IsStored };

    fn put(&self, out: &mut Vec<u8>) -> Result<(), NoMemory> {
        match self {
            Stored::Here(output) => put_here(out, output),
            Stored::There(extent) => put_there(out, *extent),
        }
    }
}

pub(crate) fn put_list<M: Put>(out: &mut Vec<u8>, members: &[M]) -> Result<(), NoMemory>
    requires short { length members.now < 2 ^ 32 }
    requires fit { AllByRecursion M.fits members.now }
    ensures { OnOk result (out.new.items ≡ out.old.items ++ list_bytes M.spelling_of members.now) }
{
    put_word(out, members.len() as u32)?;
    for member in members {
        member.put(out)?;
    }
    Ok(())
}

pub(crate) fn put_two(out: &mut Vec<u8>, name: &Name, number: u64) -> Result<(), NoMemory>
    ensures { OnOk result (out.new.items ≡ out.old.items ++ (text name.now ++ long number)) }
{
    put_name(out, name)?;
    put_long(out, number)
}

pub(crate) fn put_three(
    out: &mut Vec<u8>,
    name: &Name,
    first: u64,
    second: u64,
) -> Result<(), NoMemory>
    ensures { OnOk result
        (out.new.items ≡ out.old.items ++ (text name.now ++ (long first ++ long second))) }
{
    put_name(out, name)?;
    put_pair(out, first, second)
}

pub(crate) fn put_object(
    out: &mut Vec<u8>,
    view: &Name,
    targets: &[Path],
    script: &Text,
    entries: &[ReadOf],
) -> Result<(), NoMemory>
    requires targets { length targets.now < 2 ^ 32 }
    requires script { IsText script.now }
    requires entries { length entries.now < 2 ^ 32 }
    ensures { OnOk result
        (out.new.items
        ≡ out.old.items
        ++ (text view.now
        ++ (list_bytes text targets.now ++ (text script.now ++ list_bytes entry entries.now)))) }
{
    put_name(out, view)?;
    put_list(out, targets)?;
    put_text(out, script.as_bytes())?;
    put_list(out, entries)
}
