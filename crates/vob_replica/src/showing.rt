//! What replies say.

ghost use Rattle.std.specs.Prelude.{◌≡◌, ◌++◌, IfOk, OnOk, flat_map};
ghost use Rattle.std.specs.Fmt.{decimal};
ghost use Rattle.vob_replica.specs.Showing.{identity_text, epoch_line, version_line, branch_line, tree_lines, known_lines, fault_name, fault_argument, fault_text, event_word, behind_ok, with_bars, done_text, answer_text, reply_text};

use crate::branch::{Branch, Version};
use crate::branches::Branches;
use crate::events::{Event, Identity};
use crate::operations::{Answer, SiteFault};
use crate::tables::Table;
use cc_names::cuts::Lines;
use cc_names::memory::NoMemory;
use cc_names::numbers::push_number;
use cc_names::texts::Text;
use std::alloc::Global;

/// Writes bytes as they are.
fn push(text: &mut Vec<u8>, bytes: &[u8]) -> Result<(), NoMemory>
    ensures { OnOk result (text.new.items ≡ text.old.items ++ bytes.now) }
{
    text.extend_from_slice(bytes)?;
    Ok(())
}

/// Writes bytes, and more after them.
fn push_texts(text: &mut Vec<u8>, bytes: &[u8], more: &[u8]) -> Result<(), NoMemory>
    ensures { OnOk result (text.new.items ≡ text.old.items ++ bytes.now ++ more.now) }
{
    push(text, bytes)?;
    push(text, more)
}

/// Writes bytes, and an identity after them.
fn push_identity(
    alloc: Global,
    text: &mut Vec<u8>,
    bytes: &[u8],
    identity: &Identity,
) -> Result<(), NoMemory>
    ensures { OnOk result
        (text.new.items ≡ text.old.items ++ bytes.now ++ identity_text identity.now) }
{
    push_texts(text, bytes, identity.site.as_bytes())?;
    push(text, b":")?;
    push_number(alloc, text, identity.number)
}

/// Writes bytes, and a number after them.
fn push_with_number(
    alloc: Global,
    text: &mut Vec<u8>,
    bytes: &[u8],
    number: u64,
) -> Result<(), NoMemory>
    ensures { OnOk result (text.new.items ≡ text.old.items ++ bytes.now ++ decimal number) }
{
    push(text, bytes)?;
    push_number(alloc, text, number)
}

/// Writes the line of a site in an epoch table.
fn push_epoch_line(alloc: Global, text: &mut Vec<u8>, entry: &Identity) -> Result<(), NoMemory>
    ensures { OnOk result (text.new.items ≡ text.old.items ++ epoch_line entry.now) }
{
    push_texts(text, b"epoch ", entry.site.as_bytes())?;
    push_with_number(alloc, text, b" ", entry.number)?;
    push(text, b"\n")
}

/// Writes the line of a version.
fn push_version_line(alloc: Global, text: &mut Vec<u8>, version: &Version) -> Result<(), NoMemory>
    ensures { OnOk result (text.new.items ≡ text.old.items ++ version_line version.now) }
{
    push_with_number(alloc, text, b"version ", version.number())?;
    push_identity(alloc, text, b" ", version.identity())?;
    push_texts(text, b" ", version.word())?;
    push(text, b"\n")
}

/// Writes the first line of a branch.
fn push_branch_line(alloc: Global, text: &mut Vec<u8>, tree: &Branch) -> Result<(), NoMemory>
    ensures { OnOk result (text.new.items ≡ text.old.items ++ branch_line tree.now) }
{
    push_identity(alloc, text, b"branch ", tree.identity())?;
    push_texts(text, b" ", tree.name())?;
    push_texts(text, b" master ", tree.master().as_bytes())?;
    push(text, b"\n")
}

/// Writes the lines of versions.
fn push_versions(alloc: Global, text: &mut Vec<u8>, versions: &[Version]) -> Result<(), NoMemory>
    ensures { OnOk result
        (text.new.items ≡ text.old.items ++ flat_map version_line versions.now) }
{
    for version in versions {
        push_version_line(alloc, text, version)?;
    }
    Ok(())
}

/// Writes the lines of a branch.
fn push_tree(alloc: Global, text: &mut Vec<u8>, tree: &Branch) -> Result<(), NoMemory>
    ensures { OnOk result (text.new.items ≡ text.old.items ++ tree_lines tree.now) }
{
    push_branch_line(alloc, text, tree)?;
    push(text, b"version 0\n")?;
    push_versions(alloc, text, tree.versions())
}

/// Writes the lines of branches.
fn push_trees(alloc: Global, text: &mut Vec<u8>, branches: &Branches) -> Result<(), NoMemory>
    ensures { OnOk result (text.new.items ≡ text.old.items ++ flat_map tree_lines branches.now) }
{
    for tree in branches.values() {
        push_tree(alloc, text, tree)?;
    }
    Ok(())
}

/// Writes the lines of an epoch table.
fn push_table(alloc: Global, text: &mut Vec<u8>, table: &[Identity]) -> Result<(), NoMemory>
    ensures { OnOk result (text.new.items ≡ text.old.items ++ flat_map epoch_line table.now) }
{
    for entry in table {
        push_epoch_line(alloc, text, entry)?;
    }
    Ok(())
}

/// The lines of an epoch table and of branches.
pub(crate) fn show_text(alloc: Global, table: &Table, branches: &Branches) -> Result<Text, NoMemory>
    ensures { IfOk result (λ text. text ≡ known_lines table.now branches.now) }
{
    let mut text = Vec::new(alloc);
    push_table(alloc, &mut text, table.entries())?;
    push_trees(alloc, &mut text, branches)?;
    Ok(Text::of(text))
}

/// An identity as a text.
pub(crate) fn identity_text(alloc: Global, identity: &Identity) -> Result<Text, NoMemory>
    ensures { IfOk result (λ text. text ≡ identity_text identity.now) }
{
    let mut text = Vec::new(alloc);
    push_identity(alloc, &mut text, b"", identity)?;
    Ok(Text::of(text))
}

/// A number as a text.
pub(crate) fn number_text(alloc: Global, number: u64) -> Result<Text, NoMemory>
    ensures { IfOk result (λ text. text ≡ decimal number) }
{
    let mut text = Vec::new(alloc);
    push_number(alloc, &mut text, number)?;
    Ok(Text::of(text))
}

/// The number and the name of a fault.
fn fault_name(fault: &SiteFault) -> &'static [u8]
    ensures { result.now ≡ fault_name fault.now }
{
    match fault {
        SiteFault::SiteExists(_) => b"V1 SiteExists ",
        SiteFault::TooManySites => b"V2 TooManySites",
        SiteFault::NoSite(_) => b"V3 NoSite ",
        SiteFault::NoBranch(_) => b"V4 NoBranch ",
        SiteFault::NotMaster(_) => b"V5 NotMaster ",
        SiteFault::NoVersion(_) => b"V6 NoVersion ",
        SiteFault::BranchExists(_) => b"V7 BranchExists ",
        SiteFault::PacketExists(_) => b"V8 PacketExists ",
        SiteFault::NoPacket(_) => b"V9 NoPacket ",
        SiteFault::Gap(_) => b"V10 Gap ",
    }
}

/// Writes what a fault carries.
fn push_argument(alloc: Global, text: &mut Vec<u8>, fault: &SiteFault) -> Result<(), NoMemory>
    ensures { OnOk result (text.new.items ≡ text.old.items ++ fault_argument fault.now) }
{
    match fault {
        SiteFault::SiteExists(site) => push(text, site.as_bytes()),
        SiteFault::TooManySites => Ok(()),
        SiteFault::NoSite(site) => push(text, site.as_bytes()),
        SiteFault::NoBranch(branch) => push_identity(alloc, text, b"", branch),
        SiteFault::NotMaster(site) => push(text, site.as_bytes()),
        SiteFault::NoVersion(number) => push_number(alloc, text, *number),
        SiteFault::BranchExists(branch) => push_identity(alloc, text, b"", branch),
        SiteFault::PacketExists(packet) => push(text, packet.as_bytes()),
        SiteFault::NoPacket(packet) => push(text, packet.as_bytes()),
        SiteFault::Gap(missing) => push_identity(alloc, text, b"", missing),
    }
}

/// Writes a fault, with its number, its name and what it carries.
fn push_fault(alloc: Global, text: &mut Vec<u8>, fault: &SiteFault) -> Result<(), NoMemory>
    ensures { OnOk result (text.new.items ≡ text.old.items ++ fault_text fault.now) }
{
    push(text, fault_name(fault))?;
    push_argument(alloc, text, fault)
}

/// The word of an event.
fn word_of(event: &Event) -> &'static [u8]
    ensures { result.now ≡ event_word event.now }
{
    match event {
        Event::Site { .. } => b"site",
        Event::Mkelem { .. } => b"mkelem",
        Event::Mkbranch { .. } => b"mkbranch",
        Event::Checkin { .. } => b"checkin",
        Event::Chmaster { .. } => b"chmaster",
        Event::Export { .. } => b"export",
        Event::Import { .. } => b"import",
        Event::Recover { .. } => b"recover",
        Event::Show { .. } => b"show",
    }
}

/// Writes what follows `ok`: nothing, or a word.
fn push_behind_ok(text: &mut Vec<u8>, word: &[u8]) -> Result<(), NoMemory>
    ensures { OnOk result (text.new.items ≡ text.old.items ++ behind_ok word.now) }
{
    match word {
        [] => push(text, b"\n"),
        _ => {
            push_texts(text, b" ", word)?;
            push(text, b"\n")
        }
    }
}

/// Writes each line of a text behind a `|`.
fn push_with_bars(text: &mut Vec<u8>, shown: &[u8]) -> Result<(), NoMemory>
    ensures { OnOk result (text.new.items ≡ text.old.items ++ with_bars shown.now) }
{
    let mut lines = Lines::of(shown);
    while let Some(line) = lines.next() {
        push_texts(text, b"|", line)?;
        push(text, b"\n")?;
    }
    Ok(())
}

/// Writes what follows `ok` of an event.
fn push_done(text: &mut Vec<u8>, event: &Event, done: &[u8]) -> Result<(), NoMemory>
    ensures { OnOk result (text.new.items ≡ text.old.items ++ done_text event.now done.now) }
{
    match event {
        Event::Show { .. } => {
            push(text, b"\n")?;
            push_with_bars(text, done)
        }
        _ => push_behind_ok(text, done),
    }
}

/// Writes what follows the word of an event.
fn push_answer(
    alloc: Global,
    text: &mut Vec<u8>,
    event: &Event,
    answer: &Answer,
) -> Result<(), NoMemory>
    ensures { OnOk result (text.new.items ≡ text.old.items ++ answer_text event.now answer.now) }
{
    match answer {
        Answer::Done(done) => {
            push(text, b" ok")?;
            push_done(text, event, done.as_bytes())
        }
        Answer::Refused(fault) => {
            push(text, b" refused ")?;
            push_fault(alloc, text, fault)?;
            push(text, b"\n")
        }
    }
}

/// Writes the reply to the event of this number. Takes time linear in the reply.
pub fn push_reply(
    alloc: Global,
    text: &mut Vec<u8>,
    number: u64,
    event: &Event,
    answer: &Answer,
) -> Result<(), NoMemory>
    ensures { OnOk result
        (text.new.items ≡ text.old.items ++ reply_text number event.now answer.now) }
{
    push_number(alloc, text, number)?;
    push_texts(text, b" ", word_of(event))?;
    push_answer(alloc, text, event, answer)
}
