//! A text of sites, read into its events.

ghost use Rattle.std.specs.Prelude.{◌≡◌, ◌<◌, ◌^◌, Ok, IfOk, IfErr, length};
ghost use Rattle.cc_names.specs.Answers.{Gives, FaultIs};
ghost use Rattle.vob_replica.specs.Words.{both, identity_word, replica_name_word, number_word};
ghost use Rattle.vob_replica.specs.Reading.{site_event, mkelem_event, event_of_line, show_event, import_event, recover_event, export_event, checkin_event, chmaster_event, mkbranch_event, between_sites, event_by, is_skipped_line, events_of};

use crate::events::{Event, Identity, SiteCause, SiteError};
use crate::words::{identity_word, number_word, replica_name_word, text_word};
use cc_names::cuts::{Lines, Words};
use cc_names::memory::Or;
use cc_names::names::Name;
use std::alloc::Global;

/// `site S`
fn site_event(alloc: Global, mut words: Words<'_>) -> Result<Event, Or<SiteCause>>
    ensures { Gives result (site_event words.entry) }
{
    let (Some(site), None) = (words.next(), words.next()) else {
        return Err(Or::Is(SiteCause::BadWord));
    };
    let site = replica_name_word(alloc, site)?;
    Ok(Event::Site { site })
}

/// `mkelem S`
fn mkelem_event(alloc: Global, mut words: Words<'_>) -> Result<Event, Or<SiteCause>>
    ensures { Gives result (mkelem_event words.entry) }
{
    let (Some(site), None) = (words.next(), words.next()) else {
        return Err(Or::Is(SiteCause::BadWord));
    };
    let site = replica_name_word(alloc, site)?;
    Ok(Event::Mkelem { site })
}

/// `show S`
fn show_event(alloc: Global, mut words: Words<'_>) -> Result<Event, Or<SiteCause>>
    ensures { Gives result (show_event words.entry) }
{
    let (Some(site), None) = (words.next(), words.next()) else {
        return Err(Or::Is(SiteCause::BadWord));
    };
    let site = replica_name_word(alloc, site)?;
    Ok(Event::Show { site })
}

/// `import S P`
fn import_event(alloc: Global, mut words: Words<'_>) -> Result<Event, Or<SiteCause>>
    ensures { Gives result (import_event words.entry) }
{
    let (Some(site), Some(packet), None) = (words.next(), words.next(), words.next()) else {
        return Err(Or::Is(SiteCause::BadWord));
    };
    let site = replica_name_word(alloc, site)?;
    let packet = replica_name_word(alloc, packet)?;
    Ok(Event::Import { site, packet })
}

/// `recover S T`
fn recover_event(alloc: Global, mut words: Words<'_>) -> Result<Event, Or<SiteCause>>
    ensures { Gives result (recover_event words.entry) }
{
    let (Some(site), Some(to), None) = (words.next(), words.next(), words.next()) else {
        return Err(Or::Is(SiteCause::BadWord));
    };
    let site = replica_name_word(alloc, site)?;
    let to = replica_name_word(alloc, to)?;
    Ok(Event::Recover { site, to })
}

/// `export S T P`
fn export_event(alloc: Global, mut words: Words<'_>) -> Result<Event, Or<SiteCause>>
    ensures { Gives result (export_event words.entry) }
{
    let (Some(site), Some(to), Some(packet), None) = (
        words.next(),
        words.next(),
        words.next(),
        words.next(),
    ) else {
        return Err(Or::Is(SiteCause::BadWord));
    };
    let site = replica_name_word(alloc, site)?;
    let to = replica_name_word(alloc, to)?;
    let packet = replica_name_word(alloc, packet)?;
    Ok(Event::Export { site, to, packet })
}

/// `checkin S ID WORD`
fn checkin_event(alloc: Global, mut words: Words<'_>) -> Result<Event, Or<SiteCause>>
    ensures { Gives result (checkin_event words.entry) }
{
    let (Some(site), Some(branch), Some(word), None) = (
        words.next(),
        words.next(),
        words.next(),
        words.next(),
    ) else {
        return Err(Or::Is(SiteCause::BadWord));
    };
    let site = replica_name_word(alloc, site)?;
    let branch = identity_word(alloc, branch)?;
    let word = text_word(alloc, word)?;
    Ok(Event::Checkin { site, branch, word })
}

/// `chmaster S ID T`
fn chmaster_event(alloc: Global, mut words: Words<'_>) -> Result<Event, Or<SiteCause>>
    ensures { Gives result (chmaster_event words.entry) }
{
    let (Some(site), Some(branch), Some(to), None) = (
        words.next(),
        words.next(),
        words.next(),
        words.next(),
    ) else {
        return Err(Or::Is(SiteCause::BadWord));
    };
    let site = replica_name_word(alloc, site)?;
    let branch = identity_word(alloc, branch)?;
    let to = replica_name_word(alloc, to)?;
    Ok(Event::Chmaster { site, branch, to })
}

/// Two words as the name of a site and an identity.
fn site_and_branch(
    alloc: Global,
    site: &[u8],
    branch: &[u8],
) -> Result<(Name, Identity), Or<SiteCause>>
    ensures { Gives result (both (replica_name_word site.now) (identity_word branch.now)) }
{
    let site = replica_name_word(alloc, site)?;
    let branch = identity_word(alloc, branch)?;
    Ok((site, branch))
}

/// Two words as a number and the name of a branch.
fn number_and_name(alloc: Global, number: &[u8], name: &[u8]) -> Result<(u64, Name), Or<SiteCause>>
    ensures { Gives result (both (number_word number.now) (replica_name_word name.now)) }
{
    let number = number_word(number)?;
    let name = replica_name_word(alloc, name)?;
    Ok((number, name))
}

/// `mkbranch S ID N B`
fn mkbranch_event(alloc: Global, mut words: Words<'_>) -> Result<Event, Or<SiteCause>>
    ensures { Gives result (mkbranch_event words.entry) }
{
    let (Some(site), Some(branch), Some(number), Some(name), None) = (
        words.next(),
        words.next(),
        words.next(),
        words.next(),
        words.next(),
    ) else {
        return Err(Or::Is(SiteCause::BadWord));
    };
    let (site, branch) = site_and_branch(alloc, site, branch)?;
    let (number, name) = number_and_name(alloc, number, name)?;
    Ok(Event::Mkbranch {
        site,
        branch,
        number,
        name,
    })
}

/// The events between sites, and `show`.
fn between_sites(alloc: Global, word: &[u8], words: Words<'_>) -> Result<Event, Or<SiteCause>>
    ensures { Gives result (between_sites word.now words.entry) }
{
    if word == b"export".as_slice() {
        return export_event(alloc, words);
    }
    if word == b"import".as_slice() {
        return import_event(alloc, words);
    }
    if word == b"recover".as_slice() {
        return recover_event(alloc, words);
    }
    if word == b"show".as_slice() {
        return show_event(alloc, words);
    }
    Err(Or::Is(SiteCause::UnknownCommand))
}

/// What a word and the words after it say.
fn event_by(alloc: Global, word: &[u8], words: Words<'_>) -> Result<Event, Or<SiteCause>>
    ensures { Gives result (event_by word.now words.entry) }
{
    if word == b"site".as_slice() {
        return site_event(alloc, words);
    }
    if word == b"mkelem".as_slice() {
        return mkelem_event(alloc, words);
    }
    if word == b"mkbranch".as_slice() {
        return mkbranch_event(alloc, words);
    }
    if word == b"checkin".as_slice() {
        return checkin_event(alloc, words);
    }
    if word == b"chmaster".as_slice() {
        return chmaster_event(alloc, words);
    }
    between_sites(alloc, word, words)
}

/// Whether a line is a comment.
fn is_skipped_line(line: &[u8]) -> bool
    ensures { result ≡ is_skipped_line line.now }
{
    match line {
        [] => false,
        [first, ..] => *first == b'#',
    }
}

/// What a line says, where it says anything.
fn event_of_line(alloc: Global, line: &[u8]) -> Result<Option<Event>, Or<SiteCause>>
    ensures { Gives result (event_of_line line.now) }
{
    if is_skipped_line(line) {
        return Ok(None);
    }
    let mut words = Words::of(line);
    match words.next() {
        None => Ok(None),
        Some(word) => Ok(Some(event_by(alloc, word, words)?)),
    }
}

impl Event {
    /// The events of a text, in order, or its first line that cannot be read. Lines without words and lines that begin with `#`
    /// are skipped. Takes time linear in the text.
    pub fn read(alloc: Global, text: &[u8]) -> Result<Vec<Event>, Or<SiteError>>
        requires { length text.now < 2 ^ 32 }
        ensures ok { IfOk result (λ events. events_of text.now ≡ Ok events.items) }
        ensures err { IfErr result (λ fault. FaultIs fault (events_of text.now)) }
    {
        let mut events = Vec::new(alloc);
        let mut lines = Lines::of(text);
        let mut number: u32 = 0;
        'lines: while let Some(line) = lines.next() {
            number += 1;
            match event_of_line(alloc, line) {
                Ok(Some(event)) => events.push(event)?,
                Ok(None) => {}
                Err(Or::NoMemory) => return Err(Or::NoMemory),
                Err(Or::Is(cause)) => {
                    return Err(Or::Is(SiteError {
                        line: number,
                        cause,
                    }));
                }
            }
        }
        Ok(events)
    }
}
