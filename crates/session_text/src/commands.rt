//! The commands: the word of each, the words after it, and what they say. Where a command comes, it gets a function and an
//! arm of `command_of`, `said_of_types_on` or `said_of_queries` here.

ghost use Rattle.std.specs.Prelude.{◌≡◌, [], IfOk};
ghost use Rattle.std.specs.Str.{bytes_eq};
ghost use Rattle.cc_names.specs.Answers.{Gives};
ghost use Rattle.cc_names.specs.declared.commands.Command.TheVariants as commands;
ghost use Rattle.session_text.specs.Kinds.{kinds_of};
ghost use Rattle.session_text.specs.Sessions.{body_of};
ghost use Rattle.session_text.specs.Shapes.{fits_beside};
ghost use Rattle.session_text.specs.Commands.{read_mkview, read_rmview, read_setcs, read_mkelem, read_mkdir, read_checkout, read_mkbranch, read_save, read_rm, read_checkin, read_uncheckout, read_rmname, read_mv, read_mklbtype, read_mkbrtype, read_mklabel, read_rmlabel, read_rmdo, read_scrub, read_catcs, read_lsdo, read_ls, read_cat, read_describe, read_lsvtree, read_lshistory, read_catcr, read_diffcr, read_covers, read_mkarrow, read_findmerge, by_record, read_labels, query_lines, types_on, GivesAs, said_in, command_of, takes_body};

use crate::bodies::body_of;
use crate::builds::clearmake;
use crate::kinds::Rest;
use crate::shapes::{
    flag_below, flag_path, maybe_path, named_below, named_path, only_type, path_type,
    read_first_name, take_flag, type_path, view, view_below, view_path,
};
use crate::words::{age_word, cat_word, latest_word, name_word, version_word};
use cc_names::commands::{Change, Clearmake, Command, Query};
use cc_names::cuts::Words;
use cc_names::memory::{NoMemory, Or};
use cc_names::names::Name;
use cc_names::paths::Path;
use cc_names::refusals::SessionCause;
use std::alloc::Global;
use std::hash::RandomState;

/// `mkview V`
fn read_mkview(alloc: Global, words: Words<'_>) -> Result<Change, Or<SessionCause>>
    ensures { Gives result (read_mkview words.entry) }
{
    let view = view(alloc, words)?;
    Ok(Change::Mkview { view })
}

/// `rmview V`, `rmview -force V`
fn read_rmview(alloc: Global, mut words: Words<'_>) -> Result<Change, Or<SessionCause>>
    ensures { Gives result (read_rmview words.entry) }
{
    let force = take_flag(&mut words, b"-force");
    let view = view(alloc, words)?;
    Ok(Change::Rmview { view, force })
}

/// `setcs V`, with a body
fn read_setcs(
    alloc: Global,
    words: Words<'_>,
    behind: &Rest<'_>,
) -> Result<Change, Or<SessionCause>>
    ensures { Gives result (read_setcs words.entry (body_of (kinds_of behind.now.bytes))) }
{
    let view = view(alloc, words)?;
    let text = body_of(alloc, behind)?;
    Ok(Change::Setcs { view, text })
}

/// `mkelem V [-nco] P`
fn read_mkelem(alloc: Global, words: Words<'_>) -> Result<Change, Or<SessionCause>>
    ensures { Gives result (read_mkelem words.entry) }
{
    let (view, nco, path) = flag_below(alloc, b"-nco", words)?;
    Ok(Change::Mkelem { view, nco, path })
}

/// `mkdir V [-nco] P`
fn read_mkdir(alloc: Global, words: Words<'_>) -> Result<Change, Or<SessionCause>>
    ensures { Gives result (read_mkdir words.entry) }
{
    let (view, nco, path) = flag_below(alloc, b"-nco", words)?;
    Ok(Change::Mkdir { view, nco, path })
}

/// `checkout V [-unreserved] P`
fn read_checkout(alloc: Global, words: Words<'_>) -> Result<Change, Or<SessionCause>>
    ensures { Gives result (read_checkout words.entry) }
{
    let (view, unreserved, path) = flag_path(alloc, b"-unreserved", words)?;
    Ok(Change::Checkout {
        view,
        unreserved,
        path,
    })
}

/// `mkbranch V [-nco] B P`
fn read_mkbranch(alloc: Global, mut words: Words<'_>) -> Result<Change, Or<SessionCause>>
    ensures { Gives result (read_mkbranch words.entry) }
{
    let view = read_first_name(alloc, &mut words)?;
    let nco = take_flag(&mut words, b"-nco");
    let (branch, path) = type_path(alloc, words)?;
    Ok(Change::Mkbranch {
        view,
        nco,
        branch,
        path,
    })
}

/// `save V P`, with a body
fn read_save(alloc: Global, words: Words<'_>, behind: &Rest<'_>) -> Result<Change, Or<SessionCause>>
    ensures { Gives result (read_save words.entry (body_of (kinds_of behind.now.bytes))) }
{
    let (view, path) = view_below(alloc, words)?;
    let text = body_of(alloc, behind)?;
    Ok(Change::Save { view, path, text })
}

/// `rm V P`
fn read_rm(alloc: Global, words: Words<'_>) -> Result<Change, Or<SessionCause>>
    ensures { Gives result (read_rm words.entry) }
{
    let (view, path) = view_below(alloc, words)?;
    Ok(Change::Rm { view, path })
}

/// `checkin V [-identical] P`
fn read_checkin(alloc: Global, words: Words<'_>) -> Result<Change, Or<SessionCause>>
    ensures { Gives result (read_checkin words.entry) }
{
    let (view, identical, path) = flag_path(alloc, b"-identical", words)?;
    Ok(Change::Checkin {
        view,
        identical,
        path,
    })
}

/// `uncheckout V P`
fn read_uncheckout(alloc: Global, words: Words<'_>) -> Result<Change, Or<SessionCause>>
    ensures { Gives result (read_uncheckout words.entry) }
{
    let (view, path) = view_path(alloc, words)?;
    Ok(Change::Uncheckout { view, path })
}

/// `rmname V P`
fn read_rmname(alloc: Global, words: Words<'_>) -> Result<Change, Or<SessionCause>>
    ensures { Gives result (read_rmname words.entry) }
{
    let (view, path) = view_below(alloc, words)?;
    Ok(Change::Rmname { view, path })
}

/// Whether beside this path the name makes a path.
fn fits_beside(alloc: Global, path: &Path, name: &Name) -> Result<bool, NoMemory>
    ensures { IfOk result (λ fits. fits ≡ fits_beside path.now name.now) }
{
    let Some(parent) = path.parent(alloc)? else {
        return Ok(true);
    };
    match parent.join(alloc, name) {
        Ok(_moved) => Ok(true),
        Err(Or::NoMemory) => Err(NoMemory),
        Err(Or::Is(_)) => Ok(false),
    }
}

/// `mv V P NAME`, where NAME beside P makes a path
fn read_mv(alloc: Global, mut words: Words<'_>) -> Result<Change, Or<SessionCause>>
    ensures { Gives result (read_mv words.entry) }
{
    let (Some(view), Some(path), Some(name), None) = (
        words.next(),
        words.next(),
        words.next(),
        words.next(),
    ) else {
        return Err(Or::Is(SessionCause::BadWord));
    };
    let (view, path) = named_below(alloc, view, path)?;
    let name = name_word(alloc, name)?;
    if !fits_beside(alloc, &path, &name)? {
        return Err(Or::Is(SessionCause::BadWord));
    }
    Ok(Change::Mv { view, path, name })
}

/// `mklbtype L`
fn read_mklbtype(alloc: Global, words: Words<'_>) -> Result<Change, Or<SessionCause>>
    ensures { Gives result (read_mklbtype words.entry) }
{
    let name = only_type(alloc, words)?;
    Ok(Change::Mklbtype { name })
}

/// `mkbrtype B`
fn read_mkbrtype(alloc: Global, words: Words<'_>) -> Result<Change, Or<SessionCause>>
    ensures { Gives result (read_mkbrtype words.entry) }
{
    let name = only_type(alloc, words)?;
    Ok(Change::Mkbrtype { name })
}

/// `mklabel V [-replace] -config P L`, by the words behind `-config`
fn read_mklabel_config(
    alloc: Global,
    view: Name,
    replace: bool,
    words: Words<'_>,
) -> Result<Change, Or<SessionCause>>
    ensures { Gives result (by_record view replace words.entry) }
{
    let (path, label) = path_type(alloc, words)?;
    Ok(Change::MklabelConfig {
        view,
        replace,
        path,
        label,
    })
}

/// `mklabel V [-replace] L P`, and with `-config`, by the words after the flag
fn read_labels(
    alloc: Global,
    view: Name,
    replace: bool,
    mut words: Words<'_>,
) -> Result<Change, Or<SessionCause>>
    ensures { Gives result (read_labels replace words.entry view) }
{
    if take_flag(&mut words, b"-config") {
        return read_mklabel_config(alloc, view, replace, words);
    }
    let (label, path) = type_path(alloc, words)?;
    Ok(Change::Mklabel {
        view,
        replace,
        label,
        path,
    })
}

/// `mklabel V [-replace] L P`, `mklabel V [-replace] -config P L`
fn read_mklabel(alloc: Global, mut words: Words<'_>) -> Result<Change, Or<SessionCause>>
    ensures { Gives result (read_mklabel words.entry) }
{
    let view = read_first_name(alloc, &mut words)?;
    let replace = take_flag(&mut words, b"-replace");
    read_labels(alloc, view, replace, words)
}

/// `rmlabel V L P`
fn read_rmlabel(alloc: Global, mut words: Words<'_>) -> Result<Change, Or<SessionCause>>
    ensures { Gives result (read_rmlabel words.entry) }
{
    let view = read_first_name(alloc, &mut words)?;
    let (label, path) = type_path(alloc, words)?;
    Ok(Change::Rmlabel { view, label, path })
}

/// `mkarrow V P VERSION`
fn read_mkarrow(alloc: Global, mut words: Words<'_>) -> Result<Change, Or<SessionCause>>
    ensures { Gives result (read_mkarrow words.entry) }
{
    let (Some(view), Some(path), Some(version), None) = (
        words.next(),
        words.next(),
        words.next(),
        words.next(),
    ) else {
        return Err(Or::Is(SessionCause::BadWord));
    };
    let (view, path) = named_below(alloc, view, path)?;
    let version = version_word(alloc, version)?;
    Ok(Change::Mkarrow {
        view,
        path,
        version,
    })
}

/// `rmdo V P`
fn read_rmdo(alloc: Global, words: Words<'_>) -> Result<Change, Or<SessionCause>>
    ensures { Gives result (read_rmdo words.entry) }
{
    let (view, path) = view_below(alloc, words)?;
    Ok(Change::Rmdo { view, path })
}

/// `scrub AGE`
fn read_scrub(mut words: Words<'_>) -> Result<Change, Or<SessionCause>>
    ensures { Gives result (read_scrub words.entry) }
{
    let (Some(age), None) = (words.next(), words.next()) else {
        return Err(Or::Is(SessionCause::BadWord));
    };
    match age_word(age) {
        Ok(age) => Ok(Change::Scrub { age }),
        Err(cause) => Err(Or::Is(cause)),
    }
}

/// `catcs V`
fn read_catcs(alloc: Global, words: Words<'_>) -> Result<Query, Or<SessionCause>>
    ensures { Gives result (read_catcs words.entry) }
{
    let view = view(alloc, words)?;
    Ok(Query::Catcs { view })
}

/// `lsdo V`
fn read_lsdo(alloc: Global, words: Words<'_>) -> Result<Query, Or<SessionCause>>
    ensures { Gives result (read_lsdo words.entry) }
{
    let view = view(alloc, words)?;
    Ok(Query::Lsdo { view })
}

/// `ls V`, `ls V P`
fn read_ls(alloc: Global, mut words: Words<'_>) -> Result<Query, Or<SessionCause>>
    ensures { Gives result (read_ls words.entry) }
{
    let view = read_first_name(alloc, &mut words)?;
    let path = maybe_path(alloc, words)?;
    Ok(Query::Ls { view, path })
}

/// `cat V P`, `cat V P@@VERSION`
fn read_cat(alloc: Global, mut words: Words<'_>) -> Result<Query, Or<SessionCause>>
    ensures { Gives result (read_cat words.entry) }
{
    let (Some(view), Some(word), None) = (words.next(), words.next(), words.next()) else {
        return Err(Or::Is(SessionCause::BadWord));
    };
    let view = name_word(alloc, view)?;
    let (path, version) = cat_word(alloc, word)?;
    Ok(Query::Cat {
        view,
        path,
        version,
    })
}

/// `describe V P`
fn read_describe(alloc: Global, words: Words<'_>) -> Result<Query, Or<SessionCause>>
    ensures { Gives result (read_describe words.entry) }
{
    let (view, path) = view_path(alloc, words)?;
    Ok(Query::Describe { view, path })
}

/// `lsvtree V P`
fn read_lsvtree(alloc: Global, words: Words<'_>) -> Result<Query, Or<SessionCause>>
    ensures { Gives result (read_lsvtree words.entry) }
{
    let (view, path) = view_path(alloc, words)?;
    Ok(Query::Lsvtree { view, path })
}

/// `lshistory V P`
fn read_lshistory(alloc: Global, words: Words<'_>) -> Result<Query, Or<SessionCause>>
    ensures { Gives result (read_lshistory words.entry) }
{
    let (view, path) = view_path(alloc, words)?;
    Ok(Query::Lshistory { view, path })
}

/// `catcr V P`
fn read_catcr(alloc: Global, words: Words<'_>) -> Result<Query, Or<SessionCause>>
    ensures { Gives result (read_catcr words.entry) }
{
    let (view, path) = view_below(alloc, words)?;
    Ok(Query::Catcr { view, path })
}

/// `diffcr V P W Q`
fn read_diffcr(alloc: Global, mut words: Words<'_>) -> Result<Query, Or<SessionCause>>
    ensures { Gives result (read_diffcr words.entry) }
{
    let (Some(view), Some(path)) = (words.next(), words.next()) else {
        return Err(Or::Is(SessionCause::BadWord));
    };
    let (view, path) = named_below(alloc, view, path)?;
    let (other, second) = view_below(alloc, words)?;
    Ok(Query::Diffcr {
        view,
        path,
        other,
        second,
    })
}

/// `covers W V P`
fn read_covers(alloc: Global, mut words: Words<'_>) -> Result<Query, Or<SessionCause>>
    ensures { Gives result (read_covers words.entry) }
{
    let seer = read_first_name(alloc, &mut words)?;
    let (view, path) = view_path(alloc, words)?;
    Ok(Query::Covers { seer, view, path })
}

/// `findmerge V P -fversion .../B/LATEST`
fn read_findmerge(alloc: Global, mut words: Words<'_>) -> Result<Query, Or<SessionCause>>
    ensures { Gives result (read_findmerge words.entry) }
{
    let (Some(view), Some(path)) = (words.next(), words.next()) else {
        return Err(Or::Is(SessionCause::BadWord));
    };
    let (Some(flag), Some(latest), None) = (words.next(), words.next(), words.next()) else {
        return Err(Or::Is(SessionCause::BadWord));
    };
    if !is(flag, b"-fversion") {
        return Err(Or::Is(SessionCause::BadWord));
    }
    let (view, path) = named_path(alloc, view, path)?;
    let branch = latest_word(alloc, latest)?;
    Ok(Query::Findmerge { view, path, branch })
}

fn is(word: &[u8], text: &[u8]) -> bool
    ensures { result ≡ bytes_eq word.now text.now }
{
    word == text
}

/// The command that a change is.
fn of_change(said: Result<Change, Or<SessionCause>>) -> Result<Command, Or<SessionCause>>
    ensures { GivesAs commands.Change said result }
{
    Ok(Command::Change(said?))
}

/// The command that a query is.
fn of_query(said: Result<Query, Or<SessionCause>>) -> Result<Command, Or<SessionCause>>
    ensures { GivesAs commands.Query said result }
{
    Ok(Command::Query(said?))
}

/// The command that a build is.
fn of_build(said: Result<Clearmake, Or<SessionCause>>) -> Result<Command, Or<SessionCause>>
    ensures { GivesAs commands.Build said result }
{
    Ok(Command::Build(said?))
}

/// The command of a line where it is a query. None of them takes a body.
fn said_of_queries(
    alloc: Global,
    word: &[u8],
    words: Words<'_>,
) -> Result<Command, Or<SessionCause>>
    ensures { Gives result (said_in query_lines word.now words.entry []) }
{
    match word {
        _ if is(word, b"catcs") => of_query(read_catcs(alloc, words)),
        _ if is(word, b"lsdo") => of_query(read_lsdo(alloc, words)),
        _ if is(word, b"ls") => of_query(read_ls(alloc, words)),
        _ if is(word, b"cat") => of_query(read_cat(alloc, words)),
        _ if is(word, b"describe") => of_query(read_describe(alloc, words)),
        _ if is(word, b"lsvtree") => of_query(read_lsvtree(alloc, words)),
        _ if is(word, b"lshistory") => of_query(read_lshistory(alloc, words)),
        _ if is(word, b"catcr") => of_query(read_catcr(alloc, words)),
        _ if is(word, b"diffcr") => of_query(read_diffcr(alloc, words)),
        _ if is(word, b"covers") => of_query(read_covers(alloc, words)),
        _ if is(word, b"findmerge") => of_query(read_findmerge(alloc, words)),
        _ => Err(Or::Is(SessionCause::UnknownCommand)),
    }
}

/// The command of a line where it is a change of types, labels, arrows or objects, a build, or a query. None of them takes a
/// body.
fn said_of_types_on(
    alloc: Global,
    hashing: RandomState,
    word: &[u8],
    words: Words<'_>,
) -> Result<Command, Or<SessionCause>>
    ensures { Gives result (said_in types_on word.now words.entry []) }
{
    match word {
        _ if is(word, b"mklbtype") => of_change(read_mklbtype(alloc, words)),
        _ if is(word, b"mkbrtype") => of_change(read_mkbrtype(alloc, words)),
        _ if is(word, b"mklabel") => of_change(read_mklabel(alloc, words)),
        _ if is(word, b"rmlabel") => of_change(read_rmlabel(alloc, words)),
        _ if is(word, b"mkarrow") => of_change(read_mkarrow(alloc, words)),
        _ if is(word, b"rmdo") => of_change(read_rmdo(alloc, words)),
        _ if is(word, b"scrub") => of_change(read_scrub(words)),
        _ if is(word, b"clearmake") => of_build(clearmake(alloc, hashing, words)),
        _ => said_of_queries(alloc, word, words),
    }
}

/// The command that a word says with the words after it and with the body lines after its line.
pub(crate) fn command_of(
    alloc: Global,
    hashing: RandomState,
    word: &[u8],
    words: Words<'_>,
    behind: &Rest<'_>,
) -> Result<Command, Or<SessionCause>>
    ensures { Gives result (command_of word.now words.entry (body_of (kinds_of behind.now.bytes))) }
{
    match word {
        _ if is(word, b"setcs") => of_change(read_setcs(alloc, words, behind)),
        _ if is(word, b"save") => of_change(read_save(alloc, words, behind)),
        _ if is(word, b"mkview") => of_change(read_mkview(alloc, words)),
        _ if is(word, b"rmview") => of_change(read_rmview(alloc, words)),
        _ if is(word, b"mkelem") => of_change(read_mkelem(alloc, words)),
        _ if is(word, b"mkdir") => of_change(read_mkdir(alloc, words)),
        _ if is(word, b"checkout") => of_change(read_checkout(alloc, words)),
        _ if is(word, b"mkbranch") => of_change(read_mkbranch(alloc, words)),
        _ if is(word, b"rm") => of_change(read_rm(alloc, words)),
        _ if is(word, b"checkin") => of_change(read_checkin(alloc, words)),
        _ if is(word, b"uncheckout") => of_change(read_uncheckout(alloc, words)),
        _ if is(word, b"rmname") => of_change(read_rmname(alloc, words)),
        _ if is(word, b"mv") => of_change(read_mv(alloc, words)),
        _ => said_of_types_on(alloc, hashing, word, words),
    }
}

/// Lets a command go.
pub(crate) fn let_go(command: Command) {
    drop(command);
}

/// Whether body lines may stand under a command.
pub(crate) fn takes_body(command: &Command) -> bool
    ensures { result ≡ takes_body command.now }
{
    matches!(
        command,
        Command::Change(Change::Setcs { .. } | Change::Save { .. })
    )
}
