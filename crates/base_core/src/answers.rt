//! The answer to a query.

ghost use Rattle.legal_history.specs.Queries.QueryLines.{query_answer};
ghost use Rattle.view_lookup.specs.Answering.{AnswersAs};

use cc_names::commands::Query;
use cc_names::memory::Or;
use cc_names::refusals::Refusal;
use cc_names::texts::Text;
use cleartool::{cat, cat_version, catcs, ls, lsdo};
use std::alloc::Global;
use view_lookup::FirstRows;
use vob_history::{catcr, covers, describe, diffcr, findmerge, lshistory, lsvtree};

/// A query's text, or its first refusal in the order of the tests of its line. Takes the time of its query.
pub(crate) fn answer(
    alloc: Global,
    rows: &FirstRows<'_>,
    query: &Query,
) -> Result<Text, Or<Refusal>>
    ensures { AnswersAs result (query_answer rows.now query.now) }
{
    match query {
        Query::Catcs { view } => catcs(alloc, rows, view),
        Query::Cat {
            view,
            path,
            version: None,
        } => cat(alloc, rows, view, path),
        Query::Cat {
            view,
            path,
            version: Some(name),
        } => cat_version(alloc, rows, view, path, name),
        Query::Lsdo { view } => lsdo(alloc, rows, view),
        Query::Ls { view, path } => ls(alloc, rows, view, path),
        Query::Describe { view, path } => describe(alloc, rows, view, path),
        Query::Lshistory { view, path } => lshistory(alloc, rows, view, path),
        Query::Lsvtree { view, path } => lsvtree(alloc, rows, view, path),
        Query::Catcr { view, path } => catcr(alloc, rows, view, path),
        Query::Diffcr {
            view,
            path,
            other,
            second,
        } => diffcr(alloc, rows, view, path, other, second),
        Query::Covers { seer, view, path } => covers(alloc, rows, seer, view, path),
        Query::Findmerge { view, path, branch } => findmerge(alloc, rows, view, path, branch),
    }
}
