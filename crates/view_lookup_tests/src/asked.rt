//! Rows that are asked whether they fit the first rows of a base, in tables that are texts.
//!
//! A line of a table is how many rows are asked, row 0 included, a row as a line of `spelled_rows`, ` => ` and whether it fits.

ghost use Rattle.std.specs.Prelude.{◌≡◌, true, IfOk, OnOk};
ghost use Rattle.base_model.specs.Fits.{fits};
ghost use Rattle.base_rows.specs.Shown.{HasRoom};

use crate::spelled_rows::{number_of, row_of};
use row_form::Row;
use std::alloc::Global;
use std::hash::RandomState;
use std::process::Abort;
use std::random::RandomSource;
use std::test::Fail;
use view_lookup::{FirstRows, Prepared, Rows, first_rows, fits, prepare};

fn require_fit(alloc: Global, base: &Rows, row: &Row) -> Result<(), Fail>
    ensures fits { OnOk result (fits base.now.base row.now.deed ≡ true) }
{
    if fits(alloc, &base.all(), row)? {
        Ok(())
    } else {
        Err(Fail::new("a row that does not fit"))
    }
}

/// Makes ready a row, where it fits.
fn make_ready(alloc: Global, base: &mut Rows, row: &Row) -> Result<Prepared, Fail>
    ensures fits { OnOk result (fits base.new.base row.now.deed ≡ true) }
    ensures room { IfOk result (λ prepared. HasRoom base.new row.now.deed prepared) }
{
    require_fit(alloc, base, row)?;
    let prepared = prepare(alloc, base, row.deed())?;
    base.reserve(row.deed(), &prepared)?;
    Ok(prepared)
}

fn let_go(_row: Row) {}

fn add(alloc: Global, base: &mut Rows, row: Row) -> Result<(), Fail> {
    match make_ready(alloc, base, &row) {
        Ok(prepared) => {
            base.push(row, prepared);
            Ok(())
        }
        Err(fault) => {
            let_go(row);
            Err(fault)
        }
    }
}

fn add_line(alloc: Global, hashing: RandomState, base: &mut Rows, line: &str) -> Result<(), Fail> {
    add(alloc, base, row_of(alloc, hashing, line)?)
}

fn add_lines(
    alloc: Global,
    hashing: RandomState,
    base: &mut Rows,
    lines: &str,
) -> Result<(), Fail> {
    for line in lines.lines() {
        add_line(alloc, hashing, base, line)?;
    }
    Ok(())
}

fn base_of(alloc: Global, hashing: RandomState, lines: &str) -> Result<Rows, Fail> {
    let mut base = Rows::new(alloc, hashing)?;
    add_lines(alloc, hashing, &mut base, lines)?;
    Ok(base)
}

/// The word that a case has for whether its row fits.
fn shown(holds: bool) -> &'static str {
    if holds { "true" } else { "false" }
}

/// Whether the row of a line fits these rows.
fn does_fit(
    alloc: Global,
    hashing: RandomState,
    rows: &FirstRows<'_>,
    line: &str,
) -> Result<bool, Fail> {
    let row = row_of(alloc, hashing, line)?;
    let answer = fits(alloc, rows, &row);
    let_go(row);
    Ok(answer?)
}

/// The same of a line that says first how many rows of a base are asked.
fn does_fit_first(
    alloc: Global,
    hashing: RandomState,
    base: &Rows,
    asked: &str,
) -> Result<bool, Fail> {
    let (count, line) = asked.split_once(' ').unwrap_or((asked, ""));
    let rows = first_rows(&base.all(), number_of(count)?);
    does_fit(alloc, hashing, &rows, line)
}

fn assert_case(
    rt: &impl Abort,
    alloc: Global,
    hashing: RandomState,
    base: &Rows,
    case: &str,
) -> Result<(), Fail> {
    let (asked, wanted) = case.split_once(" => ").unwrap_or((case, ""));
    let fits = does_fit_first(alloc, hashing, base, asked)?;
    assert_eq!(rt; shown(fits), wanted, "of {asked:?}");
    Ok(())
}

fn assert_each(
    rt: &impl Abort,
    alloc: Global,
    hashing: RandomState,
    base: &Rows,
    cases: &str,
) -> Result<(), Fail> {
    for case in cases.lines() {
        assert_case(rt, alloc, hashing, base, case)?;
    }
    Ok(())
}

/// Each row of a table fits the base of these lines, or does not, as the table says.
pub(crate) fn assert_fits(
    rt: &(impl Abort + RandomSource),
    alloc: Global,
    lines: &str,
    cases: &str,
) -> Result<(), Fail> {
    let hashing = RandomState::new(rt)?;
    let base = base_of(alloc, hashing, lines)?;
    assert_each(rt, alloc, hashing, &base, cases)
}
