//! Changes of a base whose rows are all taken but one, or all.

ghost use Rattle.std.specs.Prelude.{◌≡◌, IfOk};
ghost use Rattle.session_text.specs.Formed.{IsChange};

use cc_names::commands::Change;
use cc_names::memory::Or;
use cc_names::names::Name;
use cc_names::occasions::Occasion;
use cc_names::refusals::Refusal;
use cc_names::rows::{Row, Tag};
use checkout_desk::decide;
use std::alloc::Global;
use std::hash::RandomState;
use std::test::Fail;
use view_lookup::Rows;

const TAG: Tag = Tag {
    phase: 1,
    lane: 1,
    command: 1,
};

fn occasion_with(taken: u64) -> Occasion
    ensures { result.taken ≡ taken }
{
    Occasion {
        tag: TAG,
        moment: 1_700_000_000,
        busy: None,
        taken,
    }
}

fn mkview(alloc: Global) -> Result<Change, Fail>
    ensures { IfOk result (λ change. IsChange 16777216 change) }
{
    let view = Name::read(alloc, b"v")?;
    Ok(Change::Mkview { view })
}

fn rmview(alloc: Global) -> Result<Change, Fail>
    ensures { IfOk result (λ change. IsChange 16777216 change) }
{
    let view = Name::read(alloc, b"v")?;
    Ok(Change::Rmview { view, force: false })
}

fn shown_refusal(refusal: &Refusal) -> &'static str {
    match refusal {
        Refusal::Full(4_000_000) => "C23 Full 4000000",
        Refusal::NoView => "C1 NoView",
        _ => "another refusal",
    }
}

fn shown(decided: &Result<Option<Row>, Or<Refusal>>) -> &'static str {
    match decided {
        Ok(Some(_)) => "a row",
        Ok(None) => "no row",
        Err(Or::Is(refusal)) => shown_refusal(refusal),
        Err(Or::NoMemory) => "no memory",
    }
}

// What is decided on an empty base, where so many rows are taken.
fn decided(
    alloc: Global,
    hashing: RandomState,
    change: &Change,
    taken: u64,
) -> Result<&'static str, Fail>
    requires { IsChange 16777216 change.now }
{
    let base = Rows::new(alloc, hashing)?;
    let rows = base.all();
    if taken < rows.size() {
        return Ok("fewer rows taken than the base has");
    }
    let found = decide(alloc, &rows, change, occasion_with(taken));
    Ok(shown(&found))
}

fn mkview_decided(alloc: Global, hashing: RandomState, taken: u64) -> Result<&'static str, Fail> {
    let change = mkview(alloc)?;
    decided(alloc, hashing, &change, taken)
}

fn rmview_decided(alloc: Global, hashing: RandomState, taken: u64) -> Result<&'static str, Fail> {
    let change = rmview(alloc)?;
    decided(alloc, hashing, &change, taken)
}

const MKVIEWS: [(u64, &str); 4] = [
    (1, "a row"),
    (3_999_999, "a row"),
    (4_000_000, "C23 Full 4000000"),
    (4_000_001, "C23 Full 4000000"),
];

#[test]
fn a_full_base_takes_no_row(rt: HostRuntime) -> Result<(), Fail> {
    let hashing = RandomState::new(&rt)?;
    for (taken, wanted) in MKVIEWS {
        let shown = mkview_decided(rt.alloc(), hashing, taken)?;
        assert_eq!(rt; shown, wanted, "where {taken} rows are taken");
    }
    Ok(())
}

#[test]
fn a_full_base_is_tested_last(rt: HostRuntime) -> Result<(), Fail> {
    let hashing = RandomState::new(&rt)?;
    let shown = rmview_decided(rt.alloc(), hashing, 4_000_000)?;
    assert_eq!(rt; shown, "C1 NoView");
    Ok(())
}
