//! The laws of a base, taken for itself. Each is the contract of a function with an empty body.

ghost use Rattle.legal_history.specs.Laws.BaseLaws.{FirstRowsStayRows, FirstRowsStayRow, FirstRowsStayText, FirstRowsStayCatalog, MoreRowsChangeNothingEarlier, CatalogsAreInOrderVersions, CatalogsAreInOrderCheckouts, ElementHasOneDirectoryVersions, ElementHasOneDirectoryCheckouts, CheckoutIsMadeFromAVersion, HeldObjectIsLive, ReferencesAreCountedByViewsOrder, ReferencesAreCountedByViewsCount, ReferencesAreCountedByViewsViews, ReferencesAreCountedByViewsOnce, ReferencesAreCountedByViewsNone, ReferencesAreCountedByViewsSome, ScrubTakesNoHeldObject, ReachingIsByAWalkWalk, ReachingIsByAWalkFound};

/// Promises `FirstRowsStayRows`, `FirstRowsStayRow`, `FirstRowsStayText` and `FirstRowsStayCatalog`.
pub fn first_rows_stay()
    ensures rows { FirstRowsStayRows }
    ensures row { FirstRowsStayRow }
    ensures text { FirstRowsStayText }
    ensures catalog { FirstRowsStayCatalog }
{}

/// Promises `MoreRowsChangeNothingEarlier`.
pub fn more_rows_change_nothing_earlier()
    ensures { MoreRowsChangeNothingEarlier }
{}

/// Promises `CatalogsAreInOrderVersions` and `CatalogsAreInOrderCheckouts`.
pub fn catalogs_are_in_order()
    ensures versions { CatalogsAreInOrderVersions }
    ensures checkouts { CatalogsAreInOrderCheckouts }
{}

/// Promises `ElementHasOneDirectoryVersions` and `ElementHasOneDirectoryCheckouts`.
pub fn an_element_has_one_directory()
    ensures versions { ElementHasOneDirectoryVersions }
    ensures checkouts { ElementHasOneDirectoryCheckouts }
{}

/// Promises `CheckoutIsMadeFromAVersion`.
pub fn a_checkout_is_made_from_a_version()
    ensures { CheckoutIsMadeFromAVersion }
{}

/// Promises `HeldObjectIsLive`.
pub fn a_held_object_is_live()
    ensures { HeldObjectIsLive }
{}

/// Promises `ReferencesAreCountedByViewsOrder`, `ReferencesAreCountedByViewsCount`,
/// `ReferencesAreCountedByViewsViews`, `ReferencesAreCountedByViewsOnce`, `ReferencesAreCountedByViewsNone` and
/// `ReferencesAreCountedByViewsSome`.
pub fn references_are_counted_by_views()
    ensures order { ReferencesAreCountedByViewsOrder }
    ensures count { ReferencesAreCountedByViewsCount }
    ensures views { ReferencesAreCountedByViewsViews }
    ensures once { ReferencesAreCountedByViewsOnce }
    ensures none { ReferencesAreCountedByViewsNone }
    ensures some { ReferencesAreCountedByViewsSome }
{}

/// Promises `ScrubTakesNoHeldObject`.
pub fn a_scrub_takes_no_held_object()
    ensures { ScrubTakesNoHeldObject }
{}

/// Promises `ReachingIsByAWalkWalk` and `ReachingIsByAWalkFound`.
pub fn reaching_is_by_a_walk()
    ensures walk { ReachingIsByAWalkWalk }
    ensures found { ReachingIsByAWalkFound }
{}
