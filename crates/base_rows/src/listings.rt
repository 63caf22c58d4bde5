//! What the records of objects list: of each element the greatest version that an object was made from.
//!
//! What an object lists is made when it is asked for. It is kept of the objects that config specs name, since these are asked for
//! it at each look.

ghost use Rattle.std.specs.Prelude.{◌≡◌, ◌≤◌, ◌<◌, ◌+◌, ◌==◌, ℕ, [], ◌∷◌, Some, IfOk, OnOk, cond, length, map, max, nat_eq, suc};
ghost use Rattle.std.specs.BTreeMap.{IsOrdered, get};
ghost use Rattle.std.specs.FinMap.Entries.{find};
ghost use Rattle.std.specs.HashMap as hashed;
ghost use Rattle.std.specs.HashMap.{spare};
ghost use Rattle.std.specs.List.{AllByRecursion};
ghost use Rattle.std.specs.List.Sorted.{IsStrictlySortedBy};
ghost use Rattle.std.specs.Ordering.{nat_cmp};
ghost use Rattle.cc_names.specs.Formed.{IsListOf, IsPlaced, element_of};
ghost use Rattle.cc_names.specs.declared.rows.Deed.{Deed as DeedOf};
ghost use Rattle.base_model.specs.Closures.{closure, entries_of_deed, greater_of, inputs_of, is_publish, listing, listing_of, recorded_version, as_placed, placed_by};
ghost use Rattle.base_model.specs.Rows.{Base, only_where};
ghost use Rattle.base_rows.specs.Listings.{AreListings, HasListing, IsMade, IsMadeWith, greater, greatest_of, greatest_of_all, greatest_of_entries, greatest_of_entry, own_version};
ghost use Rattle.base_rows.specs.ObjectWalks.{above, above_entries};

use crate::bases::{FirstRows, row_at};
use crate::objects::{has_target, record_of};
use cc_names::memory::NoMemory;
use cc_names::paths::Path;
use cc_names::rows::{Deed, Placed, ReadOf};
use cc_names::selection::{Rules, Selector};
use std::alloc::Global;
use std::collections::{BTreeMap, BTreeSet, HashMap};

/// Versions by their elements.
pub(crate) type Versions = BTreeMap<u64, u64>;

/// By the numbers that config specs name what the records of these objects list; nothing of a number that is no object so far.
pub(crate) type Listings = HashMap<u64, Option<Versions>>;

/// What is to be kept of an object: what its record lists, where it is one.
#[derive(Drop)]
pub(crate) struct MadeListing {
    object: u64,
    versions: Option<Versions>,
}

/// The greater of a version and another, where there is another.
fn greater_of(version: u64, other: Option<u64>) -> u64
    ensures { result ≡ greater_of version other }
{
    match other {
        None => version,
        Some(other) => version.max(other),
    }
}

/// Puts a version of an element among versions, of which the greatest counts. Takes time logarithmic in them.
fn put_greatest(versions: &mut Versions, element: u64, version: u64) -> Result<(), NoMemory>
    ensures { OnOk result
        ((e : ℕ) → get nat_cmp versions.new e
        ≡ greater (only_where (e == element) (Some version)) (get nat_cmp versions.old e)) }
{
    let greatest = greater_of(version, versions.get(&element).copied());
    versions.insert(element, greatest)?;
    Ok(())
}

/// Puts the version that the row of an entry made among versions, where it made one and is not row 0.
fn put_version(
    rows: &FirstRows<'_>,
    versions: &mut Versions,
    entry: &ReadOf,
) -> Result<(), NoMemory>
    ensures { OnOk result
        ((e : ℕ) → get nat_cmp versions.new e
        ≡ greater (find nat_cmp e (listing_of rows.now
        (((entry.now.path, entry.now.row), entry.now.row) ∷ [])))
        (get nat_cmp versions.old e)) }
{
    if entry.row == 0 {
        return Ok(());
    }
    match rows.version_id(entry.row) {
        None => Ok(()),
        Some(version_id) => put_greatest(versions, version_id.element, entry.row),
    }
}

/// Whether the row of this number published an object. Takes constant time.
pub fn is_publish(rows: &FirstRows<'_>, row: u64) -> bool
    ensures { result ≡ is_publish rows.now row }
{
    match row_at(rows, row) {
        None => false,
        Some(row) => matches!(row.deed(), Deed::Publish { .. }),
    }
}

/// Takes an entry of a record in: the object that it names is left to be walked, else the version that its row made is put among
/// versions. Takes time logarithmic in these, or in the objects that are left.
fn put_entry(
    rows: &FirstRows<'_>,
    versions: &mut Versions,
    left: &mut BTreeSet<u64>,
    entry: &ReadOf,
) -> Result<(), NoMemory>
    ensures versions { OnOk result
        ((e : ℕ)
        → greater (get nat_cmp versions.new e) (greatest_of_all rows.now e left.new.keys)
        ≡ greater (greatest_of_entry rows.now e entry.now)
        (greater (get nat_cmp versions.old e) (greatest_of_all rows.now e left.old.keys))) }
    ensures above { OnOk result
        (above left.new.keys ≤ max (suc entry.now.row) (above left.old.keys)) }
{
    if is_publish(rows, entry.row) {
        left.insert(entry.row)?;
        return Ok(());
    }
    put_version(rows, versions, entry)?;
    Ok(())
}

/// Takes the entries of a record in.
fn put_entries(
    rows: &FirstRows<'_>,
    versions: &mut Versions,
    left: &mut BTreeSet<u64>,
    entries: &[ReadOf],
) -> Result<(), NoMemory>
    ensures versions { OnOk result
        ((e : ℕ)
        → greater (get nat_cmp versions.new e) (greatest_of_all rows.now e left.new.keys)
        ≡ greater (greatest_of_entries rows.now e entries.now)
        (greater (get nat_cmp versions.old e) (greatest_of_all rows.now e left.old.keys))) }
    ensures above { OnOk result
        (above left.new.keys ≤ max (above_entries entries.now) (above left.old.keys)) }
{
    for entry in entries {
        put_entry(rows, versions, left, entry)?;
    }
    Ok(())
}

/// What a record with these entries lists. Each object on which it rests is walked once, from the newest on: takes for each entry
/// of their records time logarithmic in the versions and in the objects.
fn listing_of(alloc: Global, rows: &FirstRows<'_>, entries: &[ReadOf]) -> Result<Versions, NoMemory>
    ensures { IfOk result
        (λ versions. HasListing versions.entries
        (listing_of rows.now (inputs_of rows.now (closure rows.now) entries.now))) }
{
    // Asked for what it says: these rows are a base.
    rows.size();
    let mut versions = BTreeMap::new(alloc);
    let mut left = BTreeSet::new(alloc);
    put_entries(rows, &mut versions, &mut left, entries)?;
    loop {
        match left.pop_last() {
            None => return Ok(versions),
            Some(object) => {
                let record = record_of(rows, object);
                put_entries(rows, &mut versions, &mut left, record)?;
            }
        }
    }
}

/// What the record of an object lists; of any other row nothing. Takes the time of `listing_of`.
fn listing(alloc: Global, rows: &FirstRows<'_>, object: u64) -> Result<Versions, NoMemory>
    ensures { IfOk result
        (λ versions. HasListing versions.entries (listing rows.now object)) }
{
    // Asked for what it says: these rows are a base.
    rows.size();
    listing_of(alloc, rows, record_of(rows, object))
}

/// The objects that rules name of which nothing is kept. Takes time linear in the rules, times the logarithm of the objects.
fn objects_named(
    alloc: Global,
    rows: &FirstRows<'_>,
    rules: &Rules,
) -> Result<BTreeSet<u64>, NoMemory> {
    let mut objects = BTreeSet::new(alloc);
    for rule in rules.as_slice() {
        if let Selector::Config(_, object) = &rule.selector {
            if rows.listing(*object).is_none() {
                objects.insert(*object)?;
            }
        }
    }
    Ok(objects)
}

/// What is to be kept of the object of this number, nothing where it comes later. Takes the time of `listing_of`.
fn made_of(alloc: Global, rows: &FirstRows<'_>, object: u64) -> Result<MadeListing, NoMemory>
    ensures { IfOk result (λ made. (deed : DeedOf) → IsMadeWith rows.now deed made) }
{
    if rows.size() <= object {
        let versions = None;
        return Ok(MadeListing { object, versions });
    }
    let versions = Some(listing(alloc, rows, object)?);
    Ok(MadeListing { object, versions })
}

/// What is to be kept of the objects that rules name. Takes for each of them of which nothing is kept the time of `listing_of`.
fn named_listings(
    alloc: Global,
    rows: &FirstRows<'_>,
    rules: Option<&Rules>,
) -> Result<Vec<MadeListing>, NoMemory>
    ensures { IfOk result
        (λ made. (deed : DeedOf) → AllByRecursion (IsMadeWith rows.now deed) made.items) }
{
    let Some(rules) = rules else {
        return Ok(Vec::new(alloc));
    };
    let objects = objects_named(alloc, rows, rules)?;
    let mut made = Vec::new(alloc);
    for object in &objects {
        let one = made_of(alloc, rows, *object)?;
        made.push(one)?;
    }
    Ok(made)
}

/// What is to be kept of the object of the next row, which has a record of these entries. Takes the time of `listing_of`.
fn next_listing(
    alloc: Global,
    rows: &FirstRows<'_>,
    entries: &[ReadOf],
) -> Result<Vec<MadeListing>, NoMemory>
    ensures { IfOk result
        (λ made. (deed : DeedOf)
        → entries_of_deed (Some deed) ≡ entries.now
        → AllByRecursion (IsMadeWith rows.now deed) made.items) }
{
    let object = rows.size();
    let versions = Some(listing_of(alloc, rows, entries)?);
    let mut made = Vec::new(alloc);
    made.push(MadeListing { object, versions })?;
    Ok(made)
}

/// What is to be kept of objects with a row of this deed, which gives these rules to its view: of those that the rules name, and
/// of the row's own object where a config spec named it before. Takes for each of them the time of `listing_of`.
pub(crate) fn listings_made(
    alloc: Global,
    rows: &FirstRows<'_>,
    deed: &Deed,
    rules: Option<&Rules>,
) -> Result<Vec<MadeListing>, NoMemory>
    ensures { IfOk result
        (λ made. AllByRecursion (IsMadeWith rows.now deed.now) made.items) }
{
    match deed {
        Deed::Publish { entries, .. } if rows.names_next() => {
            next_listing(alloc, rows, entries.as_slice())
        }
        _ => named_listings(alloc, rows, rules),
    }
}

/// Keeps what was made of an object. Takes constant time and no memory.
fn keep_listing(listings: &mut Listings, made: MadeListing)
    requires { 0 < spare listings.old }
    ensures updates { (q : ℕ)
        → hashed.get nat_eq listings.new q
        ≡ cond (made.object == q) (Some made.versions) (hashed.get nat_eq listings.old q) }
    ensures spare { spare listings.old ≤ spare listings.new + 1 }
{
    let MadeListing { object, versions } = made;
    match listings.insert(object, versions) {
        Ok(_) => {}
        Err(_) => unreachable!(),
    }
}

/// Keeps what was made of objects. Takes constant time for each, and no memory.
pub(crate) fn keep_listings(listings: &mut Listings, mut made: Vec<MadeListing>)
    requires { length made.items ≤ spare listings.old }
    ensures { (b : Base)
        → AreListings (hashed.get nat_eq listings.old) b
        → AllByRecursion (IsMade b) made.items
        → AreListings (hashed.get nat_eq listings.new) b }
{
    while let Some(one) = made.pop() {
        keep_listing(listings, one);
    }
}

/// The greater of two versions, where there are any.
fn greater(one: Option<u64>, other: Option<u64>) -> Option<u64>
    ensures { result ≡ greater one other }
{
    match one {
        None => other,
        Some(version) => Some(greater_of(version, other)),
    }
}

/// The version of the element that a row made, where it made one and is not row 0.
fn own_version(rows: &FirstRows<'_>, row: u64, element: u64) -> Option<u64>
    ensures { result ≡ own_version rows.now element row }
{
    if row == 0 {
        return None;
    }
    let version_id = rows.version_id(row)?;
    if version_id.element == element {
        Some(row)
    } else {
        None
    }
}

/// The version of the element that an entry of a record lists.
#[cycle(records)]
fn version_in_entry(rows: &FirstRows<'_>, entry: &ReadOf, element: u64) -> Option<u64>
    ensures { result ≡ greatest_of_entry rows.now element entry.now }
{
    if is_publish(rows, entry.row) {
        return version_in_record(rows, entry.row, element);
    }
    own_version(rows, entry.row, element)
}

/// The version of the element that the record of an object lists, without memory. Nobody asks for that of an object of which
/// nothing is kept, since each that a config spec names has what it lists kept; it would take time linear in the ways from the
/// object down through the records.
#[cycle(records)]
fn version_in_record(rows: &FirstRows<'_>, object: u64, element: u64) -> Option<u64>
    ensures { result ≡ greatest_of rows.now element object }
{
    // Asked for what it says: these rows are a base.
    rows.size();
    let record = record_of(rows, object);
    let mut greatest = None;
    for entry in record {
        greatest = greater(version_in_entry(rows, entry, element), greatest);
    }
    greatest
}

/// The version of the element that the record of an object with this target lists, where these rows have the object. Takes time
/// logarithmic in the object's targets and in what its record lists, where a config spec names the object.
pub fn recorded_version(
    rows: &FirstRows<'_>,
    object: u64,
    target: &Path,
    element: u64,
) -> Option<u64>
    ensures { result ≡ recorded_version rows.now object target.now element }
{
    if !has_target(rows, object, target) {
        return None;
    }
    match rows.listing(object) {
        Some(versions) => versions.get(&element).copied(),
        None => version_in_record(rows, object, element),
    }
}

/// Versions as places of a label, in the order of their elements.
fn places_of(alloc: Global, versions: &Versions) -> Result<Vec<Placed>, NoMemory>
    ensures placed { IfOk result
        (λ placed. placed.items ≡ map as_placed versions.now.entries) }
    ensures ordered { IsOrdered nat_cmp versions.now }
{
    let mut placed = Vec::new(alloc);
    for (element, version) in versions {
        placed.push(Placed {
            element: *element,
            version: *version,
        })?;
    }
    Ok(placed)
}

/// What the record of an object lists, as places of a label, in the order of the elements: as a row has them. Takes for each
/// entry of the records on which the object rests time logarithmic in the versions and in the objects.
pub fn placed_by(alloc: Global, rows: &FirstRows<'_>, object: u64) -> Result<Vec<Placed>, NoMemory>
    ensures placed { IfOk result (λ placed. placed.items ≡ placed_by rows.now object) }
    ensures formed { IfOk result
        (λ placed. IsListOf IsPlaced placed.items
        × IsStrictlySortedBy nat_cmp (map element_of placed.items)) }
{
    // Asked for what it says: these rows are a base.
    rows.size();
    let versions = listing(alloc, rows, object)?;
    places_of(alloc, &versions)
}
