//! Links that lead further back than to the next older one of their key, so that a look-up among the first rows passes few of the
//! links after them.

ghost use Rattle.std.specs.Prelude.{◌≡◌, ◌<◌, ◌≤◌, ◌∷◌, Some, length, IfSome};
ghost use Rattle.base_rows.specs.Marked.{AreLinked, IsEnd, IsLinked, LeadsOn, Sink, rows_below, rows_from};
ghost use Rattle.base_rows.specs.Order.{newest_first};

use crate::marks::Link;

/// Where the link at a place skips to.
fn skip_at(links: &[Link], place: usize) -> Option<usize>
    requires linked { AreLinked (newest_first links.now) }
    requires there { place < length links.now }
    ensures within { IfSome result (λ other. other < length links.now) }
    ensures end { IsEnd (rows_from (newest_first links.now) result)
        (rows_from (newest_first links.now) (Some place)) }
{
    links[place].skip
}

/// Whether three links, each of which skips to the next one, stand equally far apart along the links of their key.
fn are_even(links: &[Link], first: usize, middle: usize, last: usize) -> bool
    requires first { first < length links.now }
    requires middle { middle < length links.now }
    requires last { last < length links.now }
{
    let prefix = links[first].depth.saturating_sub(links[middle].depth);
    let back = links[middle].depth.saturating_sub(links[last].depth);
    prefix == back
}

/// Where a link skips to that leads on to the one at this place: over two skips, where the second is as wide as the first. So
/// that links skip by 1, 3, 7 and so on, and as far back as wanted is a number of steps logarithmic in the links of the key.
fn skip_over(links: &[Link], place: usize) -> Option<usize>
    requires linked { AreLinked (newest_first links.now) }
    requires there { place < length links.now }
    ensures within { IfSome result (λ other. other < length links.now) }
    ensures end { IsEnd (rows_from (newest_first links.now) result)
        (rows_from (newest_first links.now) (Some place)) }
{
    match skip_at(links, place) {
        None => Some(place),
        Some(middle) => match skip_at(links, middle) {
            None => Some(place),
            Some(last) => {
                if are_even(links, place, middle, last) {
                    Some(last)
                } else {
                    Some(place)
                }
            }
        },
    }
}

/// The link of a row that leads on to the one at this place.
fn link_before(links: &[Link], row: u64, place: usize) -> Link
    requires linked { AreLinked (newest_first links.now) }
    requires there { place < length links.now }
    ensures row { result.row ≡ row }
    ensures older { result.older ≡ Some place }
    ensures linked { IsLinked result (newest_first links.now) }
{
    Link {
        row,
        older: Some(place),
        skip: skip_over(links, place),
        depth: links[place].depth.saturating_add(1),
    }
}

/// The link of a row that leads on to the one at this place, where there is one. Takes constant time.
pub(crate) fn link_to(links: &[Link], row: u64, older: Option<usize>) -> Link
    requires linked { AreLinked (newest_first links.now) }
    requires there { IfSome older (λ place. place < length links.now) }
    ensures row { result.row ≡ row }
    ensures older { result.older ≡ older }
    ensures linked { IsLinked result (newest_first links.now) }
{
    match older {
        None => Link {
            row,
            older: None,
            skip: None,
            depth: 0,
        },
        Some(place) => link_before(links, row, place),
    }
}

/// Where to go on from a link whose row does not lie below a bound: to where it skips, where that row does not either.
fn onward(links: &[Link], place: usize, link: Link, bound: u64) -> Option<usize>
    requires linked { AreLinked (newest_first links.now) }
    requires there { place < length links.now }
    requires leads { LeadsOn (newest_first links.now) place link }
    requires sinks { Sink (rows_from (newest_first links.now) (Some place)) }
    requires past { bound ≤ link.row }
    ensures back { IfSome result (λ other. other < place) }
    ensures sinks { Sink (rows_from (newest_first links.now) result) }
    ensures below { rows_below bound (rows_from (newest_first links.now) result)
        ≡ rows_below bound (rows_from (newest_first links.now) (Some place)) }
{
    match link.skip {
        None => link.older,
        Some(far) => {
            if bound <= links[far].row {
                Some(far)
            } else {
                link.older
            }
        }
    }
}

/// The place of the first link from a place on whose row lies below a bound, where none is newer than the one before it.
/// Takes time logarithmic in the links of the key.
pub(crate) fn first_below(links: &[Link], start: Option<usize>, bound: u64) -> Option<usize>
    requires linked { AreLinked (newest_first links.now) }
    requires there { IfSome start (λ place. place < length links.now) }
    requires sinks { Sink (rows_from (newest_first links.now) start) }
    ensures there { IfSome result (λ place. place < length links.now) }
    ensures below { rows_below bound (rows_from (newest_first links.now) result)
        ≡ rows_below bound (rows_from (newest_first links.now) start) }
{
    let mut next = start;
    while let Some(place) = next {
        let link = links[place];
        if link.row < bound {
            return Some(place);
        }
        next = onward(links, place, link, bound);
    }
    None
}
