//! Where extents go, what giving one back joins, many of them at random, and their bytes.

mod bytes;

ghost use Rattle.std.specs.Prelude.{◌≤◌, ◌<◌, All, IfOk};

use container_store::{Extent, Store};
use std::alloc::Global;
use std::test::Fail;

// Calls, one a line, and what each answers: the place, or whether it was taken, and the end of what is taken then.
const CALLS: &str = "\
open 0 => end 0
place 10 => 0, end 10
place 5 => 10, end 15
place 10 => 15, end 25
place 6 => 25, end 31
place 10 => 31, end 41
place 7 => 41, end 48
place 10 => 48, end 58
free 10+5 => end 58
free 25+6 => end 58
free 41+7 => end 58
place 7 => 41, end 58
place 6 => 25, end 58
place 6 => 58, end 64
place 4 => 10, end 64
place 1 => 14, end 64
place 1 => 64, end 65
open 50 0+10 10+10 20+10 30+10 40+10 => end 50
free 20+10 => end 50
free 10+10 => end 50
place 21 => 50, end 71
place 20 => 10, end 71
free 10+20 => end 71
free 30+10 => end 71
place 30 => 10, end 71
open 50 0+10 10+10 20+10 30+10 40+10 => end 50
free 10+10 => end 50
free 30+10 => end 50
free 20+10 => end 50
place 30 => 10, end 50
open 30 20+10 0+10 10+10 => end 30
free 10+10 => end 30
free 20+10 => end 10
place 1 => 10, end 11
free 0+10 => end 11
free 10+1 => end 0
place 10 => 0, end 10
open 40 10+10 30+10 => end 40
take 40 0+10 => yes, end 40
take 40 20+11 => no, end 40
take 40 19+10 => no, end 40
take 40 20+10 => yes, end 40
take 50 40+11 => no, end 40
take 51 41+10 => yes, end 51
take 60 0+1 => no, end 51
take 60 5+60 => no, end 51
place 1 => 40, end 51
place 1 => 51, end 52
take 60 18446744073709551615+1 => no, end 52
take 18446744073709551615 18446744073709551615+1 => no, end 52
open 40 10+10 30+10 => end 40
open 39 10+10 30+10 => none
open 40 10+10 30+10 19+1 => none
open 40 10+10 30+10 9+2 => none
open 40 10+10 30+10 20+10 0+10 => end 40";

fn number(text: &str) -> Result<u64, Fail> {
    Ok(text.parse().ok().ok_or("a number")?)
}

// An extent in the form `PLACE+LENGTH`, of at least a byte.
fn extent_of(text: &str) -> Result<Extent, Fail>
    ensures { IfOk result (λ e. 1 ≤ e.length) }
{
    let (place, length) = text.split_once('+').ok_or("an extent")?;
    let (place, length) = (number(place)?, number(length)?);
    if length == 0 {
        return Err(Fail::new("no byte"));
    }
    Ok(Extent { place, length })
}

fn extents_of(alloc: Global, texts: &str) -> Result<Vec<Extent>, Fail>
    ensures { IfOk result (λ v. All (λ e. 1 ≤ e.length) v.items) }
{
    let mut extents = Vec::new(alloc);
    for text in texts.split_whitespace() {
        extents.push(extent_of(text)?)?;
    }
    Ok(extents)
}

fn opened(alloc: Global, words: &str) -> Result<Option<Store>, Fail> {
    let (size, texts) = words.split_once(' ').unwrap_or((words, ""));
    let extents = extents_of(alloc, texts)?;
    Ok(Store::open(alloc, number(size)?, extents.as_slice())?)
}

// Takes an extent if it may be.
fn taken(store: &mut Store, words: &str) -> Result<bool, Fail> {
    let (size, text) = words.split_once(' ').ok_or("an extent to take")?;
    let (size, extent) = (number(size)?, extent_of(text)?);
    store.reserve(1)?;
    Ok(store.take(size, extent))
}

fn placed(store: &mut Store, length: u64) -> Result<Extent, Fail> {
    if length == 0 || length > 1 << 20 || store.end() > 1 << 62 {
        return Err(Fail::new("a length"));
    }
    store.reserve(1)?;
    Ok(store.place(length))
}

fn free(store: &mut Store, extent: Extent) -> Result<(), Fail> {
    if !store.is_taken(extent) {
        return Err(Fail::new("an extent that is not taken"));
    }
    store.free(extent);
    Ok(())
}

// What a call on a store that is open answers.
fn answer(alloc: Global, store: &mut Store, name: &str, words: &str) -> Result<String, Fail> {
    match name {
        "take" => {
            let word = if taken(store, words)? { "yes" } else { "no" };
            Ok(format!(in alloc; "{word}, end {}", store.end())?)
        }
        "place" => {
            let place = placed(store, number(words)?)?.place;
            Ok(format!(in alloc; "{place}, end {}", store.end())?)
        }
        _ => {
            free(store, extent_of(words)?)?;
            Ok(format!(in alloc; "end {}", store.end())?)
        }
    }
}

// Makes a call, and gives what it answers.
fn called(alloc: Global, store: &mut Option<Store>, call: &str) -> Result<String, Fail> {
    let (name, words) = call.split_once(' ').unwrap_or((call, ""));
    if name == "open" {
        *store = opened(alloc, words)?;
        return match store {
            Some(store) => Ok(format!(in alloc; "end {}", store.end())?),
            None => Ok(String::from_str(alloc, "none")?),
        };
    }
    match store {
        Some(store) => answer(alloc, store, name, words),
        None => Err(Fail::new("no store")),
    }
}

#[test]
fn each_extent_goes_to_the_lowest_place(rt: HostRuntime) -> Result<(), Fail> {
    let mut store = None;
    for line in CALLS.lines() {
        let (call, wanted) = line.split_once(" => ").unwrap_or((line, ""));
        let modeled = called(rt.alloc(), &mut store, call)?;
        assert_eq!(rt; modeled.as_str(), wanted, "{line}");
    }
    Ok(())
}

// The next number of a fixed generator, below a limit.
fn draw(state: &mut u64, below: u64) -> u64
    requires { 1 ≤ below }
    ensures { result < below }
{
    *state = state
        .wrapping_mul(6364136223846793005)
        .wrapping_add(1442695040888963407);
    (*state >> 33) % below
}

// Places extents until there are so many.
fn place_to(
    store: &mut Store,
    held: &mut Vec<Extent>,
    count: usize,
    state: &mut u64,
) -> Result<(), Fail> {
    for _ in held.len()..count {
        let length = 1 + draw(state, 9000);
        held.push(placed(store, length)?)?;
    }
    Ok(())
}

// Gives extents back, drawn at random, until there are no more than so many.
fn free_to(
    store: &mut Store,
    held: &mut Vec<Extent>,
    count: usize,
    state: &mut u64,
) -> Result<(), Fail> {
    for _ in count..held.len() {
        if held.is_empty() {
            return Ok(());
        }
        let at = draw(state, held.len() as u64) as usize;
        free(store, held.swap_remove(at))?;
    }
    Ok(())
}

// Whether extents lie apart, and how far they reach.
fn spread(held: &mut Vec<Extent>) -> Result<Option<u64>, Fail> {
    held.sort_by_key(|extent| extent.place)?;
    let mut end = 0;
    for extent in held.iter() {
        if extent.place < end {
            return Ok(None);
        }
        end = extent.place.saturating_add(extent.length);
    }
    Ok(Some(end))
}

#[test]
fn many_at_random_lie_apart(rt: HostRuntime) -> Result<(), Fail> {
    let mut store = Store::open(rt.alloc(), 0, &[])?.ok_or("a store")?;
    let mut held = Vec::new(rt.alloc());
    let mut state = 38;
    for left in [16000, 0] {
        place_to(&mut store, &mut held, 20000, &mut state)?;
        free_to(&mut store, &mut held, left, &mut state)?;
        assert_eq!(rt; spread(&mut held)?, Some(store.end()), "{left} left");
    }
    Ok(())
}
