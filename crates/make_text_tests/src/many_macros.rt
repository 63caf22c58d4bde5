//! A makefile of as many lines and targets as there may be.

ghost use Rattle.std.specs.Prelude.{Some};

use cc_names::memory::NoMemory;
use cc_names::numbers::push_number;
use cc_names::paths::Path;
use make_text::contents::{Makefile, Texts};
use std::alloc::Global;
use std::hash::RandomState;
use std::test::Fail;

// A makefile at any path.
#[derive(Drop)]
struct OneText<'a> {
    text: &'a [u8],
}

impl Texts for OneText<'_> {
    ghost texts = { λ one path. Some one.text.now };

    fn text(&self, _path: &Path) -> Option<&[u8]> {
        Some(self.text)
    }
}

// So many macros, and so many rule lines that expand the last of them.
fn macros_and_rules(alloc: Global, macros: u64, rules: usize) -> Result<Vec<u8>, NoMemory> {
    let mut text = Vec::new(alloc);
    for number in 0..macros {
        text.push(b'm')?;
        push_number(alloc, &mut text, number)?;
        text.extend_from_slice(b" = a\nm = $(m")?;
        push_number(alloc, &mut text, number)?;
        text.extend_from_slice(b")\n")?;
    }
    for _ in 0..rules {
        text.extend_from_slice(b"r: $(m)\n")?;
    }
    Ok(text)
}

// How many rules the makefile of so many macros and rule lines has.
fn rules_of(alloc: Global, hashing: RandomState, macros: u64, rules: usize) -> Result<usize, Fail> {
    let main = macros_and_rules(alloc, macros, rules)?;
    let file = Path::read(alloc, b"Makefile")?;
    let text = OneText {
        text: main.as_slice(),
    };
    let make = Makefile::read(alloc, hashing, &file, &text, &[])?;
    Ok(make.rules().len())
}

// A rule line takes time for the macros that it reaches, however many there are: 45,001 of them here, and as many lines and
// targets as there may be, all of one rule.
#[test]
fn many_macros_cost_nothing(rt: HostRuntime) -> Result<(), Fail> {
    let rules = rules_of(rt.alloc(), RandomState::new(&rt)?, 45_000, 10_000)?;
    assert_eq!(rt; rules, 1);
    Ok(())
}
