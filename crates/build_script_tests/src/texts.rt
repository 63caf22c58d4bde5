//! Texts that do not end in a newline, or that are longer than an output may be.

use crate::running::run_over;
use cc_names::memory::NoMemory;
use std::alloc::Global;
use std::hash::RandomState;
use std::test::Fail;

// The text of the file `in`, a script and what it writes, each with `;` for a newline. The digest is that of FIPS 180-2.
const UNTERMINATED: &str = "\
abc | cat in in > out => abcabc
abc | cat in > out;echo >> out => abc;
abc | head 1 in > out => abc
abc | head 2 in > out => abc
a;b | head 1 in > out => a;
a;b | head 2 in > out => a;b
abc | sub c d in > out => abd
abc | link in in > out => in 3;abcin 3;abc
abc | pp in > out => abc
a;#include \"h\" | pp in > out => a;foo
#include \"h\";end | pp in > out => fooend
abc | sha in > out => ba7816bf8f01cfea414140de5dae2223b00361a396177a9cb410ff61f20015ad;
";

// A text with newlines in place of `;`.
fn with_newlines(alloc: Global, words: &str) -> Result<String, NoMemory> {
    let mut text = String::new(alloc);
    for byte in words.as_bytes() {
        text.push(if *byte == b';' {
            '\n'
        } else {
            char::from(*byte)
        })?;
    }
    Ok(text)
}

// What a case of the table writes, with the script and the text that stand before the `=>`.
fn written_by(alloc: Global, hashing: RandomState, case: &str) -> Result<String, Fail> {
    let (text, script) = case.split_once(" | ").unwrap_or((case, ""));
    let text = with_newlines(alloc, text)?;
    let script = with_newlines(alloc, script)?;
    run_over(alloc, hashing, text.as_bytes(), script.as_str())
}

#[test]
fn a_last_line_may_lack_its_newline(rt: HostRuntime) -> Result<(), Fail> {
    for line in UNTERMINATED.split('\n') {
        if let Some((case, wanted)) = line.split_once(" => ") {
            let said = written_by(rt.alloc(), RandomState::new(&rt)?, case)?;
            let wanted = with_newlines(rt.alloc(), wanted)?;
            assert_eq!(rt; said.as_str(), wanted.as_str(), "of {case}");
        }
    }
    Ok(())
}

// Scripts over a file of one byte more than an output may have, and how many bytes they write, where that is not a fault.
const LONG: [(&str, Option<usize>); 6] = [
    ("head 0 in > out", Some(0)),
    ("sha in > out", Some(65)),
    ("head 1 in > out", None),
    ("cat in > out", None),
    ("sub b c in > out", None),
    ("pp in > out", None),
];

// The length of what was written.
fn length_of(said: &str) -> Option<usize> {
    if said == "too big" {
        None
    } else {
        Some(said.len())
    }
}

#[test]
fn a_file_may_be_longer_than_an_output(rt: HostRuntime) -> Result<(), Fail> {
    let letters = vec![in rt.alloc(); b'a'; 1_048_577]?;
    for (script, wanted) in LONG {
        let hashing = RandomState::new(&rt)?;
        let said = run_over(rt.alloc(), hashing, letters.as_slice(), script)?;
        assert_eq!(rt; length_of(said.as_str()), wanted, "of {script}");
    }
    Ok(())
}
