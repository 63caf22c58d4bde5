//! Where a faulty name or path is wrong, and what texts print.

use cc_names::memory::{NoMemory, Or};
use cc_names::names::{Name, NameFault};
use cc_names::paths::Path;
use cc_names::texts::Text;
use std::alloc::Global;
use std::process::Abort;
use std::test::Fail;

// The fault of what was read, if it has one.
fn fault_of<X: Drop>(read: Result<X, Or<NameFault>>) -> Result<Option<NameFault>, NoMemory> {
    match read {
        Ok(_) => Ok(None),
        Err(Or::Is(fault)) => Ok(Some(fault)),
        Err(Or::NoMemory) => Err(NoMemory),
    }
}

// A fault prints this text, and nothing is printed where there is none.
fn assert_printed(
    rt: &impl Abort,
    alloc: Global,
    fault: Option<NameFault>,
    wanted: &str,
) -> Result<(), Fail> {
    let printed = match fault {
        Some(fault) => format!(in alloc; "{fault}")?,
        None => String::new(alloc),
    };
    assert_eq!(rt; printed.as_str(), wanted);
    Ok(())
}

#[test]
fn a_fault_is_reported_with_its_place(rt: HostRuntime) -> Result<(), Fail> {
    let table: [(&[u8], &str, &str); 13] = [
        (b"a-b.c", "", ""),
        (b"", "empty", "empty"),
        (b"-a", "bad byte at 0", "bad byte at 0"),
        (b".", "bad byte at 0", ""),
        (b"a b", "bad byte at 1", "bad byte at 1"),
        (b"ab\xc3\xa9", "bad byte at 2", "bad byte at 2"),
        (b"a/b", "bad byte at 1", ""),
        (b"/a", "bad byte at 0", "bad byte at 0"),
        (b"a//b", "bad byte at 1", "bad byte at 2"),
        (b"a/", "bad byte at 1", "bad byte at 2"),
        (b"a/../b", "bad byte at 1", "bad byte at 2"),
        (b"a/b c/-", "bad byte at 1", "bad byte at 3"),
        (&[b'a'; 256], "too long: 256 bytes", "too long: 256 bytes"),
    ];
    for (bytes, name, path) in table {
        let of_name = fault_of(Name::read(rt.alloc(), bytes))?;
        assert_printed(&rt, rt.alloc(), of_name, name)?;
        let of_path = fault_of(Path::read(rt.alloc(), bytes))?;
        assert_printed(&rt, rt.alloc(), of_path, path)?;
    }
    Ok(())
}

#[test]
fn a_text_prints_each_byte_as_a_character(rt: HostRuntime) -> Result<(), Fail> {
    let text = Text::from_bytes(rt.alloc(), b"hi\xe9\n")?;
    let printed = format!(in rt.alloc(); "{text}")?;
    assert_eq!(rt; printed.as_str(), "hi\u{e9}\n");
    Ok(())
}
