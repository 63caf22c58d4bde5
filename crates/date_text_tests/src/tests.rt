//! Texts that are no dates.

use date_text::{BadDate, read};
use std::alloc::{AllocError, Global};
use std::test::Fail;

// A text, and the place where its first wrong field begins.
const WRONG: &str = "\
-Jan-2000.00:00:00 => 0
 => 0
0-Jan-2000.00:00:00 => 0
32-Jan-2000.00:00:00 => 0
29-Feb-2100.00:00:00 => 0
29-Feb-2200.00:00:00 => 0
29-Feb-2023.00:00:00 => 0
30-Feb-2000.00:00:00 => 0
31-Apr-2000.00:00:00 => 0
31-Feb-2000.24:00:00 => 12
123-Jan-2000.00:00:00 => 2
1.Jan-2000.00:00:00 => 1
1-jan-2000.00:00:00 => 2
1-Jam-2000.00:00:00 => 2
1-Jan.2000.00:00:00 => 5
1-Jan-1969.23:59:59 => 6
1-Jan-200.00:00:00 => 6
1-Jan-2000-00:00:00 => 10
1-Jan-2000.24:00:00 => 11
1-Jan-2000.00.00:00 => 13
1-Jan-2000.00:60:00 => 14
1-Jan-2000.00:00.00 => 16
1-Jan-2000.00:00:60 => 17
1-Jan-2000.00:00:0 => 17
1-Jan-2000.00:00:000 => 19
10-Jan-2000.00:00:00Z => 20
";

// The place where a text is wrong, or what it is read as.
fn shown(alloc: Global, text: &str) -> Result<String, AllocError> {
    match read(text.as_bytes()) {
        Ok(moment) => format!(in alloc; "the moment {moment}"),
        Err(BadDate(place)) => format!(in alloc; "{place}"),
    }
}

#[test]
fn the_first_wrong_field_has_its_place(rt: HostRuntime) -> Result<(), Fail> {
    for case in WRONG.lines() {
        let (text, place) = case.split_once(" => ").unwrap_or((case, ""));
        let shown = shown(rt.alloc(), text)?;
        assert_eq!(rt; shown.as_str(), place, "{text}");
    }
    Ok(())
}
