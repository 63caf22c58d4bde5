//! The form of tables and of fronts; `README.md` has it with an example.

/// What stands before the first session of each case, and before what it writes.
#[derive(Clone, Copy)]
pub(crate) struct Preamble<'a> {
    pub(crate) asked: &'a str,
    pub(crate) reported: &'a str,
}

/// Nothing.
pub(crate) const NOTHING: Preamble<'static> = Preamble {
    asked: "",
    reported: "",
};

/// A table: the name of its front, the moments that the clock tells, and its cases, one behind the other.
#[derive(Clone, Copy)]
pub(crate) struct Table<'a> {
    pub(crate) preamble: &'a str,
    pub(crate) clock: &'a str,
    pub(crate) cases: &'a str,
}

/// The table that a text is. Its first line is `preamble NAME`, its second `clock` with moments; what follows down to a line
/// `====`
/// is a note.
pub(crate) fn table_of(text: &str) -> Option<Table<'_>> {
    let (head, cases) = text.split_once("====\n")?;
    let mut lines = head.lines();
    let preamble = lines.next()?.strip_prefix("front ")?;
    let clock = lines.next()?.strip_prefix("clock ")?;
    Some(Table {
        preamble,
        clock,
        cases,
    })
}

/// The front that a text is: a note down to a line `====`, a session down to a line `----`, and what it writes.
pub(crate) fn preamble_of(text: &str) -> Option<Preamble<'_>> {
    let (_note, parts) = text.split_once("====\n")?;
    let (asked, reported) = parts.split_once("----\n")?;
    Some(Preamble { asked, reported })
}
