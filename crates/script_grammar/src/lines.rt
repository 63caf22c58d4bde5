//! What a line of a script says.

use cc_names::lists::List;
use cc_names::paths::Path;
use cc_names::texts::Text;

/// What a line makes of its words.
#[derive(Debug, Drop)]
pub enum Work {
    /// `echo WORD ..`: the words with one space between, and a newline.
    Echo(List<Text>),
    /// `cat P ..`: the texts one after the other.
    Cat(List<Path>),
    /// `pp -I D .. P`: the text, each include line replaced by what it includes.
    Preprocess { directories: List<Path>, path: Path },
    /// `sub A B P`: the text, each occurrence of the one word replaced by the other.
    Substitute { from: Text, to: Text, path: Path },
    /// `head N P`: the first lines.
    Head { lines: u64, path: Path },
    /// `sha P`: the SHA-256.
    Digest(Path),
    /// `link P ..`: each text after a line that says its path and length.
    Link(List<Path>),
}

/// One line of a script.
#[derive(Debug, Drop)]
pub enum Line {
    /// A line without a word.
    Empty,
    /// A line whose work goes to the output: after what it has, for `>>`, or in its place, for `>`.
    Makes {
        work: Work,
        appends: bool,
        output: Path,
    },
    /// `fail`, at the line of this number.
    Fail(u32),
}
