//! What is asked for a session: settings, which say what is outside of it, and its text.

use anyhow::{Context, Result, ensure};
use std::alloc::Global;

/// What the lines of settings begin with; `README.md` tells what each of them asks for.
const SETTINGS: [&str; 8] = [
    "words ",
    "the source fails at ",
    "the sink fails at ",
    "the disk fails at ",
    "the text has ",
    "the journal is ",
    STOPS,
    "told: ",
];

/// What a setting that asks for stops begins with.
pub(crate) const STOPS: &str = "stopped at ";

/// A session: lines of settings, and the text.
#[derive(Clone, Copy)]
pub(crate) struct Asked<'a> {
    settings: &'a str,
    pub(crate) text: &'a str,
}

/// How many lines begin with these words.
fn count_with(settings: &str, words: &str) -> usize {
    settings
        .lines()
        .filter(|line| line.starts_with(words))
        .count()
}

/// Whether a line is a setting, the only one of its kind; stops may be asked for by several.
fn check_setting(settings: &str, line: &str) -> Result<()> {
    let words = SETTINGS
        .iter()
        .find(|words| line.starts_with(**words))
        .context(format_args!("{line} is no setting"))?;
    ensure!(
        *words == STOPS || count_with(settings, words) == 1,
        "{line} is asked for twice"
    );
    Ok(())
}

impl<'a> Asked<'a> {
    /// What a text asks for: settings down to a line `!!!!`, where it has one, and then the text of a session.
    pub(crate) fn of(text: &'a str) -> Result<Asked<'a>> {
        let Some((settings, text)) = text.split_once("!!!!\n") else {
            return Ok(Asked { settings: "", text });
        };
        for line in settings.lines() {
            check_setting(settings, line)?;
        }
        Ok(Asked { settings, text })
    }

    /// The lines of settings.
    pub(crate) fn settings(&self) -> &'a str {
        self.settings
    }

    /// What follows these words, in the first setting that begins with them.
    pub(crate) fn setting(&self, words: &str) -> Option<&'a str> {
        for line in self.settings.lines() {
            if let Some(rest) = line.strip_prefix(words) {
                return Some(rest);
            }
        }
        None
    }

    /// Whether this is to be told beside what the session writes.
    pub(crate) fn is_reported(&self, part: &str) -> bool {
        match self.setting("told: ") {
            Some(parts) => parts.split(' ').any(|reported| reported == part),
            None => false,
        }
    }

    /// The numbers after these words; none where no setting begins with them.
    pub(crate) fn numbers(&self, alloc: Global, words: &str) -> Result<Vec<u64>> {
        numbers_of(alloc, self.setting(words).unwrap_or(""))
    }
}

/// The numbers of a line, parted by blanks.
pub(crate) fn numbers_of(alloc: Global, line: &str) -> Result<Vec<u64>> {
    let mut numbers = Vec::new(alloc);
    for word in line.split_whitespace() {
        numbers.push(word.parse::<u64>()?)?;
    }
    Ok(numbers)
}
