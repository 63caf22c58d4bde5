//! Runs over two files in memory, and what they wrote.

ghost use Rattle.std.specs.Prelude.{Some, option_map};
ghost use Rattle.std.specs.Str.{bytes_eq};
ghost use Rattle.std.specs.HashMap.{get};
ghost use Rattle.build_script.specs.Answers.{IsAnswer};

use build_script::files::{Files, Got};
use build_script::outcomes::Ended;
use build_script::run::run;
use build_script::scripts::Script;
use cc_names::paths::Path;
use cc_names::refusals::ScriptFault;
use cc_names::texts::Text;
use std::alloc::{AllocError, Global};
use std::collections::HashMap;
use std::hash::RandomState;
use std::test::Fail;

// Some files, each made by row 1.
#[derive(Drop)]
struct SomeFiles {
    alloc: Global,
    texts: HashMap<Path, Text>,
}

impl Files for SomeFiles {
    ghost stands = { λ files path.
        option_map (λ text. record { row = 1; text = text }) (get bytes_eq files.texts path) };

    ghost broken = { λ _. 0 };

    ghost follows = { λ _ _ _. Unit {0} };

    fn read(&mut self, path: &Path) -> Got {
        match self.texts.get(path) {
            Some(text) => found(self.alloc, text),
            None => Got::Absent,
        }
    }

    ghost reflexive = { λ _ _. tt };

    ghost transitive = { λ _ _ _ _ _ _. tt };
}

fn found(alloc: Global, text: &Text) -> Got
    ensures { IsAnswer result (Some (record { row = 1; text = text.now })) 0 0 }
{
    match text.copy(alloc) {
        Ok(text) => Got::Found { row: 1, text },
        Err(_) => Got::NoMemory,
    }
}

// The file `in`, which has this text, and `h`, which has `foo` and no newline.
fn files_of(alloc: Global, text: &[u8]) -> Result<SomeFiles, Fail> {
    let mut texts = HashMap::new(alloc);
    let main = Path::read(alloc, b"in")?;
    texts.insert(main, Text::from_bytes(alloc, text)?)?;
    let other = Path::read(alloc, b"h")?;
    texts.insert(other, Text::from_bytes(alloc, b"foo")?)?;
    Ok(SomeFiles { alloc, texts })
}

// The text of the one output of a run, or that it would be too big, or that there is another fault.
fn words_of(alloc: Global, ended: &Ended) -> Result<String, AllocError> {
    let mut words = String::new(alloc);
    match &ended.result {
        Ok(outcome) => {
            for output in outcome.outputs.as_slice() {
                let output = format!(in alloc; "{output}")?;
                words.push_str(output.as_str())?;
            }
        }
        Err(ScriptFault::TooBig(_)) => words.push_str("too big")?,
        Err(_) => words.push_str("another fault")?,
    }
    Ok(words)
}

/// What a run with the target `out` writes over the files of `files_of`.
pub(crate) fn run_over(
    alloc: Global,
    hashing: RandomState,
    text: &[u8],
    script: &str,
) -> Result<String, Fail> {
    if script.len() >= 1000 {
        return Ok(String::from_str(alloc, "a long script")?);
    }
    let script = Script::read(alloc, script.as_bytes())?;
    let mut targets = Vec::new(alloc);
    targets.push(Path::read(alloc, b"out")?)?;
    let mut files = files_of(alloc, text)?;
    let ended = run(alloc, hashing, &script, targets.as_slice(), &mut files)?;
    Ok(words_of(alloc, &ended)?)
}
