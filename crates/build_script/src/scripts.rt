//! Scripts, read from their texts.

ghost use Rattle.std.specs.Prelude.{◌≡◌, ◌+◌, ◌<◌, ◌^◌, ◌∷◌, length, option_copied};
ghost use Rattle.std.specs.List.{slice_split};
ghost use Rattle.cc_names.specs.Answers.{Gives};
ghost use Rattle.cc_names.specs.Cuts.{is_newline};
ghost use Rattle.script_grammar.specs.Lines.{pieces, size_of, script_of};

use crate::lines::read_script_line;
use cc_names::cuts::first_newline;
use cc_names::memory::Or;
use cc_names::refusals::ScriptFault;
use script_grammar::lines::Line;
use std::alloc::Global;
use std::marker::Model;

/// A script that was read. Contracts see it as its lines.
#[derive(Debug, Drop)]
pub struct Script {
    lines: Vec<Line>,
}

impl Model for Script {
    ghost use Rattle.std.specs.Prelude.{List};
    ghost use Rattle.script_grammar.specs.declared.lines.Line.{Line};

    ghost Value = { List Line };

    ghost view = { λ script. script.lines.items };
}

/// The first line of a text, and what is after its newline, if it has one.
fn split_line(text: &[u8]) -> (&[u8], Option<&[u8]>)
    ensures pieces { slice_split is_newline text.now
        ≡ result.0.now ∷ pieces (option_copied result.1) }
    ensures size { length text.now ≡ length result.0.now + size_of (option_copied result.1) }
{
    match first_newline(text) {
        Some(index) => (&text[..index], Some(&text[index + 1..])),
        None => (text, None),
    }
}

impl Script {
    /// Reads a text as a script, or answers its first line that is outside the language (X2). Takes time linear in the
    /// bytes. The text is shorter than 2^32 bytes, so that its lines have numbers.
    pub fn read(alloc: Global, text: &[u8]) -> Result<Script, Or<ScriptFault>>
        requires { length text.now < 2 ^ 32 }
        ensures { Gives result (script_of text.now) }
    {
        let mut lines = Vec::new(alloc);
        let mut number = 0u64;
        let mut rest = Some(text);
        while let Some(text) = rest {
            let (bytes, behind) = split_line(text);
            number += 1;
            let Some(line) = read_script_line(alloc, number, bytes)? else {
                return Err(Or::Is(ScriptFault::BadLine(number as u32)));
            };
            lines.push(line)?;
            rest = behind;
        }
        Ok(Script { lines })
    }

    /// The lines, in order.
    pub fn lines(&self) -> &[Line]
        ensures { result.now ≡ self.now }
    {
        self.lines.as_slice()
    }
}
