//! Whole config specs.

ghost use Rattle.std.specs.Prelude.{◌≡◌, ◌<◌, ◌^◌, length, slice_get};
ghost use Rattle.cc_names.specs.Answers.{Gives};
ghost use Rattle.spec_text.specs.Reading.{at_line};
ghost use Rattle.base_model.specs.ConfigSpecs.Specs.{rules_of};

use crate::lines::{LineContext, read_spec_line};
use base_model::config_specs::Line;
use cc_names::cuts::Lines;
use cc_names::memory::Or;
use cc_names::refusals::{SpecCause, SpecError};
use cc_names::selection::{Rule, Rules};
use std::alloc::Global;
use std::marker::Model;

/// What has been read of a config spec.
#[derive(Drop)]
struct Reader {
    /// The rules so far.
    rules: Vec<Rule>,
    /// The times of the blocks that are open, the innermost last.
    blocks: Vec<u64>,
}

impl Model for Reader {
    ghost use Rattle.std.specs.Prelude.{reverse};
    ghost use Rattle.spec_text.specs.Reading.{State};

    ghost Value = { State };

    ghost view = { λ reader.
        record { rules = reader.rules.items; blocks = reverse reader.blocks.items } };
}

impl Reader {
    ghost use Rattle.base_model.specs.ConfigSpecs.Lines.{line_of};
    ghost use Rattle.spec_text.specs.Reading.{no_rule_read, rules_after_line, after_read};

    fn new(alloc: Global) -> Reader
        ensures { result ≡ no_rule_read }
    {
        Reader {
            rules: Vec::new(alloc),
            blocks: Vec::new(alloc),
        }
    }

    /// The time of the innermost open block.
    fn innermost(&self) -> Option<u64>
        ensures { result ≡ slice_get self.now.blocks 0 }
    {
        self.blocks.last().copied()
    }

    /// Takes in what a line says, or answers why it cannot stand there.
    fn take(self, line: Line) -> Result<Reader, Or<SpecCause>>
        ensures { Gives result (rules_after_line line self) }
    {
        let Reader {
            mut rules,
            mut blocks,
        } = self;
        match line {
            Line::Skipped => {}
            Line::BeginsBlock(moment) => blocks.push(moment)?,
            Line::EndsBlock => {
                if blocks.pop().is_none() {
                    return Err(Or::Is(SpecCause::NoBlock));
                }
            }
            Line::Gives(rule) => rules.push(rule)?,
        }
        Ok(Reader { rules, blocks })
    }

    /// Reads the line of this number and adds what it says.
    fn next(self, alloc: Global, number: u32, bytes: &[u8]) -> Result<Reader, Or<SpecCause>>
        ensures { Gives result
            (after_read (line_of number (slice_get self.blocks 0) bytes.now) self) }
    {
        let context = LineContext {
            line: number,
            block: self.innermost(),
        };
        let line = read_spec_line(alloc, context, bytes)?;
        self.take(line)
    }

    fn into_rules(self) -> Vec<Rule>
        ensures { result.items ≡ self.rules }
    {
        let Reader { rules, blocks: _ } = self;
        rules
    }
}

fn at_line(line: u32, fault: Or<SpecCause>) -> Or<SpecError>
    ensures { result ≡ at_line line fault }
{
    match fault {
        Or::NoMemory => Or::NoMemory,
        Or::Is(cause) => Or::Is(SpecError { line, cause }),
    }
}

/// Reads a text as the rules of a config spec, or answers the first line that fails and why. Takes time linear in
/// the text's bytes. The rules are those of the ClearCase manual's page config_spec, in this profile.
pub fn read_rules(alloc: Global, text: &[u8]) -> Result<Rules, Or<SpecError>>
    requires { length text.now < 2 ^ 32 }
    ensures { Gives result (rules_of text.now) }
{
    let mut reader = Reader::new(alloc);
    let mut number: u32 = 0;
    let mut lines = Lines::of(text);
    while let Some(bytes) = lines.next() {
        number += 1;
        reader = match reader.next(alloc, number, bytes) {
            Ok(reader) => reader,
            Err(fault) => return Err(at_line(number, fault)),
        };
    }
    Ok(Rules::of(reader.into_rules()))
}
