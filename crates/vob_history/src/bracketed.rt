//! Labels in brackets.

ghost use Rattle.std.specs.Prelude.{◌≡◌, ◌++◌, OnOk, map};
ghost use Rattle.std.specs.List.{concat};
ghost use Rattle.legal_history.specs.Queries.ElementTexts.{in_brackets};
ghost use Rattle.vob_history.specs.VersionTrees.{behind_comma};

use cc_names::memory::NoMemory;
use cc_names::texts::Text;

/// Adds words, each with a comma before it.
fn push_more(text: &mut Vec<u8>, words: &[&Text]) -> Result<(), NoMemory>
    ensures { OnOk result
        (text.new.items
        ≡ text.old.items ++ concat (map (λ word. behind_comma word.now) words.now)) }
{
    for word in words {
        text.extend_from_slice(b", ")?;
        text.extend_from_slice(word.as_bytes())?;
    }
    Ok(())
}

/// Adds labels as ` (L, M)`, and nothing where there are none.
pub(crate) fn push_brackets(text: &mut Vec<u8>, labels: &[&Text]) -> Result<(), NoMemory>
    ensures { OnOk result
        (text.new.items ≡ text.old.items ++ in_brackets (map (λ label. label.now) labels.now)) }
{
    match labels.split_first() {
        None => Ok(()),
        Some((first, others)) => {
            text.extend_from_slice(b" (")?;
            text.extend_from_slice(first.as_bytes())?;
            push_more(text, others)?;
            text.push(b')')?;
            Ok(())
        }
    }
}
