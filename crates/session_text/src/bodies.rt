//! The text of body lines.

ghost use Rattle.std.specs.Prelude.{◌≡◌, IfOk};
ghost use Rattle.session_text.specs.Kinds.{kinds_of};
ghost use Rattle.session_text.specs.Sessions.{body_of};

use crate::kinds::{Kind, Rest};
use cc_names::memory::NoMemory;
use cc_names::texts::Text;
use std::alloc::Global;

/// The text of the body lines that stand first in these lines. Copies each byte once.
pub(crate) fn body_of(alloc: Global, lines: &Rest<'_>) -> Result<Text, NoMemory>
    ensures { IfOk result (λ text. text ≡ body_of (kinds_of lines.now.bytes)) }
{
    let mut text = Vec::new(alloc);
    let mut rest = lines.again();
    while let Some(kind) = rest.next() {
        match kind {
            Kind::Skipped => {}
            Kind::Body(bytes) => {
                text.extend_from_slice(bytes.as_slice())?;
                text.push(b'\n')?;
            }
            _ => break,
        }
    }
    Ok(Text::of(text))
}
