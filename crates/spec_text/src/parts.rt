//! Bytes taken apart from the start, without memory.

ghost use Rattle.std.specs.Prelude.{◌≡◌, ◌==◌, ◌<◌, ◌+◌, [], ◌∷◌, length, drop, MatchOption, IfSome};
ghost use Rattle.std.specs.List.{position};
ghost use Rattle.std.specs.Option.{option_copied};
ghost use Rattle.spec_text.specs.Parts.{parts_left};

fn end_of_part(bytes: &[u8], at: u8) -> Option<usize>
    ensures place { result ≡ position (λ b. b == at) bytes.now }
    ensures within { IfSome result (λ place. place < length bytes.now) }
{
    bytes.iter().position(|byte| *byte == at)
}

/// The bytes after a place.
fn behind(bytes: &[u8], place: usize) -> &[u8]
    requires { place < length bytes.now }
    ensures { result.now ≡ drop (place + 1) bytes.now }
{
    &bytes[place + 1..]
}

/// The first part of what is left of bytes between separators, and what is left after it.
pub(crate) fn split_part<'a>(left: Option<&'a [u8]>, at: u8) -> Option<(&'a [u8], Option<&'a [u8]>)>
    ensures { MatchOption result (parts_left at (option_copied left.entry) ≡ [])
        (λ part.
        parts_left at (option_copied left.entry)
        ≡ part.0.now ∷ parts_left at (option_copied part.1)) }
{
    let Some(bytes) = left else {
        return None;
    };
    match end_of_part(bytes, at) {
        Some(end) => Some((&bytes[..end], Some(behind(bytes, end)))),
        None => Some((bytes, None)),
    }
}
