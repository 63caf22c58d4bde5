//! The macro references in a text.

ghost use Rattle.std.specs.Prelude.{◌≡◌, ◌<◌, ◌==◌, ◌∷◌, [], IfSome, length, slice_index};
ghost use Rattle.std.specs.List.{list_all, position};
ghost use Rattle.make_grammar.specs.Lines.{is_dollar};
ghost use Rattle.make_grammar.specs.Macros.{is_word_byte, is_macro_byte, is_macro_name, is_automatic, single, piece_of_name, Dollar, Name, has_bad_dollar};
ghost use Rattle.make_text.specs.Scanning.{pieces_in, CutsFrom, CutsPart};

/// A part of a text: bytes that stand for themselves, or a reference.
#[derive(Drop)]
pub(crate) enum Part<'a> {
    /// Bytes that stand for themselves.
    Bytes(&'a [u8]),
    /// A reference to the macro of this name.
    Reference(&'a [u8]),
    /// `$@`, `$<` or `$*`, by the byte behind the `$`.
    Automatic(u8),
    /// A `$` that begins none of these.
    Bad,
}

fn is_word_byte(byte: u8) -> bool
    ensures { result ≡ is_word_byte byte }
{
    matches!(byte, b'a'..=b'z' | b'A'..=b'Z' | b'0'..=b'9' | b'_')
}

fn is_macro_byte(byte: u8) -> bool
    ensures { result ≡ is_macro_byte byte }
{
    is_word_byte(byte) || byte == b'.'
}

fn has_macro_bytes(name: &[u8]) -> bool
    ensures { result ≡ list_all is_macro_byte name.now }
{
    name.iter().all(|byte| is_macro_byte(*byte))
}

/// Whether bytes are the name of a macro.
pub(crate) fn is_macro_name(name: &[u8]) -> bool
    ensures { result ≡ is_macro_name name.now }
{
    name.len() > 0 && has_macro_bytes(name)
}

fn is_automatic(byte: u8) -> bool
    ensures { result ≡ is_automatic byte }
{
    matches!(byte, b'@' | b'<' | b'*')
}

/// The place of the first `$` of a text.
pub(crate) fn first_dollar(text: &[u8]) -> Option<usize>
    ensures place { result ≡ position is_dollar text.now }
    ensures within { IfSome result (λ index. index < length text.now) }
{
    text.iter().position(|byte| *byte == b'$')
}

fn first_place_of(text: &[u8], close: u8) -> Option<usize>
    ensures place { result ≡ position (λ b. b == close) text.now }
    ensures within { IfSome result (λ index. index < length text.now) }
{
    text.iter().position(|byte| *byte == close)
}

/// What a name between parentheses or braces is.
fn piece_of_name(name: &[u8]) -> Part<'_>
    ensures { pieces_in result ≡ piece_of_name name.now ∷ [] }
{
    if is_macro_name(name) {
        Part::Reference(name)
    } else {
        Part::Bad
    }
}

/// The reference whose name stands before the closing byte, with what follows that.
fn cut_name(text: &[u8], close: u8) -> (Part<'_>, &[u8])
    ensures { CutsFrom (Name close []) text.now result.0 result.1.now }
{
    match first_place_of(text, close) {
        Some(end) => (piece_of_name(&text[..end]), &text[end + 1..]),
        None => (Part::Bad, &[]),
    }
}

/// What a `$` and the byte after it are, by what begins with that byte, where it opens no parenthesis.
fn single(behind: &[u8]) -> Part<'_>
    requires { 0 < length behind.now }
    ensures { pieces_in result ≡ single (slice_index behind.now 0) ∷ [] }
{
    let byte = behind[0];
    if byte == b'$' {
        Part::Bytes(&behind[..1])
    } else if is_word_byte(byte) {
        Part::Reference(&behind[..1])
    } else if is_automatic(byte) {
        Part::Automatic(byte)
    } else {
        Part::Bad
    }
}

/// The reference that goes on here after its `$`, with what follows it.
fn cut_reference(behind: &[u8]) -> (Part<'_>, &[u8])
    ensures { CutsFrom Dollar behind.now result.0 result.1.now }
{
    match behind.split_first() {
        None => (Part::Bad, &[]),
        Some((b'(', name)) => cut_name(name, b')'),
        Some((b'{', name)) => cut_name(name, b'}'),
        Some((_, rest)) => (single(behind), rest),
    }
}

/// The first part of a text that is not empty, with what follows it. Takes time linear in the part.
pub(crate) fn cut_part(text: &[u8]) -> (Part<'_>, &[u8])
    requires { 0 < length text.now }
    ensures { CutsPart text.now result.0 result.1.now }
{
    match first_dollar(text) {
        None => (Part::Bytes(text), &[]),
        Some(0) => cut_reference(&text[1..]),
        Some(end) => (Part::Bytes(&text[..end]), &text[end..]),
    }
}

/// Whether a text has a `$` that begins no macro reference. Takes time linear in the text.
pub(crate) fn has_bad_dollar(text: &[u8]) -> bool
    ensures { result ≡ has_bad_dollar text.now }
{
    let mut rest = text;
    'parts: while !rest.is_empty() {
        let (part, behind) = cut_part(rest);
        if let Part::Bad = part {
            return true;
        }
        rest = behind;
    }
    false
}
