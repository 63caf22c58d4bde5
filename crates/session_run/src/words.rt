//! The forms of words.

ghost use Rattle.std.specs.Prelude.{◌≡◌};
ghost use Rattle.session_run.specs.Calls.Asked.{big_form, form_of, plain_form, size_of};

use cc_names::numbers::number;
use cc_names::texts::Text;

/// The greatest size of a large session.
const SIZE_LIMIT: u64 = 1_000;

/// What the words of a call ask for.
#[derive(Clone, Copy, Debug, PartialEq, Eq)]
pub enum Form {
    /// FILE `run`: the session that the source gives, and its transcripts.
    Run,
    /// FILE `big` SEED SIZE: the large session of this seed and size, and the summary of its transcripts. The source is not read.
    Big { seed: u64, size: u32 },
    /// FILE `verify`: the record of each live object is run again, and it is told whether one is not what its record gives. The
    /// source is not read, and no row is made.
    Verify,
    /// FILE `sites`: the replies to the text of sites that the source gives. FILE is not touched.
    Sites,
}

/// The form that one word after FILE says.
fn plain_form(word: &Text) -> Option<Form>
    ensures { result ≡ plain_form word.now }
{
    if word.as_bytes() == b"run".as_slice() {
        return Some(Form::Run);
    }
    if word.as_bytes() == b"verify".as_slice() {
        return Some(Form::Verify);
    }
    if word.as_bytes() == b"sites".as_slice() {
        return Some(Form::Sites);
    }
    None
}

/// The size of a large session that a word says.
fn size_of(word: &Text) -> Option<u32>
    ensures { result ≡ size_of word.now }
{
    match number(word.as_bytes())? {
        size if 0 < size && size <= SIZE_LIMIT => Some(size as u32),
        _ => None,
    }
}

/// The form that three words after FILE say: that of a large session, with its seed and its size.
fn big_form(word: &Text, seed: &Text, size: &Text) -> Option<Form>
    ensures { result ≡ big_form word.now seed.now size.now }
{
    if word.as_bytes() != b"big".as_slice() {
        return None;
    }
    let seed = number(seed.as_bytes())?;
    let size = size_of(size)?;
    Some(Form::Big { seed, size })
}

/// The form of words: FILE `run`, FILE `verify`, FILE `sites`, or FILE `big` SEED SIZE, both in decimal digits without leading
/// zeros, the seed below 2^64 and the size from 1 to 1,000. All other words have none.
pub fn form_of(words: &[Text]) -> Option<Form>
    ensures { result ≡ form_of words.now }
{
    match words {
        [_, word] => plain_form(word),
        [_, word, seed, size] => big_form(word, seed, size),
        _ => None,
    }
}
