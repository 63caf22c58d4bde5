//! One number for some numbers, for a name beside one, and for some paths, as `cc_names::keys` has it for names and paths.

ghost use Rattle.std.specs.Prelude.{◌≡◌, ◌∷◌, []};
ghost use Rattle.cc_names.specs.Keys.{key_at};
ghost use Rattle.base_rows.specs.NumberKeys.{key_by, key_by_paths, key_in, key_with};

use cc_names::names::Name;
use cc_names::paths::Path;
use std::hash::{BuildHasher, Hasher, RandomState};

/// The key of a number and another one. Takes constant time.
pub(crate) fn key_by_one(hashing: RandomState, number: u64, one: u64) -> u64
    ensures { result ≡ key_by hashing number (one ∷ []) }
{
    let mut hasher = hashing.build_hasher();
    hasher.write_u64(number);
    hasher.write_u64(one);
    hasher.finish()
}

/// The key of a number and three more. Takes constant time.
pub(crate) fn key_by_three(hashing: RandomState, number: u64, one: u64, two: u64, three: u64) -> u64
    ensures { result ≡ key_by hashing number (one ∷ two ∷ three ∷ []) }
{
    let mut hasher = hashing.build_hasher();
    hasher.write_u64(number);
    hasher.write_u64(one);
    hasher.write_u64(two);
    hasher.write_u64(three);
    hasher.finish()
}

/// The key of two numbers and the bytes of a name. Takes time linear in the name.
pub(crate) fn key_with(hashing: RandomState, number: u64, other: u64, name: &[u8]) -> u64
    ensures { result ≡ key_with hashing number other name.now }
{
    let mut hasher = hashing.build_hasher();
    hasher.write_u64(number);
    hasher.write_u64(other);
    hasher.write(name);
    hasher.finish()
}

/// The key of a number, a name and the bytes of a path, as `cc_names::keys::key_at` has it. Takes time linear in both.
pub(crate) fn key_within(hashing: RandomState, number: u64, name: &Name, path: &[u8]) -> u64
    ensures { result ≡ key_at hashing number name.now path.now }
{
    let mut hasher = hashing.build_hasher();
    hasher.write_u64(number);
    hasher.write_usize(name.as_bytes().len());
    hasher.write(name.as_bytes());
    hasher.write(path);
    hasher.finish()
}

/// The key of two numbers, a name and the bytes of another one. Takes time linear in both names.
pub(crate) fn key_in(hashing: RandomState, number: u64, other: u64, view: &Name, name: &[u8]) -> u64
    ensures { result ≡ key_in hashing number other view.now name.now }
{
    let mut hasher = hashing.build_hasher();
    hasher.write_u64(number);
    hasher.write_u64(other);
    hasher.write_usize(view.as_bytes().len());
    hasher.write(view.as_bytes());
    hasher.write(name);
    hasher.finish()
}

/// The key of a number and some paths. Takes time linear in them.
pub(crate) fn key_by_paths(hashing: RandomState, number: u64, paths: &[Path]) -> u64
    ensures { result ≡ key_by_paths hashing number paths.now }
{
    let mut hasher = hashing.build_hasher();
    hasher.write_u64(number);
    for path in paths {
        hasher.write_usize(path.as_bytes().len());
        hasher.write(path.as_bytes());
    }
    hasher.finish()
}
