//! One number for names, by which hash maps look them up without a copy of the names. The hash is keyed: whoever chooses the
//! names does not know the key, so cannot choose names whose numbers are the same.

ghost use Rattle.std.specs.Prelude.{◌≡◌};
ghost use Rattle.cc_names.specs.Keys.{key_at, key_of};

use crate::names::Name;
use crate::paths::Path;
use std::hash::{BuildHasher, Hasher, RandomState};

/// The key of a number and a name: a hash, so things that share a key are distinguished by their names. Takes time linear in
/// the name.
pub fn key_of(hashing: RandomState, number: u64, name: &Name) -> u64
    ensures { result ≡ key_of hashing number name.now }
{
    let mut hasher = hashing.build_hasher();
    hasher.write_u64(number);
    hasher.write(name.as_bytes());
    hasher.finish()
}

/// The key of a number, a name and a path. Takes time linear in both.
pub fn key_at(hashing: RandomState, number: u64, name: &Name, path: &Path) -> u64
    ensures { result ≡ key_at hashing number name.now path.now }
{
    let mut hasher = hashing.build_hasher();
    hasher.write_u64(number);
    hasher.write_usize(name.as_bytes().len());
    hasher.write(name.as_bytes());
    hasher.write(path.as_bytes());
    hasher.finish()
}
