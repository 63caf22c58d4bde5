//! What happens at sites, as plain data.

ghost use Rattle.std.specs.Prelude.{◌≡◌, IfOk};
ghost use Rattle.vob_replica.specs.Trees.{identity_cmp, is_same_identity};

use cc_names::memory::NoMemory;
use cc_names::names::Name;
use cc_names::texts::Text;
use std::alloc::Global;
use std::cmp::Ordering;

/// What an operation is known by everywhere: the site that made it, and its number among that site's operations, from 1 on. An
/// element and its branch `main` are named by the operation that made the element, any other branch by its own.
#[derive(Debug, PartialEq, Eq, PartialOrd, Ord, Drop)]
pub struct Identity {
    pub site: Name,
    pub number: u64,
}

impl Identity {
    /// A copy.
    pub fn copy(&self, alloc: Global) -> Result<Identity, NoMemory>
        ensures { IfOk result (λ copy. copy ≡ self.now) }
    {
        let site = self.site.copy(alloc)?;
        let number = self.number;
        Ok(Identity { site, number })
    }
}

/// Whether two identities are the same.
pub(crate) fn is_same_identity(one: &Identity, other: &Identity) -> bool
    ensures { result ≡ is_same_identity one.now other.now }
{
    one.site == other.site && one.number == other.number
}

/// How identities stand to each other: by site in byte order, then by number.
pub(crate) fn identity_cmp(one: &Identity, other: &Identity) -> Ordering
    ensures { result ≡ identity_cmp one.now other.now }
{
    one.site
        .cmp(&other.site)
        .then(one.number.cmp(&other.number))
}

/// One line of a text of sites.
#[derive(Drop)]
pub enum Event {
    /// `site S`: a site comes to be.
    Site {
        site: Name,
    },
    /// `mkelem S`: the site makes an element.
    Mkelem {
        site: Name,
    },
    /// `mkbranch S ID N B`: the site makes a branch that leaves a branch at its version of that number.
    Mkbranch {
        site: Name,
        branch: Identity,
        number: u64,
        name: Name,
    },
    /// `checkin S ID WORD`: the site makes the next version on a branch.
    Checkin {
        site: Name,
        branch: Identity,
        word: Text,
    },
    /// `chmaster S ID T`: the site gives the mastership of a branch to another.
    Chmaster {
        site: Name,
        branch: Identity,
        to: Name,
    },
    /// `export S T P`: the site writes a packet for another.
    Export {
        site: Name,
        to: Name,
        packet: Name,
    },
    /// `import S P`: the site takes a packet in.
    Import {
        site: Name,
        packet: Name,
    },
    /// `recover S T`: the site forgets what it thinks that another knows.
    Recover {
        site: Name,
        to: Name,
    },
    /// `show S`: what the site knows.
    Show {
        site: Name,
    },
}

/// Why a line of a text of sites cannot be read.
#[derive(Clone, Copy, Debug, PartialEq, Eq)]
pub enum SiteCause {
    /// Its first word is the word of no event.
    UnknownCommand,
    /// It has too few or too many words, or one that is none of its kind.
    BadWord,
}

/// The first line of a text of sites that cannot be read.
#[derive(Clone, Copy, Debug, PartialEq, Eq)]
pub struct SiteError {
    /// The number of the line in the text, from 1 on.
    pub line: u32,
    pub cause: SiteCause,
}
