//! What sites make and hand on, as plain data.

use crate::events::Identity;
use crate::needs::Needs;
use cc_names::names::Name;
use cc_names::texts::Text;

/// What an operation did.
#[derive(Drop)]
pub enum SiteDeed {
    /// An element was made, with its branch `main` and version 0 on it.
    Element,
    /// A branch of this name was made, which leaves a branch at its version of that number, with version 0 on it.
    Branch(Identity, u64, Name),
    /// The version of this number was made on a branch, with a text of one word.
    Version(Identity, u64, Text),
    /// The mastership of a branch was given to a site.
    Master(Identity, Name),
}

/// An operation. `needs` is the epoch table of its maker before it: in byte order of sites, without those of which no operation
/// was known.
#[derive(Drop)]
pub struct Operation {
    pub identity: Identity,
    pub needs: Needs,
    pub deed: SiteDeed,
}

/// What a site is asked to make.
#[derive(Drop)]
pub enum Change {
    /// An element.
    Element,
    /// A branch of this name that leaves a branch at its version of that number.
    Branch(Identity, u64, Name),
    /// The next version on a branch, with a text of one word.
    Version(Identity, Text),
    /// That a site has the mastership of a branch.
    Master(Identity, Name),
}

/// Why an event is refused, in the order in which the causes are tested.
#[derive(Drop)]
pub enum SiteFault {
    /// V1: there is a site of this name.
    SiteExists(Name),
    /// V2: there are 64 sites.
    TooManySites,
    /// V3: there is no site of this name.
    NoSite(Name),
    /// V4: the site knows no branch of this identity.
    NoBranch(Identity),
    /// V5: the site that has the mastership of the branch.
    NotMaster(Name),
    /// V6: the site knows no version of this number on the branch.
    NoVersion(u64),
    /// V7: the branch of the element that has the name.
    BranchExists(Identity),
    /// V8: there is a packet of this name.
    PacketExists(Name),
    /// V9: there is no packet of this name.
    NoPacket(Name),
    /// V10: the first operation that is missing.
    Gap(Identity),
}

/// What an event comes to.
#[derive(Drop)]
pub enum Answer {
    /// It was done, with what follows `ok`: an identity, a number, the text of `show`, or nothing.
    Done(Text),
    /// It was refused, and changed nothing.
    Refused(SiteFault),
}
