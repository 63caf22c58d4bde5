//! What a site thinks that others know.

ghost use Rattle.std.specs.Prelude.{◌≡◌, ◌<◌, ◌≤◌, length, vec_len, vec_capacity, option_copied, OnOk, OnErr};
ghost use Rattle.vob_replica.specs.Estimates.{peer_in, peer_place_in, with_peer};

use crate::tables::Table;
use cc_names::memory::NoMemory;
use cc_names::names::Name;
use std::alloc::Global;

/// What is thought that a site knows.
#[derive(Debug, Drop)]
pub struct Estimate {
    pub site: Name,
    pub table: Table,
}

/// A site of which something is thought. It is thought to know the first `exported` operations of the log.
#[derive(Debug, Drop)]
pub struct Peer {
    pub estimate: Estimate,
    pub exported: usize,
}

/// What is thought of a site, where anything is. Takes time linear in the peers.
pub fn peer_for<'a>(peers: &'a [Peer], site: &Name) -> Option<&'a Peer>
    ensures { option_copied result ≡ peer_in peers.now site.now }
{
    for peer in peers {
        if peer.estimate.site == *site {
            return Some(peer);
        }
    }
    None
}

/// How many peers stand before a site.
fn peer_place(peers: &[Peer], site: &Name) -> usize
    ensures place { result ≡ peer_place_in peers.now site.now }
    ensures within { result ≤ length peers.now }
{
    let mut place = 0;
    for peer in peers {
        if peer.estimate.site == *site {
            break;
        }
        place += 1;
    }
    place
}

/// Puts a peer in the place of the one of its site, or after all others. Takes time linear in the peers.
pub(crate) fn put_peer(peers: &mut Vec<Peer>, peer: Peer)
    requires { vec_len peers.old < vec_capacity peers.old }
    ensures { peers.new.items
        ≡ with_peer peers.old.items peer.estimate.site peer.estimate.table peer.exported }
{
    let Peer { estimate, exported } = peer;
    let Estimate { site, table } = estimate;
    let place = peer_place(peers, &site);
    if place < peers.len() {
        let there = &mut peers[place];
        there.estimate.table = table;
        there.exported = exported;
        return;
    }
    let estimate = Estimate { site, table };
    peers.push_reserved(Peer { estimate, exported });
}

/// Sets what is thought that a site knows: what a table holds, and the first `exported` operations. Takes time linear in the
/// peers. An `Err` changes nothing.
pub fn set_peer(
    alloc: Global,
    peers: &mut Vec<Peer>,
    site: &Name,
    table: Table,
    exported: usize,
) -> Result<(), NoMemory>
    ensures ok { OnOk result (peers.new.items ≡ with_peer peers.old.items site.now table exported) }
    ensures err { OnErr result (peers.new.items ≡ peers.old.items) }
{
    let site = site.copy(alloc)?;
    peers.reserve(1)?;
    let estimate = Estimate { site, table };
    put_peer(peers, Peer { estimate, exported });
    Ok(())
}
