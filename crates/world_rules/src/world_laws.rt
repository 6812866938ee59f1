//! The laws of worlds. Each is a function that does nothing, whose contract is the law.

ghost use Rattle.world_rules.specs.Laws.{InEachWorld, NodesAreSound, ChainsArePrefixes, NoStrangeChains, NoServerChains, OwnChainsAreMade, NoForks, StatusTellsChains, StatusTellsViews};
ghost use Rattle.world_rules.specs.Stores.{InEachStoreWorld};
ghost use Rattle.world_rules.specs.Examples.{WorkedWorld, WorkedTwins};

/// In every world that steps, pages, crashes and cuts can lead to: each node's journal is sound, so that
/// its chains are numbered from 0 without gaps; each chain of each node is a prefix of that chain at its
/// own host's node, and no node has a chain of any other host; no node has one of the server's host, and
/// what a node has of its own host was made there; and no page that was ever sent is refused as a fork,
/// at any node and in anyone's call.
pub fn no_world_forks()
    ensures sound { InEachWorld NodesAreSound }
    ensures prefixes { InEachWorld ChainsArePrefixes }
    ensures no_strangers { InEachWorld NoStrangeChains }
    ensures none_of_server { InEachWorld NoServerChains }
    ensures own_made { InEachWorld OwnChainsAreMade }
    ensures no_forks { InEachWorld NoForks }
{}

/// In every such world two nodes of equal status have equal chains, at every host and tag, and equal
/// views: whatever opening a sealed record gives, they show the same commands, values and aliases, and
/// answer searches and lists of names alike.
pub fn nodes_of_equal_status_are_alike()
    ensures chains { InEachWorld StatusTellsChains }
    ensures views { InEachWorld StatusTellsViews }
{}

/// In every world that calls of stores, pages, crashes and cuts can lead to, where all stores have one
/// key, the same holds: no page is a fork, each chain is a prefix of that at its own host's node, each
/// journal is sound, what a node has of its own host was made there, and nodes of equal status have
/// equal chains and views.
pub fn stores_never_fork()
    ensures sound { InEachStoreWorld NodesAreSound }
    ensures prefixes { InEachStoreWorld ChainsArePrefixes }
    ensures no_strangers { InEachStoreWorld NoStrangeChains }
    ensures none_of_server { InEachStoreWorld NoServerChains }
    ensures own_made { InEachStoreWorld OwnChainsAreMade }
    ensures no_forks { InEachStoreWorld NoForks }
    ensures chains { InEachStoreWorld StatusTellsChains }
    ensures views { InEachStoreWorld StatusTellsViews }
{}

/// A small world, worked out: a page that comes before the one it follows is refused and leaves the
/// journal, one that comes again adds nothing, a step that a crash cut stands whole, a page that a crash
/// cut is lost whole, and in the end the server has what node 1 has, and node 2 has its own record too.
pub fn worked_world()
    ensures { WorkedWorld }
{}

/// Where two nodes have one host, a page of the one is a fork at the other: so the laws above need hosts
/// that differ.
pub fn worked_twins()
    ensures { WorkedTwins }
{}
