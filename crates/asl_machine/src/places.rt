//! Where the nodes of a request of many asks stand, so that a node is found without a look at each of them.
ghost use Rattle.std.specs.Prelude.{◌≡◌, ◌<◌, ◌++◌, ◌∷◌, [], None, length, position};
ghost use Rattle.asl_mode_lanes.specs.declared.mode.Mode.{Mode as AnyMode};
ghost use Rattle.asl_lock_forest.specs.Node.{same_node};
ghost use Rattle.asl_lock_forest.specs.Holding.{Request};
ghost use Rattle.asl_machine.specs.Places.{ArePlaces, chain_of, node_at};

use asl_code::NEWEST_LIMITS;
use asl_lock_forest::Node;
use asl_mode_lanes::Mode;

/// How many chains there are.
const CHAINS: usize = 512;

/// The most locks of a list whose nodes are kept in chains: as many as a list of the newest version has.
pub const MOST_LOCKS: usize = NEWEST_LIMITS.locks;

/// The most nodes: a lock asks at three.
const MOST_NODES: usize = 3 * MOST_LOCKS;

/// The places of the nodes of a request. Each node is in one of the chains, the last of a chain first.
#[derive(Drop)]
pub struct Places {
    /// One more than the last place of each chain, or 0 where it has none.
    last: [u16; CHAINS],
    /// Of each place one more than the place before it in its chain, or 0 where none is.
    before: [u16; MOST_NODES],
}

impl Places {
    /// Those of no node.
    pub fn new() -> Places
        ensures { ArePlaces result [] }
    {
        Places {
            last: [0; CHAINS],
            before: [0; MOST_NODES],
        }
    }

    /// The place of the node in the request, if it is there.
    pub fn find(&self, request: &[(Node, Mode)], node: Node) -> Option<usize>
        requires { ArePlaces self.now request.now }
        ensures { result ≡ position (λ ask. same_node ask.0 node) request.now }
    {
        let mut next = usize::from(self.last[chain_of(node)]);
        while next > 0 {
            let place = next - 1;
            if is_at(request, place, node) {
                return Some(place);
            }
            next = usize::from(self.before[place]);
        }
        None
    }

    /// Takes in the node of the next place, which stands at none.
    pub fn note(&mut self, place: usize, node: Node)
        requires few { place < 768 }
        ensures { (request : Request) (mode : AnyMode) → length request ≡ place → ArePlaces self.old request
            → position (λ ask. same_node ask.0 node) request ≡ None → ArePlaces self.new (request ++ (node, mode) ∷ []) }
    {
        let chain = chain_of(node);
        self.before[place] = self.last[chain];
        self.last[chain] = place as u16 + 1;
    }
}

/// Whether the ask at a place is at the node.
fn is_at(request: &[(Node, Mode)], place: usize, node: Node) -> bool
    requires { place < length request.now }
    ensures { result ≡ same_node (node_at request.now place) node }
{
    request[place].0.is_same(node)
}

/// In which chain a node is.
fn chain_of(node: Node) -> usize
    ensures chain { result ≡ chain_of node }
    ensures within { result < 512 }
{
    match node {
        Node::Root => 0,
        Node::Class(class) => usize::from(class) % CHAINS,
        Node::Leaf(cell, _) => (usize::from(cell.object) + 37 * usize::from(cell.offset)) % CHAINS,
    }
}
