//! A graph of bounded degree: each node has the set of its neighbours, and every edge goes both ways.
//!
//! A contract sees it as the list of each node's neighbours.
ghost use Rattle.std.specs.Prelude.{◌≡◌, ◌≢◌, ◌↔◌, ℕ, ◌<◌, ◌≤◌, ◌||◌, ◌&&◌, not, length, nat_eq, true, false, IsTrue};
ghost use Rattle.std.specs.Bool.{OnTrue, OnFalse};
ghost use Rattle.std.specs.Set.{is_member};
ghost use Rattle.micromap.specs.Items.{item_fits};
ghost use Rattle.micromap_examples.specs.Graph.{are_ends, leads, neighbours, with_neighbour, without_neighbour, IsSymmetric, LeadsBelow, Path, Searches};

use micromap::Set;
use micromap::set::Iter;
use std::marker::Model;

/// The number of nodes.
pub const NODES: usize = 8;

/// The greatest number of a node's neighbours.
pub const DEGREE: usize = 3;

/// A graph whose nodes are the numbers below `NODES`.
#[derive(Drop)]
pub struct Graph {
    nodes: [Set<u8, DEGREE>; NODES],
}

impl Model for Graph {
    ghost use Rattle.std.specs.Prelude.{List, ℕ};
    ghost use Rattle.micromap_examples.specs.Graph.{IsSymmetric, LeadsBelow};
    ghost use Rattle.micromap_examples.specs.declared.graph.TheConstants.{NODES};

    ghost Value = { List (List ℕ) };

    ghost view = { λ g. g.nodes };

    ghost invariant = { λ g. IsSymmetric g.nodes × LeadsBelow NODES g.nodes };
}

impl Graph {
    /// Creates a graph with no edge.
    pub fn new() -> Self
        ensures { (x y : ℕ) → leads result x y ≡ false }
    {
        Graph {
            nodes: Default::default(),
        }
    }

    /// Returns `true` if there is an edge between two nodes.
    pub fn has_edge(&self, a: u8, b: u8) -> bool
        requires { a < NODES }
        ensures answer { result ≡ leads self.now a b }
        ensures symmetric { IsSymmetric self.now }
    {
        self.nodes[usize::from(a)].contains(&b)
    }

    /// Returns the number of a node's neighbours.
    pub fn degree(&self, a: u8) -> usize
        requires { a < NODES }
        ensures { result ≡ length (neighbours self.now a) }
    {
        self.nodes[usize::from(a)].len()
    }

    /// Returns a node's neighbours.
    pub fn neighbours(&self, a: u8) -> Iter<'_, u8>
        requires { a < NODES }
        ensures answer { result ≡ neighbours self.now a }
        ensures nodes { LeadsBelow NODES self.now }
    {
        self.nodes[usize::from(a)].iter()
    }

    /// Adds an edge in both directions, or returns that one of the two nodes has no room for it.
    pub fn add_edge(&mut self, a: u8, b: u8) -> bool
        requires a_is_node { a < NODES }
        requires b_is_node { b < NODES }
        ensures answer { result ≡ (item_fits nat_eq DEGREE (neighbours self.old a) b && item_fits nat_eq DEGREE (neighbours self.old b) a) }
        ensures graph { OnTrue result (self.new ≡ with_neighbour (with_neighbour self.old a b) b a) }
        ensures added { OnTrue result ((x y : ℕ) → leads self.new x y ≡ (leads self.old x y || are_ends a b x y)) }
        ensures refused { OnFalse result (self.new ≡ self.old) }
        ensures symmetric { IsSymmetric self.new }
    {
        if !self.nodes[usize::from(a)].fits(&b) || !self.nodes[usize::from(b)].fits(&a) {
            return false;
        }
        join(&mut self.nodes, a, b);
        join(&mut self.nodes, b, a);
        true
    }

    /// Removes an edge in both directions, and returns whether it was there.
    pub fn remove_edge(&mut self, a: u8, b: u8) -> bool
        requires a_is_node { a < NODES }
        requires b_is_node { b < NODES }
        ensures answer { result ≡ leads self.old a b }
        ensures graph { self.new ≡ without_neighbour (without_neighbour self.old a b) b a }
        ensures removed { (x y : ℕ) → leads self.new x y ≡ (leads self.old x y && not (are_ends a b x y)) }
        ensures symmetric { IsSymmetric self.new }
    {
        let was_there = part(&mut self.nodes, a, b);
        part(&mut self.nodes, b, a);
        was_there
    }

    /// Returns the nodes to which edges lead from a node, itself among them.
    ///
    /// Looks at each of their edges once from either end.
    pub fn reached(&self, from: u8) -> Set<u8, NODES>
        requires { from < NODES }
        ensures { (x : ℕ) → IsTrue (is_member nat_eq result x) ↔ Path self.now from x }
    {
        let mut met = Set::new();
        self.search(from, &mut met);
        met
    }

    // Adds a node, and from it all to which edges lead, but for those that were added before.
    #[tactic(auto, using(micromap::proofs::Rules::caller, crate::proofs::ReachLemmas::room))]
    fn search(&self, node: u8, met: &mut Set<u8, NODES>)
        requires node_is { node < NODES }
        requires nodes { (x : ℕ) → is_member nat_eq met.old x ≡ true → x < NODES }
        ensures nodes { (x : ℕ) → is_member nat_eq met.new x ≡ true → x < NODES }
        ensures kept { length met.old ≤ length met.new }
        ensures searched { Searches self.now node met.old met.new }
    {
        if met.contains(&node) {
            return;
        }
        met.checked_insert(node);
        for next in &self.nodes[usize::from(node)] {
            self.search(*next, met);
        }
    }
}

// Adds b to the neighbours of a.
#[tactic(auto, using(micromap::proofs::Rules::caller, std::proofs::lemmas::Grind::common_steps))]
fn join(nodes: &mut [Set<u8, DEGREE>; NODES], a: u8, b: u8)
    requires a_is_node { a < NODES }
    requires room { IsTrue (item_fits nat_eq DEGREE (neighbours nodes.old a) b) }
    ensures nodes { nodes.new ≡ with_neighbour nodes.old a b }
    ensures halves { (x y : ℕ) → leads nodes.new x y ≡ (leads nodes.old x y || (nat_eq a x && nat_eq b y)) }
    ensures others { (x : ℕ) → a ≢ x → neighbours nodes.new x ≡ neighbours nodes.old x }
{
    nodes[usize::from(a)].insert(b);
}

// Removes b from the neighbours of a, and returns whether it was there.
#[tactic(auto, using(micromap::proofs::Rules::caller, std::proofs::lemmas::Grind::common_steps))]
fn part(nodes: &mut [Set<u8, DEGREE>; NODES], a: u8, b: u8) -> bool
    requires { a < NODES }
    ensures answer { result ≡ leads nodes.old a b }
    ensures nodes { nodes.new ≡ without_neighbour nodes.old a b }
    ensures halves { (x y : ℕ) → leads nodes.new x y ≡ (leads nodes.old x y && not (nat_eq a x && nat_eq b y)) }
{
    let node = &mut nodes[usize::from(a)];
    node.remove(&b)
}
