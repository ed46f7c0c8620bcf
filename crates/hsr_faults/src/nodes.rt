//! Sets of nodes.
ghost use Rattle.std.specs.Prelude.{◌≡◌, ◌==◌, ◌<◌, ◌&&◌, not, ℕ, false, if◌then◌else◌};
ghost use Rattle.hsr_bitset.specs.Numbers.{has_bit};

// 64 is the number of nodes that a topology has at most.
/// A set of nodes, by their numbers, of which there are 64 at most.
#[derive(Clone, Copy, PartialEq, Eq)]
pub struct Nodes {
    bits: u64,
}

impl Nodes {
    /// The set that has no node.
    pub fn new() -> Nodes
        ensures { (k : ℕ) → has_bit result.bits k ≡ false }
    {
        Nodes { bits: 0 }
    }

    /// Lets a node be in the set or not.
    pub(crate) fn put(&mut self, node: usize, is_in: bool)
        requires { node < 64 }
        ensures { (k : ℕ) → k < 64 → has_bit self.new.bits k ≡ (if k == node then is_in else has_bit self.old.bits k) }
    {
        self.bits = if is_in {
            self.bits | 1 << node
        } else {
            self.bits & !(1 << node)
        };
    }

    /// Whether a node is in the set.
    pub fn has(self, node: usize) -> bool
        requires { node < 64 }
        ensures { result ≡ has_bit self.bits node }
    {
        self.bits >> node & 1 == 1
    }

    /// Whether no node is in the set.
    pub fn is_empty(self) -> bool
        ensures { result ≡ (self.bits == 0) }
    {
        self.bits == 0
    }

    /// Whether two sets have the same nodes.
    pub(crate) fn is_same(self, other: Nodes) -> bool
        ensures { result ≡ (self.bits == other.bits) }
    {
        self.bits == other.bits
    }

    /// The nodes that are in the set and not in another.
    pub(crate) fn without(self, other: Nodes) -> Nodes
        ensures { (k : ℕ) → k < 64 → has_bit result.bits k ≡ (has_bit self.bits k && not (has_bit other.bits k)) }
    {
        Nodes {
            bits: self.bits & !other.bits,
        }
    }
}
