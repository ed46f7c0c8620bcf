//! The kinds of node that `node` may be.

/// The kind of node that answers lines, which has ports on a ring (IEC 62439-3 clause 5).
#[derive(Clone, Copy, PartialEq, Eq)]
pub enum NodeRole {
    /// A doubly attached node.
    Danh,
    /// A node between a ring and an interlink.
    RedBox,
    /// A node between two rings, which has neither address nor mode.
    QuadBox,
}

impl NodeRole {
    ghost use Rattle.std.specs.Prelude.{◌≡◌, IfSome, Some};
    ghost use Rattle.hsr_options.specs.Roles.{node_role_of, node_role_word};

    /// Its word, as it is chosen.
    pub fn word(self) -> &'static str
        ensures { result.now ≡ node_role_word self }
    {
        match self {
            NodeRole::Danh => "danh",
            NodeRole::RedBox => "redbox",
            NodeRole::QuadBox => "quadbox",
        }
    }

    /// The kind whose word this is.
    #[tactic(auto, using(crate::proofs::Roles::role_again))]
    pub fn from_word(word: &[u8]) -> Option<NodeRole>
        ensures value { result ≡ node_role_of word.now }
        ensures again { (role : NodeRole) → node_role_of (node_role_word role) ≡ Some role }
        ensures exact { IfSome result (λ role. word.now ≡ node_role_word role) }
    {
        // Both sides of `==` have one type, so an octet literal is compared as a slice.
        if word == b"danh".as_slice() {
            Some(NodeRole::Danh)
        } else if word == b"redbox".as_slice() {
            Some(NodeRole::RedBox)
        } else if word == b"quadbox".as_slice() {
            Some(NodeRole::QuadBox)
        } else {
            None
        }
    }
}
