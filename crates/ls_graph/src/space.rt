// What actors do at each node of a graph that is found while it is looked at.

ghost use Rattle.std.specs.Prelude.{◌≡◌, ℕ, Bool, IfOk, IfSome, IfNone, IsTrue, false};
ghost use Rattle.ls_graph.specs.Grown.{Grows};

use std::alloc::{AllocError, Global};

/// A node to which an actor leads, by a step with this mark. What a mark says is told by the space.
#[derive(Drop)]
pub struct Step<N> {
    pub node: N,
    pub mark: u32,
}

/// What actors do at each node. What nodes stand for is told by tables, which grow while nodes are looked at.
pub trait Space {
    // What a node stands for.
    ghost State: { Type 0 };

    // An actor leads nowhere from there.
    ghost Rests: { Self → State → ℕ → Type 0 };

    // An actor leads from the one to the other, by a step with this mark.
    ghost Leads: { Self → State → ℕ → ℕ → State → Type 0 };

    // What is looked for.
    ghost Ends: { Self → State → Type 0 };

    type Tables: Drop;

    type Node: Drop;

    // The tables tell what the node stands for.
    ghost IsKnown: { Self → Self.Tables → Self.Node → Type 0 };

    // What it stands for.
    ghost stands: { Self → Self.Tables → Self.Node → State };

    // How much is kept for it.
    ghost weighs: { Self.Node → ℕ };

    /// Where an actor leads from a node, if it leads anywhere.
    fn next(
        &self,
        alloc: Global,
        tables: &mut Self::Tables,
        node: &Self::Node,
        actor: u8,
    ) -> Result<Option<Step<Self::Node>>, AllocError>
        requires { IsKnown self.now tables.old node.now }
        ensures grows { Grows (IsKnown self.now) (stands self.now) tables.old tables.new }
        ensures rests { IfOk result (λ o. IfNone o (Rests self.now (stands self.now tables.old node.now) actor)) }
        ensures known { IfOk result (λ o. IfSome o (λ s. IsKnown self.now tables.new s.node)) }
        ensures leads { IfOk result (λ o. IfSome o (λ s. Leads self.now (stands self.now tables.old node.now) actor
            s.mark (stands self.now tables.new s.node))) };

    /// Whether a node is looked for. False only where it isn't.
    fn is_end(
        &self,
        alloc: Global,
        tables: &mut Self::Tables,
        node: &Self::Node,
    ) -> Result<bool, AllocError>
        requires { IsKnown self.now tables.old node.now }
        ensures grows { Grows (IsKnown self.now) (stands self.now) tables.old tables.new }
        ensures none { IfOk result (λ b. b ≡ false → Ends self.now (stands self.now tables.old node.now) → ⊥) };

    /// Whether nodes are the same. True only where they stand for the same.
    fn is_same(&self, node: &Self::Node, other: &Self::Node) -> bool
        ensures { IsTrue result → (t : Self.Tables) → stands self.now t node.now ≡ stands self.now t other.now };

    /// A number by which nodes are found. Nothing depends on it.
    fn hash(&self, node: &Self::Node) -> u64;

    /// How much is kept for a node.
    fn weight(&self, node: &Self::Node) -> usize
        ensures { result ≡ weighs node.now };
}
