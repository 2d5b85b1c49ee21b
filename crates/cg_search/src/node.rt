//! Nodes of a graph.
ghost use Rattle.std.specs.Prelude.{◌≡◌, ℕ, List};

/// A node of a graph, whose targets are places of nodes.
pub trait Node {
    // The places of its targets, one for each reference.
    ghost points_to: { Self → List ℕ };

    /// The places of its targets, one for each reference.
    fn targets(&self) -> &[usize]
        ensures { result.now ≡ points_to self.now };
}

/// A row of places is a node by itself.
impl Node for Vec<usize> {
    ghost points_to = { λ row. row.items };

    fn targets(&self) -> &[usize] {
        self.as_slice()
    }
}
