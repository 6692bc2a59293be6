ghost use Rattle.std.specs.Prelude.{◌≡◌, ◌<◌};
ghost use Rattle.fixpoint.specs.Graph.{visited_at};

// Which neighbours of a point its row is merged from: its predecessors or its successors. The definitions name
// the two, so that no function stands in their place.
#[derive(Clone, Copy, Debug, PartialEq, Eq)]
pub enum Direction {
    Forward,
    Backward,
}

impl Direction {
    // The k-th point of a round, of n.
    pub(crate) fn visited_at(self, n: usize, k: usize) -> usize
        requires { k < n }
        ensures value { result ≡ visited_at self n k }
        ensures inside { result < n }
    {
        match self {
            Direction::Forward => k,
            Direction::Backward => n - 1 - k,
        }
    }
}
