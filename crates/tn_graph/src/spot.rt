//! Where a trade stands in a block of costs.

ghost use Rattle.std.specs.Prelude.{◌≡◌, ◌+◌, ◌*◌, ◌^◌, ◌<◌, ◌≤◌};

/// Where a trade stands in the block of one of its firms. A block has a row and a column for each own trade of the
/// firm, and after them for null.
#[derive(Clone, Copy)]
pub struct Spot {
    /// Where the block begins among the costs of all blocks.
    pub start: u32,
    /// How many own trades the firm has.
    pub count: u32,
    /// Where they begin among those of all firms.
    pub own: u32,
    /// Which of them the trade is.
    pub position: u32,
}

impl Spot {
    ghost use Rattle.tn_graph.specs.Blocks.{block_size, place_in};

    /// The place of a row and a column of the block among all costs. They aren't both those of null.
    pub fn place(self, row: u32, column: u32) -> u32
        requires row { row ≤ self.count }
        requires column { column ≤ self.count }
        requires one { row + column < 2 * self.count }
        requires fits { self.start + block_size self.count < 2 ^ 32 }
        ensures place { result ≡ place_in self row column }
        ensures inside { result < self.start + block_size self.count }
    {
        self.start + (row * (self.count + 1) + column)
    }
}
