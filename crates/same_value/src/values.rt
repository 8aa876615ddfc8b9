//! What the values of a map are.

/// What the values of a map are: cells, vectors of cells, or states.
#[derive(Clone, Copy)]
pub enum Values {
    /// Cells.
    Cells,
    /// Vectors of cells.
    Lines,
    /// States: a map of vectors of cells, and a set.
    States,
}
