//! What a root of a pool can be.

/// What a root of a pool is. Keys stand in pairs with their values, and elements of sets alone.
#[derive(Debug, Clone, Copy, PartialEq, Eq)]
pub enum RootKind {
    /// A vector of cells.
    Lines,
    /// A set of cells.
    Cells,
    /// A map from cells to cells.
    CellMap,
    /// A map from cells to vectors of cells.
    LinesMap,
    /// A set of cells that are names.
    Names,
    /// A map from cells that are names to vectors of cells.
    NamedLines,
    /// A state: a map from names to vectors of cells, and a set of names.
    State,
    /// A map from names to states.
    Versions,
    /// A vector of states.
    History,
}
