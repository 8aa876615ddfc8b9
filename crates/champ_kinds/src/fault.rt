//! Why an insertion gave no map or set.
use elem_core::NoMemory;
use thiserror::Error;

/// Memory ran out. It gives back the key that was to be inserted into a map or a set.
#[derive(Debug, Drop, Error)]
#[error("out of memory")]
pub struct MapFault<T> {
    /// The key.
    pub key: T,
}

impl<T: Drop> From<MapFault<T>> for NoMemory {
    fn from(_fault: MapFault<T>) -> NoMemory {
        NoMemory
    }
}
