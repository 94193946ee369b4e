//! What is stored, where it lies.
use rel_base::{Items, Key, Schema, Spread};

/// A relation that a script stores: its key, its columns, and its rows at each worker.
pub struct SpreadStore {
    /// The key.
    pub key: Key,
    /// The columns.
    pub schema: Schema,
    /// The rows, a list for each worker.
    pub parts: Spread,
}

// Written out, since a derived drop is proved anew at each place where a value is let go.
impl Drop for SpreadStore {
    fn drop(self) {
        let SpreadStore {
            key: _,
            schema: _,
            parts: _,
        } = self;
    }
}

/// What a script stores, in the order of its stores.
pub type SpreadStores = Items<SpreadStore>;
