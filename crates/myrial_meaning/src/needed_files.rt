//! The files that a script needs.
use myrial_ast::LoadForm;
use rel_base::{Items, Key};

/// A file that a script needs.
#[derive(Debug)]
pub struct Fetch {
    /// Its key; that of a loaded file has no user and no program.
    pub key: Key,
    /// How it is read where the script loads it.
    pub form: Option<LoadForm>,
}

// Written out, since a derived drop is proved anew at each place where a value is let go.
impl Drop for Fetch {
    fn drop(self) {
        let Fetch { key: _, form: _ } = self;
    }
}

/// The files that a script needs, in the order of their first scans and loads.
pub type Fetches = Items<Fetch>;
