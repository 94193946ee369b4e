//! Columns behind one shared pointer.
ghost use Rattle.std.specs.Prelude.{◌≡◌, IfOk};

use crate::columns::WordColumn;
use rel_base::Memory;
use std::alloc::Global;
use std::marker::Model;
use std::sync::Arc;

/// Columns that several tables share. They are let go with the last of them.
pub(crate) struct SharedColumns {
    columns: Arc<Vec<WordColumn>, Global>,
}

// Written out, since a derived drop is proved anew at each place where a value is let go.
impl Drop for SharedColumns {
    fn drop(self) {
        let SharedColumns { columns: _ } = self;
    }
}

impl Model for SharedColumns {
    ghost use Rattle.std.specs.Prelude.{List, ℕ};
    ghost use Rattle.std.specs.Arc.{arc_value};

    ghost Value = { List (List ℕ) };

    ghost view = { λ s. (arc_value s.columns).items };
}

impl SharedColumns {
    /// These columns, shared from now on. None is copied.
    pub(crate) fn of(alloc: Global, columns: Vec<WordColumn>) -> Result<SharedColumns, Memory>
        ensures { IfOk result (λ made. made ≡ columns.items) }
    {
        let columns = Arc::new(alloc, columns)?;
        Ok(SharedColumns { columns })
    }

    /// The columns, in order.
    pub(crate) fn as_slice(&self) -> &[WordColumn]
        ensures { result.now ≡ self.now }
    {
        self.columns.as_slice()
    }

    /// The same columns, shared: none is copied.
    pub(crate) fn again(&self) -> Result<SharedColumns, Memory>
        ensures { IfOk result (λ made. made ≡ self.now) }
    {
        let columns = Arc::try_clone(&self.columns)?;
        Ok(SharedColumns { columns })
    }
}
