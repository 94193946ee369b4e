//! Rows behind one shared pointer.
ghost use Rattle.std.specs.Prelude.{◌≡◌, ◌^◌, ◌<◌, length, slice_index_or, IfOk, IfErr, All};
ghost use Rattle.rel_base.specs.Picks.{items_at};
ghost use Rattle.rel_base.specs.inner.Strides.{stepped};

use crate::flat_rows::{FlatRows, RowRun};
use crate::{Duplicate, Memory, Value};
use std::alloc::{AllocFailed, Global};
use std::marker::Model;
use std::sync::Arc;

/// Rows of one width that several lists share. They are let go with the last of them.
pub struct Block {
    rows: Arc<FlatRows, Global>,
}

// Written out, since a derived drop is proved anew at each place where a value is let go.
impl Drop for Block {
    fn drop(self) {
        let Block { rows: _ } = self;
    }
}

impl Model for Block {
    ghost use Rattle.std.specs.Prelude.{List, ◌^◌, ◌<◌, length};
    ghost use Rattle.std.specs.Arc.{arc_value};
    ghost use Rattle.rel_base.specs.declared.values.Value.{Value as Datum};

    ghost Value = { List (List Datum) };

    ghost view = { λ b. arc_value b.rows };

    ghost invariant = { λ b. length (arc_value b.rows) < 2 ^ 32 };
}

impl Block {
    /// These rows, shared from now on. No row is copied; after a refusal they come back.
    pub fn of(alloc: Global, rows: FlatRows) -> Result<Block, AllocFailed<FlatRows>>
        ensures ok { IfOk result (λ made. made ≡ rows) }
        ensures err { IfErr result (λ refused. refused.value ≡ rows) }
    {
        let _few = rows.len();
        let rows = Arc::new(alloc, rows)?;
        Ok(Block { rows })
    }

    /// The number of rows.
    pub fn len(&self) -> u32
        ensures value { result ≡ length self.now }
        ensures bound { length self.now < 2 ^ 32 }
    {
        self.rows.len()
    }

    /// Row number `i`, from 0.
    pub fn get(&self, i: u32) -> &[Value]
        requires { i < length self.now }
        ensures { result.now ≡ slice_index_or self.now i result.now }
    {
        self.rows.get(i)
    }

    /// So many rows from number `start` on, each `step` behind the one before it.
    pub fn run(&self, start: u32, step: u32, len: u32) -> RowRun<'_>
        requires { All (λ i. i < length self.now) (stepped start step len) }
        ensures { result ≡ items_at self.now (stepped start step len) }
    {
        self.rows.run(start, step, len)
    }
}

/// The same rows, shared: none is copied.
impl Duplicate for Block {
    fn copy(&self, _alloc: Global) -> Result<Block, Memory> {
        let rows = Arc::try_clone(&self.rows)?;
        Ok(Block { rows })
    }
}
