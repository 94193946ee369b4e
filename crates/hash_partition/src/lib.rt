//! Where rows go: the hash of a value in each dimension, the home of a key, and the number of a
//! cell.
//!
//! Stands on `rel_base` for rows and codes, and on `share_chooser` for shares. It takes no memory
//! and refuses nothing.
//!
//! Promises: coordinates, key codes and homes are those of the formulas, and in range. A cell has
//! its number in mixed radix, below the number of cells, and no other cell has it. Not promised:
//! that values spread evenly, or that values that differ have codes that differ.
//!
//! Read `specs/Hashing.antt` and `specs/Cells.antt`, then `dimensions.rt`.
#![tactic(auto)]

mod cells;
mod dimensions;
mod hashing;

pub use cells::cell_of;
pub use dimensions::Dimension;
pub use hashing::{coord, home_of_key, key_code};
