//! Where the rows of a script lie, where they go, and what its plan says: definitions and their
//! laws.
//!
//! Stands on `algebra` for shapes, terms and checked scripts, on `hash_partition` for homes and
//! cells, on `share_chooser` for shares of least load, on `row_exchange` for the moves of an
//! exchange, and on `bag_laws`. Nothing here runs: each law is the contract of a function with an
//! empty body, and `SpreadStore` is what a run gives of a store.
//!
//! Promises: for every script, number of workers, hash seed and way of shuffling, all workers'
//! rows together are the bag of the meaning. The rows of a candidate meet at one worker, and what
//! a worker lists is made of what it is given alone. All that is said of an exchange is read off
//! one list of moves, and as many rows are sent as received. Not promised: that rows spread
//! evenly.
//!
//! Read `specs/Destinations.antt`, `specs/Layouts.antt` and `specs/Exchanges.antt`, then
//! `specs/Laws.antt` and `specs/Receiving.antt`.
#![tactic(auto)]

mod choices;
mod layouts;
mod meeting;
mod receiving;
mod stores;

pub use choices::ShuffleChoice;
pub use layouts::{
    exchanges_balance, joined_are_joined, joined_are_of_bags, joined_take_part, joins_are_ready,
    moves_balance, parts_are_bags, parts_hold_the_rows, placed_are_stored, reduced_are_kept,
    reduced_have_the_candidates, ruled_is_placing,
};
pub use meeting::{
    candidates_are_kept, candidates_meet_at_one_cell, cells_list_their_candidates,
    destinations_are_cells, destinations_are_workers, prefixes_meet_by_key,
};
pub use receiving::{
    broadcasts_list_what_they_are_given, cells_list_what_they_are_given, groups_are_merged,
    listed_rows_are_grouped, parts_are_listed, rows_are_given_once, steps_list_what_they_are_given,
};
pub use stores::{SpreadStore, SpreadStores};
