//! The laws of what workers are given.
//!
//! Each is the contract of a function that does nothing.
ghost use Rattle.placement.specs.Receiving.{RowsAreGivenOnce, CellsListWhatTheyAreGiven};
ghost use Rattle.placement.specs.Receiving.{StepsListWhatTheyAreGiven};
ghost use Rattle.placement.specs.Receiving.{BroadcastsListWhatTheyAreGiven, PartsAreListed};
ghost use Rattle.placement.specs.Receiving.{ListedRowsAreGrouped, GroupsAreMerged};

/// What is read off the moves is what lies at a worker and goes to another, each row once.
pub fn rows_are_given_once()
    ensures { RowsAreGivenOnce }
{}

/// By cells, the candidates of what a worker is given are those that meet there.
pub fn cells_list_what_they_are_given()
    ensures { CellsListWhatTheyAreGiven }
{}

/// Two at a time, the candidates of what a worker is given in a step are those whose key is at
/// home there.
pub fn steps_list_what_they_are_given()
    ensures { StepsListWhatTheyAreGiven }
{}

/// By broadcast, a worker's own part and what it is given have the candidates of its part.
pub fn broadcasts_list_what_they_are_given()
    ensures { BroadcastsListWhatTheyAreGiven }
{}

/// What a worker lists of what it is given is its part of the join.
pub fn parts_are_listed()
    ensures { PartsAreListed }
{}

/// Each row that a worker lists has a column for each kind of its grouping.
pub fn listed_rows_are_grouped()
    ensures { ListedRowsAreGrouped }
{}

/// The partial rows that a worker is given, merged, are its part of the groups.
pub fn groups_are_merged()
    ensures { GroupsAreMerged }
{}
