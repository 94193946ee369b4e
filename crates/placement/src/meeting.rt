//! The laws of where the rows of a candidate meet, and of what is enough to send.
//!
//! Each is the contract of a function that does nothing.
ghost use Rattle.placement.specs.Laws.{DestinationsAreCells, DestinationsAreWorkers};
ghost use Rattle.placement.specs.Laws.{CandidatesMeetAtOneCell, CellsListTheirCandidates};
ghost use Rattle.placement.specs.Laws.{CandidatesAreKept, PrefixesMeetByKey};

/// The destinations that are computed are the cells that agree with the row.
pub fn destinations_are_cells()
    ensures { DestinationsAreCells }
{}

/// A row goes to workers below the number of cells, and to none twice.
pub fn destinations_are_workers()
    ensures { DestinationsAreWorkers }
{}

/// The rows of a candidate all go to a worker exactly where it is the meeting cell.
pub fn candidates_meet_at_one_cell()
    ensures { CandidatesMeetAtOneCell }
{}

/// The candidates of the rows that go to a worker are those whose meeting cell it is.
pub fn cells_list_their_candidates()
    ensures { CellsListTheirCandidates }
{}

/// The candidates of the kept rows are all candidates.
pub fn candidates_are_kept()
    ensures { CandidatesAreKept }
{}

/// The candidates of a prefix with one key are made of what has this key.
pub fn prefixes_meet_by_key()
    ensures { PrefixesMeetByKey }
{}
