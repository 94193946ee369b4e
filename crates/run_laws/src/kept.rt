//! The laws of kept rows.
ghost use Rattle.run_laws.specs.KeptRuns.{KeptRowsAreEnough, KeptRowsAreListed};
ghost use Rattle.run_laws.specs.KeptRuns.{KeptSpreadsAreListed, KeptRowsAreParts};

/// A pushed join of kept rows comes to the bags of the join, and tells the same.
pub fn kept_rows_are_enough()
    ensures { KeptRowsAreEnough }
{}

/// So does a join of one item.
pub fn kept_rows_are_listed()
    ensures { KeptRowsAreListed }
{}

/// So does a join of one item at each worker.
pub fn kept_spreads_are_listed()
    ensures { KeptSpreadsAreListed }
{}

/// A local join may be given the kept rows of a pushed join.
pub fn kept_rows_are_parts()
    ensures { KeptRowsAreParts }
{}
