//! The law of merged partial rows.
ghost use Rattle.aggregate_ops.specs.Laws.{MergedFitAsGroups};

/// Law: merging the partial rows of some lists refuses exactly where grouping the lists put
/// together does.
pub fn merged_fit_as_groups()
    ensures { MergedFitAsGroups }
{}
