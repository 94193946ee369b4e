//! The laws.
ghost use Rattle.algebra.specs.Needed.{NeededByRule, NeededIsNeeded};
ghost use Rattle.algebra.specs.ShapeLaws.{ShapeListsTheSame, ShapeKeepsTheSame, ShapeFaultsTheSame};

/// Law: the shape of a comprehension has its candidates and listed rows.
pub fn shape_lists_the_same()
    ensures { ShapeListsTheSame }
{}

/// Law: the shape of a comprehension has its kept rows and prefixes.
pub fn shape_keeps_the_same()
    ensures { ShapeKeepsTheSame }
{}

/// Law: the shape of a comprehension has its fault.
pub fn shape_faults_the_same()
    ensures { ShapeFaultsTheSame }
{}

/// Law: the steps that are computed as needed are those that the rule says.
pub fn needed_by_rule()
    ensures { NeededByRule }
{}

/// Law: what is needed needs all of itself.
pub fn needed_is_needed()
    ensures { NeededIsNeeded }
{}
