//! The laws.
ghost use Rattle.bag_laws.specs.OrderLaws.{JoinsIgnoreOrder, OperatorsIgnoreOrder, GroupsIgnoreOrder};
ghost use Rattle.bag_laws.specs.PartialLaws.{MergedAreGroups, PartialsKeepTheKey, GroupsMeetByKey, SumsAreSplit, PartialsFit};

/// Law: the order of the items' rows changes no candidate and no listed row, as bags.
pub fn joins_ignore_order()
    ensures { JoinsIgnoreOrder }
{}

/// Law: the order of rows changes no result of `unionall`, `distinct` and `diff`, as bags.
pub fn operators_ignore_order()
    ensures { OperatorsIgnoreOrder }
{}

/// Law: the order of rows changes no group, as bags.
pub fn groups_ignore_order()
    ensures { GroupsIgnoreOrder }
{}

/// Law: the partial rows of each of some lists, merged, are the groups of the lists put together.
pub fn merged_are_groups()
    ensures { MergedAreGroups }
{}

/// Law: the key columns of partial rows hold the keys of the groups.
pub fn partials_keep_the_key()
    ensures { PartialsKeepTheKey }
{}

/// Law: the partial rows with some of the keys, merged, are the groups with these keys.
pub fn groups_meet_by_key()
    ensures { GroupsMeetByKey }
{}

/// Law: the two columns of a sum make the number.
pub fn sums_are_split()
    ensures { SumsAreSplit }
{}

/// Law: the numbers of partial rows lie in 64 bits.
pub fn partials_fit()
    ensures { PartialsFit }
{}
