//! The laws of rows in any order.
ghost use Rattle.run_laws.specs.SameExchanges.{MovedAreOfSameExchanges, CountsAreOfSameExchanges};
ghost use Rattle.run_laws.specs.BagRuns.{TermsAreOfBags};

/// What is moved by exchanges is moved to the same bags by exchanges that tell the same.
pub fn moved_are_of_same_exchanges()
    ensures { MovedAreOfSameExchanges }
{}

/// Exchanges that tell the same send, receive and list as many rows at each worker.
pub fn counts_are_of_same_exchanges()
    ensures { CountsAreOfSameExchanges }
{}

/// A term over the same bags comes to the same bags, by exchanges that tell the same, with the same
/// fault and the same lines of a plan.
pub fn terms_are_of_bags()
    ensures { TermsAreOfBags }
{}
