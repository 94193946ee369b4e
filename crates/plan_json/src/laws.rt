//! The law of plans as text.
ghost use Rattle.plan_json.specs.Laws.{WrittenIsRead};

/// What is written of a plan is read as that plan, where its numbers are within the limits.
///
/// It does nothing: the law is its contract.
pub fn written_is_read()
    ensures { WrittenIsRead }
{}
