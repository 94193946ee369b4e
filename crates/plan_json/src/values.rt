//! What a JSON value is, where it is what a plan has in its place.
ghost use Rattle.std.specs.Prelude.{◌≡◌, map, option_map};
ghost use Rattle.serde_json.specs.View.{view};
ghost use Rattle.plan_json.specs.PlanTexts.{has_members, items_within, number_in};

use serde_json::Value;

/// The whole number that a value is, where it is one within these limits.
pub(crate) fn number_in(least: u32, most: u32, value: &Value) -> Option<u32>
    ensures { result ≡ number_in least most (view value.now) }
{
    let number = value.as_u64()?;
    if number < u64::from(least) || u64::from(most) < number {
        return None;
    }
    Some(number as u32)
}

/// Whether a value is an object of exactly so many members.
pub(crate) fn has_members(count: usize, value: &Value) -> bool
    ensures { result ≡ has_members count (view value.now) }
{
    match value.as_object() {
        Some(members) => members.len() == count,
        None => false,
    }
}

/// The items of an array, where a value is one of at most so many.
pub(crate) fn items_within(most: usize, value: &Value) -> Option<&[Value]>
    ensures { option_map (λ items. map view items.now) result
        ≡ items_within most (view value.now) }
{
    let items = value.as_array()?.as_slice();
    if items.len() > most {
        return None;
    }
    Some(items)
}
