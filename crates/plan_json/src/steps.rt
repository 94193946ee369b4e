//! The choice that a step of a plan is.
ghost use Rattle.std.specs.Prelude.{◌≡◌, ◌≤◌, if◌then◌else◌, map, length, codes, Some, None, option_map};
ghost use Rattle.rel_base.specs.Limits.{most_variables, most_workers};
ghost use Rattle.serde_json.specs.View.{view};
ghost use Rattle.share_chooser.specs.Shares.{shares_of};
ghost use Rattle.fragmenter.specs.Plans.{choice_tree_of, shuffle_of};
ghost use Rattle.plan_json.specs.PlanTexts.{choice_in, each_of, has_members, number_in, shares_in};
ghost use Rattle.plan_json.specs.PlanTexts.{shuffle_by, shuffle_in};
ghost use Rattle.plan_json.specs.PlanTexts.{statement_in};

use crate::values::{has_members, items_within, number_in};
use fragmenter::{Choice, How};
use rel_base::{MOST_PIECES, MOST_VARIABLES, MOST_WORKERS};
use serde_json::Value;
use share_chooser::Shares;

/// The choice that a step is, where it is one.
pub(crate) fn choice_in(step: &Value) -> Option<Choice>
    ensures { option_map choice_tree_of result ≡ choice_in (view step.now) }
{
    let statement = statement_in(step)?;
    let how = how_in(step)?;
    Some(Choice { statement, how })
}

/// The number of a step's statement, where it has one within the limits.
fn statement_in(step: &Value) -> Option<u32>
    ensures { result ≡ statement_in (view step.now) }
{
    number_in(1, MOST_PIECES, step.get("statement")?)
}

/// How the rows of a step's join meet, where it has a word for it.
fn how_in(step: &Value) -> Option<How>
    ensures { option_map shuffle_of result ≡ shuffle_in (view step.now) }
{
    let word = step.get("shuffle")?.as_str()?;
    how_by(step, word)
}

/// How the rows of a step's join meet by this word, where the step's other members go with it.
fn how_by(step: &Value, word: &str) -> Option<How>
    ensures { option_map shuffle_of result ≡ shuffle_by (view step.now) word.now }
{
    if word == "hc" {
        how_at_cells(step)
    } else if word == "rs" {
        how_alone(How::Rs, step)
    } else if word == "br" {
        how_alone(How::Br, step)
    } else {
        None
    }
}

/// A join by cells, where a step has shares for it and no other member.
fn how_at_cells(step: &Value) -> Option<How>
    ensures { option_map shuffle_of result ≡ shuffle_by (view step.now) (codes "hc") }
{
    if !has_members(3, step) {
        return None;
    }
    let shares = shares_in(step)?;
    Some(How::Hc(shares))
}

/// A join without shares, where a step has no member for any.
fn how_alone(how: How, step: &Value) -> Option<How>
    ensures { result ≡ (if has_members 2 (view step.now) then Some how else None) }
{
    if !has_members(2, step) {
        return None;
    }
    Some(how)
}

/// The shares of a step, where they are within the limits.
fn shares_in(step: &Value) -> Option<Shares>
    ensures { option_map shares_of result ≡ shares_in (view step.now) }
{
    let shares = items_within(MOST_VARIABLES as usize, step.get("shares")?)?;
    shares_of(shares)
}

/// The shares that these values are, where each is one within the limits.
fn shares_of(values: &[Value]) -> Option<Shares>
    requires { length values.now ≤ most_variables }
    ensures { option_map shares_of result
        ≡ each_of (number_in 1 most_workers) (map view values.now) }
{
    let mut shares = Shares::empty();
    for value in values {
        shares = shares.with(number_in(1, MOST_WORKERS, value)?);
    }
    Some(shares)
}
