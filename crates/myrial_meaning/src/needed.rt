//! Which statements of a script are needed.
ghost use Rattle.std.specs.Prelude.{◌≡◌, List, ◌∷◌, IfOk, unwrap_or};
ghost use Rattle.std.specs.List.{list_any};
ghost use Rattle.myrial_ast.specs.Trees.{StatementTree, rel_tree_of, statement_tree_of, trees_of};
ghost use Rattle.myrial_meaning.specs.Needed.{is_name, mentions, is_live, is_needed};
ghost use Rattle.myrial_meaning.specs.inner.NeededFlags.{needed_flags};

use myrial_ast::{FromItem, Operand, RelExpr, Stmt};
use rel_base::{Memory, Text};
use std::alloc::Global;

/// Whether an operand is this name.
fn is_name(name: &Text, operand: &Operand) -> bool
    ensures { result ≡ is_name name.now operand.now }
{
    match operand {
        Operand::Named(named) => *named == *name,
        Operand::Scan(_) => false,
        Operand::Load(_, _, _) => false,
    }
}

/// Whether some item goes over what this name stands for.
fn goes_over(name: &Text, items: &[FromItem]) -> bool
    ensures { result ≡ list_any (λ item. is_name name.now item.source) items.now }
{
    items.iter().any(|item| is_name(name, &item.source))
}

/// Whether the relation expression uses what this name stands for.
fn mentions(name: &Text, relation: &RelExpr) -> bool
    ensures { result ≡ mentions name.now (rel_tree_of relation.now) }
{
    match relation {
        RelExpr::Copy(operand) => is_name(name, operand),
        RelExpr::Empty(_) => false,
        RelExpr::Distinct(operand) => is_name(name, operand),
        RelExpr::UnionAll(left, right) => is_name(name, left) || is_name(name, right),
        RelExpr::Diff(left, right) => is_name(name, left) || is_name(name, right),
        RelExpr::From(items, _, _) => goes_over(name, items.as_slice()),
    }
}

/// Whether the name's value before the statement is used from it on, as far as the statement alone
/// tells; `None` where that hangs on those behind it.
fn liveness_from(name: &Text, statement: &Stmt, needed: bool) -> Option<bool>
    ensures { (rest : List StatementTree)
        → needed ≡ is_needed (statement_tree_of statement.now) rest
        → is_live name.now (statement_tree_of statement.now ∷ rest)
        ≡ unwrap_or result (is_live name.now rest) }
{
    match statement {
        Stmt::Nothing => None,
        Stmt::Store(stored, _) => (*stored == *name).then_some(true),
        Stmt::Assign(assigned, relation) => {
            if needed && mentions(name, relation) {
                return Some(true);
            }
            (*assigned == *name).then_some(false)
        }
    }
}

/// Whether a needed statement of the rest uses what this name stands for before it.
fn is_live(name: &Text, rest: &[Stmt], needed: &[bool]) -> bool
    requires { needed.now ≡ needed_flags (trees_of rest.now) }
    ensures { result ≡ is_live name.now (trees_of rest.now) }
{
    for i in 0..rest.len() {
        if let Some(live) = liveness_from(name, &rest[i], needed[i]) {
            return live;
        }
    }
    false
}

/// Whether the statement is needed where the rest follows it.
fn is_needed(statement: &Stmt, rest: &[Stmt], needed: &[bool]) -> bool
    requires { needed.now ≡ needed_flags (trees_of rest.now) }
    ensures { result ≡ is_needed (statement_tree_of statement.now) (trees_of rest.now) }
{
    match statement {
        Stmt::Nothing => false,
        Stmt::Store(_, _) => true,
        Stmt::Assign(name, _) => is_live(name, rest, needed),
    }
}

/// For each statement whether it is needed.
pub fn needed_flags(alloc: Global, script: &[Stmt]) -> Result<Vec<bool>, Memory>
    ensures { IfOk result (λ flags. flags.items ≡ needed_flags (trees_of script.now)) }
{
    let mut flags = vec![in alloc; false; script.len()]?;
    for i in (0..script.len()).rev() {
        flags[i] = is_needed(&script[i], &script[i + 1..], &flags[i + 1..]);
    }
    Ok(flags)
}
