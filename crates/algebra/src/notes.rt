//! Notes of plans and of traffic, which other crates make into text.
use crate::JoinKind;
use rel_base::Items;

/// The kind of a statement that assigns.
#[derive(Clone, Copy, Debug, PartialEq, Eq)]
pub enum PlanKind {
    /// An operand alone.
    Copy,
    /// A relation without rows.
    Empty,
    /// `distinct`.
    Distinct,
    /// `unionall`.
    UnionAll,
    /// `diff`.
    Diff,
    /// A comprehension.
    From,
}

/// Columns of a variable: items, counted from 1, and places in them, from 0.
pub type ItemPlaces = Items<(u32, u32)>;

/// A line of a plan.
#[derive(Debug, Drop)]
pub enum PlanNote {
    /// A needed statement that assigns: its number, its kind and the rows of its result.
    Statement {
        number: u32,
        kind: PlanKind,
        rows: u64,
    },
    /// An item: its number from 1, the rows of its operand, the conditions on it alone, and the
    /// rows that these keep.
    Item {
        number: u32,
        rows: u64,
        pushed: u32,
        kept: u64,
    },
    /// The rows of each item that are joined, where those that are in no answer are gone.
    Reduced(Counts),
    /// No row is gone before the join: its shape is cyclic, as that of a ring of items is.
    ReduceCyclic,
    /// A join variable: its number from 1, its columns, and where cells are used the parts that it
    /// is spread over.
    Variable {
        number: u32,
        places: ItemPlaces,
        share: Option<u32>,
    },
    /// A join of all items at once, by cells: how a worker joins, the number of cells, and the
    /// load as a fraction.
    Hc {
        local: JoinKind,
        cells: u32,
        num: u128,
        den: u128,
    },
    /// A join of two items at a time, by keys.
    Rs {
        local: JoinKind,
    },
    /// A join at the rows of the item of this number, which stay where they are.
    Br {
        local: JoinKind,
        stays: u32,
    },
    /// A grouping: the columns without an aggregate, and those with one.
    Group {
        keys: u32,
        aggregates: u32,
    },
}

/// The lines of a plan, in order.
pub type PlanNotes = Items<PlanNote>;

/// The kind of an exchange.
#[derive(Clone, Copy, Debug, PartialEq, Eq)]
pub enum Exchange {
    /// A join of all items at once, by cells.
    Hc,
    /// The step of this number, from 2, of a join of two items at a time.
    Rs(u32),
    /// A join at the rows of the item that stays.
    Br,
    /// A grouping.
    Group,
    /// `distinct`.
    Distinct,
    /// `diff`.
    Diff,
}

/// Numbers of rows, one for each worker.
pub type Counts = Items<u64>;

/// The traffic of an exchange.
#[derive(Debug, Drop)]
pub struct Traffic {
    /// The number of the statement.
    pub statement: u32,
    /// What the exchange was for.
    pub exchange: Exchange,
    /// The rows that each worker received, those that it had itself included.
    pub received: Counts,
    /// The rows that each worker then listed.
    pub listed: Counts,
}

/// The traffic of exchanges, in the order in which they were done.
pub type TrafficNotes = Items<Traffic>;
