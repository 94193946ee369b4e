//! The limits of the engine as constants.
ghost use Rattle.std.specs.Prelude.{◌≡◌, ◌-◌, ◌^◌};
ghost use Rattle.rel_base.specs.declared.rows.TheConstants.Rows.{MOST};
ghost use Rattle.rel_base.specs.Limits.{most_rows, most_columns, most_items, most_variables, most_script_bytes, most_relation_bytes, most_pieces, most_tokens, most_nesting, most_workers, most_capacity, most_batch, taps};

/// The most rows of a relation, and the most candidates of a comprehension.
pub const MOST_ROWS: u32 = 4_194_304;

/// The most columns of a relation.
pub const MOST_COLUMNS: u32 = 16;

/// The most items of a comprehension.
pub const MOST_ITEMS: u32 = 8;

/// The most join variables of a comprehension.
pub const MOST_VARIABLES: u32 = 8;

/// The most bytes of a script.
pub const MOST_SCRIPT_BYTES: usize = 65_536;

/// The most bytes of a relation's file.
pub const MOST_RELATION_BYTES: usize = 67_108_864;

/// The most pieces of a script, cut at its semicolons.
pub const MOST_PIECES: u32 = 256;

/// The most tokens of a piece.
pub const MOST_TOKENS: usize = 1024;

/// The most parentheses that are open at one place.
pub const MOST_NESTING: usize = 64;

/// The most workers.
pub const MOST_WORKERS: u32 = 64;

/// The most messages that wait in a channel.
pub const MOST_CAPACITY: u32 = 1024;

/// The most rows of a message.
pub const MOST_BATCH: u32 = 4096;

/// The taps of a run: one for what each worker sends, and one for what it receives and lists.
pub const TAPS: usize = 128;

/// Law: each constant is the limit that the definitions name, and a list of rows holds as many as 32 bits count.
pub fn limits_are_as_defined()
    ensures rows { MOST_ROWS ≡ most_rows }
    ensures columns { MOST_COLUMNS ≡ most_columns }
    ensures items { MOST_ITEMS ≡ most_items }
    ensures variables { MOST_VARIABLES ≡ most_variables }
    ensures script_bytes { MOST_SCRIPT_BYTES ≡ most_script_bytes }
    ensures relation_bytes { MOST_RELATION_BYTES ≡ most_relation_bytes }
    ensures pieces { MOST_PIECES ≡ most_pieces }
    ensures tokens { MOST_TOKENS ≡ most_tokens }
    ensures nesting { MOST_NESTING ≡ most_nesting }
    ensures workers { MOST_WORKERS ≡ most_workers }
    ensures capacity { MOST_CAPACITY ≡ most_capacity }
    ensures batch { MOST_BATCH ≡ most_batch }
    ensures taps { TAPS ≡ taps }
    ensures listed { MOST ≡ 2 ^ 32 - 1 }
{}
