// The bounds of docs/RULES.md as constants; all else of this crate is definitions (specs/) and laws (proofs/).
#![tactic(auto)]

// The most nodes that a cap may state, and that a query or a printer takes.
pub const MOST_NODES: u64 = 65536;

// The greatest height of a term.
pub const MOST_HEIGHT: u64 = 512;

// The most parentheses and binders open at once in a text.
pub const MOST_OPEN: usize = 512;

// The most bytes of a text.
pub const MOST_TEXT: usize = 2097152;

// The greatest limit of a reduction.
pub const MOST_STEPS: u64 = 1000000;

// The greatest 64-bit number, and so the greatest index.
pub const GREATEST_NUMBER: u64 = 18446744073709551615;

// The bytes of coded output, and the numbers of work room, that each node of a cap asks for.
pub const OUTPUT_PER_NODE: usize = 9;

pub const ROOM_PER_NODE: usize = 8;
