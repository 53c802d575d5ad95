// The layout of a clip image: its mark, its limits, its sizes and its fields.
#![tactic(auto)]

pub mod fields;
pub mod limits;
pub mod sizes;

// The mark: closing writes it, opening compares it.
pub const MARK: [u8; 4] = *b"DSPC";

// The bytes of the head, and of an entry of the contents after it.
pub const HEAD_BYTES: usize = 56;

pub const ENTRY_BYTES: usize = 16;

// The least and the most bytes of a block.
pub const LEAST_BLOCK: u32 = 8;

pub const MOST_BLOCK: u32 = 65_536;

// A loop: the sample that it starts at, and the one after its last; or none.
// Stays: a flag beside two numbers and no Option, since C has this struct (doilycairn_loop).
#[repr(C)]
#[derive(Clone, Copy, Default, PartialEq, Eq)]
pub struct Loop {
    pub start: u32,
    pub end: u32,
    pub present: bool,
}

// What fixes the sizes and places of a clip: N, B, and how many entries follow those of its K blocks.
// Stays: its limits are asked by Limits and no invariant, since the definition `shape`, on which the theorems stand, makes one of any numbers.
#[derive(Clone, Copy, Default, PartialEq, Eq)]
pub struct Shape {
    pub total: usize,
    pub block: usize,
    pub extra: usize,
}
