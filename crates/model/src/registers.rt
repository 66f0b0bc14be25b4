// What the heap keeps beside its cells.
use values::Value;

// Where the collector is. Each phase has its own cursors: none outlives its phase.
#[derive(Clone, Copy)]
pub enum Phase {
    Rest,
    // The next root and the next slot to offer, and whether cells move in this cycle.
    Mark {
        root: usize,
        slot: usize,
        moving: bool,
    },
    // The lowest place that may take a cell, and the place after the last that may give one.
    Relocate {
        low: u32,
        high: u32,
    },
    // The next root, place and slot whose values are brought up to date.
    Update {
        root: usize,
        place: u32,
        slot: usize,
    },
    // The next place to sweep.
    Reclaim {
        sweep: u32,
    },
}

// The ends of the free list, which runs through the first components: the cells are the caller's memory, and a list of their places elsewhere would
// be memory that the heap may not ask for.
#[derive(Clone, Copy)]
pub struct FreeList {
    pub first: u32,
    pub last: u32,
}

// The height of the list stack, apart from the other registers so that it can be lent alone.
#[derive(Clone, Copy)]
pub struct Top {
    pub height: usize,
}

// The roots, the memory of both stacks, the free list and the phase. Arrays with a height beside them, as a rule of the project has it: a heap
// allocates nothing.
#[derive(Drop)]
pub struct Registers {
    pub phase: Phase,
    pub roots: [Value; 16],
    pub list: [Value; 256],
    pub pending: [u16; 4096],
    pub pending_height: usize,
    pub free: Option<FreeList>,
}
