// What is set, and what is submitted when.
use interface::Kind;
use patterns::setting::{EdgeSetting, LaneSetting, VertexSetting};
use scheduler::call::Call;

// The first tick's number.
pub const FIRST: u64 = 1000;

// How many ticks pass.
pub const TICKS: u64 = 240;

// Domain 0: a read, and a write 10 ticks after it is done.
const COPY: [VertexSetting; 2] = [
    VertexSetting {
        bank: 0,
        kind: Kind::Read,
    },
    VertexSetting {
        bank: 1,
        kind: Kind::Write,
    },
];

const COPY_EDGES: [EdgeSetting; 1] = [EdgeSetting {
    source: 0,
    target: 1,
    weight: 10,
}];

// Domain 0 too: a read by itself.
const LOOK: [VertexSetting; 1] = [VertexSetting {
    bank: 2,
    kind: Kind::Read,
}];

// Domain 1: two reads, and a write that waits for both.
const JOIN: [VertexSetting; 3] = [
    VertexSetting {
        bank: 3,
        kind: Kind::Read,
    },
    VertexSetting {
        bank: 4,
        kind: Kind::Read,
    },
    VertexSetting {
        bank: 5,
        kind: Kind::Write,
    },
];

const JOIN_EDGES: [EdgeSetting; 2] = [
    EdgeSetting {
        source: 0,
        target: 2,
        weight: 12,
    },
    EdgeSetting {
        source: 1,
        target: 2,
        weight: 5,
    },
];

// The setting calls but begin. Domains 2 and 3 are open.
pub const SETTINGS: [Call<'static>; 6] = [
    Call::Lane(
        0,
        LaneSetting {
            vertices: &COPY,
            edges: &COPY_EDGES,
            rest: 20,
        },
    ),
    Call::Lane(
        0,
        LaneSetting {
            vertices: &LOOK,
            edges: &[],
            rest: 50,
        },
    ),
    Call::Lane(
        1,
        LaneSetting {
            vertices: &JOIN,
            edges: &JOIN_EDGES,
            rest: 0,
        },
    ),
    Call::Open(2, 2),
    Call::Open(3, 1),
    Call::First(FIRST),
];

// A submit that comes right before a tick.
#[derive(Clone, Copy)]
pub struct Submit {
    pub tick: u64,
    pub domain: u64,
    pub bank: u64,
    pub kind: Kind,
    pub row: u64,
}

// In the order in which they are made.
pub const SUBMITS: [Submit; 18] = [
    // Before begin: refused with 1.
    Submit {
        tick: 999,
        domain: 0,
        bank: 0,
        kind: Kind::Read,
        row: 9,
    },
    Submit {
        tick: 1000,
        domain: 0,
        bank: 0,
        kind: Kind::Read,
        row: 9,
    },
    Submit {
        tick: 1000,
        domain: 0,
        bank: 1,
        kind: Kind::Write,
        row: 10,
    },
    Submit {
        tick: 1000,
        domain: 1,
        bank: 3,
        kind: Kind::Read,
        row: 21,
    },
    Submit {
        tick: 1003,
        domain: 2,
        bank: 6,
        kind: Kind::Read,
        row: 40,
    },
    Submit {
        tick: 1003,
        domain: 2,
        bank: 6,
        kind: Kind::Write,
        row: 41,
    },
    // Slot 128 is held: refused with 14.
    Submit {
        tick: 1004,
        domain: 2,
        bank: 7,
        kind: Kind::Read,
        row: 42,
    },
    Submit {
        tick: 1010,
        domain: 3,
        bank: 7,
        kind: Kind::Write,
        row: 50,
    },
    // Slot 192 is held: refused with 14.
    Submit {
        tick: 1011,
        domain: 3,
        bank: 7,
        kind: Kind::Read,
        row: 51,
    },
    // No vertex of domain 0 writes to bank 0: refused with 12.
    Submit {
        tick: 1020,
        domain: 0,
        bank: 0,
        kind: Kind::Write,
        row: 11,
    },
    Submit {
        tick: 1040,
        domain: 1,
        bank: 5,
        kind: Kind::Write,
        row: 22,
    },
    Submit {
        tick: 1040,
        domain: 1,
        bank: 4,
        kind: Kind::Read,
        row: 23,
    },
    Submit {
        tick: 1060,
        domain: 0,
        bank: 2,
        kind: Kind::Read,
        row: 12,
    },
    Submit {
        tick: 1060,
        domain: 0,
        bank: 2,
        kind: Kind::Read,
        row: 13,
    },
    Submit {
        tick: 1100,
        domain: 2,
        bank: 0,
        kind: Kind::Read,
        row: 42,
    },
    Submit {
        tick: 1100,
        domain: 3,
        bank: 1,
        kind: Kind::Read,
        row: 51,
    },
    Submit {
        tick: 1140,
        domain: 2,
        bank: 3,
        kind: Kind::Write,
        row: 43,
    },
    Submit {
        tick: 1140,
        domain: 1,
        bank: 3,
        kind: Kind::Read,
        row: 24,
    },
];
