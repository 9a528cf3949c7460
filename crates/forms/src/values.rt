// What a form says. Its numbers are at most 10^18; whether they make sense is for the calls to say.
use interface::Kind;
use patterns::setting::{EdgeSetting, VertexSetting};

// The controller that a run is over.
#[derive(Clone, Copy)]
pub enum Policy {
    FirstCome,
    Turns,
}

// An open domain, and how many slots it has.
#[derive(Clone, Copy)]
pub struct Share {
    pub domain: u64,
    pub slots: u64,
}

#[derive(Drop)]
pub struct Lane {
    pub domain: u64,
    pub rest: u64,
    pub vertices: Vec<VertexSetting>,
    pub edges: Vec<EdgeSetting>,
}

#[derive(Clone, Copy)]
pub struct Submission {
    pub domain: u64,
    pub bank: u64,
    pub kind: Kind,
    pub row: u64,
}

#[derive(Drop)]
pub enum Form {
    Controller(Policy),
    Open(Share),
    Lane(Lane),
    First(u64),
    Begin,
    Submit(Submission),
    Ticks(u64),
}
