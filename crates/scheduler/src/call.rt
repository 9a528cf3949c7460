// The calls of a run, and their answers.
use interface::Kind;
use patterns::setting::LaneSetting;

// One call to a scheduler.
#[derive(Clone, Copy)]
pub enum Call<'a> {
    // open: a domain and its share
    Open(u64, u64),
    // lane: a domain, and the lane's vertices, edges and rest
    Lane(u64, LaneSetting<'a>),
    // first: the first tick's number
    First(u64),
    Begin,
    // submit: domain, bank, kind and row
    Submit(u64, u64, Kind, u64),
    Tick,
}

// What an accepted call answers.
#[derive(Clone, Copy, PartialEq, Eq, Debug)]
pub enum Answer {
    // a setting or begin
    Accepted,
    // a submit: the serial
    Taken(u64),
    // a tick: how many lines and how many notices it wrote
    Ticked(usize, usize),
}
