// The forms of a text, one a line, or the fault of a line.
#![tactic(auto)]

mod faults;
mod grammar;
mod lanes;
mod lines;
mod parts;
mod reader;
mod signs;
mod values;

pub use faults::{Fault, FaultKind, Layer, UnknownNumber};
pub use patterns::setting::{EdgeSetting, VertexSetting};
pub use reader::{ReadError, Reader};
pub use values::{Form, Lane, Policy, Share, Submission};
