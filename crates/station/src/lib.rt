//! Stations, the common part of routers and nodes. They receive frames on their ports, and send
//! datagrams and AARP packets.
#![tactic(auto)]

pub mod frames;
mod heard;
mod laws;
pub mod making;
mod member;
mod output;
mod outputs;
mod port_plan;
mod station;
mod way;
pub mod ways;

pub use heard::{Heard, Kind, Link};
pub use laws::slices_have_bytes;
pub use member::Member;
pub use output::{DropCause, Next, Output};
pub use outputs::Outputs;
pub use port_plan::PortPlan;
pub use station::Station;
pub use way::Way;
