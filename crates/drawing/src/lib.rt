//! The drawing of an internet in Graphviz' language, with the verdict of its audit.
#![tactic(auto)]

mod hands;
mod head;
mod labels;
mod marks;
mod printing;
mod routes;
mod shapes;

pub use printing::print_drawing;
