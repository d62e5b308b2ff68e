//! What `vgdraw` reads, draws and prints: the graph of a script as a picture in the DOT language of Graphviz.
//!
//! In which order to read: `top`, `words`, `reading`, `drawings`, `refusals`, `printing`; `explaining` by itself.
#![tactic(auto)]

mod drawings;
mod explaining;
mod printing;
mod reading;
mod refusals;
mod top;
mod words;

pub use explaining::explain_drawing;
pub use top::draw_run;
