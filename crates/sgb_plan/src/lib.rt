//! What generated graphs and combinations share: plans of graphs, drawn lengths, names and ids.
#![tactic(auto)]

mod append;
mod id;
mod length;
mod listing;
mod name;
mod part;
mod text;

pub use id::{id_of, id_of_one, id_of_two};
pub use length::{DrawnLength, LengthRange};
pub use listing::{list_of, shown_at};
pub use name::{append_dotted, dotted};
pub use part::{Part, Seed};
pub use text::{label_of, text_of};
