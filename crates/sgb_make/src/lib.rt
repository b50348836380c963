//! Standard and random graphs: the graphs that stated insertions build. Boards stand here; the others are handed on.
#![tactic(auto)]

mod boards;
mod law;
mod link;
mod position;
mod ride;
mod side;
mod sizes;
mod spec;
mod vector;

pub use boards::board;
pub use law::ride_law;
pub use sgb_binary::{BinarySpec, binary, binary_law, rotation_law};
pub use sgb_perms::{PermsSpec, perms, perms_law};
pub use sgb_plan::Seed;
pub use sgb_random::{RandomSpec, random, random_graph, random_law};
pub use sgb_simplex::{SimplexSpec, SubsetsSpec, simplex, subsets};
pub use spec::BoardSpec;
