//! The programs other than the script: the queen's moves, checks and exports of saved texts and their facts,
//! imports, and graphs that one command makes.
#![tactic(auto)]

mod checking;
mod exporting;
mod file;
mod finished;
mod importing;
mod informing;
mod making;
mod moves;
mod operand;

pub use checking::{check, check_metered};
pub use exporting::{export_text, export_text_metered};
pub use file::{CHECK_LIMIT, INPUT_LIMIT, read_file};
pub use finished::Finished;
pub use importing::{import_text, import_text_metered};
pub use informing::{info_text, info_text_metered};
pub use making::{make, make_metered};
pub use moves::{queen, queen_metered};
pub use operand::Operands;
