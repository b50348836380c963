//! The programs beside the script, over readers and writers that give little, stop early or fail.

mod checks;
mod exports;
mod files;
mod made;
mod moves;
mod texts;
