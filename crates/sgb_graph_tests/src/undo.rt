//! The journal and groups, over a register.

mod calls;
mod groups;
mod register;
mod tests;
