//! Operands, combinations and random lengths.

mod graphs;
mod growths;
mod induced;
mod lengths;
mod operands;
mod unions;
