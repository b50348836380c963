//! The parts of ids.
use sgb_graph::Text;

/// Where random work starts from, as its id shows it.
#[derive(Clone, Copy, Debug, PartialEq, Eq)]
pub enum Seed {
    /// The generator of this seed.
    Number(i64),
    /// The generator as it stands, which is shown as `-`.
    Current,
}

/// A part of an id.
#[derive(Clone, Copy, Debug)]
pub enum Part<'a> {
    /// A number in decimal.
    Number(i64),
    /// A count in decimal.
    Count(u32),
    /// 1 for yes and 0 for no.
    Flag(bool),
    /// A number in hexadecimal, behind `0x` and without leading zeros.
    Bits(u64),
    /// A seed: its number, or `-`.
    Drawn(Seed),
    /// A text as it stands.
    Word(&'a Text),
}
