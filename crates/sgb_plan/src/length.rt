//! Ranges of lengths, and lengths that are drawn from them.
ghost use Rattle.std.specs.Prelude.{◌≡◌, ◌≤◌, ◌≤ℤ◌, ◌<◌, ◌^◌, IfOk, IfErr, OnOk, None, Some};
ghost use Rattle.sgb_flip.specs.Generator.{IsGenerator, after};
ghost use Rattle.sgb_plan.specs.Length.{refusal_of_range, drawn_length, width};

use sgb_flip::Flip;
use sgb_graph::Refusal;

/// The lengths from `min` to `max`, whose ends are less than 2^31 apart.
#[derive(Clone, Copy, Debug, PartialEq, Eq)]
pub struct LengthRange {
    pub min: i64,
    pub max: i64,
    ghost ordered: { min ≤ℤ max },
    ghost narrow: { width min max < 2 ^ 31 },
}

/// A length from a range, and how many numbers were drawn for it: none where the range has one length alone.
#[derive(Clone, Copy, Debug, PartialEq, Eq)]
pub struct DrawnLength {
    pub len: i64,
    pub draws: u64,
}

impl LengthRange {
    /// The lengths from `min` to `max`. Refused `TooLarge` where `min` is above `max`, and then `LengthRange` where they
    /// are 2^31 or more apart.
    pub fn new(min: i64, max: i64) -> Result<LengthRange, Refusal>
        ensures min { IfOk result (λ range. range.min ≡ min) }
        ensures max { IfOk result (λ range. range.max ≡ max) }
        ensures ok { OnOk result (refusal_of_range min max ≡ None) }
        ensures err { IfErr result (λ e. refusal_of_range min max ≡ Some e) }
    {
        if min > max {
            return Err(Refusal::TooLarge);
        }
        if max.abs_diff(min) >= 0x8000_0000 {
            return Err(Refusal::LengthRange);
        }
        Ok(LengthRange { min, max })
    }

    /// Draws a length: `min` without a draw where the range has no other, and else a uniform one.
    #[inline]
    pub fn draw(&self, flip: &mut Flip) -> DrawnLength
        ensures len { result.len ≡ (drawn_length self.now.min self.now.max flip.old).len }
        ensures draws { result.draws ≡ (drawn_length self.now.min self.now.max flip.old).draws }
        ensures rest { flip.new ≡ (drawn_length self.now.min self.now.max flip.old).rest }
        ensures after { flip.new ≡ after flip.old result.draws }
        ensures generator { IsGenerator flip.new }
        ensures few { result.draws ≤ 1814 }
        ensures least { self.now.min ≤ℤ result.len }
        ensures most { result.len ≤ℤ self.now.max }
    {
        // It tells that the generator is one, also where nothing is drawn.
        let _ = flip.unread();
        if self.min == self.max {
            return DrawnLength {
                len: self.min,
                draws: 0,
            };
        }
        let drawn = flip.uniform(self.max.abs_diff(self.min) as u32 + 1);
        DrawnLength {
            len: self.min + drawn.value as i64,
            draws: drawn.draws as u64,
        }
    }
}
