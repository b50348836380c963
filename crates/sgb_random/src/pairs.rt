//! The pairs that are joined.
ghost use Rattle.std.specs.Prelude.{◌≡◌, ◌≤◌, ◌<◌, ◌+◌, ◌^◌, ℕ, set, length, get_or, not, IfOk, IfErr, IfSome, IfNone, if◌then◌else◌};
ghost use Rattle.sgb_random.specs.Private.Table.{
  HasRoom,
  IsFirstOf,
  IsFree,
  IsPassed,
  IsPlaceOf,
  IsTable,
  first_place,
  holds,
};

use sgb_graph::Refusal;
use std::alloc::Global;
use std::marker::Model;

// A number is multiplied by this, so that numbers that are close to each other are looked for far apart.
const FACTOR: u32 = 0x9e37_79b1;

// The numbers of the pairs, each at the first free place from the one where it is looked for first. A free place has 0,
// and a number stands there as the next one. A number that stands in the table stays where it is.
#[derive(Drop)]
pub(crate) struct Pairs {
    slots: Vec<u32>,
}

impl Model for Pairs {
    ghost use Rattle.std.specs.Prelude.{ℕ, List};

    ghost Value = { List ℕ };

    ghost use Rattle.sgb_random.specs.Private.Table.{IsTable};

    ghost view = { λ p. p.slots.items };

    ghost invariant = { λ p. IsTable p.slots.items };
}

impl Pairs {
    // Nothing but free places, so many of them.
    pub(crate) fn new(alloc: Global, places: u32) -> Result<Pairs, Refusal>
        ensures free { IfOk result (λ pairs. IsFree pairs) }
        ensures count { IfOk result (λ pairs. length pairs ≡ places) }
        ensures err { IfErr result (λ e. e ≡ Refusal.NoRoom) }
    {
        Ok(Pairs {
            slots: vec![in alloc; 0u32; places as usize]?,
        })
    }

    // Puts a number in where it is not in the table yet. Answers its place, and whether it is new there.
    pub(crate) fn insert(&mut self, key: u32) -> (usize, bool)
        requires key { key + 1 < 2 ^ 32 }
        requires room { HasRoom self.old }
        ensures is_new { result.1 ≡ not (holds key self.old) }
        ensures place { result.0 < length self.old }
        ensures here { get_or self.old result.0 0 ≡ (if result.1 then 0 else key + 1) }
        ensures put { self.new ≡ set self.old result.0 (key + 1) }
    {
        let place = place_of(&self.slots, key);
        let is_new = self.slots[place] == 0;
        self.slots[place] = key + 1;
        (place, is_new)
    }
}

// The place of a number, or the free one that it is to take.
fn place_of(slots: &[u32], key: u32) -> usize
    requires key { key + 1 < 2 ^ 32 }
    requires table { IsTable slots.now }
    requires room { HasRoom slots.now }
    ensures { IsPlaceOf slots.now key result }
{
    if let Some(place) = find(slots, first_place(slots.len(), key), key + 1) {
        return place;
    }
    match find(slots, 0, key + 1) {
        Some(place) => place,
        None => unreachable!(),
    }
}

// Where a number is looked for first.
fn first_place(places: usize, key: u32) -> usize
    requires { places ≤ 2 ^ 32 }
    ensures { result ≡ first_place key places }
{
    (key.wrapping_mul(FACTOR) as u64 * places as u64 >> 32) as usize
}

// The first place from this one on that is free or has this.
fn find(slots: &[u32], first: usize, slot: u32) -> Option<usize>
    ensures some { IfSome result (λ place. IsFirstOf slots.now slot first place) }
    ensures none { IfNone result (IsPassed slots.now slot first (length slots.now)) }
{
    for place in first..slots.len() {
        let held = slots[place];
        if held == 0 || held == slot {
            return Some(place);
        }
    }
    None
}
