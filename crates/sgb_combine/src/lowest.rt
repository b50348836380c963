//! Spokes to distinct vertices, each with the least length that was met.
ghost use Rattle.std.specs.Prelude.{◌≡◌};
ghost use Rattle.sgb_combine.specs.Lowest.{lowered};
ghost use Rattle.sgb_combine.specs.Private.Targets.{IsMarked};

use sgb_graph::Spoke;
use std::alloc::{AllocError, Global};

// The spokes that were met, and where the one to a vertex stands among them. A place is of no meaning where no spoke
// to the vertex stands there, so that nothing is cleared between one vertex and the next.
#[derive(Drop)]
pub(crate) struct Lowest {
    spokes: Vec<Spoke>,
    places: Vec<usize>,
    ghost marked: { IsMarked places.items spokes.items },
}

impl Lowest {
    ghost use Rattle.std.specs.Prelude.{◌≡◌, ◌<◌, ◌∷◌, ◌++◌, [], length, All, OnOk, IfOk};
    ghost use Rattle.sgb_graph.specs.Operand.{IsWithin};
    ghost use Rattle.sgb_combine.specs.Lowest.{lowest, add_or_lower};
    ghost use Rattle.sgb_combine.specs.Private.Targets.{StandsAt, found};
    ghost use Rattle.sgb_combine.specs.Complement.{leads_to};
    ghost use Rattle.sgb_combine.specs.Intersection.{leading_to};

    // No spokes to n vertices.
    pub(crate) fn new(alloc: Global, n: u32) -> Result<Lowest, AllocError>
        ensures none { IfOk result (λ l. l.spokes.items ≡ []) }
        ensures width { IfOk result (λ l. length l.places.items ≡ n) }
    {
        Ok(Lowest {
            spokes: Vec::new(alloc),
            places: vec![in alloc; 0usize; n as usize]?,
        })
    }

    // The spokes.
    #[inline]
    pub(crate) fn spokes(&self) -> &[Spoke]
        ensures { result.now ≡ self.now.spokes.items }
    {
        &self.spokes
    }

    // Forgets all that was met, and takes these spokes.
    pub(crate) fn keep(&mut self, spokes: &[Spoke]) -> Result<(), AllocError>
        requires { All (IsWithin (length self.old.places.items)) spokes.now }
        ensures ok { OnOk result (self.new.spokes.items ≡ lowest spokes.now) }
        ensures width { length self.new.places.items ≡ length self.old.places.items }
    {
        self.spokes.clear();
        for spoke in spokes {
            self.add(*spoke)?;
        }
        Ok(())
    }

    // The place of the spoke to this vertex.
    #[inline]
    pub(crate) fn place_of(&self, to: u32) -> Option<usize>
        ensures { StandsAt self.now.spokes.items to result }
    {
        let place = *self.places.get(to as usize)?;
        let spoke = self.spokes.get(place)?;
        if spoke.to == to { Some(place) } else { None }
    }

    // Whether a spoke leads to this vertex.
    #[inline]
    pub(crate) fn leads_to(&self, to: u32) -> bool
        ensures { result ≡ leads_to self.now.spokes.items to }
    {
        self.place_of(to).is_some()
    }

    // The spoke to this vertex.
    #[inline]
    pub(crate) fn find(&self, to: u32) -> Option<Spoke>
        ensures { leading_to to self.now.spokes.items ≡ found result }
    {
        match self.place_of(to) {
            Some(place) => Some(self.spokes[place]),
            None => None,
        }
    }

    // A spoke more, or a shorter length of the one to the same vertex.
    #[inline]
    fn add(&mut self, spoke: Spoke) -> Result<(), AllocError>
        requires { spoke.to < length self.old.places.items }
        ensures ok { OnOk result (self.new.spokes.items ≡ add_or_lower self.old.spokes.items spoke) }
        ensures width { length self.new.places.items ≡ length self.old.places.items }
    {
        match self.place_of(spoke.to) {
            Some(place) => {
                self.spokes[place] = lowered(self.spokes[place], spoke);
                Ok(())
            }
            None => self.add_new(spoke),
        }
    }

    // A spoke to a vertex to which none led.
    fn add_new(&mut self, spoke: Spoke) -> Result<(), AllocError>
        requires to { spoke.to < length self.old.places.items }
        requires other { StandsAt self.old.spokes.items spoke.to None }
        ensures ok { OnOk result (self.new.spokes.items ≡ self.old.spokes.items ++ spoke ∷ []) }
        ensures width { length self.new.places.items ≡ length self.old.places.items }
    {
        let place = self.spokes.len();
        self.spokes.push(spoke)?;
        self.places[spoke.to as usize] = place;
        Ok(())
    }
}

// The spoke, with the other's length where that is less.
#[inline]
fn lowered(spoke: Spoke, other: Spoke) -> Spoke
    ensures { result ≡ lowered spoke other }
{
    Spoke {
        to: spoke.to,
        len: spoke.len.min(other.len),
    }
}
