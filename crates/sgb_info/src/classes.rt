//! Classes of numbers, joined one pair at a time.
ghost use Rattle.std.specs.Prelude.{◌≡◌, ◌≤◌, ◌<◌, length, slice_index, IfOk, IfErr};
ghost use Rattle.std.specs.List.{range_with_len};
ghost use Rattle.sgb_info.specs.Private.Classes.{IsClasses, least_of_each, united};
ghost use Rattle.sgb_info.specs.Private.Forest.{IsForest, root_of, roots};

use sgb_graph::Refusal;
use std::alloc::Global;
use std::marker::Model;

// Disjoint classes of the numbers below some bound. Contracts see for each number the least of its class. In memory each
// number has a parent in its class: the least one itself, and every other a smaller number.
#[derive(Drop)]
pub(crate) struct Classes {
    parents: Vec<u32>,
}

impl Model for Classes {
    ghost use Rattle.std.specs.Prelude.{ℕ, List};

    ghost Value = { List ℕ };

    ghost use Rattle.sgb_info.specs.Private.Forest.{IsForest, roots};

    ghost view = { λ c. roots c.parents.items };

    ghost invariant = { λ c. IsForest c.parents.items };
}

impl Classes {
    // So many classes of one number each. Allocates a word for each of them.
    pub(crate) fn new(alloc: Global, count: u32) -> Result<Classes, Refusal>
        ensures ok { IfOk result (λ classes. classes ≡ range_with_len 0 count) }
        ensures err { IfErr result (λ e. (e ≡ Refusal.NoRoom) × (0 < count)) }
    {
        let mut parents = Vec::with_capacity(alloc, count as usize)?;
        for v in 0..count {
            parents.push(v)?;
        }
        Ok(Classes { parents })
    }

    // The least number of the class.
    pub(crate) fn root(&mut self, number: u32) -> u32
        requires { number < length self.old }
        ensures value { result ≡ slice_index self.old number }
        ensures same { self.new ≡ self.old }
    {
        climb(&mut self.parents, number)
    }

    // Makes the classes of two numbers one.
    pub(crate) fn join(&mut self, a: u32, b: u32)
        requires a { a < length self.old }
        requires b { b < length self.old }
        ensures { self.new ≡ united a b self.old }
    {
        let a = self.root(a);
        let b = self.root(b);
        self.parents[a.max(b) as usize] = a.min(b);
    }

    // How many classes there are.
    pub(crate) fn count(&self) -> usize
        ensures value { result ≡ length (least_of_each self.now) }
        ensures limit { result ≤ length self.now }
        ensures classes { IsClasses self.now }
    {
        let mut count = 0;
        for (v, parent) in self.parents.iter().enumerate() {
            if *parent as usize == v {
                count += 1;
            }
        }
        count
    }
}

// The root above a number. Each number that is met on the way gets the parent of its parent, which shortens later ways.
fn climb(parents: &mut [u32], mut number: u32) -> u32
    requires forest { IsForest parents.old }
    requires within { number < length parents.old }
    ensures value { result ≡ root_of parents.old number }
    ensures same { roots parents.new ≡ roots parents.old }
    ensures forest { IsForest parents.new }
{
    while parents[number as usize] != number {
        let next = parents[parents[number as usize] as usize];
        parents[number as usize] = next;
        number = next;
    }
    number
}
