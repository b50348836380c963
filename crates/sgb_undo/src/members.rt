//! The lists of a group's deltas and replies.

ghost use Rattle.std.specs.Prelude.{◌≡◌, ◌==◌, ◌<◌, length, slice_get, Some};

use std::marker::Model;

/// The deltas or the replies of a group's members, in order.
///
/// Contracts see the list alone, so that deltas and replies that hold one are compared by their contents.
#[derive(Debug, Drop)]
pub struct Members<T> {
    items: Vec<T>,
}

impl<T> Model for Members<T> {
    ghost use Rattle.std.specs.Prelude.{List};

    ghost Value = { List T };

    ghost view = { λ m. m.items.items };
}

impl<T> Members<T> {
    /// The list of these items. Does not allocate.
    pub fn from_vec(items: Vec<T>) -> Self
        ensures value { result ≡ items.items }
    {
        Members { items }
    }

    /// The items, as the list held them. Does not allocate.
    pub fn into_vec(self) -> Vec<T>
        ensures value { result.items ≡ self }
    {
        let Members { items } = self;
        items
    }

    /// The number of items.
    pub fn len(&self) -> usize
        ensures value { result ≡ length self.now }
    {
        self.items.len()
    }

    /// Whether there are no items.
    pub fn is_empty(&self) -> bool
        ensures value { result ≡ (length self.now == 0) }
    {
        self.items.is_empty()
    }

    /// The item at a place, the first at 0.
    pub fn get(&self, place: usize) -> &T
        requires within { place < length self.now }
        ensures value { slice_get self.now place ≡ Some result.now }
    {
        &self.items[place]
    }

    /// All items.
    pub fn as_slice(&self) -> &[T]
        ensures value { result.now ≡ self.now }
    {
        self.items.as_slice()
    }
}

impl<T: PartialEq> PartialEq for Members<T> {
    ghost use Rattle.std.proofs.Common.{rules};
    ghost use Rattle.std.specs.Cmp.Lexicographic.{pointwise};
    ghost use Rattle.std.specs.Cmp.Rules.{comparing};

    ghost eq = { pointwise T.eq };

    ghost laws = { Prim.search (comparing, rules) };

    fn eq(&self, other: &Members<T>) -> bool {
        self.as_slice() == other.as_slice()
    }
}

impl<T: Eq> Eq for Members<T> {
    ghost use Rattle.std.proofs.Common.{rules};
    ghost use Rattle.std.specs.Cmp.Rules.{comparing};

    ghost laws = { Prim.search (comparing, rules) };
}
