//! Lists the trees with so many dots and at most a height.
ghost use Rattle.std.specs.Prelude.{◌≡◌, ◌⊎◌, ◌≤◌, ◌<◌, ◌+◌, ◌-◌, ◌*◌, ◌∷◌, [], length, IfOk, IfErr, OnOk};
ghost use Rattle.std.specs.List.{concat};
ghost use Rattle.sgb_binary.specs.Tree.{trees};
ghost use Rattle.sgb_binary.specs.Private.Listing.{rows, dotted_rows, room, rooms, budgets_of, letters_left, Lists, leaf_rows};

use sgb_graph::{MOST_VERTICES, Refusal};
use std::alloc::Global;

/// The words of trees, one behind another.
#[derive(Drop)]
pub(crate) struct Names {
    pub(crate) letters: Vec<u8>,
    pub(crate) count: u32,
}

// The letters of a word so far, how high each tree that is still to come may be, the next one last, and the words that
// are done, one behind another.
#[derive(Drop)]
struct Lister {
    word: Vec<u8>,
    budgets: Vec<u32>,
    names: Vec<u8>,
    count: u32,
}

/// The trees with `n` dots and at most this height, with room for so many names taken at once. Refused `TooLarge` where
/// they are more than 65,535.
pub(crate) fn list_trees(alloc: Global, n: u32, most: u32, expected: u32) -> Result<Names, Refusal>
    requires few { n ≤ 100 }
    requires expected { expected ≤ 65535 }
    ensures letters { IfOk result (λ names. names.letters.items ≡ concat (trees n most)) }
    ensures count { IfOk result (λ names. names.count ≡ length (trees n most)) }
    ensures few { IfOk result (λ names. names.count ≤ 65535) }
    ensures err { IfErr result
        (λ e. (e ≡ Refusal.NoRoom) ⊎ ((e ≡ Refusal.TooLarge) × (65535 < length (trees n most)))) }
{
    let letters = expected as usize * (2 * n as usize + 1);
    let mut lister = Lister {
        word: Vec::new(alloc),
        budgets: Vec::from_slice(alloc, &[most])?,
        names: Vec::with_capacity(alloc, letters)?,
        count: 0,
    };
    lister.list_all(n, most)?;
    Ok(Names {
        letters: lister.names,
        count: lister.count,
    })
}

impl Lister {
    // Lists the trees, from the start.
    fn list_all(&mut self, n: u32, most: u32) -> Result<(), Refusal>
        requires few { n ≤ 100 }
        requires count { self.old.count ≤ 65535 }
        requires budget { self.old.budgets.items ≡ most ∷ [] }
        ensures { Lists self.old self.new (trees n most) result }
    {
        let total = room(most);
        if n > total {
            return Ok(());
        }
        self.list(n, total)
    }

    // Lists the rows with so many dots, for which the budgets have room.
    #[cycle(rows)]
    fn list(&mut self, dots: u32, total: u32) -> Result<(), Refusal>
        requires few { letters_left dots (budgets_of self.old) ≤ 201 }
        requires total { total ≡ rooms (budgets_of self.old) }
        requires enough { dots ≤ total }
        requires count { self.old.count ≤ 65535 }
        ensures { Lists self.old self.new (rows (letters_left dots (budgets_of self.old)) (budgets_of self.old)) result }
    {
        let Some(budget) = self.budgets.pop() else {
            return self.keep();
        };
        let others = total - room(budget);
        self.list_dotted(dots, others, budget)?;
        self.list_leaf(dots, others)?;
        self.budgets.push(budget)?;
        Ok(())
    }

    // Lists those that begin with a dot, where the first tree has this budget and the others have room for so many dots.
    #[cycle(rows)]
    fn list_dotted(&mut self, dots: u32, others: u32, budget: u32) -> Result<(), Refusal>
        requires few { letters_left dots (budgets_of self.old) ≤ 200 }
        requires others { others ≡ rooms (budgets_of self.old) }
        requires enough { dots ≤ room budget + others }
        requires count { self.old.count ≤ 65535 }
        ensures { Lists self.old self.new
            (dotted_rows (letters_left dots (budgets_of self.old)) budget (budgets_of self.old)) result }
    {
        if dots == 0 {
            return Ok(());
        }
        if budget == 0 {
            return Ok(());
        }
        let letters = self.word.len();
        let waiting = self.budgets.len();
        self.word.push(b'.')?;
        self.budgets.push(budget - 1)?;
        self.budgets.push(budget - 1)?;
        self.list(dots - 1, others + 2 * room(budget - 1))?;
        self.budgets.truncate(waiting);
        self.word.truncate(letters);
        Ok(())
    }

    // Lists those that begin with `x`, where the other trees have room for so many dots.
    #[cycle(rows)]
    fn list_leaf(&mut self, dots: u32, others: u32) -> Result<(), Refusal>
        requires few { letters_left dots (budgets_of self.old) ≤ 200 }
        requires others { others ≡ rooms (budgets_of self.old) }
        requires count { self.old.count ≤ 65535 }
        ensures { Lists self.old self.new
            (leaf_rows (letters_left dots (budgets_of self.old)) (budgets_of self.old)) result }
    {
        if dots > others {
            return Ok(());
        }
        let letters = self.word.len();
        self.word.push(b'x')?;
        self.list(dots, others)?;
        self.word.truncate(letters);
        Ok(())
    }

    // The word is done.
    fn keep(&mut self) -> Result<(), Refusal>
        requires count { self.old.count ≤ 65535 }
        ensures { Lists self.old self.new ([] ∷ []) result }
    {
        if self.count == MOST_VERTICES {
            return Err(Refusal::TooLarge);
        }
        self.names.extend_from_slice(&self.word)?;
        self.count += 1;
        Ok(())
    }
}

/// How many dots a tree of this height has at most, or 127 where it is more.
pub(crate) fn room(height: u32) -> u32
    ensures value { result ≡ room height }
    ensures few { result ≤ 127 }
{
    (1 << height.min(7)) - 1
}
