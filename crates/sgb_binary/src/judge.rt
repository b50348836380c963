//! How many trees there are, told before any of them is listed.
ghost use Rattle.std.specs.Prelude.{◌≡◌, ◌≤◌, ◌<◌, ◌+◌, length, min, reverse, take, IfOk, IfErr};
ghost use Rattle.sgb_binary.specs.Tree.{trees};
ghost use Rattle.sgb_binary.specs.Private.Listing.{rows, dotted_rows, leaf_rows, rooms, room, letters_left};

use crate::lister::room;
use sgb_graph::{MOST_VERTICES, Refusal};

/// How many trees with `n` dots and at most this height there are. Refused `TooLarge` where they are more than 65,535.
/// It takes no memory.
pub(crate) fn count_trees(n: u32, most: u32) -> Result<u32, Refusal>
    requires { n ≤ 100 }
    ensures ok { IfOk result (λ count. (count ≡ length (trees n most)) × (count ≤ 65535)) }
    ensures err { IfErr result (λ e. (e ≡ Refusal.TooLarge) × (65535 < length (trees n most))) }
{
    let total = room(most);
    if n > total {
        return Ok(0);
    }
    // A tree with 100 dots has 101 leaves, and no more trees wait at a time.
    let mut budgets = [0u32; 101];
    budgets[0] = most;
    let count = count_rows(&mut budgets, 1, n, total, 0);
    if count > MOST_VERTICES {
        return Err(Refusal::TooLarge);
    }
    Ok(count)
}

// Counts on from `found` the rows with so many dots. The first budgets are those of the trees that are waiting, the next
// one last; they are as before then, and have room for `total` dots. A count of 65,536 stands for more.
#[cycle(counts)]
fn count_rows(budgets: &mut [u32], waiting: usize, dots: u32, total: u32, found: u32) -> u32
    requires places { waiting + dots ≤ length budgets.old }
    requires small { length budgets.old ≤ 101 }
    requires total { total ≡ rooms (reverse (take waiting budgets.old)) }
    requires enough { dots ≤ total }
    requires few { found ≤ 65535 }
    ensures count { result ≡ min 65536 (found + length
        (rows (letters_left dots (reverse (take waiting budgets.old))) (reverse (take waiting budgets.old)))) }
    ensures kept { take waiting budgets.new ≡ take waiting budgets.old }
{
    // Without dots only leaves are left, which is one row.
    if dots == 0 {
        return found + 1;
    }
    let behind = waiting - 1;
    let budget = budgets[behind];
    let others = total - room(budget);
    let dotted = count_dotted(budgets, behind, dots, others, budget, found);
    let count = count_leaf(budgets, behind, dots, others, dotted);
    budgets[behind] = budget;
    count
}

// Counts on those that begin with a dot, where the first tree has this budget and the others have room for so many dots.
#[cycle(counts)]
fn count_dotted(
    budgets: &mut [u32],
    waiting: usize,
    dots: u32,
    others: u32,
    budget: u32,
    found: u32,
) -> u32
    requires places { waiting + dots < length budgets.old }
    requires small { length budgets.old ≤ 101 }
    requires others { others ≡ rooms (reverse (take waiting budgets.old)) }
    requires enough { dots ≤ room budget + others }
    requires few { found ≤ 65535 }
    ensures count { result ≡ min 65536 (found + length
        (dotted_rows (letters_left dots (reverse (take waiting budgets.old))) budget (reverse (take waiting budgets.old)))) }
    ensures kept { take waiting budgets.new ≡ take waiting budgets.old }
{
    if dots == 0 {
        return found;
    }
    if budget == 0 {
        return found;
    }
    budgets[waiting] = budget - 1;
    budgets[waiting + 1] = budget - 1;
    let total = others + 2 * room(budget - 1);
    count_rows(budgets, waiting + 2, dots - 1, total, found)
}

// Counts on those that begin with `x`, where the other trees have room for so many dots.
#[cycle(counts)]
fn count_leaf(budgets: &mut [u32], waiting: usize, dots: u32, others: u32, found: u32) -> u32
    requires places { waiting + dots < length budgets.old }
    requires small { length budgets.old ≤ 101 }
    requires others { others ≡ rooms (reverse (take waiting budgets.old)) }
    requires few { found ≤ 65536 }
    ensures count { result ≡ min 65536 (found + length
        (leaf_rows (letters_left dots (reverse (take waiting budgets.old))) (reverse (take waiting budgets.old)))) }
    ensures kept { take waiting budgets.new ≡ take waiting budgets.old }
{
    if found > MOST_VERTICES {
        return found;
    }
    if dots > others {
        return found;
    }
    count_rows(budgets, waiting, dots, others, found)
}
