//! Finds the vertex of an arrangement.
ghost use Rattle.std.specs.Prelude.{◌≡◌, ◌<◌, ℕ, List, length, IfOk, IfErr, IfSome};
ghost use Rattle.sgb_plan.specs.Distinct.{Distinct};
ghost use Rattle.sgb_perms.specs.Perms.{place_of};
ghost use Rattle.sgb_perms.specs.Private.Places.{shown_by, word_of, IsWordsOf, IsIndexOf};

use crate::rows::Rows;
use indexmap::IndexSet;
use sgb_graph::Refusal;
use std::alloc::Global;

// The rows as they are looked up: by their words where no two rows have the same, and else by their bytes.
#[derive(Drop)]
pub(crate) enum Places<'a> {
    ByWord(IndexSet<u64>),
    ByBytes(IndexSet<&'a [u8]>),
}

// The rows as they are looked up.
pub(crate) fn index_places<'a>(alloc: Global, rows: &'a Rows) -> Result<Places<'a>, Refusal>
    requires { Distinct rows.now.rows }
    ensures ok { IfOk result (λ places. IsIndexOf rows.now.rows places) }
    ensures err { IfErr result (λ e. e ≡ Refusal.NoRoom) }
{
    match index_words(alloc, rows)? {
        Some(words) => Ok(Places::ByWord(words)),
        None => Ok(Places::ByBytes(index_rows(alloc, rows)?)),
    }
}

// The words of the rows, or none where two rows have the same.
fn index_words(alloc: Global, rows: &Rows) -> Result<Option<IndexSet<u64>>, Refusal>
    ensures ok { IfOk result (λ found. IfSome found (λ words. IsWordsOf rows.now.rows words.keys)) }
    ensures err { IfErr result (λ e. e ≡ Refusal.NoRoom) }
{
    let mut words = IndexSet::with_capacity(alloc, rows.len())?;
    for v in 0..rows.len() {
        let is_new = words.insert(word_of(rows.row(v)))?;
        if !is_new {
            return Ok(None);
        }
    }
    Ok(Some(words))
}

// A number of the row: its elements are digits in base 31, the first the lowest.
fn word_of(row: &[u8]) -> u64
    ensures { result ≡ word_of row.now }
{
    let mut word: u64 = 0;
    for place in (0..row.len()).rev() {
        word = word.wrapping_mul(31).wrapping_add(row[place] as u64);
    }
    word
}

// The bytes of the rows.
fn index_rows<'a>(alloc: Global, rows: &'a Rows) -> Result<IndexSet<&'a [u8]>, Refusal>
    requires { Distinct rows.now.rows }
    ensures ok { IfOk result (λ places. shown_by places.keys ≡ rows.now.rows) }
    ensures err { IfErr result (λ e. e ≡ Refusal.NoRoom) }
{
    let mut places = IndexSet::with_capacity(alloc, rows.len())?;
    for v in 0..rows.len() {
        places.insert(rows.row(v))?;
    }
    Ok(places)
}

// The place of a row that is one of them. A guess of it is looked at first, which saves a search.
pub(crate) fn find_place(places: &Places<'_>, row: &[u8], guess: usize) -> usize
    ensures { (rows : List (List ℕ)) → IsIndexOf rows places.now → place_of rows row.now < length rows →
        result ≡ place_of rows row.now }
{
    match places {
        Places::ByWord(words) => {
            let word = word_of(row);
            match words.get_index(guess) {
                Some(found) if *found == word => guess,
                _ => words.get_index_of(&word).unwrap_or(words.len()),
            }
        }
        Places::ByBytes(keys) => keys.get_index_of(row).unwrap_or(keys.len()),
    }
}
