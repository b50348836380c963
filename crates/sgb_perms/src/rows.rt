//! Rows of one width, one behind another in one buffer.
ghost use Rattle.std.specs.Prelude.{◌≡◌, ◌≤◌, ◌<◌, ◌∷◌, [], length, slice_index_or, IfOk};

use sgb_graph::Refusal;
use std::alloc::{AllocError, Global};
use std::marker::Model;

// The most rows that are listed, which are as many as a graph has vertices.
const MOST_ROWS: usize = 65_535;

// Arrangements of one length, each element a kind.
#[derive(Drop)]
pub(crate) struct Rows {
    kinds: Vec<u8>,
    width: usize,
    count: usize,
}

impl Model for Rows {
    ghost use Rattle.sgb_perms.specs.Private.Rows.{RowsOf, rows_of, IsRows};

    ghost Value = { RowsOf };

    ghost view = { rows_of };

    ghost invariant = { IsRows };
}

impl Rows {
    ghost use Rattle.sgb_perms.specs.Private.Rows.{Lists};

    // No rows yet, with room for so many.
    pub(crate) fn with_capacity(
        alloc: Global,
        width: usize,
        count: usize,
    ) -> Result<Rows, AllocError>
        requires width { width ≤ 255 }
        requires count { count ≤ 65535 }
        ensures { IfOk result (λ rows. rows ≡ record { width = width; rows = [] }) }
    {
        let elements = count * width;
        Ok(Rows {
            kinds: Vec::with_capacity(alloc, elements)?,
            width,
            count: 0,
        })
    }

    // How many rows there are.
    pub(crate) fn len(&self) -> usize
        ensures value { result ≡ length self.now.rows }
        ensures few { result ≤ 65535 }
    {
        self.count
    }

    // How long each row is.
    pub(crate) fn width(&self) -> usize
        ensures value { result ≡ self.now.width }
        ensures narrow { result ≤ 255 }
    {
        self.width
    }

    // Adds a row, last. Refused `TooLarge` where a graph has no more vertices.
    pub(crate) fn push(&mut self, row: &[u8]) -> Result<(), Refusal>
        requires { length row.now ≡ self.old.width }
        ensures { Lists self.old self.new (row.now ∷ []) result }
    {
        if self.count >= MOST_ROWS {
            return Err(Refusal::TooLarge);
        }
        self.kinds.extend_from_slice(row)?;
        self.count += 1;
        Ok(())
    }

    // The row at this place.
    #[inline]
    pub(crate) fn row(&self, place: usize) -> &[u8]
        requires { place < length self.now.rows }
        ensures value { result.now ≡ slice_index_or self.now.rows place [] }
        ensures long { length result.now ≡ self.now.width }
    {
        let start = place * self.width;
        &self.kinds[start..start + self.width]
    }
}
