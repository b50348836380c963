//! Where one step leads from each position of a board: a table of links.
ghost use Rattle.std.specs.Prelude.{◌≡◌, ◌<◌, ◌≤◌, ◌+◌, ◌*◌, ◌^◌, ◌++◌, true, false, length, map, replicate, All, IfSome, OnOk};
ghost use Rattle.sgb_make.specs.Ride.{moved};
ghost use Rattle.sgb_make.specs.Private.Link.{part_of, shifted, row_of, rows_of, links};
ghost use Rattle.sgb_make.specs.Private.Rank.{IsSmall};

use crate::side::{Side, Step};
use std::alloc::AllocError;
use std::mem::swap;

// Where a coordinate comes to by a step forward, if that is on the board.
fn moved_on(side: Side, x: u32, by: u32) -> Option<u32>
    requires { x < side.size }
    ensures { result ≡ moved side x (part_of (record { by = by; back = false })) }
{
    let to = x as u64 + by as u64;
    if side.wraps {
        Some((to % side.size as u64) as u32)
    } else if to < side.size as u64 {
        Some(to as u32)
    } else {
        None
    }
}

// Where a coordinate comes to by a step back.
fn moved_back(side: Side, x: u32, by: u32) -> Option<u32>
    requires { x < side.size }
    ensures { result ≡ moved side x (part_of (record { by = by; back = true })) }
{
    if side.wraps {
        let size = side.size as u64;
        let to = x as u64 + (size - by as u64 % size);
        Some((to % size) as u32)
    } else if by <= x {
        Some(x - by)
    } else {
        None
    }
}

// Where a coordinate comes to by a step.
fn moved(side: Side, x: u32, step: Step) -> Option<u32>
    requires { x < side.size }
    ensures { result ≡ moved side x (part_of step) }
{
    if step.back {
        moved_back(side, x, step.by)
    } else {
        moved_on(side, x, step.by)
    }
}

// Writes so many links to nothing.
fn append_none(table: &mut Vec<u32>, count: usize) -> Result<(), AllocError>
    requires { count ≤ 65535 }
    ensures { OnOk result (table.new.items ≡ table.old.items ++ replicate count 0) }
{
    table.resize(table.len() + count, 0)?;
    Ok(())
}

// A link to a position so far on.
fn shifted(base: u32, link: u32) -> u32
    requires { base + link < 2 ^ 32 }
    ensures { result ≡ shifted base link }
{
    if link == 0 { 0 } else { base + link }
}

// Makes links lead so far on.
fn shift(links: &mut [u32], base: u32)
    requires { All (λ t. base + t < 2 ^ 32) links.old }
    ensures { links.new ≡ map (shifted base) links.old }
{
    for link in links.iter_mut() {
        *link = shifted(base, *link);
    }
}

// Writes these links, each as far on as `base` says: all are copied first, so that many are written at a time.
fn append_shifted(table: &mut Vec<u32>, behind: &[u32], base: u32) -> Result<(), AllocError>
    requires { All (λ t. base + t < 2 ^ 32) behind.now }
    ensures { OnOk result (table.new.items ≡ table.old.items ++ map (shifted base) behind.now) }
{
    let start = table.len();
    table.extend_from_slice(behind)?;
    shift(&mut table[start..], base);
    Ok(())
}

// Writes the links of the positions whose first coordinate moves to `to`.
fn append_row(table: &mut Vec<u32>, behind: &[u32], to: Option<u32>) -> Result<(), AllocError>
    requires low { All (λ t. t ≤ length behind.now) behind.now }
    requires short { length behind.now ≤ 65535 }
    requires few { IfSome to (λ y. y * length behind.now + length behind.now ≤ 65535) }
    ensures { OnOk result (table.new.items ≡ table.old.items ++ row_of to behind.now) }
{
    match to {
        Some(y) => append_shifted(table, behind, y * behind.len() as u32),
        None => append_none(table, behind.len()),
    }
}

// Writes the links of a board from those of the board without its first side.
fn append_rows(
    table: &mut Vec<u32>,
    behind: &[u32],
    side: Side,
    step: Step,
) -> Result<(), AllocError>
    requires low { All (λ t. t ≤ length behind.now) behind.now }
    requires few { side.size * length behind.now ≤ 65535 }
    ensures { OnOk result (table.new.items ≡ table.old.items ++ rows_of side (part_of step) behind.now) }
{
    for x in 0..side.size {
        append_row(table, behind, moved(side, x, step))?;
    }
    Ok(())
}

/// Two tables of links: the one that is made, and room for it to be made in.
#[derive(Drop)]
pub(crate) struct Links {
    pub(crate) table: Vec<u32>,
    pub(crate) spare: Vec<u32>,
}

// Makes the links of the vector of these steps.
pub(crate) fn link(tables: &mut Links, sides: &[Side], steps: &[Step]) -> Result<(), AllocError>
    requires parts { length steps.now ≡ length sides.now }
    requires small { IsSmall sides.now }
    ensures { OnOk result (tables.new.table.items ≡ links sides.now (map part_of steps.now)) }
{
    tables.table.clear();
    tables.table.push(1)?;
    for done in 0..sides.len() {
        let k = sides.len() - 1 - done;
        tables.spare.clear();
        append_rows(&mut tables.spare, &tables.table, sides[k], steps[k])?;
        swap(&mut tables.table, &mut tables.spare);
    }
    Ok(())
}
