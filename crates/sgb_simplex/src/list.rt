//! The points with a given sum within given bounds, in their order.
ghost use Rattle.std.specs.Prelude.{◌≡◌, ◌≤◌, ◌<◌, ◌+◌, ◌++◌, [], length, get_or, slice_index, take, drop, All, OnOk, IfOk, IfErr, vec_len};
ghost use Rattle.std.specs.List.{flat_map, sum};
ghost use Rattle.sgb_simplex.specs.Points.{points, place_of};
ghost use Rattle.sgb_simplex.specs.Moves.{lowered, raised};
ghost use Rattle.sgb_simplex.specs.Private.Counts.{IsTable, IsPoint};

use crate::counts::count_rows;
use crate::judge::sum_of;
use std::alloc::{AllocError, Global};

/// The points whose coordinates have the sum `total` and these bounds, one behind the other, and what tells a point's
/// number.
#[derive(Drop)]
pub(crate) struct PointList {
    pub(crate) total: u32,
    pub(crate) bounds: Vec<u32>,
    rows: Vec<Vec<u64>>,
    coordinates: Vec<u32>,
    pub(crate) count: u32,
    ghost narrow: { vec_len bounds ≤ 16 },
    ghost bounded: { All (λ b. b ≤ 65535) bounds.items },
    ghost table: { IsTable bounds.items total rows.items },
    ghost listed: { coordinates.items ≡ flat_map (λ t. t) (points total bounds.items) },
    ghost counted: { count ≡ length (points total bounds.items) },
    ghost few: { count ≤ 65535 },
}

impl PointList {
    /// Lists the points, which are so many.
    pub(crate) fn new(
        alloc: Global,
        total: u32,
        bounds: &[u32],
        count: u32,
    ) -> Result<PointList, AllocError>
        requires total { total ≤ 65535 }
        requires narrow { length bounds.now ≤ 16 }
        requires bounded { All (λ b. b ≤ 65535) bounds.now }
        requires count { count ≡ length (points total bounds.now) }
        requires few { count ≤ 65535 }
        ensures total { IfOk result (λ list. list.total ≡ total) }
        ensures bounds { IfOk result (λ list. list.bounds.items ≡ bounds.now) }
    {
        let rows = count_rows(alloc, bounds, total)?;
        let coordinates = list_points(alloc, bounds, total, count as usize)?;
        let bounds = Vec::from_slice(alloc, bounds)?;
        Ok(PointList {
            total,
            bounds,
            rows,
            coordinates,
            count,
        })
    }

    /// The sum of the bounds.
    pub(crate) fn room(&self) -> u32
        ensures { result ≡ sum self.now.bounds.items }
    {
        sum_of(&self.bounds)
    }

    /// The point with this number.
    pub(crate) fn point(&self, v: u32) -> &[u32]
        requires { v < self.now.count }
        ensures value { result.now ≡ get_or (points self.now.total self.now.bounds.items) v [] }
        ensures point { IsPoint self.now.total self.now.bounds.items result.now }
    {
        let width = self.bounds.len();
        let start = v as usize * width;
        &self.coordinates[start..start + width]
    }

    /// The number of the point that has one less than this one at `j`, and one more at `k`.
    pub(crate) fn number_of_moved(&self, point: &[u32], j: usize, k: usize) -> u32
        requires point { IsPoint self.now.total self.now.bounds.items point.now }
        requires order { j < k }
        requires inside { k < length point.now }
        requires low { 0 < slice_index point.now j }
        requires high { slice_index point.now k < slice_index self.now.bounds.items k }
        ensures value { result ≡ place_of (raised (lowered point.now j) k) (points self.now.total self.now.bounds.items) }
        ensures below { result < self.now.count }
    {
        let mut left = self.total as usize;
        let mut number = 0u64;
        for i in 0..point.len() {
            let x = moved_at(point, j, k, i) as usize;
            let row = &self.rows[point.len() - 1 - i];
            number += row[left + 1] - row[left + 1 - x];
            left -= x;
        }
        number as u32
    }
}

// The coordinate `i` of the point that has one less than this one at `j`, and one more at `k`.
fn moved_at(point: &[u32], j: usize, k: usize, i: usize) -> u32
    requires order { j < k }
    requires inside { k < length point.now }
    requires low { 0 < slice_index point.now j }
    requires high { slice_index point.now k < 65535 }
    requires i { i < length point.now }
    ensures { result ≡ slice_index (raised (lowered point.now j) k) i }
{
    if i == j {
        point[i] - 1
    } else if i == k {
        point[i] + 1
    } else {
        point[i]
    }
}

// The coordinates of the points, one point behind the other.
fn list_points(
    alloc: Global,
    bounds: &[u32],
    total: u32,
    count: usize,
) -> Result<Vec<u32>, AllocError>
    requires total { total ≤ 65535 }
    requires count { count ≤ 65535 }
    requires narrow { length bounds.now ≤ 16 }
    requires bounded { All (λ b. b ≤ 65535) bounds.now }
    ensures { IfOk result (λ list. list.items ≡ flat_map (λ t. t) (points total bounds.now)) }
{
    let mut list = Vec::with_capacity(alloc, count * bounds.len())?;
    let mut point = [0u32; 16];
    let room = sum_of(bounds);
    if total > room {
        return Ok(list);
    }
    list_from(
        &mut list,
        &mut point[..bounds.len()],
        0,
        total,
        bounds,
        room,
    )?;
    Ok(list)
}

// Writes the points that begin as this one before `place`, and whose other coordinates have the sum `left`; the bounds
// of these have the sum `room`.
fn list_from(
    list: &mut Vec<u32>,
    point: &mut [u32],
    place: usize,
    left: u32,
    bounds: &[u32],
    room: u32,
) -> Result<(), AllocError>
    requires place { place ≤ length bounds.now }
    requires width { length point.old ≡ length bounds.now }
    requires room { room ≡ sum (drop place bounds.now) }
    requires left { left ≤ room }
    requires small { left ≤ 65535 }
    ensures ok { OnOk result (list.new.items
        ≡ list.old.items ++ flat_map (λ t. take place point.old ++ t) (points left (drop place bounds.now))) }
    ensures kept { take place point.new ≡ take place point.old }
{
    if place == bounds.len() {
        return list.extend_from_slice(point);
    }
    let bound = bounds[place];
    let behind = room - bound;
    for x in left.saturating_sub(behind)..bound.min(left) + 1 {
        point[place] = x;
        list_from(list, point, place + 1, left - x, bounds, behind)?;
    }
    Ok(())
}
