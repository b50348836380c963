//! The positions of a board as its vertices.
ghost use Rattle.std.specs.Prelude.{◌≡◌, ◌<◌, ◌≤◌, ◌+◌, length, map, replicate, IfOk};
ghost use Rattle.sgb_plan.specs.Plan.{Names};
ghost use Rattle.sgb_simplex.specs.Points.{point_vertex};
ghost use Rattle.sgb_make.specs.Ride.{positions};
ghost use Rattle.sgb_make.specs.Private.Rank.{IsOn, IsSmall, cells, rank};

use crate::side::Side;
use sgb_graph::{Builder, Refusal};
use sgb_simplex::push_point;
use std::alloc::Global;

// Goes on to the next position: the last coordinate counts up, and one that is at its end begins anew and lets the one
// before it count.
fn advance(sides: &[Side], position: &mut [u32])
    requires { IsOn sides.now position.old }
    ensures on { IsOn sides.now position.new }
    ensures next { rank sides.now position.old + 1 < cells sides.now →
        rank sides.now position.new ≡ rank sides.now position.old + 1 }
{
    for done in 0..sides.len() {
        let k = sides.len() - 1 - done;
        let size = sides[k].size;
        if position[k] + 1 < size {
            position[k] += 1;
            return;
        }
        position[k] = 0;
    }
}

// Makes a vertex of each position, in order.
pub(crate) fn name_positions(
    builder: &mut Builder,
    alloc: Global,
    sides: &[Side],
    count: u32,
) -> Result<(), Refusal>
    requires few { length sides.now ≤ 20 }
    requires small { IsSmall sides.now }
    requires count { count ≡ cells sides.now }
    ensures { Names builder.old builder.new (map point_vertex (positions sides.now)) result }
{
    builder.reserve_vertices(count as usize)?;
    let mut position = vec![in alloc; 0u32; sides.len()]?;
    let mut name = Vec::new(alloc);
    for _ in 0..count {
        push_point(builder, alloc, &mut name, &position)?;
        advance(sides, &mut position);
    }
    Ok(())
}
