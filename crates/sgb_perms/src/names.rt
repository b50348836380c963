//! Names of arrangements, and of their graph.
ghost use Rattle.std.specs.Prelude.{◌≡◌, ◌<◌, ◌≤◌, All, map, length, IfOk, IfErr, OnOk, OnErr};
ghost use Rattle.std.specs.List.{range_with_len};
ghost use Rattle.sgb_plan.specs.Plan.{Names};
ghost use Rattle.sgb_perms.specs.Perms.{name_of, perms_id, row_vertex, row_at};

use crate::PermsSpec;
use crate::counts::numbers_of;
use crate::rows::Rows;
use sgb_graph::{Builder, Refusal, Text};
use sgb_plan::{Part, id_of, label_of, shown_at};
use std::alloc::Global;

// A character for each kind.
const SYMBOLS: &[u8; 16] = b"0123456789ABCDEF";

// The id, with the numbers after all defaults.
pub(crate) fn id_of_perms(alloc: Global, spec: &PermsSpec, most: u32) -> Result<Text, Refusal>
    ensures value { IfOk result (λ id. id ≡ perms_id spec.now most) }
    ensures short { IfOk result (λ id. length id ≤ 160) }
    ensures err { IfErr result (λ e. e ≡ Refusal.NoRoom) }
{
    let numbers = numbers_of(spec);
    let parts = [
        Part::Number(shown_at(&numbers, 0)),
        Part::Number(shown_at(&numbers, 1)),
        Part::Number(shown_at(&numbers, 2)),
        Part::Number(shown_at(&numbers, 3)),
        Part::Number(shown_at(&numbers, 4)),
        Part::Count(most),
        Part::Flag(spec.directed),
    ];
    id_of(alloc, "perms", &parts)
}

// Makes a vertex of each row.
pub(crate) fn name_vertices(
    builder: &mut Builder,
    alloc: Global,
    rows: &Rows,
) -> Result<(), Refusal>
    requires { All (λ row. All (λ kind. kind < 16) row) rows.now.rows }
    ensures { Names builder.old builder.new (map row_vertex rows.now.rows) result }
{
    builder.reserve_vertices(rows.len())?;
    let mut name = Vec::with_capacity(alloc, rows.width())?;
    for v in 0..rows.len() {
        write_name(&mut name, rows.row(v))?;
        let label = label_of(alloc, &name)?;
        builder.push_named(label)?;
    }
    Ok(())
}

// Writes the name of the row in place of what is there.
fn write_name(name: &mut Vec<u8>, row: &[u8]) -> Result<(), Refusal>
    requires { All (λ kind. kind < 16) row.now }
    ensures ok { OnOk result (name.new.items ≡ name_of row.now) }
    ensures err { IfErr result (λ e. e ≡ Refusal.NoRoom) }
{
    name.clear();
    for kind in row {
        name.push(SYMBOLS[*kind as usize])?;
    }
    Ok(())
}
