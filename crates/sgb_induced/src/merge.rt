//! Runs of which each pair of ends has one.
ghost use Rattle.std.specs.Prelude.{◌≡◌, IfOk, OnOk};
ghost use Rattle.sgb_induced.specs.Private.Run.{IsPlaced, merge, merged};

use crate::run::{Run, key_of, lowered_run};
use std::alloc::{AllocError, Global};
use std::collections::HashMap;

// The runs of which each pair of ends has only the first, with the least length.
pub(crate) fn merge_runs(
    alloc: Global,
    runs: &[Run],
    directed: bool,
) -> Result<Vec<Run>, AllocError>
    ensures { IfOk result (λ rs. rs.items ≡ merged directed runs.now) }
{
    let mut kept = Vec::new(alloc);
    let mut places = HashMap::new(alloc);
    for run in runs {
        merge_run(&mut kept, &mut places, *run, directed)?;
    }
    Ok(kept)
}

// Lowers the run with the same ends, whose place the map knows, or adds this one, last.
fn merge_run(
    kept: &mut Vec<Run>,
    places: &mut HashMap<(u32, u32), usize>,
    run: Run,
    directed: bool,
) -> Result<(), AllocError>
    requires { IsPlaced directed places.old kept.old.items }
    ensures kept { OnOk result (kept.new.items ≡ merge directed kept.old.items run) }
    ensures places { OnOk result (IsPlaced directed places.new kept.new.items) }
{
    let key = key_of(run, directed);
    match places.get(&key).copied() {
        Some(place) => kept[place] = lowered_run(kept[place], run),
        None => {
            places.insert(key, kept.len())?;
            kept.push(run)?;
        }
    }
    Ok(())
}
