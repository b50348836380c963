//! Ids of graphs with random lengths.
ghost use Rattle.std.specs.Prelude.{◌≡◌, ◌≤◌, length, IfOk, IfErr};
ghost use Rattle.sgb_graph.specs.Text.{IsText};
ghost use Rattle.sgb_combine.specs.Lengths.{lengths_id};

use crate::LengthsSpec;
use sgb_graph::{Refusal, Text};
use sgb_plan::{Part, Seed, id_of_one};
use std::alloc::Global;

// The id of a graph with such lengths, which had this id.
pub(crate) fn lengths_id(
    alloc: Global,
    id: &[u8],
    spec: &LengthsSpec,
    seed: Seed,
) -> Result<Text, Refusal>
    requires { IsText id.now }
    ensures value { IfOk result (λ text. text ≡ lengths_id spec.now seed id.now) }
    ensures short { IfOk result (λ text. length text ≤ 160) }
    ensures err { IfErr result (λ e. e ≡ Refusal.NoRoom) }
{
    let parts = [
        Part::Flag(spec.directed),
        Part::Number(spec.min),
        Part::Number(spec.max),
        Part::Count(0),
        Part::Drawn(seed),
    ];
    id_of_one(alloc, "random_lengths", id, &parts)
}
