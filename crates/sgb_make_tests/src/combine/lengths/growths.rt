//! What refused growths lead to: who asks again has what is asked for. The lengths are those of seed 5.

use crate::combine::graphs::has_id;
use crate::combine::lengths::graphs::{has_lengths, lengthen, paired};
use crate::looks::Made;
use sgb_combine::LengthsSpec;
use sgb_flip::Flip;
use sgb_graph::Refusal;
use sgb_plan::Seed;
use std::alloc::Global;

// A graph of edges. Where a growth is refused, it is asked for once more.
fn paired_again(alloc: Global) -> Made {
    match paired(alloc) {
        Err(Refusal::NoRoom) => paired(alloc),
        made => made,
    }
}

fn lengthen_one(alloc: Global, made: &mut Made, flip: &mut Flip) -> Result<u64, Refusal> {
    let spec = LengthsSpec {
        directed: false,
        min: 1,
        max: 1000,
    };
    lengthen(alloc, made, flip, &spec, Seed::Number(5))
}

// Where a growth is refused nothing has changed, and the lengths are asked for once more. `None` where something has.
fn lengthen_again(alloc: Global, made: &mut Made, flip: &mut Flip) -> Option<u64> {
    let unread = flip.unread();
    match lengthen_one(alloc, made, flip) {
        Err(Refusal::NoRoom) => {
            if !is_as_before(made) || flip.unread() != unread {
                return None;
            }
            lengthen_one(alloc, made, flip).ok()
        }
        draws => draws.ok(),
    }
}

fn is_as_before(made: &Made) -> bool {
    has_lengths(made, &[7, 7, 8, 8, 2, 2, 4, 4]) && has_id(made, b"gb_new_graph(4)")
}

#[test]
fn growths_are_granted_when_asked_again(rt: HostRuntime) {
    assert!(rt; lengthens_paired(rt.alloc(), paired_again(rt.alloc())));
}

fn lengthens_paired(alloc: Global, mut made: Made) -> bool {
    let mut flip = Flip::new(5);
    lengthen_again(alloc, &mut made, &mut flip) == Some(4)
        && has_lengths(&made, &[467, 467, 978, 978, 709, 709, 122, 122])
        && has_id(&made, b"random_lengths(gb_new_graph(4),0,1,1000,0,5)")
}
