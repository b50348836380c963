//! The number of each tree, by its name.
ghost use Rattle.std.specs.Prelude.{◌≡◌, ◌<◌, ◌*◌, length, map, IfOk, IfErr, IfSome};
ghost use Rattle.std.specs.Option.{option_to_list};
ghost use Rattle.sgb_plan.specs.Distinct.{Distinct};
ghost use Rattle.sgb_binary.specs.Private.Names.{bytes_of};
ghost use Rattle.sgb_binary.specs.Private.Listing.{pieces};
ghost use Rattle.sgb_binary.specs.Rotation.{number_in};

use crate::lister::Names;
use indexmap::IndexSet;
use sgb_graph::Refusal;
use std::alloc::{AllocError, Global};

/// The names, one by one.
pub(crate) fn split_names<'a>(
    alloc: Global,
    names: &'a Names,
    width: usize,
) -> Result<Vec<&'a [u8]>, AllocError>
    requires { length names.now.letters.items ≡ names.now.count * width }
    ensures { IfOk result
        (λ keys. map bytes_of keys.items ≡ pieces width names.now.count names.now.letters.items) }
{
    let mut keys = Vec::with_capacity(alloc, names.count as usize)?;
    let mut rest = names.letters.as_slice();
    for _v in 0..names.count {
        let (name, others) = rest.split_at(width);
        keys.push(name)?;
        rest = others;
    }
    Ok(keys)
}

/// The names, each with its number for its place.
pub(crate) fn index_names<'a>(
    alloc: Global,
    names: &[&'a [u8]],
) -> Result<IndexSet<&'a [u8]>, Refusal>
    requires { Distinct (map bytes_of names.now) }
    ensures keys { IfOk result (λ index. map bytes_of index.keys ≡ map bytes_of names.now) }
    ensures err { IfErr result (λ e. e ≡ Refusal.NoRoom) }
{
    let mut index = IndexSet::with_capacity(alloc, names.len())?;
    for name in names {
        index.insert(*name)?;
    }
    Ok(index)
}

/// The number of the tree with this name, if it is there.
pub(crate) fn number_of(index: &IndexSet<&[u8]>, name: &[u8]) -> Option<usize>
    ensures value { option_to_list result ≡ number_in (map bytes_of index.now.keys) name.now }
    ensures within { IfSome result (λ number. number < length index.now.keys) }
{
    index.get_index_of(name)
}
