//! Where the images of each vertex stand.
ghost use Rattle.std.specs.Prelude.{◌≡◌, ◌<◌, ◌≤◌, ◌⊎◌, ◌==◌, ℕ, length, map, nat_eq, unwrap_or, Some, IfOk, IfErr, if◌then◌else◌};
ghost use Rattle.std.specs.HashMap.{get};
ghost use Rattle.std.specs.List.{range_with_len};
ghost use Rattle.sgb_induced.specs.Image.{count_of, leader, start};
ghost use Rattle.sgb_induced.specs.Private.Run.{image_at, image_of};

use crate::fate::Fate;
use sgb_graph::Refusal;
use std::alloc::{AllocError, Global};
use std::collections::HashMap;

// The images of a vertex: the vertex in whose place they stand, the first of them, and how many they are.
#[derive(Clone, Copy, Debug, PartialEq, Eq)]
pub(crate) struct Image {
    pub(crate) leader: u32,
    pub(crate) start: u32,
    pub(crate) count: u32,
}

// The images of each vertex, by its number. Refused `TooLarge` where they are more than 65,535.
pub(crate) fn place_images(alloc: Global, fates: &[Fate]) -> Result<Vec<Image>, Refusal>
    requires { length fates.now ≤ 65535 }
    ensures value { IfOk result
        (λ images. images.items ≡ map (image_of fates.now) (range_with_len 0 (length fates.now))) }
    ensures few { IfOk result (λ images. start fates.now (length fates.now) ≤ 65535) }
    ensures err { IfErr result
        (λ e. (e ≡ Refusal.NoRoom) ⊎ ((e ≡ Refusal.TooLarge) × (65535 < start fates.now (length fates.now)))) }
{
    let leaders = find_leaders(alloc, fates)?;
    let mut images = Vec::new(alloc);
    images.reserve(fates.len())?;
    let mut next = 0;
    for v in 0..fates.len() as u32 {
        let count = count_of(fates[v as usize]);
        let leader = leaders[v as usize];
        if leader == v {
            if count > 65535 - next as u64 {
                return Err(Refusal::TooLarge);
            }
            images.push(Image {
                leader,
                start: next,
                count: count as u32,
            })?;
            next += count as u32;
        } else {
            images.push(Image {
                leader,
                start: image_at(&images, leader).start,
                count: 1,
            })?;
        }
    }
    Ok(images)
}

// How many images a vertex has.
fn count_of(fate: Fate) -> u64
    ensures { result ≡ count_of fate }
{
    match fate {
        Fate::Copies(count) => count,
        Fate::Class(_) => 1,
    }
}

// For each vertex the one in whose place its images stand.
fn find_leaders(alloc: Global, fates: &[Fate]) -> Result<Vec<u32>, AllocError>
    requires { length fates.now ≤ 65535 }
    ensures { IfOk result (λ vs. vs.items ≡ map (leader fates.now) (range_with_len 0 (length fates.now))) }
{
    let mut leaders = Vec::new(alloc);
    leaders.reserve(fates.len())?;
    let mut classes = HashMap::new(alloc);
    for v in 0..fates.len() as u32 {
        let leader = match fates[v as usize] {
            Fate::Copies(_) => v,
            Fate::Class(class) => join_class(&mut classes, class, v)?,
        };
        leaders.push(leader)?;
    }
    Ok(leaders)
}

// The first member of the class, which is v where there was none.
fn join_class(classes: &mut HashMap<u64, u32>, class: u64, v: u32) -> Result<u32, AllocError>
    ensures ok { IfOk result (λ u. u ≡ unwrap_or (get nat_eq classes.old class) v) }
    ensures classes { IfOk result
        (λ u. (c : ℕ) → get nat_eq classes.new c ≡ (if class == c then Some u else get nat_eq classes.old c)) }
{
    match classes.get(&class).copied() {
        Some(first) => Ok(first),
        None => {
            classes.insert(class, v)?;
            Ok(v)
        }
    }
}

// The image of this number, or none.
#[inline]
pub(crate) fn image_at(images: &[Image], v: u32) -> Image
    ensures { result ≡ image_at images.now v }
{
    match images.get(v as usize) {
        Some(image) => *image,
        None => Image {
            leader: 0,
            start: 0,
            count: 0,
        },
    }
}
