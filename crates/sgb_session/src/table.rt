//! The named graphs of a session.
ghost use Rattle.std.specs.Prelude.{◌≡◌, ◌<◌, ◌≤◌, ◌^◌, ◌-◌, ◌++◌, ◌∷◌, [], length, take, insert, remove, IsSome, is_some, true};
ghost use Rattle.std.specs.List.{position};
ghost use Rattle.std.specs.Str.{bytes_eq};
ghost use Rattle.sgb_graph.specs.Graph.{GraphOf};
ghost use Rattle.sgb_graph.specs.Delta.{LeftBy};
ghost use Rattle.sgb_graph.specs.Reverted.{reverted};
ghost use Rattle.sgb_combine.specs.Lengths.{CanRevertLengths, before_lengths};
ghost use Rattle.sgb_session.specs.Drawing.{drawn_from};
ghost use Rattle.sgb_session.specs.Private.Making.{AtPlace, InSlot, Edits};
ghost use Rattle.sgb_session.specs.Private.Slots.{held, slot_in, slot_with_graph};
ghost use Rattle.sgb_session.specs.Private.Working.{Lengthens};
ghost use Rattle.sgb_session.specs.Table.{find, entry_in, graph_in, graph_named, with_graph};

use crate::boxed::Boxed;
use crate::edit::make_edit;
use crate::mark::Mark;
use crate::reply::{SingleReply, Source};
use arrayvec::ArrayVec;
use sgb_combine::{LengthsDelta, LengthsSpec, revert_lengths};
use sgb_graph::{Graph, GraphDelta, Refusal};
use sgb_make::Seed;
use sgb_script::{Edit, Name};
use std::alloc::Global;
use std::marker::Model;

/// The most graphs of a session.
pub const MOST_GRAPHS: usize = 64;

/// A graph and its name.
#[derive(Drop)]
pub struct Entry {
    pub(crate) name: Name,
    pub(crate) graph: Boxed<Graph>,
}

/// The graphs in their order. Each lies in a box of its own, and none is ever copied.
#[derive(Drop)]
pub(crate) struct Table {
    // A place that is used holds an entry.
    entries: ArrayVec<Option<Entry>, MOST_GRAPHS>,
}

impl Model for Table {
    ghost use Rattle.std.specs.Prelude.{List, map, All, IsSome};
    ghost use Rattle.sgb_session.specs.declared.table.Entry.{Entry};
    ghost use Rattle.sgb_session.specs.Private.Slots.{held};

    ghost Value = { List Entry };

    ghost view = { λ t. map held t.entries.items };

    ghost invariant = { λ t. All (λ o. IsSome o) t.entries.items };
}

impl Table {
    pub(crate) fn new() -> Table
        ensures { result ≡ [] }
    {
        Table {
            entries: ArrayVec::new(),
        }
    }

    pub(crate) fn len(&self) -> usize
        ensures value { result ≡ length self.now }
        ensures few { result ≤ 64 }
    {
        self.entries.len()
    }

    pub(crate) fn entry(&self, place: usize) -> &Entry
        requires { place < length self.now }
        ensures { result.now ≡ entry_in self.now place }
    {
        match &self.entries.as_slice()[place] {
            Some(entry) => entry,
            None => unreachable!(),
        }
    }

    pub(crate) fn graph(&self, place: usize) -> &Graph
        requires { place < length self.now }
        ensures { result.now ≡ graph_in self.now place }
    {
        self.entry(place).graph.get()
    }

    pub(crate) fn find(&self, name: &Name) -> Option<usize>
        ensures { result ≡ find self.now name.now }
    {
        find_slot(self.entries.as_slice(), name.bytes())
    }

    pub(crate) fn has(&self, name: &Name) -> bool
        ensures { result ≡ is_some (find self.now name.now) }
    {
        self.find(name).is_some()
    }

    pub(crate) fn named(&self, name: &Name) -> &Graph
        requires { is_some (find self.now name.now) ≡ true }
        ensures { result.now ≡ graph_named self.now name.now }
    {
        match self.find(name) {
            Some(place) => self.graph(place),
            None => unreachable!(),
        }
    }

    pub(crate) fn push(&mut self, name: Name, graph: Boxed<Graph>)
        requires { length self.old < 64 }
        ensures { self.new ≡ self.old ++ record { name = name; graph = graph } ∷ [] }
    {
        self.entries.push(Some(Entry { name, graph }));
    }

    pub(crate) fn pop(&mut self)
        requires { 0 < length self.old }
        ensures { self.new ≡ take (length self.old - 1) self.old }
    {
        let _ = self.entries.pop();
    }

    /// Puts a graph at a place, before those that stand from there on.
    pub(crate) fn insert(&mut self, place: usize, name: Name, graph: Boxed<Graph>)
        requires place { place ≤ length self.old }
        requires few { length self.old < 64 }
        ensures { self.new ≡ insert self.old place (record { name = name; graph = graph }) }
    {
        self.entries.insert(place, Some(Entry { name, graph }));
    }

    /// Takes the graph at a place away, and closes up.
    pub(crate) fn remove(&mut self, place: usize) -> Entry
        requires { place < length self.old }
        ensures entry { result ≡ entry_in self.old place }
        ensures table { self.new ≡ remove self.old place }
        ensures few { length self.new < 64 }
    {
        let _ = self.entries.len();
        match self.entries.remove(place) {
            Some(entry) => entry,
            None => unreachable!(),
        }
    }

    pub(crate) fn edit(
        &mut self,
        alloc: Global,
        place: usize,
        edit: &Edit,
    ) -> Result<(GraphDelta, SingleReply), Refusal>
        requires { place < length self.old }
        ensures { AtPlace (Edits edit.now result) self.old self.new place }
    {
        edit_slot(self.entries.as_mut_slice(), alloc, place, edit)
    }

    /// Takes an edit of the graph at a place back.
    pub(crate) fn revert(&mut self, place: usize, delta: GraphDelta)
        requires place { place < length self.old }
        requires left { (g : GraphOf) × LeftBy g delta (graph_in self.old place) }
        ensures { self.new ≡ with_graph self.old place (reverted (graph_in self.old place) delta) }
    {
        revert_slot(self.entries.as_mut_slice(), place, delta);
    }

    /// Gives the graph at a place random lengths from a generator.
    pub(crate) fn lengthen(
        &mut self,
        alloc: Global,
        place: usize,
        generator: &mut Mark,
        spec: &LengthsSpec,
        seed: Seed,
    ) -> Result<(LengthsDelta, Source), Refusal>
        requires place { place < length self.old }
        requires few { (drawn_from seed generator.old).draws < 2 ^ 62 }
        ensures { AtPlace (λ g h. Lengthens spec.now seed generator.old generator.new g h result) self.old self.new place }
    {
        lengthen_slot(
            self.entries.as_mut_slice(),
            alloc,
            place,
            generator,
            spec,
            seed,
        )
    }

    /// Gives the graph at a place its lengths back.
    pub(crate) fn revert_lengths(&mut self, place: usize, delta: LengthsDelta)
        requires place { place < length self.old }
        requires fits { CanRevertLengths delta (graph_in self.old place) }
        ensures { self.new ≡ with_graph self.old place (before_lengths delta (graph_in self.old place)) }
    {
        revert_lengths_in_slot(self.entries.as_mut_slice(), place, delta);
    }
}

fn find_slot(slots: &[Option<Entry>], name: &[u8]) -> Option<usize>
    ensures { result ≡ position (λ o. bytes_eq (held o).name name.now) slots.now }
{
    slots.iter().position(|slot| has_name(slot, name))
}

fn has_name(slot: &Option<Entry>, name: &[u8]) -> bool
    ensures { result ≡ bytes_eq (held slot.now).name name.now }
{
    match slot {
        Some(entry) => entry.name.bytes() == name,
        None => name.is_empty(),
    }
}

fn edit_slot(
    slots: &mut [Option<Entry>],
    alloc: Global,
    place: usize,
    edit: &Edit,
) -> Result<(GraphDelta, SingleReply), Refusal>
    requires place { place < length slots.old }
    requires some { IsSome (slot_in slots.old place) }
    ensures { InSlot (Edits edit.now result) slots.old slots.new place }
{
    match &mut slots[place] {
        Some(entry) => make_edit(alloc, &mut entry.graph.inner, edit),
        None => unreachable!(),
    }
}

fn revert_slot(slots: &mut [Option<Entry>], place: usize, delta: GraphDelta)
    requires place { place < length slots.old }
    requires some { IsSome (slot_in slots.old place) }
    requires left { (g : GraphOf) × LeftBy g delta (held (slot_in slots.old place)).graph }
    ensures { slots.new ≡ slot_with_graph slots.old place (reverted (held (slot_in slots.old place)).graph delta) }
{
    match &mut slots[place] {
        Some(entry) => entry.graph.inner.revert(delta),
        None => unreachable!(),
    }
}

fn lengthen_slot(
    slots: &mut [Option<Entry>],
    alloc: Global,
    place: usize,
    generator: &mut Mark,
    spec: &LengthsSpec,
    seed: Seed,
) -> Result<(LengthsDelta, Source), Refusal>
    requires place { place < length slots.old }
    requires some { IsSome (slot_in slots.old place) }
    requires few { (drawn_from seed generator.old).draws < 2 ^ 62 }
    ensures { InSlot (λ g h. Lengthens spec.now seed generator.old generator.new g h result) slots.old slots.new place }
{
    match &mut slots[place] {
        Some(entry) => generator.lengths(alloc, &mut entry.graph.inner, spec, seed),
        None => unreachable!(),
    }
}

fn revert_lengths_in_slot(slots: &mut [Option<Entry>], place: usize, delta: LengthsDelta)
    requires place { place < length slots.old }
    requires some { IsSome (slot_in slots.old place) }
    requires fits { CanRevertLengths delta (held (slot_in slots.old place)).graph }
    ensures { slots.new ≡ slot_with_graph slots.old place (before_lengths delta (held (slot_in slots.old place)).graph) }
{
    match &mut slots[place] {
        Some(entry) => revert_lengths(&mut entry.graph.inner, delta),
        None => unreachable!(),
    }
}
