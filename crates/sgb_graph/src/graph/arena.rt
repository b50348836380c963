//! The arcs of a graph by number.
ghost use Rattle.std.specs.Prelude.{◌≡◌, ◌<◌, ◌≤◌, ◌^◌, ◌-◌, ◌+◌, ◌*◌, ◌∷◌, ◌++◌, ◌&&◌, [], true, false, All, FitsSigned, length, map, vec_len, vec_capacity, take, is_some, IsSome, None, Some, IfOk, IfErr, IsErr, OnOk, OnErr, slice_index_or, slice_set};
ghost use Rattle.std.specs.List.{list_all, zip};
ghost use Rattle.sgb_graph.specs.declared.field.Util.TheVariants as utils;
ghost use Rattle.sgb_graph.specs.Builder.{insertion};
ghost use Rattle.sgb_graph.specs.Honest.{are_allowed};
ghost use Rattle.sgb_graph.specs.Read.{leads_on};
ghost use Rattle.sgb_graph.specs.Private.Fill.{with_aim_in};
ghost use Rattle.sgb_graph.specs.Private.Arena.{slot_at, entry_of, next_at, owner_in, tip_in, names_counted, view_in, len_in, with_len_in};
ghost use Rattle.sgb_graph.specs.Private.Cells.{two_zeros, slot_with, new_cell, unnamed_slot, owned_allowed, is_aimed};
ghost use Rattle.sgb_graph.specs.Private.Exchange.{fields_in, with_field};
ghost use Rattle.sgb_graph.specs.Private.Insert.{IsRefusedAt, both, with_new_arc, with_new_edge};
ghost use Rattle.sgb_graph.specs.Private.Lay.{laid_cell, laid_slot};
ghost use Rattle.sgb_graph.specs.Private.Link.{slots_relinked, slots_gaining, slots_losing, IsCounted};
ghost use Rattle.sgb_graph.specs.Private.SameRows.{each_eq, slot_eq};
ghost use Rattle.sgb_graph.specs.Private.Walk.{is_loop_in};

use super::codes::{Link, OwnerCode, TipCode};
use super::fields::{kept_at, put_fields, replace_kept, take_fields, two_zeros};
use super::honest::are_allowed;
use super::lay::Chained;
use super::paired::is_vertex;
use super::read::ArcView;
use super::room::make_room;
use super::same::{is_link_same, is_tip_same};
use super::vertices::Vertices;
use crate::{ArcNo, Refusal, Tip, Util, VertexNo};
use std::alloc::{AllocError, Global};
use std::marker::Model;
use std::mem::{self, size_of};

/// A live arc as it is kept.
#[derive(Drop)]
pub(crate) struct Slot {
    pub owner: VertexNo,
    pub tip: TipCode,
    /// The arc that follows in the owner's list.
    pub next: Link,
    /// How many fields of the graph name this arc.
    pub names: u32,
    pub len: i64,
    pub fields: [Util; 2],
}

/// A live arc without its fields, or a hole.
#[derive(Clone, Copy)]
pub(crate) struct Cell {
    // None: a hole.
    pub owner: OwnerCode,
    pub tip: TipCode,
    pub next: Link,
    pub names: u32,
    pub len: i64,
}

// The fields are kept apart, since few arcs have one that is set.
const _: () = prove!(size_of::<Cell>() == 24);

/// The slots by number, each an arc or a hole.
#[derive(Drop)]
pub(crate) struct Arena {
    cells: Vec<Cell>,
    // The fields of the first arcs: those of all others are Zero. There is room for those of all arcs, so that a
    // field is set without memory.
    fields: Vec<[Util; 2]>,
    // What all others have.
    zeros: [Util; 2],
}

impl Model for Arena {
    ghost use Rattle.std.specs.Prelude.{◌≡◌, ◌≤◌, List, Option, vec_len, vec_capacity};
    ghost use Rattle.sgb_graph.specs.declared.graph.arena.Slot.{Slot};

    ghost Value = { List (Option Slot) };

    ghost use Rattle.sgb_graph.specs.Private.Cells.{zipped, two_zeros};

    ghost view = { λ a. zipped a.cells.items a.fields.items };

    ghost invariant = { λ a. (vec_len a.fields ≤ vec_len a.cells) × (vec_len a.cells ≤ vec_capacity a.fields) × (vec_len a.cells ≤ 1000000) × (a.zeros ≡ two_zeros) };
}

impl Arena {
    /// No slots. Takes no memory.
    pub fn new(alloc: Global) -> Arena
        ensures { result ≡ [] }
    {
        Arena {
            cells: Vec::new(alloc),
            fields: Vec::new(alloc),
            zeros: two_zeros(),
        }
    }

    /// The slots of these records: those that have an owner are arcs, which lead nowhere yet.
    pub fn laid(alloc: Global, rows: &[Chained]) -> Result<Arena, AllocError>
        requires { length rows.now ≤ 1000000 }
        ensures ok { IfOk result (λ slots. slots ≡ map laid_slot rows.now) }
        ensures room { IsErr result → 0 < length rows.now }
    {
        let mut cells = Vec::with_capacity(alloc, rows.len())?;
        let fields = Vec::with_capacity(alloc, rows.len())?;
        push_laid(&mut cells, rows);
        Ok(Arena {
            cells,
            fields,
            zeros: two_zeros(),
        })
    }

    pub fn len(&self) -> usize
        ensures { result ≡ length self.now }
    {
        self.cells.len()
    }

    /// Takes room for so many slots more.
    pub fn reserve(&mut self, count: usize) -> Result<(), Refusal>
        ensures same { self.new ≡ self.old }
        ensures err { IfErr result (IsRefusedAt (length self.old + count)) }
    {
        make_room(&mut self.cells, &mut self.fields, count)
    }

    /// Adds a new arc, last, first in the list of its owner.
    #[inline(always)]
    pub fn push_arc(
        &mut self,
        vertices: &mut Vertices,
        from: VertexNo,
        to: VertexNo,
        len: i64,
    ) -> Result<(), Refusal>
        requires from { from.0 < length vertices.old }
        requires to { to.0 < length vertices.old }
        requires vertices { length vertices.old ≤ 65535 }
        ensures joined { OnOk result
            (both vertices.new self.new ≡ with_new_arc (both vertices.old self.old) (insertion from.0 to.0 len)) }
        ensures few { OnOk result (length self.old + 1 ≤ 1000000) }
        ensures err { IfErr result (IsRefusedAt (length self.old + 1)) }
        ensures unchanged { OnErr result (self.new ≡ self.old) }
        ensures vertices { OnErr result (vertices.new ≡ vertices.old) }
    {
        make_room(&mut self.cells, &mut self.fields, 1)?;
        let number = ArcNo(self.cells.len() as u32);
        let next = vertices.replace_first(from, Link::to(number));
        self.cells.push_reserved(new_cell(from, to, next, len));
        Ok(())
    }

    /// Adds the two arcs of a new edge, last, each first in the list of its owner. The second arc is linked first, so
    /// that of a loop the first stands before it.
    #[inline(always)]
    pub fn push_edge(
        &mut self,
        vertices: &mut Vertices,
        from: VertexNo,
        to: VertexNo,
        len: i64,
    ) -> Result<(), Refusal>
        requires from { from.0 < length vertices.old }
        requires to { to.0 < length vertices.old }
        requires vertices { length vertices.old ≤ 65535 }
        ensures joined { OnOk result
            (both vertices.new self.new ≡ with_new_edge (both vertices.old self.old) (insertion from.0 to.0 len)) }
        ensures few { OnOk result (length self.old + 2 ≤ 1000000) }
        ensures err { IfErr result (IsRefusedAt (length self.old + 2)) }
        ensures unchanged { OnErr result (self.new ≡ self.old) }
        ensures vertices { OnErr result (vertices.new ≡ vertices.old) }
    {
        make_room(&mut self.cells, &mut self.fields, 2)?;
        let number = ArcNo(self.cells.len() as u32);
        let low = VertexNo(from.0.min(to.0));
        let high = VertexNo(from.0.max(to.0));
        let after_high = vertices.replace_first(high, Link::to(ArcNo(number.0 + 1)));
        let after_low = vertices.replace_first(low, Link::to(number));
        self.cells
            .push_reserved(new_cell(low, high, after_low, len));
        self.cells
            .push_reserved(new_cell(high, low, after_high, len));
        Ok(())
    }

    /// Takes back all slots but the first ones.
    pub fn truncate(&mut self, len: usize)
        ensures { self.new ≡ take len self.old }
    {
        self.cells.truncate(len);
        self.fields.truncate(len);
    }

    /// Puts an arc that no field names in place of a hole.
    #[inline(always)]
    pub fn put(
        &mut self,
        number: ArcNo,
        owner: VertexNo,
        tip: TipCode,
        next: Link,
        len: i64,
        fields: [Util; 2],
    )
        requires number { number.0 < length self.old }
        requires owner { owner.0 < 65535 }
        ensures { self.new ≡ slice_set self.old number.0 (Some (unnamed_slot owner tip next len fields)) }
    {
        put_fields(&mut self.fields, number.0 as usize, fields);
        self.cells[number.0 as usize] = Cell {
            owner: OwnerCode::new(owner),
            tip,
            next,
            names: 0,
            len,
        };
    }

    /// Makes the number of a live arc a hole, and answers the arc.
    pub fn remove(&mut self, number: ArcNo) -> Slot
        requires { IsSome (slot_at self.old number.0) }
        ensures slot { slot_at self.old number.0 ≡ Some result }
        ensures slots { self.new ≡ slice_set self.old number.0 None }
    {
        let cell = self.cell(number.0 as usize);
        let fields = self.clear(number.0 as usize);
        match cell.owner.get() {
            Some(owner) => Slot {
                owner,
                tip: cell.tip,
                next: cell.next,
                names: cell.names,
                len: cell.len,
                fields,
            },
            None => unreachable!(),
        }
    }

    // Makes the slot of a live arc a hole, and answers its fields.
    fn clear(&mut self, index: usize) -> [Util; 2]
        requires { IsSome (slot_at self.old index) }
        ensures fields { result ≡ fields_in (slot_at self.old index) }
        ensures slots { self.new ≡ slice_set self.old index None }
    {
        self.cells[index].owner = OwnerCode::none();
        take_fields(&mut self.fields, index)
    }

    /// An arc has this number.
    pub fn has(&self, number: ArcNo) -> bool
        ensures { result ≡ is_some (slot_at self.now number.0) }
    {
        self.names(number).is_some()
    }

    // What is kept of this slot but its fields.
    fn cell(&self, index: usize) -> Cell
        requires { index < length self.now }
        ensures { slot_at self.now index ≡ slot_with (fields_in (slot_at self.now index)) result }
    {
        self.cells[index]
    }

    // Keeps this of the slot, beside its fields.
    fn set_cell(&mut self, index: usize, cell: Cell)
        requires { IsSome (slot_at self.old index) }
        ensures { self.new ≡ slice_set self.old index (slot_with (fields_in (slot_at self.old index)) cell) }
    {
        self.cells[index] = cell;
    }

    /// The arc of this number: its owner, tip and length.
    pub fn arc(&self, number: ArcNo) -> Option<ArcView>
        requires { number.0 < length self.now }
        ensures { result ≡ view_in (slot_at self.now number.0) }
    {
        let cell = self.cell(number.0 as usize);
        match cell.owner.get() {
            Some(owner) => Some(ArcView {
                owner,
                tip: cell.tip.get(),
                len: cell.len,
            }),
            None => None,
        }
    }

    /// The tip of a live arc.
    pub fn tip(&self, number: ArcNo) -> Tip
        requires { IsSome (slot_at self.now number.0) }
        ensures { tip_in (slot_at self.now number.0) ≡ Some result }
    {
        self.cell(number.0 as usize).tip.get()
    }

    /// The length of a live arc.
    pub fn length(&self, number: ArcNo) -> i64
        requires { IsSome (slot_at self.now number.0) }
        ensures { result ≡ len_in (slot_at self.now number.0) }
    {
        self.cell(number.0 as usize).len
    }

    /// The owner of a live arc.
    pub fn owner_at(&self, number: ArcNo) -> VertexNo
        requires { IsSome (slot_at self.now number.0) }
        ensures { owner_in (slot_at self.now number.0) ≡ Some result }
    {
        match self.cell(number.0 as usize).owner.get() {
            Some(owner) => owner,
            None => unreachable!(),
        }
    }

    /// The arc leads to its owner.
    pub fn is_loop(&self, number: ArcNo) -> bool
        requires { number.0 < length self.now }
        ensures { result ≡ is_loop_in (slot_at self.now number.0) }
    {
        let cell = self.cell(number.0 as usize);
        match cell.owner.get() {
            Some(owner) => is_vertex(owner.0, cell.tip.get()),
            None => false,
        }
    }

    /// The arc that follows a live one in its list.
    pub fn next_after(&self, number: ArcNo) -> Link
        requires { IsSome (slot_at self.now number.0) }
        ensures { result ≡ next_at self.now number.0 }
    {
        self.cell(number.0 as usize).next
    }

    /// Replaces the link that follows this arc, and gives the one that was there.
    pub fn replace_next(&mut self, number: ArcNo, link: Link) -> Link
        requires { number.0 < length self.old }
        ensures old { result ≡ next_at self.old number.0 }
        ensures slots { self.new ≡ slots_relinked self.old (Some number) link }
    {
        let mut cell = self.cell(number.0 as usize);
        match cell.owner.get() {
            Some(_) => {
                let old = mem::replace(&mut cell.next, link);
                self.set_cell(number.0 as usize, cell);
                old
            }
            None => Link::none(),
        }
    }

    /// How many fields of the graph name the arc of this number.
    pub fn names(&self, number: ArcNo) -> Option<u32>
        ensures { result ≡ names_counted (slot_at self.now number.0) }
    {
        if number.0 as usize >= self.len() {
            return None;
        }
        let cell = self.cell(number.0 as usize);
        match cell.owner.get() {
            Some(_) => Some(cell.names),
            None => None,
        }
    }

    /// Counts one more field that has this value.
    pub fn gain_name(&mut self, value: &Util)
        requires { IsCounted self.old 0 (2 ^ 32 - 1) value.now }
        ensures { self.new ≡ slots_gaining self.old value.now }
    {
        if let Util::Arc(number) = value {
            let mut cell = self.cell(number.0 as usize);
            if let Some(_) = cell.owner.get() {
                cell.names += 1;
                self.set_cell(number.0 as usize, cell);
            }
        }
    }

    /// Counts one field less that has this value.
    pub fn lose_name(&mut self, value: &Util)
        requires { IsCounted self.old 1 (2 ^ 32) value.now }
        ensures { self.new ≡ slots_losing self.old value.now }
    {
        if let Util::Arc(number) = value {
            let mut cell = self.cell(number.0 as usize);
            if let Some(_) = cell.owner.get() {
                cell.names -= 1;
                self.set_cell(number.0 as usize, cell);
            }
        }
    }

    /// Gives a live arc another length, and answers the one that it had.
    pub fn replace_len(&mut self, number: ArcNo, len: i64) -> i64
        requires { IsSome (slot_at self.old number.0) }
        ensures old { result ≡ len_in (slot_at self.old number.0) }
        ensures slots { self.new ≡ slice_set self.old number.0 (with_len_in len (slot_at self.old number.0)) }
    {
        let mut cell = self.cell(number.0 as usize);
        let old = mem::replace(&mut cell.len, len);
        self.set_cell(number.0 as usize, cell);
        old
    }

    /// Gives a live arc another tip and another length.
    pub fn aim(&mut self, number: ArcNo, tip: TipCode, len: i64)
        requires { IsSome (slot_at self.old number.0) }
        ensures { self.new ≡ slice_set self.old number.0 (with_aim_in tip len (slot_at self.old number.0)) }
    {
        let mut cell = self.cell(number.0 as usize);
        cell.tip = tip;
        cell.len = len;
        self.set_cell(number.0 as usize, cell);
    }

    /// The fields of a live arc.
    pub fn fields(&self, index: usize) -> &[Util; 2]
        requires { IsSome (slot_at self.now index) }
        ensures { result.now ≡ fields_in (slot_at self.now index) }
    {
        kept_at(&self.fields, &self.zeros, index)
    }

    /// A field of a live arc.
    pub fn field(&self, number: ArcNo, place: usize) -> &Util
        requires number { number.0 < length self.now }
        requires fields { length (fields_in (slot_at self.now number.0)) ≡ 2 }
        requires place { place < 2 }
        ensures { result.now ≡ slice_index_or (fields_in (slot_at self.now number.0)) place utils.Zero }
    {
        &self.fields(number.0 as usize)[place]
    }

    /// Puts a value into a field of a live arc, and gives the one that was there. Counts no names. Takes no memory,
    /// but the first value that is put beyond all arcs that ever had one costs time of the arcs between.
    pub fn replace_field(&mut self, number: ArcNo, place: usize, value: Util) -> Util
        requires number { number.0 < length self.old }
        requires fields { length (fields_in (slot_at self.old number.0)) ≡ 2 }
        requires place { place < 2 }
        ensures old { result ≡ slice_index_or (fields_in (slot_at self.old number.0)) place utils.Zero }
        ensures slots { self.new ≡ slice_set self.old number.0 (with_field place value (slot_at self.old number.0)) }
    {
        replace_kept(&mut self.fields, number.0 as usize, place, value)
    }

    /// Each value of an arc is one that its letter allows.
    pub fn is_honest(&self, letters: &[u8]) -> bool
        ensures { result ≡ list_all (λ o. are_allowed letters.now (fields_in o)) self.now }
    {
        are_cells_honest(letters, &self.cells, &self.fields)
    }

    /// Each arc leads to a vertex.
    pub fn is_aimed(&self) -> bool
        ensures { result ≡ list_all (λ o. leads_on (entry_of o)) self.now }
    {
        are_cells_aimed(&self.cells)
    }

    /// The slots are alike, but for what the others tell.
    pub fn is_same(&self, other: &Arena) -> bool
        ensures { result ≡ each_eq slot_eq self.now other.now }
    {
        if self.len() != other.len() {
            return false;
        }
        for index in 0..self.len() {
            if !self.is_slot_same(other, index) {
                return false;
            }
        }
        true
    }

    // The owner and the count of names need no look: the others tell them.
    fn is_slot_same(&self, other: &Arena, index: usize) -> bool
        requires here { index < length self.now }
        requires there { index < length other.now }
        ensures { result ≡ slot_eq (slot_at self.now index) (slot_at other.now index) }
    {
        let cell = self.cell(index);
        let other_cell = other.cell(index);
        match (cell.owner.get(), other_cell.owner.get()) {
            (Some(_), Some(_)) => {
                is_tip_same(cell.tip.get(), other_cell.tip.get())
                    && is_link_same(cell.next, other_cell.next)
                    && cell.len == other_cell.len
                    && self.fields(index) == other.fields(index)
            }
            (None, None) => true,
            _ => false,
        }
    }
}

fn new_cell(owner: VertexNo, to: VertexNo, next: Link, len: i64) -> Cell
    requires owner { owner.0 < 65535 }
    requires to { to.0 < 65535 }
    ensures { result ≡ new_cell owner to next len }
{
    Cell {
        owner: OwnerCode::new(owner),
        tip: TipCode::new(Tip::To(to)),
        next,
        names: 0,
        len,
    }
}

// Adds the cells of these records, last.
fn push_laid(cells: &mut Vec<Cell>, rows: &[Chained])
    requires { vec_len cells.old + length rows.now ≤ vec_capacity cells.old }
    ensures cells { cells.new.items ≡ cells.old.items ++ map laid_cell rows.now }
    ensures len { vec_len cells.new ≡ vec_len cells.old + length rows.now }
    ensures capacity { vec_capacity cells.new ≡ vec_capacity cells.old }
{
    for row in rows {
        cells.push_reserved(laid_cell(row));
    }
}

fn laid_cell(row: &Chained) -> Cell
    ensures { result ≡ laid_cell row.now }
{
    Cell {
        owner: row.owner,
        tip: TipCode::new(Tip::Zero),
        next: row.next,
        names: 0,
        len: 0,
    }
}

// Each cell's arc, as far as there are fields.
fn are_cells_honest(letters: &[u8], cells: &[Cell], fields: &[[Util; 2]]) -> bool
    ensures { result ≡ list_all (λ p. owned_allowed letters.now p.0.owner p.1) (zip cells.now fields.now) }
{
    cells
        .iter()
        .zip(fields)
        .all(|(cell, fields)| is_cell_honest(letters, cell, fields))
}

fn is_cell_honest(letters: &[u8], cell: &Cell, fields: &[Util; 2]) -> bool
    ensures { result ≡ owned_allowed letters.now cell.now.owner fields.now }
{
    match cell.owner.get() {
        Some(_) => are_allowed(letters, fields),
        None => true,
    }
}

// A hole, or an arc that leads to a vertex.
fn is_aimed(cell: &Cell) -> bool
    ensures { result ≡ is_aimed cell.now }
{
    match cell.owner.get() {
        Some(_) => matches!(cell.tip.get(), Tip::To(_)),
        None => true,
    }
}

fn are_cells_aimed(cells: &[Cell]) -> bool
    ensures { result ≡ list_all is_aimed cells.now }
{
    cells.iter().all(|cell| is_aimed(cell))
}
