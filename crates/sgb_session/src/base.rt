//! What single commands change: a generator and named graphs.
ghost use Rattle.std.specs.Prelude.{◌≡◌, ◌<◌, ◌≤◌, ◌⊎◌, length, true, IfOk, IfErr, OnErr};
ghost use Rattle.sgb_undo.specs.Outcome.{Accepted, Refused};
ghost use Rattle.sgb_script.specs.declared.command.Single.TheVariants as commands;
ghost use Rattle.sgb_session.specs.Drawing.{drawn_from, generator_of};
ghost use Rattle.sgb_session.specs.Edits.{refusal_from};
ghost use Rattle.sgb_session.specs.Private.Making.{Judges, Performs};
ghost use Rattle.sgb_session.specs.State.{is_spent};

use crate::making::{goes_on, has_operands, make_boxed};
use crate::mark::Mark;
use crate::reply::{SingleDelta, SingleReply};
use crate::table::{MOST_GRAPHS, Table};
use sgb_combine::LengthsSpec;
use sgb_graph::Refusal;
use sgb_make::Seed;
use sgb_script::{Edit, Maker, Name, ShellRefusal, Single};
use sgb_undo::Reversible;
use std::alloc::Global;
use std::marker::Model;

/// No number is drawn any more where so many were drawn since the seeding.
pub const MOST_DRAWS: u64 = 1 << 62;

/// The greatest bound of a uniform number.
pub const MOST_UNIFORM: i64 = 1 << 31;

/// A generator and named graphs, as a machine whose commands are single ones.
///
/// [`Session`](crate::Session) stands above it, whose commands may be groups.
#[derive(Drop)]
pub struct Base {
    alloc: Global,
    pub(crate) generator: Mark,
    pub(crate) table: Table,
}

impl Model for Base {
    ghost use Rattle.sgb_session.specs.State.{State};

    ghost Value = { State };

    ghost view = { λ s. record { generator = s.generator; table = s.table } };
}

impl Base {
    ghost use Rattle.sgb_session.specs.State.{empty};

    /// The generator of seed 0 and no graphs. Does not allocate.
    pub fn new(alloc: Global) -> Base
        ensures { result ≡ empty }
    {
        Base {
            alloc,
            generator: Mark::new(0),
            table: Table::new(),
        }
    }

    fn seed(&mut self, seed: i64) -> Result<(SingleDelta, SingleReply), ShellRefusal>
        ensures { Performs self.old self.new (commands.Seed seed) result }
    {
        let before = self.generator;
        self.generator = Mark::new(seed);
        Ok((SingleDelta::Seed(before), SingleReply::Done))
    }

    fn draw(&mut self) -> Result<(SingleDelta, SingleReply), ShellRefusal>
        ensures { Performs self.old self.new commands.Next result }
    {
        if self.generator.draws() >= MOST_DRAWS {
            return Err(ShellRefusal::TooLarge);
        }
        let number = self.generator.next();
        Ok((SingleDelta::Draws(1), SingleReply::Number(number)))
    }

    fn draw_below(&mut self, bound: i64) -> Result<(SingleDelta, SingleReply), ShellRefusal>
        ensures { Performs self.old self.new (commands.Unif bound) result }
    {
        if self.generator.draws() >= MOST_DRAWS {
            return Err(ShellRefusal::TooLarge);
        }
        if bound < 1 || bound > MOST_UNIFORM {
            return Err(ShellRefusal::BadSpecs);
        }
        let drawn = self.generator.uniform(bound as u32);
        Ok((
            SingleDelta::Draws(u64::from(drawn.draws)),
            SingleReply::Number(drawn.value),
        ))
    }

    // Makes a graph, which then stands last.
    fn make(
        &mut self,
        name: Name,
        maker: &Maker,
    ) -> Result<(SingleDelta, SingleReply), ShellRefusal>
        ensures { Performs self.old self.new (commands.Make name maker.now) result }
    {
        self.judge(&name, maker)?;
        match make_boxed(self.alloc, &mut self.generator, &self.table, maker) {
            Ok((boxed, delta)) => {
                let graph = boxed.get();
                let reply = SingleReply::Made(name, graph.n(), graph.m());
                self.table.push(name, boxed);
                Ok((delta, reply))
            }
            Err(refusal) => Err(refusal_of(refusal)),
        }
    }

    // Whether a maker may make a graph of this name.
    fn judge(&self, name: &Name, maker: &Maker) -> Result<(), ShellRefusal>
        ensures { Judges self.now name.now maker.now result }
    {
        if !has_operands(&self.table, maker) {
            return Err(ShellRefusal::NoGraph);
        }
        if self.table.has(name) {
            return Err(ShellRefusal::NameTaken);
        }
        if self.table.len() >= MOST_GRAPHS {
            return Err(ShellRefusal::TableFull);
        }
        if goes_on(maker) && self.generator.draws() >= MOST_DRAWS {
            return Err(ShellRefusal::TooLarge);
        }
        Ok(())
    }

    fn edit(&mut self, name: &Name, edit: &Edit) -> Result<(SingleDelta, SingleReply), ShellRefusal>
        ensures { Performs self.old self.new (commands.Edit name.now edit.now) result }
    {
        let Some(place) = self.table.find(name) else {
            return Err(ShellRefusal::NoGraph);
        };
        match self.table.edit(self.alloc, place, edit) {
            Ok((delta, reply)) => Ok((SingleDelta::Edit(place, delta), reply)),
            Err(refusal) => Err(refusal_of(refusal)),
        }
    }

    // Gives the graph of this name random lengths.
    fn lengthen(
        &mut self,
        name: &Name,
        spec: &LengthsSpec,
        seed: Seed,
    ) -> Result<(SingleDelta, SingleReply), ShellRefusal>
        ensures { Performs self.old self.new (commands.Lengths name.now spec.now seed) result }
    {
        let Some(place) = self.table.find(name) else {
            return Err(ShellRefusal::NoGraph);
        };
        if is_spent(&self.generator, seed) {
            return Err(ShellRefusal::TooLarge);
        }
        match self
            .table
            .lengthen(self.alloc, place, &mut self.generator, spec, seed)
        {
            Ok((delta, source)) => Ok((
                SingleDelta::Lengths(place, delta, source),
                SingleReply::Done,
            )),
            Err(refusal) => Err(refusal_of(refusal)),
        }
    }

    // Takes the graph of this name out of the table.
    fn drop_graph(&mut self, name: &Name) -> Result<(SingleDelta, SingleReply), ShellRefusal>
        ensures { Performs self.old self.new (commands.Drop name.now) result }
    {
        let Some(place) = self.table.find(name) else {
            return Err(ShellRefusal::NoGraph);
        };
        let entry = self.table.remove(place);
        Ok((
            SingleDelta::Dropped(place, entry.name, entry.graph),
            SingleReply::Done,
        ))
    }
}

// Whether random work with this seed finds its generator spent. That of a number is new.
fn is_spent(generator: &Mark, seed: Seed) -> bool
    ensures { result ≡ is_spent (drawn_from seed generator.now) }
{
    match seed {
        Seed::Number(_) => false,
        Seed::Current => generator.draws() >= MOST_DRAWS,
    }
}

fn refusal_of(refusal: Refusal) -> ShellRefusal
    ensures { result ≡ refusal_from refusal }
{
    match refusal {
        Refusal::NoRoom => ShellRefusal::NoRoom,
        Refusal::CheckWrong => ShellRefusal::CheckWrong,
        Refusal::Syntax => ShellRefusal::Syntax,
        Refusal::BadSpecs => ShellRefusal::BadSpecs,
        Refusal::LengthRange => ShellRefusal::LengthRange,
        Refusal::TooLarge => ShellRefusal::TooLarge,
        Refusal::BadOperand => ShellRefusal::BadOperand,
        Refusal::Stuck => ShellRefusal::Stuck,
    }
}

impl Reversible for Base {
    ghost use Rattle.sgb_session.specs.State.{step, before, can_revert, takes_memory, may_want};
    ghost use Rattle.sgb_script.specs.Refusal.{is_no_room};

    type Command = Single;

    type Delta = SingleDelta;

    type Reply = SingleReply;

    type Refusal = ShellRefusal;

    ghost step = { step };

    ghost before = { before };

    ghost can_revert = { can_revert };

    ghost is_want_of_memory = { is_no_room };

    ghost may_want = { may_want };

    /// Performs a command. Only a new graph, a new arc or edge, new lengths and a text take memory: a text before
    /// anything is judged, a new arc or edge and a graph without arcs only where the command is accepted, and other new
    /// graphs and lengths once their names and the generator are good.
    #[inline(always)]
    fn apply(&mut self, command: &Single) -> Result<(SingleDelta, SingleReply), ShellRefusal>
        ensures accepted { IfOk result (λ a. step self.old command.now ≡ Accepted self.new a.0 a.1) }
        ensures can_revert { IfOk result (λ a. can_revert self.new a.0) }
        ensures before { IfOk result (λ a. before self.new a.0 ≡ self.old) }
        ensures refused { IfErr result (λ r.
            ((is_no_room r ≡ true) × (may_want self.old command.now ≡ true)) ⊎ (step self.old command.now ≡ Refused r)) }
        ensures err { OnErr result (self.new ≡ self.old) }
        ensures memory { IfErr result (λ r. (takes_memory command.now ≡ true) ⊎ (step self.old command.now ≡ Refused r)) }
    {
        match command {
            Single::Seed(seed) => self.seed(*seed),
            Single::Next => self.draw(),
            Single::Unif(bound) => self.draw_below(*bound),
            Single::Make(name, maker) => self.make(*name, maker),
            Single::Edit(name, edit) => self.edit(name, edit),
            Single::Lengths(name, spec, seed) => self.lengthen(name, spec, *seed),
            Single::Drop(name) => self.drop_graph(name),
        }
    }

    #[inline(always)]
    fn revert(&mut self, delta: SingleDelta) {
        match delta {
            SingleDelta::Seed(mark) => self.generator = mark,
            SingleDelta::Draws(draws) => self.generator.back_by(draws),
            SingleDelta::Made => self.table.pop(),
            SingleDelta::MadeBy(source) => {
                self.generator.turn_back(source);
                self.table.pop();
            }
            SingleDelta::Edit(place, delta) => self.table.revert(place, delta),
            SingleDelta::Lengths(place, delta, source) => {
                self.generator.turn_back(source);
                self.table.revert_lengths(place, delta);
            }
            SingleDelta::Dropped(place, name, graph) => self.table.insert(place, name, graph),
        }
    }

    fn is_memory(refusal: &ShellRefusal) -> bool {
        matches!(refusal, ShellRefusal::NoRoom)
    }
}
