//! The settled valuation of a ranked design.

ghost use Rattle.std.specs.Prelude.{◌≡◌, ◌<◌, IfOk, false, length, replicate};
ghost use Rattle.design_core.specs.Design.{net_count};
ghost use Rattle.design_core.specs.Event.{IsAfter};
ghost use Rattle.design_core.specs.Limits.{word_count};
ghost use Rattle.design_core.specs.Settled.{IsOpened, IsSettled};
ghost use Rattle.design_core.specs.Valuation.{IsAddress, WordsFit};
ghost use Rattle.settled_model.specs.Clocked.{AreClocked};
ghost use Rattle.settled_model.specs.Held.{AreBases, Stands, holding, valuation};
ghost use Rattle.settled_model.specs.Opening.{AreInputs, Opens, stands_for};
ghost use Rattle.settled_model.specs.Steps.{ArePlanned};

use crate::clocked::{clocked_nets, take_bits};
use crate::laws::openings_fit;
use crate::memory::{bases_of, put_words, word_at};
use crate::opening::Opening;
use crate::pass::run_pass;
use crate::steps::{Step, steps_of};
use crate::tables::{put_values, set_states};
use crate::turn::Turn;
use clock_rank::Ranked;
use design_core::PortValues;
use emu_io::NoMemory;
use history_law::events::events_keep_settled;
use history_law::words::{events_keep_words_fit, opened_words_fit};
use id_arena::{Key, MemId, NetId};
use std::alloc::Global;
use std::marker::Model;
use std::mem;

/// The settled valuation of a ranked design, from its opening on and through its events.
///
/// A clause sees the design's parts, the value of each net, and the words of all memories, one after the
/// other. That the valuation is settled, and that its words fit their memories, stands with it: `stands`.
#[derive(Drop)]
pub struct Settled<'a> {
    ranked: &'a Ranked<'a>,
    /// How each node of the order gets its turn.
    steps: Vec<Step>,
    /// The value of each net.
    nets: Vec<bool>,
    /// Room for the values after the next event.
    next: Vec<bool>,
    /// Where the words of each memory begin.
    bases: Vec<usize>,
    words: Vec<u128>,
    /// The bits of read ports with a clock.
    clocked: Vec<NetId>,
}

impl<'a> Model for Settled<'a> {
    ghost use Rattle.std.specs.Prelude.{◌≡◌, length};
    ghost use Rattle.design_core.specs.Design.{net_count};
    ghost use Rattle.design_core.specs.Limits.{word_count};
    ghost use Rattle.settled_model.specs.Clocked.{AreClocked};
    ghost use Rattle.settled_model.specs.Held.{AreBases, Held, Stands, holding};
    ghost use Rattle.settled_model.specs.Steps.{ArePlanned};

    ghost Value = { Held };

    ghost view = { λ s. record { parts = s.ranked.now.design; nets = s.nets.items; words = s.words.items } };

    ghost invariant = { λ s. (length s.nets.items ≡ net_count s.ranked.now.design)
        × (length s.next.items ≡ net_count s.ranked.now.design)
        × AreBases s.ranked.now.design s.bases.items
        × (length s.words.items ≡ word_count s.ranked.now.design)
        × ArePlanned s.ranked.now.design s.ranked.now.order s.steps.items
        × AreClocked s.ranked.now.design s.clocked.items
        × Stands s.ranked.now.design (holding s.ranked.now.design s.nets.items s.words.items) };
}

impl<'a> Settled<'a> {
    /// The opened valuation.
    pub fn open(
        alloc: Global,
        ranked: &'a Ranked<'a>,
        opening: &Opening,
    ) -> Result<Settled<'a>, NoMemory>
        requires { Opens ranked.now.design opening.now }
        ensures design { IfOk result (λ s. s.parts ≡ ranked.now.design) }
        ensures opened { IfOk result (λ s. IsOpened ranked.now.design (stands_for opening.now) (valuation s)) }
    {
        let design = ranked.design();
        design.stands();
        let steps = steps_of(alloc, ranked)?;
        let clocked = clocked_nets(alloc, design)?;
        let bases = bases_of(alloc, design)?;
        let mut words = vec![in alloc; 0; bases[design.mems() as usize]]?;
        let mut states = vec![in alloc; false; design.nets() as usize]?;
        let mut nets = vec![in alloc; false; design.nets() as usize]?;
        fill_opened(
            ranked,
            &steps,
            &bases,
            opening,
            &mut states,
            &mut nets,
            &mut words,
        );
        Ok(Settled {
            ranked,
            steps,
            nets,
            next: states,
            bases,
            words,
            clocked,
        })
    }

    /// Goes to the valuation after an event that gives these values. Takes no memory. Where a net is given
    /// two values, the later one counts.
    pub fn event(&mut self, values: &PortValues)
        requires { AreInputs self.old.parts values.now }
        ensures design { self.new.parts ≡ self.old.parts }
        ensures after { IsAfter self.old.parts (valuation self.old) values.now (valuation self.new) }
    {
        fill_next(
            self.ranked,
            &self.steps,
            &self.bases,
            &self.clocked,
            values,
            self.nets.as_slice(),
            &mut self.next,
            &mut self.words,
        );
        mem::swap(&mut self.nets, &mut self.next);
    }

    /// What holds of every valuation that an opening or an event gave, for its callers.
    pub fn stands(&self)
        ensures settled { IsSettled self.now.parts (valuation self.now) }
        ensures words_fit { WordsFit self.now.parts (valuation self.now).word }
    {
        let _ = &self.ranked;
    }

    /// The value of a net.
    pub fn value(&self, net: NetId) -> bool
        requires { net.place < net_count self.now.parts }
        ensures { result ≡ (valuation self.now).net net.place }
    {
        self.nets[net.place() as usize]
    }

    /// The values of all nets, by number.
    pub fn values(&self) -> &[bool]
        ensures values { result.now ≡ self.now.nets }
        ensures size { length result.now ≡ net_count self.now.parts }
    {
        self.nets.as_slice()
    }

    /// The word of a memory at an address.
    pub fn word(&self, mem: MemId, address: u32) -> u128
        requires { IsAddress self.now.parts mem.place address }
        ensures { result ≡ (valuation self.now).word mem.place address }
    {
        word_at(&self.bases, &self.words, mem, address)
    }
}

/// Fills tables of zeros with the opened valuation, and one more with the states on the way there.
fn fill_opened(
    ranked: &Ranked<'_>,
    steps: &[Step],
    bases: &[usize],
    opening: &Opening,
    states: &mut [bool],
    nets: &mut [bool],
    words: &mut [u128],
)
    requires steps { ArePlanned ranked.now.design ranked.now.order steps.now }
    requires bases { AreBases ranked.now.design bases.now }
    requires opening { Opens ranked.now.design opening.now }
    requires states { states.old ≡ replicate (net_count ranked.now.design) false }
    requires nets { nets.old ≡ replicate (net_count ranked.now.design) false }
    requires words { words.old ≡ replicate (word_count ranked.now.design) 0 }
    ensures opened { IsOpened ranked.now.design (stands_for opening.now) (holding ranked.now.design nets.new words.new) }
    ensures stands { Stands ranked.now.design (holding ranked.now.design nets.new words.new) }
    ensures room { length words.new ≡ word_count ranked.now.design }
{
    openings_fit();
    opened_words_fit();
    let design = ranked.design();
    design.stands();
    set_states(design, opening.ones.as_slice(), states);
    put_values(opening.inputs.as_slice(), nets);
    put_words(design, bases, opening.words.as_slice(), words);
    run_pass(ranked, steps, bases, Turn::Opening, states, nets, words);
}

/// Fills tables with the valuation after an event that gives these values.
fn fill_next(
    ranked: &Ranked<'_>,
    steps: &[Step],
    bases: &[usize],
    clocked: &[NetId],
    values: &PortValues,
    old: &[bool],
    new: &mut [bool],
    words: &mut [u128],
)
    requires steps { ArePlanned ranked.now.design ranked.now.order steps.now }
    requires bases { AreBases ranked.now.design bases.now }
    requires clocked { AreClocked ranked.now.design clocked.now }
    requires inputs { AreInputs ranked.now.design values.now }
    requires old_size { length old.now ≡ net_count ranked.now.design }
    requires new_size { length new.old ≡ net_count ranked.now.design }
    requires room { length words.old ≡ word_count ranked.now.design }
    requires stands { Stands ranked.now.design (holding ranked.now.design old.now words.old) }
    ensures after { IsAfter ranked.now.design (holding ranked.now.design old.now words.old) values.now (holding ranked.now.design new.new words.new) }
    ensures stands { Stands ranked.now.design (holding ranked.now.design new.new words.new) }
{
    events_keep_settled();
    events_keep_words_fit();
    let design = ranked.design();
    design.stands();
    new.copy_from_slice(old);
    put_values(values.as_slice(), new);
    take_bits(design, bases, clocked, old, words, new);
    run_pass(ranked, steps, bases, Turn::Event, old, new, words);
}
