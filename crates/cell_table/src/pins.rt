//! The pins of a cell, gathered to see whether one is named twice.

ghost use Rattle.std.specs.Prelude.{◌++◌, ◌≡◌, ◌∷◌, [], IfOk, OnOk, flat_map, map};
ghost use Rattle.std.specs.List.{list_any};
ghost use Rattle.cell_table.specs.Seen.{is_seen};
ghost use Rattle.cell_table.specs.Pins.{clock_pins, edge_pins, feed_pins, level_pins, name_pins, others, out_pins, pins_of, read_pins, shared_pins, stands_twice, state_pins, write_pins};

use crate::cell::{CellRead, CellWrite, EdgePin, LevelPin};
use crate::written::{WrittenFeed, WrittenKind, WrittenOut, WrittenState};
use emu_io::{NoMemory, Text};
use std::alloc::Global;
use std::collections::HashSet;
use std::marker::Model;

/// Pins in the order in which they were added.
#[derive(Drop)]
pub(crate) struct Pins<'c> {
    names: Vec<&'c [u8]>,
}

impl<'c> Model for Pins<'c> {
    ghost use Rattle.std.specs.Prelude.{List, ℕ, map};

    ghost Value = { List (List ℕ) };

    ghost view = { λ pins. map (λ name. name.now) pins.names.items };
}

impl<'c> Pins<'c> {
    /// The clock pins of a cell that ports may share.
    #[tactic(auto, unfolding(crate::specs::Pins::shared_pins))]
    pub(crate) fn shared(
        alloc: Global,
        version: u32,
        kind: &'c WrittenKind,
    ) -> Result<Pins<'c>, NoMemory>
        ensures { IfOk result (λ pins. pins ≡ shared_pins version kind.now) }
    {
        let mut pins = Pins {
            names: Vec::new(alloc),
        };
        match kind {
            WrittenKind::Comb { .. }
            | WrittenKind::Flop { .. }
            | WrittenKind::Latch { .. }
            | WrittenKind::GateClock { .. } => {}
            WrittenKind::Memory { writes, reads, .. } => {
                if version == 2 {
                    pins.add_clocks(writes.as_slice(), reads.as_slice())?;
                }
            }
        }
        Ok(pins)
    }

    /// All pins of a cell but for those that ports may share.
    #[tactic(auto, unfolding(crate::specs::Pins::pins_of))]
    pub(crate) fn of(
        alloc: Global,
        version: u32,
        kind: &'c WrittenKind,
    ) -> Result<Pins<'c>, NoMemory>
        ensures { IfOk result (λ pins. pins ≡ pins_of version kind.now) }
    {
        let mut pins = Pins {
            names: Vec::new(alloc),
        };
        match kind {
            WrittenKind::Comb { inputs, outputs } => {
                pins.add_outs(outputs.as_slice())?;
                pins.add_all(inputs.as_slice())?;
            }
            WrittenKind::Flop { clock, state } => {
                pins.add(&clock.pin)?;
                pins.add_state(state)?;
            }
            WrittenKind::Latch { gate, state } => {
                pins.add(&gate.pin)?;
                pins.add_state(state)?;
            }
            WrittenKind::GateClock {
                clock,
                enable,
                test,
                output,
            } => {
                pins.add(output)?;
                pins.add(clock)?;
                pins.add(enable)?;
                pins.add_optional(test)?;
            }
            WrittenKind::Memory { writes, reads, .. } => {
                pins.add_writes(writes.as_slice())?;
                pins.add_reads(reads.as_slice())?;
                if version != 2 {
                    pins.add_clocks(writes.as_slice(), reads.as_slice())?;
                }
            }
        }
        Ok(pins)
    }

    /// Whether a pin stands twice among these, or also among those that ports may share.
    pub(crate) fn stand_twice(&self, alloc: Global, shared: &Pins<'c>) -> Result<bool, NoMemory>
        ensures { IfOk result (λ twice. twice ≡ stands_twice self.now shared.now) }
    {
        let mut seen = HashSet::new(alloc);
        for name in self.names.as_slice() {
            if !seen.insert(*name)? {
                return Ok(true);
            }
        }
        Ok(shared.are_among(&seen))
    }

    /// Whether one of the pins is among those that were seen.
    fn are_among(&self, seen: &HashSet<&'c [u8]>) -> bool
        ensures { result ≡ list_any (is_seen seen.now) self.now }
    {
        for name in self.names.as_slice() {
            if seen.contains(*name) {
                return true;
            }
        }
        false
    }

    /// One pin more.
    fn add(&mut self, pin: &'c Text) -> Result<(), NoMemory>
        ensures { OnOk result (self.new ≡ self.old ++ pin.now ∷ []) }
    {
        self.names.push(pin.bytes())?;
        Ok(())
    }

    /// A pin that may be left out.
    fn add_optional(&mut self, pin: &'c Option<Text>) -> Result<(), NoMemory>
        ensures { OnOk result (self.new ≡ self.old ++ name_pins pin.now) }
    {
        if let Some(pin) = pin {
            self.add(pin)?;
        }
        Ok(())
    }

    /// A pin with an edge that may be left out.
    fn add_edge(&mut self, edge: &'c Option<EdgePin>) -> Result<(), NoMemory>
        ensures { OnOk result (self.new ≡ self.old ++ edge_pins edge.now) }
    {
        if let Some(edge) = edge {
            self.add(&edge.pin)?;
        }
        Ok(())
    }

    /// A pin with a level that may be left out.
    fn add_level(&mut self, level: &'c Option<LevelPin>) -> Result<(), NoMemory>
        ensures { OnOk result (self.new ≡ self.old ++ level_pins level.now) }
    {
        if let Some(level) = level {
            self.add(&level.pin)?;
        }
        Ok(())
    }

    /// Several pins more.
    fn add_all(&mut self, pins: &'c [Text]) -> Result<(), NoMemory>
        ensures { OnOk result (self.new ≡ self.old ++ pins.now) }
    {
        for pin in pins {
            self.add(pin)?;
        }
        Ok(())
    }

    /// A pin that feeds a flip-flop or a latch, unless it is the cell's own output `q`.
    fn add_other(&mut self, q: &Text, pin: &'c Text) -> Result<(), NoMemory>
        ensures { OnOk result (self.new ≡ self.old ++ others q.now (pin.now ∷ [])) }
    {
        if pin.bytes() != q.bytes() {
            self.add(pin)?;
        }
        Ok(())
    }

    /// Those of the pins that are not `q`.
    fn add_others(&mut self, q: &Text, pins: &'c [Text]) -> Result<(), NoMemory>
        ensures { OnOk result (self.new ≡ self.old ++ others q.now pins.now) }
    {
        for pin in pins {
            self.add_other(q, pin)?;
        }
        Ok(())
    }

    /// The pins of what feeds a flip-flop or a latch with the output `q`.
    fn add_feed(&mut self, q: &Text, feed: &'c WrittenFeed) -> Result<(), NoMemory>
        ensures { OnOk result (self.new ≡ self.old ++ feed_pins q.now feed.now) }
    {
        match feed {
            WrittenFeed::Pin(pin) => self.add_other(q, pin),
            WrittenFeed::Table { pins, .. } => self.add_others(q, pins.as_slice()),
        }
    }

    /// What flip-flops and latches have in common.
    #[tactic(auto, unfolding(crate::specs::Pins::state_pins))]
    fn add_state(&mut self, state: &'c WrittenState) -> Result<(), NoMemory>
        ensures { OnOk result (self.new ≡ self.old ++ state_pins state.now) }
    {
        self.add(&state.q)?;
        self.add_optional(&state.qn)?;
        self.add_feed(&state.q, &state.feed)?;
        self.add_level(&state.clear)?;
        self.add_level(&state.preset)
    }

    /// The pins of a write port but for its clock.
    #[tactic(auto, unfolding(crate::specs::Pins::write_pins))]
    fn add_write(&mut self, write: &'c CellWrite) -> Result<(), NoMemory>
        ensures { OnOk result (self.new ≡ self.old ++ write_pins write.now) }
    {
        self.add_level(&write.enable)?;
        self.add_optional(&write.address)?;
        self.add(&write.feed)
    }

    /// The pins of a read port but for its clock.
    #[tactic(auto, unfolding(crate::specs::Pins::read_pins))]
    fn add_read(&mut self, read: &'c CellRead) -> Result<(), NoMemory>
        ensures { OnOk result (self.new ≡ self.old ++ read_pins read.now) }
    {
        self.add_optional(&read.address)?;
        self.add(&read.bits)
    }

    /// The clock pins of the ports.
    fn add_clocks(&mut self, writes: &'c [CellWrite], reads: &'c [CellRead]) -> Result<(), NoMemory>
        ensures { OnOk result (self.new ≡ self.old ++ clock_pins writes.now reads.now) }
    {
        self.add_write_clocks(writes)?;
        self.add_read_clocks(reads)
    }

    /// The clock pins of the write ports.
    fn add_write_clocks(&mut self, writes: &'c [CellWrite]) -> Result<(), NoMemory>
        ensures { OnOk result (self.new ≡ self.old ++ map (λ w. w.clock.pin) writes.now) }
    {
        for write in writes {
            self.add(&write.clock.pin)?;
        }
        Ok(())
    }

    /// The clock pins of the read ports that have one.
    fn add_read_clocks(&mut self, reads: &'c [CellRead]) -> Result<(), NoMemory>
        ensures { OnOk result (self.new ≡ self.old ++ flat_map (λ r. edge_pins r.clock) reads.now) }
    {
        for read in reads {
            self.add_edge(&read.clock)?;
        }
        Ok(())
    }

    /// The pins of the write ports but for their clocks.
    fn add_writes(&mut self, writes: &'c [CellWrite]) -> Result<(), NoMemory>
        ensures { OnOk result (self.new ≡ self.old ++ flat_map write_pins writes.now) }
    {
        for write in writes {
            self.add_write(write)?;
        }
        Ok(())
    }

    /// The pins of the read ports but for their clocks.
    fn add_reads(&mut self, reads: &'c [CellRead]) -> Result<(), NoMemory>
        ensures { OnOk result (self.new ≡ self.old ++ flat_map read_pins reads.now) }
    {
        for read in reads {
            self.add_read(read)?;
        }
        Ok(())
    }

    /// The pins of the outputs.
    fn add_outs(&mut self, outs: &'c [WrittenOut]) -> Result<(), NoMemory>
        ensures { OnOk result (self.new ≡ self.old ++ flat_map out_pins outs.now) }
    {
        for out in outs {
            self.add(&out.pin)?;
        }
        Ok(())
    }
}
