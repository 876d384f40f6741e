//! The pins as a kind of cell names them, some of them twice.

ghost use Rattle.std.specs.Prelude.{[], ◌++◌, ◌∷◌, ◌≡◌, IfOk, OnOk, flat_map, map};
ghost use Rattle.cell_table.specs.Pins.{edge_pins, level_pins, name_pins};
ghost use Rattle.cell_parts.specs.Named.{pin_seen};
ghost use Rattle.cell_parts.specs.Pins.{bit_pin, feed_names, named_pins, read_pins, spare_pin, state_pins, wide_pin, write_pins};

use cell_table::{CellKind, CellRead, CellWrite, CombOut, EdgePin, FeedPin, LevelPin};
use emu_io::{NoMemory, Text};
use std::alloc::Global;
use std::marker::Model;

/// A pin with its name where the cell has it.
#[derive(Clone, Copy, Drop)]
pub(crate) struct NamedPin<'c> {
    pub(crate) name: &'c Text,
    pub(crate) width: u32,
    pub(crate) needed: bool,
}

/// Pins in the order in which they were added.
#[derive(Drop)]
pub(crate) struct NamedPins<'c> {
    pins: Vec<NamedPin<'c>>,
}

impl<'c> Model for NamedPins<'c> {
    ghost use Rattle.std.specs.Prelude.{List, map};
    ghost use Rattle.cell_parts.specs.declared.pins.Pin.{Pin};
    ghost use Rattle.cell_parts.specs.Named.{pin_seen};

    ghost Value = { List Pin };

    ghost view = { λ named. map pin_seen named.pins.items };
}

impl<'c> NamedPins<'c> {
    /// The pins of a kind, outputs before inputs.
    pub(crate) fn of(alloc: Global, kind: &'c CellKind) -> Result<NamedPins<'c>, NoMemory>
        ensures { IfOk result (λ named. named ≡ named_pins kind.now) }
    {
        let mut named = NamedPins {
            pins: Vec::new(alloc),
        };
        named.add_kind(kind)?;
        Ok(named)
    }

    /// All pins, in the order in which they were added.
    pub(crate) fn as_slice(&self) -> &[NamedPin<'c>]
        ensures { map pin_seen result.now ≡ self.now }
    {
        self.pins.as_slice()
    }

    /// One pin more, which has new nets where it is not connected.
    fn add_wide(&mut self, width: u32, name: &'c Text) -> Result<(), NoMemory>
        ensures { OnOk result (self.new ≡ self.old ++ wide_pin width name.now ∷ []) }
    {
        self.pins.push(NamedPin {
            name,
            width,
            needed: true,
        })?;
        Ok(())
    }

    /// A pin of one bit.
    fn add_bit(&mut self, name: &'c Text) -> Result<(), NoMemory>
        ensures { OnOk result (self.new ≡ self.old ++ bit_pin name.now ∷ []) }
    {
        self.add_wide(1, name)
    }

    /// A pin that may be left out.
    fn add_optional(&mut self, width: u32, name: &'c Option<Text>) -> Result<(), NoMemory>
        ensures { OnOk result (self.new ≡ self.old ++ map (wide_pin width) (name_pins name.now)) }
    {
        if let Some(name) = name {
            self.add_wide(width, name)?;
        }
        Ok(())
    }

    /// Several pins of one bit.
    fn add_bits(&mut self, names: &'c [Text]) -> Result<(), NoMemory>
        ensures { OnOk result (self.new ≡ self.old ++ map bit_pin names.now) }
    {
        'names: for name in names {
            self.add_bit(name)?;
        }
        Ok(())
    }

    /// The outputs of a combinational cell.
    fn add_outs(&mut self, outputs: &'c [CombOut]) -> Result<(), NoMemory>
        ensures { OnOk result (self.new ≡ self.old ++ map (λ out. bit_pin out.pin) outputs.now) }
    {
        'outputs: for out in outputs {
            self.add_bit(&out.pin)?;
        }
        Ok(())
    }

    /// A pin with a level that may be left out.
    fn add_level(&mut self, level: &'c Option<LevelPin>) -> Result<(), NoMemory>
        ensures { OnOk result (self.new ≡ self.old ++ map bit_pin (level_pins level.now)) }
    {
        if let Some(level) = level {
            self.add_bit(&level.pin)?;
        }
        Ok(())
    }

    /// A pin with an edge that may be left out.
    fn add_edge(&mut self, edge: &'c Option<EdgePin>) -> Result<(), NoMemory>
        ensures { OnOk result (self.new ≡ self.old ++ map bit_pin (edge_pins edge.now)) }
    {
        if let Some(edge) = edge {
            self.add_bit(&edge.pin)?;
        }
        Ok(())
    }

    /// The outputs of a flip-flop or a latch. The inverted one needs no nets where it is not connected.
    fn add_outputs(&mut self, q: &'c Text, qn: &'c Option<Text>) -> Result<(), NoMemory>
        ensures { OnOk result (self.new ≡ self.old ++ bit_pin q.now ∷ map spare_pin (name_pins qn.now)) }
    {
        self.add_bit(q)?;
        if let Some(qn) = qn {
            self.pins.push(NamedPin {
                name: qn,
                width: 1,
                needed: false,
            })?;
        }
        Ok(())
    }

    /// The pins of what feeds a flip-flop or a latch.
    fn add_feed(&mut self, feed: &'c FeedPin) -> Result<(), NoMemory>
        ensures { OnOk result (self.new ≡ self.old ++ map bit_pin (feed_names feed.now)) }
    {
        match feed {
            FeedPin::Pin(pin) => self.add_bit(pin),
            FeedPin::Table { pins, .. } => self.add_bits(pins.as_slice()),
        }
    }

    /// The inputs of a flip-flop or a latch: its clock or gate, its data, and its resets.
    fn add_inputs(
        &mut self,
        clock: &'c Text,
        feed: &'c FeedPin,
        clear: &'c Option<LevelPin>,
        preset: &'c Option<LevelPin>,
    ) -> Result<(), NoMemory>
        ensures { OnOk result (self.new ≡ self.old
            ++ map bit_pin (clock.now ∷ feed_names feed.now ++ level_pins clear.now ++ level_pins preset.now)) }
    {
        self.add_bit(clock)?;
        self.add_feed(feed)?;
        self.add_level(clear)?;
        self.add_level(preset)
    }

    /// The pins of a write port.
    fn add_write(
        &mut self,
        address_bits: u32,
        width: u32,
        write: &'c CellWrite,
    ) -> Result<(), NoMemory>
        ensures { OnOk result (self.new ≡ self.old ++ write_pins address_bits width write.now) }
    {
        self.add_bit(&write.clock.pin)?;
        self.add_level(&write.enable)?;
        self.add_optional(address_bits, &write.address)?;
        self.add_wide(width, &write.feed)
    }

    /// The pins of a read port.
    fn add_read(
        &mut self,
        address_bits: u32,
        width: u32,
        read: &'c CellRead,
    ) -> Result<(), NoMemory>
        ensures { OnOk result (self.new ≡ self.old ++ read_pins address_bits width read.now) }
    {
        self.add_edge(&read.clock)?;
        self.add_optional(address_bits, &read.address)?;
        self.add_wide(width, &read.bits)
    }

    /// The pins of the write ports, one port after the other.
    fn add_writes(
        &mut self,
        address_bits: u32,
        width: u32,
        writes: &'c [CellWrite],
    ) -> Result<(), NoMemory>
        ensures { OnOk result (self.new ≡ self.old ++ flat_map (write_pins address_bits width) writes.now) }
    {
        'writes: for write in writes {
            self.add_write(address_bits, width, write)?;
        }
        Ok(())
    }

    /// The pins of the read ports, one port after the other.
    fn add_reads(
        &mut self,
        address_bits: u32,
        width: u32,
        reads: &'c [CellRead],
    ) -> Result<(), NoMemory>
        ensures { OnOk result (self.new ≡ self.old ++ flat_map (read_pins address_bits width) reads.now) }
    {
        'reads: for read in reads {
            self.add_read(address_bits, width, read)?;
        }
        Ok(())
    }
    /// The pins of a kind.
    fn add_kind(&mut self, kind: &'c CellKind) -> Result<(), NoMemory>
        ensures { OnOk result (self.new ≡ self.old ++ named_pins kind.now) }
    {
        match kind {
            CellKind::Comb { inputs, outputs } => {
                self.add_outs(outputs.as_slice())?;
                self.add_bits(inputs.as_slice())
            }
            CellKind::Flop {
                clock,
                feed,
                clear,
                preset,
                q,
                qn,
            } => self.add_state(&clock.pin, feed, clear, preset, q, qn),
            CellKind::Latch {
                gate,
                feed,
                clear,
                preset,
                q,
                qn,
            } => self.add_state(&gate.pin, feed, clear, preset, q, qn),
            CellKind::GateClock {
                clock,
                enable,
                test,
                output,
            } => self.add_clock_gate(clock, enable, test, output),
            CellKind::Memory {
                address_bits,
                width,
                writes,
                reads,
            } => self.add_ports(*address_bits, *width, writes.as_slice(), reads.as_slice()),
        }
    }

    /// The pins of a flip-flop or a latch.
    fn add_state(
        &mut self,
        clock: &'c Text,
        feed: &'c FeedPin,
        clear: &'c Option<LevelPin>,
        preset: &'c Option<LevelPin>,
        q: &'c Text,
        qn: &'c Option<Text>,
    ) -> Result<(), NoMemory>
        ensures { OnOk result (self.new ≡ self.old ++ state_pins clock.now feed.now clear.now preset.now q.now qn.now) }
    {
        self.add_outputs(q, qn)?;
        self.add_inputs(clock, feed, clear, preset)
    }

    /// The pins of a clock gate.
    fn add_clock_gate(
        &mut self,
        clock: &'c Text,
        enable: &'c Text,
        test: &'c Option<Text>,
        output: &'c Text,
    ) -> Result<(), NoMemory>
        ensures { OnOk result (self.new ≡ self.old ++ map bit_pin (output.now ∷ clock.now ∷ enable.now ∷ name_pins test.now)) }
    {
        self.add_bit(output)?;
        self.add_bit(clock)?;
        self.add_bit(enable)?;
        self.add_optional(1, test)
    }

    /// The pins of the ports of a memory.
    fn add_ports(
        &mut self,
        address_bits: u32,
        width: u32,
        writes: &'c [CellWrite],
        reads: &'c [CellRead],
    ) -> Result<(), NoMemory>
        ensures { OnOk result (self.new ≡ self.old
            ++ flat_map (write_pins address_bits width) writes.now ++ flat_map (read_pins address_bits width) reads.now) }
    {
        self.add_writes(address_bits, width, writes)?;
        self.add_reads(address_bits, width, reads)
    }
}
