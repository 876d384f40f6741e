//! The lines of gates, registers and memories.
ghost use Rattle.std.specs.Prelude.{◌≡◌, ◌++◌, ℕ, List, OnOk, flat_map};
ghost use Rattle.std.specs.List.{enumerate_from};
ghost use Rattle.netlist_writer.specs.NetlistText.{lines};

use crate::instance::{push_form, push_memory_form, push_name, push_nets, push_op, push_ports};
use crate::text::append;
use emu_io::NoMemory;
use emu_machine::{EmuGate, EmuMemory, EmuRegister};

/// What has a line in a netlist.
pub(crate) trait Printed {
    /// The text of the item of a number.
    ghost line: { ℕ × Self → List ℕ };

    /// Puts the text of the item of this number at the end.
    fn push_line(&self, text: &mut Vec<u8>, number: u64) -> Result<(), NoMemory>
        ensures { OnOk result (text.new.items ≡ text.old.items ++ line (number, self.now)) };
}

/// Puts the texts of items, numbered from 0, at the end.
pub(crate) fn push_lines<T: Printed>(text: &mut Vec<u8>, items: &[T]) -> Result<(), NoMemory>
    ensures { OnOk result (text.new.items ≡ text.old.items ++ lines T.line items.now) }
{
    'items: for place in 0..items.len() {
        items[place].push_line(text, place as u64)?;
    }
    Ok(())
}

impl Printed for EmuGate {
    ghost use Rattle.netlist_writer.specs.NetlistText.{gate_text};

    ghost line = { gate_text };

    fn push_line(&self, text: &mut Vec<u8>, number: u64) -> Result<(), NoMemory> {
        push_op(text, self.op, self.inputs.len())?;
        push_name(text, b"g", number)?;
        push_nets(text, false, &[self.output])?;
        push_nets(text, true, self.inputs.as_slice())?;
        append(text, b");\n")
    }
}

impl Printed for EmuRegister {
    ghost use Rattle.netlist_writer.specs.NetlistText.{register_text};

    ghost line = { register_text };

    fn push_line(&self, text: &mut Vec<u8>, number: u64) -> Result<(), NoMemory> {
        push_form(text, *self)?;
        push_name(text, b"r", number)?;
        match (self.d, self.enable) {
            (None, _) => push_nets(text, false, &[self.q])?,
            (Some(d), None) => push_nets(text, false, &[self.q, d])?,
            (Some(d), Some(enable)) => push_nets(text, false, &[self.q, d, enable])?,
        };
        append(text, b");\n")
    }
}

impl Printed for EmuMemory {
    ghost use Rattle.netlist_writer.specs.NetlistText.{memory_text};

    ghost line = { memory_text };

    fn push_line(&self, text: &mut Vec<u8>, number: u64) -> Result<(), NoMemory> {
        push_memory_form(text, self)?;
        push_name(text, b"m", number)?;
        push_ports(text, self)?;
        append(text, b");\n")?;
        Ok(())
    }
}
