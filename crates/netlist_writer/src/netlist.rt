//! The modules of a netlist.
ghost use Rattle.std.specs.Prelude.{◌≡◌, ◌++◌, IfOk, OnOk, flat_map};
ghost use Rattle.std.specs.List.{range_with_len};
ghost use Rattle.netlist_writer.specs.NetlistText.{netlist_text, head_text, wire_text};

use crate::lines::{Printed, push_lines};
use crate::text::{append, append_number};
use emu_io::NoMemory;
use emu_machine::{Chip, EmuNet};
use std::alloc::Global;

/// The text of a netlist: a module for each chip, and in it a line for each net, gate, register and memory.
pub fn print_netlist(alloc: Global, net: &EmuNet) -> Result<Vec<u8>, NoMemory>
    ensures { IfOk result (λ text. text.items ≡ netlist_text net.now) }
{
    let mut text = Vec::new(alloc);
    push_lines(&mut text, net.chips().as_slice())?;
    Ok(text)
}

impl Printed for Chip {
    ghost use Rattle.netlist_writer.specs.NetlistText.{chip_text};

    ghost line = { chip_text };

    fn push_line(&self, text: &mut Vec<u8>, number: u64) -> Result<(), NoMemory> {
        push_head(text, number)?;
        push_wires(text, self.nets)?;
        push_lines(text, self.gates.as_slice())?;
        push_lines(text, self.registers.as_slice())?;
        push_lines(text, self.memories.as_slice())?;
        append(text, b"endmodule\n")?;
        Ok(())
    }
}

/// Puts the head of the module of the chip of this number at the end.
fn push_head(text: &mut Vec<u8>, number: u64) -> Result<(), NoMemory>
    ensures { OnOk result (text.new.items ≡ text.old.items ++ head_text number) }
{
    append(text, b"module chip")?;
    append_number(text, number)?;
    append(text, b";\n")?;
    Ok(())
}

/// Puts the declarations of so many nets at the end.
fn push_wires(text: &mut Vec<u8>, nets: u32) -> Result<(), NoMemory>
    ensures { OnOk result (text.new.items ≡ text.old.items ++ flat_map wire_text (range_with_len 0 nets)) }
{
    'nets: for net in 0..nets {
        append(text, b"wire n")?;
        append_number(text, u64::from(net))?;
        append(text, b";\n")?;
    }
    Ok(())
}
