//! The modules of chips.
ghost use Rattle.std.specs.Prelude.{◌≡◌, ◌<◌, ◌^◌, length};
ghost use Rattle.netlist_reader.specs.Netlist.{body_words, wires};
ghost use Rattle.netlist_reader.specs.Faults.{HasLooseForms, nets_over};
ghost use Rattle.netlist_reader.specs.Inside.{Reads, ReadsAll};
ghost use Rattle.netlist_reader.specs.Wires.{IsNetCount, IsWireWord};

use crate::fault::Stop;
use crate::lines::{Line, read_lines};
use crate::piece::{Piece, Stem, take, take_all};
use crate::rest::Rest;
use emu_io::List;
use emu_machine::{Chip, EmuGate, EmuMemory, EmuRegister};
use std::alloc::Global;
use token_words::Word;
use verilog_lex::keyword::{ENDMODULE, MODULE, WIRE};

/// Passes over the declarations of nets, and counts them.
fn take_wires(rest: &mut Rest) -> Result<u32, Stop>
    requires { length rest.old < 2 ^ 32 }
    ensures { ReadsAll IsNetCount IsWireWord wires rest.old rest.new result }
{
    let mut nets = 0;
    'wires: while rest.begins(&Word::key(WIRE)) {
        take_all(
            rest,
            &[
                Piece::Key(WIRE),
                Piece::Numbered(Stem::Net, nets),
                Piece::Mark(b';'),
            ],
        )?;
        nets += 1;
    }
    Ok(nets)
}

/// How many nets the instances of a chip may name. Those of a chip without nets begin all the same, and
/// are wrong at the first net that they name; that net is found by `lacking_net`.
fn named_nets(nets: u32) -> u32
    ensures { result ≡ nets_over nets }
{
    if nets == 0 { 1 } else { nets }
}

/// Passes over what stands behind the head of a module.
fn read_body(alloc: Global, rest: &mut Rest) -> Result<Chip, Stop>
    requires { length rest.old < 2 ^ 32 }
    ensures { Reads HasLooseForms body_words rest.old rest.new result }
{
    let nets = take_wires(rest)?;
    let named = named_nets(nets);
    let gates: List<EmuGate> = read_lines(alloc, rest, named)?;
    let registers: List<EmuRegister> = read_lines(alloc, rest, named)?;
    let memories: List<EmuMemory> = read_lines(alloc, rest, named)?;
    take(rest, Piece::Key(ENDMODULE))?;
    Ok(Chip {
        nets,
        gates,
        registers,
        memories,
    })
}

impl Line for Chip {
    ghost use Rattle.netlist_reader.specs.Netlist.{chip_words};
    ghost use Rattle.netlist_reader.specs.Wires.{IsFormedChip, IsModuleWord};

    ghost Is = { IsFormedChip };

    ghost First = { IsModuleWord };

    ghost line = { chip_words };

    fn read_next(
        alloc: Global,
        rest: &mut Rest,
        number: u32,
        _nets: u32,
    ) -> Result<Option<Chip>, Stop> {
        if !rest.begins(&Word::key(MODULE)) {
            return Ok(None);
        }
        take_all(
            rest,
            &[
                Piece::Key(MODULE),
                Piece::Numbered(Stem::Chip, number),
                Piece::Mark(b';'),
            ],
        )?;
        let chip = read_body(alloc, rest)?;
        Ok(Some(chip))
    }
}
