//! Why texts stand for no results.
use emu_io::NoMemory;
use emu_machine::BuildFault;
use id_arena::{ChipId, ChipNetId};
use netlist_reader::NetlistFault;
use verilog_lex::LexFault;

/// Why three texts stand for no results: the first fault, in this order.
#[derive(Clone, Copy, Debug, Drop, PartialEq, Eq)]
pub enum ResultFault {
    /// The netlist has no tokens.
    NetlistLex(LexFault),
    /// This token of the netlist cannot stand after those before it.
    NetlistForm { token: u32 },
    /// The least net of the netlist that does not have exactly one driver.
    NetlistShape { chip: ChipId, net: ChipNetId },
    /// The schedule is no JSON.
    ScheduleNotJson,
    /// The schedule is not of version 1.
    ScheduleVersion,
    /// The first action of bad shape. Where a slot, a frame or the whole is of bad shape, the numbers
    /// below it are 0.
    ScheduleForm { frame: u32, slot: u32, action: u32 },
    /// The map is no JSON.
    MapNotJson,
    /// The map is of neither version.
    MapVersion,
    /// The first chip whose entry is of bad shape or has other counts than the netlist. The number of
    /// chips stands for the rest: the whole, the number of entries, and the outputs.
    MapForm { entry: u32 },
    /// No memory was left.
    NoMemory,
}

impl From<NoMemory> for ResultFault {
    ghost use Rattle.std.specs.Prelude.{◌≡◌};
    ghost use Rattle.result_files.specs.declared.result_fault.ResultFault.TheVariants as fault;

    ghost from_gives = { λ _ e. e ≡ fault.NoMemory };

    fn from(_: NoMemory) -> ResultFault {
        ResultFault::NoMemory
    }
}

impl From<LexFault> for ResultFault {
    ghost use Rattle.std.specs.Prelude.{◌≡◌};
    ghost use Rattle.result_files.specs.ThreeTexts.{of_lex};

    ghost from_gives = { λ lex fault. fault ≡ of_lex lex };

    fn from(fault: LexFault) -> ResultFault {
        match fault {
            LexFault::NoMemory => ResultFault::NoMemory,
            fault => ResultFault::NetlistLex(fault),
        }
    }
}

impl From<NetlistFault> for ResultFault {
    ghost use Rattle.std.specs.Prelude.{◌≡◌};
    ghost use Rattle.result_files.specs.ThreeTexts.{of_form};

    ghost from_gives = { λ form fault. fault ≡ of_form form };

    fn from(fault: NetlistFault) -> ResultFault {
        match fault {
            NetlistFault::Form { token } => ResultFault::NetlistForm { token },
            NetlistFault::NoMemory => ResultFault::NoMemory,
        }
    }
}

impl From<BuildFault> for ResultFault {
    ghost use Rattle.std.specs.Prelude.{◌≡◌};
    ghost use Rattle.result_files.specs.ThreeTexts.{of_build};

    ghost from_gives = { λ build fault. fault ≡ of_build build };

    fn from(fault: BuildFault) -> ResultFault {
        match fault {
            BuildFault::ShapeFault { chip, net } => ResultFault::NetlistShape { chip, net },
            BuildFault::NoMemory => ResultFault::NoMemory,
        }
    }
}
