//! Laws beside the rules: what a wrong reading of their definitions would break.
ghost use Rattle.emu_machine.specs.Readings.{AllAreMapped, ModulesAreCounted, SendsUseAgain, SendsUseTwice};

/// A `send` over a wire on which an earlier one is still on its way uses the wire again.
pub fn sends_use_again()
    ensures { SendsUseAgain }
{}

/// So does the second of two sends over one wire in one slot.
pub fn sends_use_twice()
    ensures { SendsUseTwice }
{}

/// Rule A1 asks for as many modules as the board has chips.
pub fn modules_are_counted()
    ensures { ModulesAreCounted }
{}

/// The map of results has an entry for each net, register, memory and read port of each chip.
pub fn all_are_mapped()
    ensures { AllAreMapped }
{}
