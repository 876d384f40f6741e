//! Which nets show the state from before an event.
ghost use Rattle.std.specs.Prelude.{◌≡◌, ◌+◌, ◌≤◌, ℕ, IfOk};
ghost use Rattle.emu_machine.specs.Netlist.{IsOnCycle, chip_at};
ghost use Rattle.output_marks.specs.Shown.{HasShown, gate_count};

use crate::tables::tables_of;
use design_core::Design;
use emu_io::{List, NoMemory};
use emu_machine::{Results, Spot};
use gate_pass::Steps;
use std::alloc::Global;
use std::marker::{Brand, Model};
use std::sync::ledger::{Blank, Ledger};

/// For each chip of results whether each net shows the state from before an event. It has a byte for each net.
///
/// A clause sees the design and the results.
#[derive(Drop)]
pub struct OutputMarks<'a> {
    design: &'a Design,
    results: &'a Results,
    shown: List<List<bool>>,
}

impl<'a> Model for OutputMarks<'a> {
    ghost use Rattle.output_marks.specs.Shown.{AreShown, OutputCase};

    ghost Value = { OutputCase };

    ghost view = { λ marks. record { design = marks.design.now; results = marks.results.now } };

    ghost invariant = { λ marks. AreShown marks.design.now marks.results.now marks.shown };
}

impl<'a> OutputMarks<'a> {
    /// The nets of all chips that show the state from before. Takes a step for each net, gate, register and bit of
    /// a read port, and for each input of a gate.
    pub fn new(
        alloc: Global,
        design: &'a Design,
        results: &'a Results,
    ) -> Result<OutputMarks<'a>, NoMemory>
        requires { (c k : ℕ) → IsOnCycle (chip_at results.now.net c) k → ⊥ }
        ensures { IfOk result (λ marks. marks ≡ record { design = design.now; results = results.now }) }
    {
        OutputMarks::in_ledger::<Brand>(alloc, design, results, Blank::new(1))
    }

    // The same, in a ledger of its own.
    fn in_ledger<L: Ledger>(
        alloc: Global,
        design: &'a Design,
        results: &'a Results,
        blank: Blank,
    ) -> Result<OutputMarks<'a>, NoMemory>
        requires name { blank.name ≡ L.name }
        requires parts { blank.parts ≡ L.parts }
        requires some { L.parts ≡ 1 }
        requires no_cycle { (c k : ℕ) → IsOnCycle (chip_at results.now.net c) k → ⊥ }
        ensures { IfOk result (λ marks. marks ≡ record { design = design.now; results = results.now }) }
    {
        let mut steps: Steps<L> = Steps::new(blank);
        OutputMarks::new_counted(alloc, design, results, &mut steps)
    }

    /// The same, where each turn of a gate may count one step. No gate has more than one.
    pub fn new_counted<L: Ledger>(
        alloc: Global,
        design: &'a Design,
        results: &'a Results,
        steps: &mut Steps<L>,
    ) -> Result<OutputMarks<'a>, NoMemory>
        requires { (c k : ℕ) → IsOnCycle (chip_at results.now.net c) k → ⊥ }
        ensures made { IfOk result (λ marks. marks ≡ record { design = design.now; results = results.now }) }
        ensures counted { steps.new ≤ steps.old + gate_count results.now.net }
    {
        let shown = tables_of(alloc, design, results, steps)?;
        Ok(OutputMarks {
            design,
            results,
            shown,
        })
    }

    /// Whether a net shows the state from before, as no net does that is not there. Takes constant time.
    pub fn shows(&self, spot: Spot) -> bool
        ensures { HasShown self.now.design self.now.results spot result }
    {
        self.results.stand();
        let chip = u64::from(spot.chip.place);
        let net = u64::from(spot.net.place);
        if chip >= self.shown.len() {
            return false;
        }
        let shown = self.shown.get(chip);
        if net >= shown.len() {
            return false;
        }
        *shown.get(net)
    }
}
