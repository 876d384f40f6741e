//! Tables of values of nets, filled from what an event or an opening gives.

ghost use Rattle.std.specs.Prelude.{◌≡◌, IsTrue, length};
ghost use Rattle.std.specs.List.{list_all};
ghost use Rattle.design_core.specs.Design.{IsDesign, net_count};
ghost use Rattle.design_core.specs.Faults.{are_there, element_outputs, is_there};
ghost use Rattle.settled_model.specs.Opening.{AreElements};
ghost use Rattle.settled_model.specs.Passing.{HasPut, HasSet, HasSetOne};

use design_core::{Design, Element, PortBit};
use id_arena::{ElemId, Key};

/// Puts the values that are given in the place of those that stand there.
pub(crate) fn put_values(values: &[PortBit], nets: &mut [bool])
    requires { IsTrue (list_all (λ b. is_there (length nets.old) b.net) values.now) }
    ensures { HasPut values.now nets.old nets.new }
{
    'values: for bit in values {
        nets[bit.net.place() as usize] = bit.value;
    }
}

/// Puts 1 in the place of each of these flip-flops and latches.
pub(crate) fn set_states(design: &Design, ones: &[ElemId], nets: &mut [bool])
    requires design { IsDesign design.now }
    requires ones { AreElements design.now ones.now }
    requires size { length nets.old ≡ net_count design.now }
    ensures { HasSet design.now ones.now nets.old nets.new }
{
    'ones: for id in ones {
        set_state(design.elem(*id), nets);
    }
}

/// Puts 1 in the place of the output, if the element is a flip-flop or a latch.
fn set_state(element: &Element, nets: &mut [bool])
    requires { IsTrue (are_there (length nets.old) (element_outputs element.now)) }
    ensures { HasSetOne element.now nets.old nets.new }
{
    match element {
        Element::Flop(flop) => nets[flop.q.place() as usize] = true,
        Element::Latch(latch) => nets[latch.q.place() as usize] = true,
        Element::Gate { .. } | Element::Memory(_) => {}
    }
}
