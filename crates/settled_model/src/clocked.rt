//! The bits of read ports with a clock: which nets they are, and what they take where the clock has its
//! edge.

ghost use Rattle.std.specs.Prelude.{◌≡◌, ◌<◌, IfOk, Some, length};
ghost use Rattle.design_core.specs.Design.{IsDesign, driver, net_count};
ghost use Rattle.design_core.specs.Limits.{word_count};
ghost use Rattle.design_core.specs.declared.element.Driver.TheVariants.{Read};
ghost use Rattle.settled_model.specs.Clocked.{AreClocked, HasTaken, is_clocked, port_of, taken_value, word_bit};
ghost use Rattle.settled_model.specs.Held.{AreBases, shown, word_in};

use crate::memory::read_bit;
use design_core::{Design, Driver, ReadPort};
use emu_io::NoMemory;
use id_arena::{Key, MemId, NetId};
use std::alloc::Global;

/// The nets that read ports with a clock drive.
pub(crate) fn clocked_nets(alloc: Global, design: &Design) -> Result<Vec<NetId>, NoMemory>
    ensures { IfOk result (λ clocked. AreClocked design.now clocked.items) }
{
    design.stands();
    let mut clocked = Vec::new(alloc);
    'nets: for place in 0..design.nets() {
        let net = NetId::of(place);
        if is_clocked(design, net) {
            clocked.push(net)?;
        }
    }
    Ok(clocked)
}

/// Whether a net is a bit of a read port with a clock.
fn is_clocked(design: &Design, net: NetId) -> bool
    requires { net.place < net_count design.now }
    ensures { result ≡ is_clocked design.now (driver design.now net.place) }
{
    match design.driver(net) {
        Driver::Read(mem, port, bit) => port_of(design, net, (mem, port, bit)).clock.is_some(),
        Driver::Constant(_) | Driver::Input | Driver::Elem(_) => false,
    }
}

/// The read port of which a net is a bit.
pub(crate) fn port_of<'a>(design: &'a Design, net: NetId, from: (MemId, u32, u32)) -> &'a ReadPort
    requires { driver design.now net.place ≡ Read from.0 from.1 from.2 }
    ensures { port_of design.now from.0.place from.1 ≡ Some result.now }
{
    let (mem, port, _) = from;
    design.mem(mem).reads.get(u64::from(port))
}

/// Puts in the place of each of these nets what it takes where its clock has its edge: its bit of the word
/// at its port's address, both as they stand before the event. A pass lets write ports act before a read
/// bit has its turn, so the bit is taken before the pass.
pub(crate) fn take_bits(
    design: &Design,
    bases: &[usize],
    clocked: &[NetId],
    old: &[bool],
    words: &[u128],
    new: &mut [bool],
)
    requires design { IsDesign design.now }
    requires bases { AreBases design.now bases.now }
    requires clocked { AreClocked design.now clocked.now }
    requires old_size { length old.now ≡ net_count design.now }
    requires new_size { length new.old ≡ net_count design.now }
    requires room { length words.now ≡ word_count design.now }
    ensures { HasTaken design.now clocked.now (word_in design.now words.now) (shown old.now) new.old new.new }
{
    'bits: for net in clocked {
        new[net.place() as usize] = taken_value(design, bases, *net, old, words);
    }
}

/// What a bit of a read port takes, and 0 for any other net.
fn taken_value(design: &Design, bases: &[usize], net: NetId, nets: &[bool], words: &[u128]) -> bool
    requires design { IsDesign design.now }
    requires bases { AreBases design.now bases.now }
    requires there { net.place < net_count design.now }
    requires size { length nets.now ≡ net_count design.now }
    requires room { length words.now ≡ word_count design.now }
    ensures { result ≡ taken_value design.now (word_in design.now words.now) (shown nets.now) (driver design.now net.place) }
{
    match design.driver(net) {
        Driver::Read(mem, port, bit) => {
            word_bit(design, bases, net, (mem, port, bit), nets, words)
        }
        Driver::Constant(_) | Driver::Input | Driver::Elem(_) => false,
    }
}

/// A bit of the word at the address that a memory's read port shows.
pub(crate) fn word_bit(
    design: &Design,
    bases: &[usize],
    net: NetId,
    from: (MemId, u32, u32),
    nets: &[bool],
    words: &[u128],
) -> bool
    requires design { IsDesign design.now }
    requires bases { AreBases design.now bases.now }
    requires from { driver design.now net.place ≡ Read from.0 from.1 from.2 }
    requires size { length nets.now ≡ net_count design.now }
    requires room { length words.now ≡ word_count design.now }
    ensures { result ≡ word_bit (word_in design.now words.now from.0.place) (shown nets.now) from.2 (port_of design.now from.0.place from.1) }
{
    let port = port_of(design, net, from);
    read_bit(port, from.2, bases[from.0.place() as usize], nets, words)
}
