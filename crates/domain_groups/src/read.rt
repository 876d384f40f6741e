//! From a text to groups, or to its first fault.
ghost use Rattle.std.specs.Prelude.{◌≡◌, ◌<◌, ◌≤◌, ◌++◌, ℕ, List, [], None, false, IfOk, OnOk, flat_map, length};
ghost use Rattle.design_core.specs.Design.{port_bits};
ghost use Rattle.domain_groups.specs.Answers.{Answers, EachTextHasOneAnswer};
ghost use Rattle.domain_groups.specs.Judged.{fault_behind, group_of, is_taken, ports_named, ports_of, some_earlier};
ghost use Rattle.domain_groups.specs.Judging.{AllJudged, ArePlaces, ListJudged, Marks};
ghost use Rattle.domain_groups.specs.Members.{seen};
ghost use Rattle.domain_groups.specs.Ports.{nets_at};

use crate::fault::GroupFault;
use crate::groups::{Groups, NamedGroup};
use crate::port_names::PortNames;
use crate::written::{WrittenGroup, groups_told};
use design_core::{Design, Port};
use emu_io::{List, NoMemory, Text};
use id_arena::NetId;
use json_members::read_json;
use std::alloc::Global;

/// The most groups of a text.
const MOST_GROUPS: u64 = 32;

/// The groups of a design that a text stands for:
/// `{"groups":[{"name":"bus","ports":["bclk","addr"]},{"name":"scan","ports":["sclk"]}]}`. Other members are
/// passed over, and of members named twice the last counts. A refusal names the first fault.
pub fn read_groups(alloc: Global, bytes: &[u8], design: &Design) -> Result<Groups, GroupFault>
    ensures { Answers design.now bytes.now result }
{
    let tree = read_json(alloc, bytes)?;
    let written = groups_told(alloc, &tree)?;
    if written.len() > MOST_GROUPS {
        return Err(GroupFault::Limit);
    }
    judged(alloc, design, written.as_slice())
}

/// The law that a text has one answer for a design, want of memory aside.
pub fn each_text_has_one_answer()
    ensures { EachTextHasOneAnswer }
{}

// The groups of a design that these tell, or the first fault in them.
fn judged(alloc: Global, design: &Design, written: &[WrittenGroup]) -> Result<Groups, GroupFault>
    requires { length written.now ≤ 32 }
    ensures { AllJudged design.now written.now result }
{
    design.stands();
    let ports = PortNames::new(alloc, design.inputs().as_slice())?;
    let groups = judged_list(alloc, &ports, written)?;
    let inputs = all_nets(alloc, design.inputs().as_slice())?;
    Ok(Groups::from_parts(alloc, groups, inputs, design.nets())?)
}

// The groups that these tell, one by one, or the fault of the first that has one.
fn judged_list(
    alloc: Global,
    ports: &PortNames,
    written: &[WrittenGroup],
) -> Result<List<NamedGroup>, GroupFault>
    requires { length written.now ≤ 32 }
    ensures { ListJudged ports.now written.now result }
{
    let mut marks = clear_marks(alloc, ports.ports().len())?;
    let mut groups = List::new(alloc);
    'groups: for k in 0..written.len() {
        let places = places_named(alloc, ports, written[k].ports.as_slice())?;
        if let Some(fault) = fault_behind(
            ports,
            &written[..k],
            &written[k],
            places.as_slice(),
            &mut marks,
        ) {
            return Err(fault);
        }
        groups.push(named_group(alloc, ports, &written[k], places.as_slice())?)?;
    }
    Ok(groups)
}

// So many marks, none of them set.
fn clear_marks(alloc: Global, count: usize) -> Result<Vec<bool>, NoMemory>
    ensures size { IfOk result (λ marks. length marks.items ≡ count) }
    ensures clear { IfOk result (λ marks. Marks marks.items []) }
{
    let mut marks = Vec::new(alloc);
    marks.resize(count, false)?;
    Ok(marks)
}

// The group of this name with the nets of the ports at these places.
fn named_group(
    alloc: Global,
    ports: &PortNames,
    written: &WrittenGroup,
    places: &[usize],
) -> Result<NamedGroup, NoMemory>
    requires named { places.now ≡ ports_named ports.now written.now.ports }
    requires there { ArePlaces (length ports.now) places.now }
    ensures { IfOk result (λ group. seen group ≡ group_of ports.now written.now) }
{
    let nets = nets_at(alloc, ports.ports(), places)?;
    let name = Text::from_bytes(alloc, written.name.bytes())?;
    Ok(NamedGroup { name, nets })
}

// The places of the ports to which these names lead.
fn places_named(alloc: Global, ports: &PortNames, names: &[Text]) -> Result<Vec<usize>, NoMemory>
    ensures named { IfOk result (λ places. places.items ≡ ports_named ports.now names.now) }
    ensures there { IfOk result (λ places. ArePlaces (length ports.now) places.items) }
{
    let mut places = Vec::new(alloc);
    'names: for name in names {
        if let Some(place) = ports.find(name.bytes()) {
            places.push(place)?;
        }
    }
    Ok(places)
}

// The fault of a group that stands behind these. Its ports stand at these places; those of the groups before
// it are marked, and where it has no fault, its own are marked too.
#[tactic(auto, unfolding(crate::specs::Judged::fault_behind))]
fn fault_behind(
    ports: &PortNames,
    earlier: &[WrittenGroup],
    group: &WrittenGroup,
    places: &[usize],
    marks: &mut [bool],
) -> Option<GroupFault>
    requires few { length earlier.now < 32 }
    requires named { places.now ≡ ports_named ports.now group.now.ports }
    requires there { ArePlaces (length marks.old) places.now }
    requires marks { Marks marks.old (ports_of ports.now earlier.now) }
    ensures fault { result ≡ fault_behind ports.now earlier.now group.now }
    ensures size { length marks.new ≡ length marks.old }
    ensures marked { result ≡ None → Marks marks.new (ports_of ports.now earlier.now ++ places.now) }
{
    let number = earlier.len() as u32;
    if is_taken(earlier, group.name.bytes()) {
        return Some(GroupFault::NameTaken { group: number });
    }
    if group.ports.is_empty() {
        return Some(GroupFault::EmptyGroup { group: number });
    }
    if (places.len() as u64) < group.ports.len() {
        return Some(GroupFault::NoPort { group: number });
    }
    if some_earlier(marks, places) {
        return Some(GroupFault::PortTwice { group: number });
    }
    None
}

// Whether one of the groups has this name.
fn is_taken(groups: &[WrittenGroup], name: &[u8]) -> bool
    ensures { result ≡ is_taken groups.now name.now }
{
    'groups: for group in groups {
        if name == group.name.bytes() {
            return true;
        }
    }
    false
}

// Whether one of the places is marked already, or stands at an earlier place of the list. Marks each place
// before that one.
fn some_earlier(marks: &mut [bool], places: &[usize]) -> bool
    requires { ArePlaces (length marks.old) places.now }
    ensures size { length marks.new ≡ length marks.old }
    ensures found { (before : List ℕ) → Marks marks.old before → result ≡ some_earlier before places.now }
    ensures marked { (before : List ℕ) → Marks marks.old before → result ≡ false → Marks marks.new (before ++ places.now) }
{
    'places: for place in places {
        if marks[*place] {
            return true;
        }
        marks[*place] = true;
    }
    false
}

// The nets of the ports at these places, port by port.
fn nets_at(alloc: Global, ports: &[Port], places: &[usize]) -> Result<List<NetId>, NoMemory>
    requires { ArePlaces (length ports.now) places.now }
    ensures { IfOk result (λ nets. nets ≡ flat_map (nets_at ports.now) places.now) }
{
    let mut nets = List::new(alloc);
    'places: for place in places {
        add_nets(&mut nets, ports[*place].nets.as_slice())?;
    }
    Ok(nets)
}

// The nets of all ports, port by port.
fn all_nets(alloc: Global, ports: &[Port]) -> Result<List<NetId>, NoMemory>
    ensures { IfOk result (λ nets. nets ≡ port_bits ports.now) }
{
    let mut nets = List::new(alloc);
    'ports: for port in ports {
        add_nets(&mut nets, port.nets.as_slice())?;
    }
    Ok(nets)
}

// Adds nets to a list.
fn add_nets(nets: &mut List<NetId>, more: &[NetId]) -> Result<(), NoMemory>
    ensures { OnOk result (nets.new ≡ nets.old ++ more.now) }
{
    'more: for net in more {
        nets.push(*net)?;
    }
    Ok(())
}
