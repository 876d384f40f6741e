//! The texts that name nets and elements.

ghost use Rattle.std.specs.Prelude.{◌≡◌, ◌<◌, ◌≤◌, ◌++◌, [], if◌then◌else◌, codes, IfOk, OnOk, length, map};
ghost use Rattle.design_core.specs.Design.{net_count};
ghost use Rattle.design_core.specs.Names.{AreOutward, IsElementPath, IsNamed, IsNetText, IsPathIn, IsTrail, before_name, escaped, index_text};
ghost use Rattle.design_core.specs.Trails.{AreScopes, name_at, parent_at};

use crate::{Parts, Scope};
use emu_io::{NoMemory, Text};
use id_arena::{ElemId, Key, NetId};
use itoa::Buffer;
use std::alloc::Global;

/// The scope around a scope.
fn parent_of(scopes: &[Scope], place: u32) -> Option<u32>
    requires { place < length scopes.now }
    ensures { result ≡ parent_at scopes.now place }
{
    scopes[place as usize].parent
}

/// The scopes from one outwards, without the top.
fn trail_of(alloc: Global, scopes: &[Scope], from: u32) -> Result<Vec<u32>, NoMemory>
    requires there { from < length scopes.now }
    requires outward { AreOutward scopes.now }
    ensures trail { IfOk result (λ trail. IsTrail scopes.now from (map (name_at scopes.now) trail.items)) }
    ensures scopes { IfOk result (λ trail. AreScopes scopes.now trail.items) }
{
    let mut trail = Vec::new(alloc);
    let mut place = from;
    'outwards: while let Some(parent) = parent_of(scopes, place) {
        trail.push(place)?;
        place = parent;
    }
    Ok(trail)
}

/// Appends a name with `~` and `/` escaped.
fn push_escaped(text: &mut Vec<u8>, name: &[u8]) -> Result<(), NoMemory>
    ensures { OnOk result (text.new.items ≡ text.old.items ++ escaped name.now) }
{
    'bytes: for byte in name {
        match *byte {
            b'~' => text.extend_from_slice(b"~0")?,
            b'/' => text.extend_from_slice(b"~1")?,
            plain => text.push(plain)?,
        }
    }
    Ok(())
}

/// Appends the index of a bit in brackets.
fn push_index(text: &mut Vec<u8>, index: Option<u32>) -> Result<(), NoMemory>
    ensures { OnOk result (text.new.items ≡ text.old.items ++ index_text index) }
{
    let Some(index) = index else {
        return Ok(());
    };
    let mut digits = Buffer::new();
    text.push(b'[')?;
    text.extend_from_slice(digits.format(index).as_bytes())?;
    text.push(b']')?;
    Ok(())
}

/// Appends what stands between the path of the scopes around and a name, and the name.
fn push_name(
    text: &mut Vec<u8>,
    scopes: &[Scope],
    place: u32,
    outermost: bool,
) -> Result<(), NoMemory>
    requires { place < length scopes.now }
    ensures { OnOk result (text.new.items
        ≡ text.old.items ++ ((if outermost then [] else codes "/") ++ escaped (name_at scopes.now place))) }
{
    if !outermost {
        text.push(b'/')?;
    }
    push_escaped(text, scopes[place as usize].name.bytes())
}

/// The path of a scope.
fn path_text(alloc: Global, scopes: &[Scope], from: u32) -> Result<Vec<u8>, NoMemory>
    requires there { from < length scopes.now }
    requires outward { AreOutward scopes.now }
    ensures { IfOk result (λ text. IsPathIn scopes.now from text.items) }
{
    let trail = trail_of(alloc, scopes, from)?;
    let mut text = Vec::new(alloc);
    'inwards: for written in 0..trail.len() {
        let place = trail[trail.len() - 1 - written];
        push_name(&mut text, scopes, place, written == 0)?;
    }
    Ok(text)
}

/// Appends a slash to a path that is not empty.
fn push_slash(text: &mut Vec<u8>) -> Result<(), NoMemory>
    ensures { OnOk result (text.new.items ≡ before_name text.old.items) }
{
    if text.is_empty() {
        return Ok(());
    }
    text.push(b'/')?;
    Ok(())
}

/// The name of a net that is no constant.
fn named_text(alloc: Global, parts: &Parts, net: NetId) -> Result<Text, NoMemory>
    requires there { net.place < net_count parts.now }
    requires free { 2 ≤ net.place }
    requires named { IsNamed parts.now }
    ensures { IfOk result (IsNetText parts.now net.place) }
{
    let name = parts.net_names.get(u64::from(net.place()));
    let mut text = path_text(alloc, parts.scopes.as_slice(), name.scope)?;
    push_slash(&mut text)?;
    text.extend_from_slice(name.name.bytes())?;
    push_index(&mut text, name.index)?;
    Ok(Text::from_vec(text))
}

/// The name of a net.
pub(crate) fn net_text(alloc: Global, parts: &Parts, net: NetId) -> Result<Text, NoMemory>
    requires there { net.place < net_count parts.now }
    requires named { IsNamed parts.now }
    ensures { IfOk result (IsNetText parts.now net.place) }
{
    match net.place() {
        0 => Text::from_bytes(alloc, b"1'b0"),
        1 => Text::from_bytes(alloc, b"1'b1"),
        _ => named_text(alloc, parts, net),
    }
}

/// The path of an element.
pub(crate) fn element_path(alloc: Global, parts: &Parts, elem: ElemId) -> Result<Text, NoMemory>
    requires there { elem.place < length parts.now.elements }
    requires named { IsNamed parts.now }
    ensures { IfOk result (IsElementPath parts.now elem.place) }
{
    let scope = *parts.paths.get(u64::from(elem.place()));
    let text = path_text(alloc, parts.scopes.as_slice(), scope)?;
    Ok(Text::from_vec(text))
}
