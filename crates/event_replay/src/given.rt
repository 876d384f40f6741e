//! The opening of a text as it is told, not yet judged.

ghost use Rattle.std.specs.Prelude.{◌≡◌, IfOk, codes, map};
ghost use Rattle.serde_json.specs.View.{view, items_view, members_view};
ghost use Rattle.json_members.specs.Members.{all_of, each};
ghost use Rattle.json_members.specs.Shapes.{Reads};
ghost use Rattle.domain_groups.specs.GivenOpening.{listed, value_told, values_told, paths_told, entry_told, word_told, words_told, told_by, opening_told};
ghost use Rattle.serde_json.specs.Find.{as_str};
ghost use Rattle.event_replay.specs.Checks.{AreApart};
ghost use Rattle.event_replay.specs.Given.{ReadsAs};

use emu_io::List;
use json_members::{ShapeFault, word_of};
use serde_json::{Map, Value};
use std::alloc::Global;
use std::marker::Model;

/// The digits that a text gives a name.
#[derive(Drop)]
pub(crate) struct GivenValue<'t> {
    pub(crate) name: &'t [u8],
    pub(crate) digits: &'t [u8],
}

impl<'t> Model for GivenValue<'t> {
    ghost use Rattle.domain_groups.specs.GivenOpening.{GivenValue};

    ghost Value = { GivenValue };

    ghost view = { λ g. record { name = g.name.now; digits = g.digits.now } };
}

/// The digits that a text gives a word of a memory.
#[derive(Drop)]
pub(crate) struct GivenWord<'t> {
    pub(crate) path: &'t [u8],
    pub(crate) address: u32,
    pub(crate) digits: &'t [u8],
}

impl<'t> Model for GivenWord<'t> {
    ghost use Rattle.domain_groups.specs.GivenOpening.{GivenWord};

    ghost Value = { GivenWord };

    ghost view = { λ g. record { path = g.path.now; address = g.address; digits = g.digits.now } };
}

/// What the text of an opening tells: values of inputs in the order of their names, paths of flip-flops and
/// latches, and words.
#[derive(Drop)]
pub(crate) struct GivenOpening<'t> {
    pub(crate) inputs: List<GivenValue<'t>>,
    pub(crate) ones: List<&'t [u8]>,
    pub(crate) words: List<GivenWord<'t>>,
}

impl<'t> Model for GivenOpening<'t> {
    ghost use Rattle.std.specs.Prelude.{map};
    ghost use Rattle.domain_groups.specs.GivenOpening.{GivenOpening};

    ghost Value = { GivenOpening };

    ghost view = { λ g. record { inputs = g.inputs; ones = map (λ path. path.now) g.ones; words = g.words } };
}

/// The opening that a tree tells.
#[tactic(auto, unfolding(domain_groups::specs::GivenOpening::opening_told))]
pub(crate) fn opening_told<'t>(
    alloc: Global,
    tree: &'t Value,
) -> Result<GivenOpening<'t>, ShapeFault>
    ensures told { Reads (opening_told (view tree.now)) result }
    ensures apart { IfOk result (λ given. AreApart given.inputs) }
{
    if !tree.is_object() {
        return Err(ShapeFault::BadShape);
    }
    let inputs = inputs_told(alloc, tree)?;
    let ones = ones_told(alloc, tree)?;
    let words = words_told(alloc, tree)?;
    Ok(GivenOpening {
        inputs,
        ones,
        words,
    })
}

/// The values of inputs that a tree tells.
fn inputs_told<'t>(alloc: Global, tree: &'t Value) -> Result<List<GivenValue<'t>>, ShapeFault>
    ensures told { Reads (told_by (codes "inputs") values_told (view tree.now)) result }
    ensures apart { IfOk result AreApart }
{
    match tree.get("inputs") {
        Some(member) => values_told(alloc, member),
        None => Ok(List::new(alloc)),
    }
}

/// The paths of flip-flops and latches that a tree tells.
fn ones_told<'t>(alloc: Global, tree: &'t Value) -> Result<List<&'t [u8]>, ShapeFault>
    ensures { ReadsAs (λ paths. map (λ path. path.now) paths) (told_by (codes "ones") paths_told (view tree.now)) result }
{
    match tree.get("ones") {
        Some(member) => paths_told(alloc, member),
        None => Ok(List::new(alloc)),
    }
}

/// The words that a tree tells.
fn words_told<'t>(alloc: Global, tree: &'t Value) -> Result<List<GivenWord<'t>>, ShapeFault>
    ensures { Reads (told_by (codes "words") words_told (view tree.now)) result }
{
    match tree.get("words") {
        Some(member) => entries_told(alloc, member),
        None => Ok(List::new(alloc)),
    }
}

/// The values that an object of texts gives.
#[tactic(auto, unfolding(domain_groups::specs::GivenOpening::values_told))]
fn values_told<'t>(alloc: Global, tree: &'t Value) -> Result<List<GivenValue<'t>>, ShapeFault>
    ensures told { Reads (values_told (view tree.now)) result }
    ensures apart { IfOk result AreApart }
{
    match tree.as_object() {
        Some(members) => members_told(alloc, members),
        None => Err(ShapeFault::BadShape),
    }
}

/// The values that the members of an object give.
fn members_told<'t>(
    alloc: Global,
    members: &'t Map<String, Value>,
) -> Result<List<GivenValue<'t>>, ShapeFault>
    ensures told { Reads (all_of value_told (listed (members_view members.now.entries))) result }
    ensures apart { IfOk result AreApart }
{
    let mut values = List::new(alloc);
    'members: for (name, value) in members.iter() {
        let Some(digits) = value.as_str() else {
            return Err(ShapeFault::BadShape);
        };
        values.push(GivenValue {
            name: name.as_bytes(),
            digits: digits.as_bytes(),
        })?;
    }
    Ok(values)
}

/// The paths in a list of texts.
#[tactic(auto, unfolding(domain_groups::specs::GivenOpening::paths_told))]
fn paths_told<'t>(alloc: Global, tree: &'t Value) -> Result<List<&'t [u8]>, ShapeFault>
    ensures { ReadsAs (λ paths. map (λ path. path.now) paths) (paths_told (view tree.now)) result }
{
    match tree.as_array() {
        Some(items) => texts_of(alloc, items.as_slice()),
        None => Err(ShapeFault::BadShape),
    }
}

/// The texts that values are.
fn texts_of<'t>(alloc: Global, values: &'t [Value]) -> Result<List<&'t [u8]>, ShapeFault>
    ensures { ReadsAs (λ paths. map (λ path. path.now) paths) (each as_str (items_view values.now)) result }
{
    let mut texts = List::new(alloc);
    'values: for value in values {
        let Some(text) = value.as_str() else {
            return Err(ShapeFault::BadShape);
        };
        texts.push(text.as_bytes())?;
    }
    Ok(texts)
}

/// The words that a list of entries gives.
#[tactic(auto, unfolding(domain_groups::specs::GivenOpening::words_told))]
fn entries_told<'t>(alloc: Global, tree: &'t Value) -> Result<List<GivenWord<'t>>, ShapeFault>
    ensures { Reads (words_told (view tree.now)) result }
{
    match tree.as_array() {
        Some(items) => words_of(alloc, items.as_slice()),
        None => Err(ShapeFault::BadShape),
    }
}

/// The words that values are.
fn words_of<'t>(alloc: Global, values: &'t [Value]) -> Result<List<GivenWord<'t>>, ShapeFault>
    ensures { Reads (each word_told (items_view values.now)) result }
{
    let mut words = List::new(alloc);
    'values: for value in values {
        let Some(word) = word_told(value) else {
            return Err(ShapeFault::BadShape);
        };
        words.push(word)?;
    }
    Ok(words)
}

/// The word that a list of a path, an address and digits gives.
fn word_told(value: &Value) -> Option<GivenWord<'_>>
    ensures { result ≡ word_told (view value.now) }
{
    let items = value.as_array()?;
    match items.as_slice() {
        [path, address, digits] => entry_told(path, address, digits),
        _ => None,
    }
}

/// The word of a path, an address and digits.
#[tactic(auto, unfolding(domain_groups::specs::GivenOpening::entry_told))]
fn entry_told<'t>(first: &'t Value, second: &Value, third: &'t Value) -> Option<GivenWord<'t>>
    ensures { result ≡ entry_told (view first.now) (view second.now) (view third.now) }
{
    let path = first.as_str()?;
    let address = word_of(second)?;
    let digits = third.as_str()?;
    Some(GivenWord {
        path: path.as_bytes(),
        address,
        digits: digits.as_bytes(),
    })
}
