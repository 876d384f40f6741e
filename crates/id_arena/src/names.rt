//! Texts numbered in the order of their first use.
ghost use Rattle.std.specs.Prelude.{◌≡◌, ◌∷◌, ◌++◌, [], ◌<◌, ◌↔◌, length, slice_get, IfSome, IfOk, OnOk, OnErr, IfErr};
ghost use Rattle.id_arena.specs.Arena.{item_limit};
ghost use Rattle.id_arena.specs.Names.{place_among, with_name};

use crate::ArenaFault;
use indexmap::IndexSet;
use std::alloc::Global;
use std::marker::Model;

/// Texts in the order in which they first came, each once. The number of a text is its place.
///
/// A contract sees the list of the texts, each as its bytes.
#[derive(Drop)]
pub struct Names {
    texts: IndexSet<Vec<u8>>,
}

impl Model for Names {
    ghost use Rattle.std.specs.Prelude.{List, ℕ, ◌<◌, ◌^◌, length, map};

    ghost Value = { List (List ℕ) };

    ghost view = { λ names. map (λ text. text.items) names.texts.keys };

    ghost invariant = { λ names. length names.texts.keys < 2 ^ 32 };
}

impl Names {
    /// No names.
    pub fn new(alloc: Global) -> Names
        ensures { result ≡ [] }
    {
        Names {
            texts: IndexSet::new(alloc),
        }
    }

    /// The number of names.
    pub fn len(&self) -> u32
        ensures { result ≡ length self.now }
    {
        self.texts.len() as u32
    }

    /// The place of `text`, or `None` where it is not among the names.
    pub fn find(&self, text: &[u8]) -> Option<u32>
        ensures place { result ≡ place_among self.now text.now }
        ensures found { IfSome result (λ place. slice_get self.now place ≡ Some text.now) }
    {
        let place = self.texts.get_index_of(text)?;
        Some(place as u32)
    }

    /// The text at `place`, which is found there and nowhere before.
    pub fn text(&self, place: u32) -> &[u8]
        requires { place < length self.now }
        ensures text { slice_get self.now place ≡ Some result.now }
        ensures once { place_among self.now result.now ≡ Some place }
    {
        self.texts.as_slice()[place as usize].as_slice()
    }

    /// The place of `text`, which goes last if it is new.
    ///
    /// It is `Full` where the text is new and there are 4,294,967,295 names already.
    pub fn intern(&mut self, text: &[u8]) -> Result<u32, ArenaFault>
        ensures place { IfOk result (λ place. place_among self.new text.now ≡ Some place) }
        ensures names { OnOk result (self.new ≡ with_name self.old text.now) }
        ensures full { (result ≡ Err ArenaFault.Full)
            ↔ ((place_among self.old text.now ≡ None) × (length self.old ≡ item_limit)) }
        ensures err { OnErr result (self.new ≡ self.old) }
    {
        if let Some(place) = self.find(text) {
            return Ok(place);
        }
        let place = self.len();
        if place == u32::MAX {
            return Err(ArenaFault::Full);
        }
        self.add(text)?;
        Ok(place)
    }

    // Puts a new text last.
    fn add(&mut self, text: &[u8]) -> Result<(), ArenaFault>
        requires new { place_among self.old text.now ≡ None }
        requires room { length self.old < item_limit }
        ensures added { OnOk result (self.new ≡ self.old ++ text.now ∷ []) }
        ensures err { IfErr result (λ fault. (fault ≡ ArenaFault.NoMemory) × (self.new ≡ self.old)) }
    {
        let copy = text.to_vec(*self.texts.allocator())?;
        self.texts.insert(copy)?;
        Ok(())
    }
}
