//! Lists whose items are reached by keys of one kind.
ghost use Rattle.std.specs.Prelude.{◌≡◌, ◌++◌, ◌∷◌, [], ◌<◌, ◌↔◌, length, slice_get, slice_set, IfOk, OnOk, OnErr};
ghost use Rattle.id_arena.specs.Arena.{item_limit};

use crate::Key;
use std::alloc::{AllocError, AllocFailed, Global};
use std::marker::{Model, PhantomData};

/// Why a list takes no further item.
#[derive(Clone, Copy, Debug, PartialEq, Eq, Hash)]
pub enum ArenaFault {
    /// There are 4,294,967,295 items already, so the number of one more would not fit.
    Full,
    /// There was no memory for the item.
    NoMemory,
}

impl<T: Drop> From<AllocFailed<T>> for ArenaFault {
    ghost use Rattle.std.specs.Prelude.{◌≡◌};
    ghost use Rattle.id_arena.specs.declared.arena.ArenaFault.TheVariants.{NoMemory};

    ghost from_gives = { λ _ fault. fault ≡ NoMemory };

    fn from(_refused: AllocFailed<T>) -> ArenaFault {
        ArenaFault::NoMemory
    }
}

impl From<AllocError> for ArenaFault {
    ghost use Rattle.std.specs.Prelude.{◌≡◌};
    ghost use Rattle.id_arena.specs.declared.arena.ArenaFault.TheVariants.{NoMemory};

    ghost from_gives = { λ _ fault. fault ≡ NoMemory };

    fn from(_refused: AllocError) -> ArenaFault {
        ArenaFault::NoMemory
    }
}

/// A list of items, each of which keeps its place, and so its key, for as long as the list lives.
///
/// A contract sees the list of the items.
#[derive(Drop)]
pub struct Arena<K: Key, T> {
    items: Vec<T>,
    of: PhantomData<K>,
}

impl<K: Key, T> Model for Arena<K, T> {
    ghost use Rattle.std.specs.Prelude.{List, ◌<◌, length, ◌^◌};
    ghost use Rattle.std.specs.Coded.{coded_list};

    ghost Value = { List T };

    ghost coded = { coded_list T.code };

    ghost view = { λ arena. arena.items.items };

    ghost invariant = { λ arena. length arena.items.items < 2 ^ 32 };
}

impl<K: Key, T> Arena<K, T> {
    /// A list with no items.
    pub fn new(alloc: Global) -> Arena<K, T>
        ensures { result ≡ [] }
    {
        Arena {
            items: Vec::new(alloc),
            of: PhantomData,
        }
    }

    /// The number of items.
    pub fn len(&self) -> u32
        ensures { result ≡ length self.now }
    {
        self.items.len() as u32
    }

    /// The item that `key` stands for.
    pub fn get(&self, key: K) -> &T
        requires { K.place_of key < length self.now }
        ensures { slice_get self.now (K.place_of key) ≡ Some result.now }
    {
        &self.items[key.place() as usize]
    }
}

impl<K: Key, T: Drop> Arena<K, T> {
    /// Puts `item` last, and gives its key.
    pub fn push(&mut self, item: T) -> Result<K, ArenaFault>
        ensures key { IfOk result (λ key. key ≡ K.key_of (length self.old)) }
        ensures added { OnOk result (self.new ≡ self.old ++ item ∷ []) }
        ensures full { (result ≡ Err ArenaFault.Full) ↔ (length self.old ≡ item_limit) }
        ensures err { OnErr result (self.new ≡ self.old) }
    {
        let place = self.len();
        if place == u32::MAX {
            return Err(ArenaFault::Full);
        }
        self.items.push(item)?;
        Ok(K::of(place))
    }

    /// Puts `item` in the place of the one that `key` stands for.
    pub fn set(&mut self, key: K, item: T)
        requires { K.place_of key < length self.old }
        ensures { self.new ≡ slice_set self.old (K.place_of key) item }
    {
        self.items[key.place() as usize] = item;
    }
}
