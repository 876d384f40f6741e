//! A growing list that contracts see as the plain list of its items.

ghost use Rattle.std.specs.Prelude.{◌++◌, ◌<◌, ◌↔◌, ◌≡◌, ◌∷◌, [], length, slice_get, slice_set};
ghost use Rattle.std.specs.Prelude.{IsTrue, MatchOption, OnErr, OnOk};

use crate::NoMemory;
use std::alloc::Global;
use std::marker::Model;

/// A list of items, in the order in which they were pushed. It keeps the allocator that it was
/// made with.
#[derive(Debug, Drop)]
pub struct List<T> {
    items: Vec<T>,
}

impl<T> Model for List<T> {
    ghost use Rattle.std.specs.Prelude.{List};
    ghost use Rattle.std.specs.Coded.{coded_list};

    ghost Value = { List T };

    ghost coded = { coded_list T.code };

    ghost view = { λ it. it.items.items };
}

impl<T> List<T> {
    /// The empty list.
    pub fn new(alloc: Global) -> List<T>
        ensures { result ≡ [] }
    {
        List {
            items: Vec::new(alloc),
        }
    }

    /// The list of a vector's items. Takes no memory.
    pub fn from_vec(items: Vec<T>) -> List<T>
        ensures { result ≡ items.items }
    {
        List { items }
    }

    /// All items, first to last.
    pub fn as_slice(&self) -> &[T]
        ensures { result.now ≡ self.now }
    {
        self.items.as_slice()
    }

    /// The number of items.
    pub fn len(&self) -> u64
        ensures { result ≡ length self.now }
    {
        self.items.len() as u64
    }

    /// Whether there is no item.
    pub fn is_empty(&self) -> bool
        ensures { IsTrue result ↔ (self.now ≡ []) }
    {
        self.items.is_empty()
    }

    /// The item at a place that is below the length.
    pub fn get(&self, place: u64) -> &T
        requires { place < length self.now }
        ensures { slice_get self.now place ≡ Some result.now }
    {
        &self.items[place as usize]
    }
}

impl<T: Drop> List<T> {
    /// Puts an item at the end.
    pub fn push(&mut self, item: T) -> Result<(), NoMemory>
        ensures ok { OnOk result (self.new ≡ self.old ++ item ∷ []) }
        ensures err { OnErr result (self.new ≡ self.old) }
    {
        match self.items.push(item) {
            Ok(()) => Ok(()),
            Err(_) => Err(NoMemory),
        }
    }

    /// Takes the last item away; None exactly where there is none.
    pub fn pop(&mut self) -> Option<T>
        ensures { MatchOption result ((self.old ≡ []) × (self.new ≡ []))
            (λ item. self.old ≡ self.new ++ item ∷ []) }
    {
        self.items.pop()
    }

    /// Puts an item in the place of the one at a place below the length.
    pub fn set(&mut self, place: u64, item: T)
        requires { place < length self.old }
        ensures { self.new ≡ slice_set self.old place item }
    {
        self.items[place as usize] = item;
    }
}

#[cfg(test)]
mod tests {
    use super::*;
    use std::test::Fail;

    #[test]
    fn items_are_kept_in_order(rt: HostRuntime) -> Result<(), Fail> {
        let mut list = List::new(rt.alloc());
        assert!(rt; list.is_empty());
        for item in [5, 7, 9] {
            list.push(item)?;
        }
        assert_eq!(rt; list.len(), 3);
        assert_eq!(rt; *list.get(2), 9);
        list.set(0, 4);
        assert_eq!(rt; list.as_slice(), [4, 7, 9].as_slice());
        assert_eq!(rt; list.pop(), Some(9));
        assert_eq!(rt; list.pop(), Some(7));
        assert_eq!(rt; list.pop(), Some(4));
        assert_eq!(rt; list.pop(), None);
        Ok(())
    }
}
