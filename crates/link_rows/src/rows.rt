//! Lists of items under heads.
ghost use Rattle.std.specs.Prelude.{◌≡◌, ◌-◌, ◌<◌, ◌≢◌, ◌∷◌, [], None, IsSome, max, map, length, slice_set, OnOk, OnErr};
ghost use Rattle.std.specs.Option.{option_map};
ghost use Rattle.link_rows.specs.Rows.{row, home, first_of, next_in, prev_in, last_or, without, with_more, moved_all, AreApart};

use crate::arrays::Arrays;
use emu_io::NoMemory;
use id_arena::Key;
use std::alloc::Global;
use std::marker::{Model, PhantomData};

/// A list of items for each head, where each item is in at most one list. Heads and items have the
/// places from 0 on, and keys lead to them.
///
/// A contract sees the list of each head, by the places of its items, and the number of items.
/// Only `reserve` takes memory; `move_all` goes over the list that it moves, and every other call
/// takes constant time.
#[derive(Drop)]
pub struct Rows<H: Key, I: Key> {
    arrays: Arrays,
    of: PhantomData<(H, I)>,
}

impl<H: Key, I: Key> Model for Rows<H, I> {
    ghost use Rattle.std.specs.Prelude.{length};
    ghost use Rattle.link_rows.specs.Rows.{Linked};
    ghost use Rattle.link_rows.specs.Links.{lists_of, IsLinked};

    ghost Value = { Linked };

    ghost view = { λ rows. let arrays = rows.arrays in record {
      lists = lists_of arrays.firsts.items arrays.links.items;
      items = length arrays.links.items;
    } };

    ghost invariant = { λ rows. let arrays = rows.arrays in
        IsLinked arrays.firsts.items arrays.links.items (lists_of arrays.firsts.items arrays.links.items) };
}

impl<H: Key, I: Key> Rows<H, I> {
    /// No heads and no items.
    pub fn new(alloc: Global) -> Rows<H, I>
        ensures { result ≡ record { lists = []; items = 0 } }
    {
        Rows {
            arrays: Arrays::new(alloc),
            of: PhantomData,
        }
    }

    /// The number of heads.
    pub fn heads(&self) -> u32
        ensures count { result ≡ length self.now.lists }
        ensures apart { AreApart self.now }
    {
        self.arrays.firsts.len() as u32
    }

    /// The number of items.
    pub fn items(&self) -> u32
        ensures count { result ≡ self.now.items }
        ensures apart { AreApart self.now }
    {
        self.arrays.links.len() as u32
    }

    /// Makes the numbers of heads and items at least these. New lists are empty, and new items are in
    /// no list.
    pub fn reserve(&mut self, heads: u32, items: u32) -> Result<(), NoMemory>
        ensures ok { OnOk result (self.new ≡ record {
          lists = with_more self.old.lists (heads - length self.old.lists);
          items = max items self.old.items;
        }) }
        ensures err { OnErr result (self.new ≡ self.old) }
        ensures apart { AreApart self.new }
    {
        self.arrays.grow(heads, items)?;
        Ok(())
    }

    /// The first item of a head's list, or `None` where the list is empty.
    pub fn first(&self, h: H) -> Option<I>
        requires { H.place_of h < length self.now.lists }
        ensures { result ≡ option_map I.key_of (first_of (row self.now.lists (H.place_of h))) }
    {
        let first = self.arrays.firsts[h.place() as usize]?;
        Some(I::of(first))
    }

    /// The item after an item that is in a list, or `None` at the list's end.
    pub fn next(&self, i: I) -> Option<I>
        requires { IsSome (home (I.place_of i) self.now.lists) }
        ensures { result ≡ option_map I.key_of (next_in self.now.lists (I.place_of i)) }
    {
        let next = self.arrays.links[i.place() as usize].next?;
        Some(I::of(next))
    }

    /// The head in whose list an item is, or `None` where it is in none.
    pub fn head_of(&self, i: I) -> Option<H>
        requires { I.place_of i < self.now.items }
        ensures { result ≡ option_map H.key_of (home (I.place_of i) self.now.lists) }
    {
        let head = self.arrays.links[i.place() as usize].owner?;
        Some(H::of(head))
    }

    /// Puts an item that is in no list before the others of a head.
    pub fn push_front(&mut self, h: H, i: I)
        requires head { H.place_of h < length self.old.lists }
        requires item { I.place_of i < self.old.items }
        requires unlinked { home (I.place_of i) self.old.lists ≡ None }
        ensures front { let head = H.place_of h in self.new ≡ record {
          lists = slice_set self.old.lists head (I.place_of i ∷ row self.old.lists head);
          items = self.old.items;
        } }
        ensures apart { AreApart self.new }
    {
        self.arrays.put_front(h.place(), i.place());
    }

    /// Takes an item out of its list. An item that is in none stays so.
    pub fn unlink(&mut self, i: I)
        requires { I.place_of i < self.old.items }
        ensures out { self.new ≡ record {
          lists = map (without (I.place_of i)) self.old.lists;
          items = self.old.items;
        } }
        ensures apart { AreApart self.new }
    {
        let item = i.place();
        if let Some(head) = self.arrays.links[item as usize].owner {
            self.arrays.cut(head, item);
        }
    }

    /// Puts the list of `from`, in its order, before the list of `to`, and leaves `from` empty.
    pub fn move_all(&mut self, from: H, to: H)
        requires from { H.place_of from < length self.old.lists }
        requires to { H.place_of to < length self.old.lists }
        requires differ { H.place_of from ≢ H.place_of to }
        ensures moved { self.new ≡ record {
          lists = moved_all self.old.lists (H.place_of from) (H.place_of to);
          items = self.old.items;
        } }
        ensures apart { AreApart self.new }
    {
        let mut at = self.last(from);
        'back: while let Some(item) = at {
            at = self.before(item);
            self.unlink(item);
            self.push_front(to, item);
        }
    }

    // The last item of a head's list.
    fn last(&self, h: H) -> Option<I>
        requires { H.place_of h < length self.now.lists }
        ensures last { result ≡ option_map I.key_of (last_or None (row self.now.lists (H.place_of h))) }
        ensures apart { AreApart self.now }
    {
        let mut at = self.arrays.firsts[h.place() as usize]?;
        'forth: while let Some(next) = self.arrays.links[at as usize].next {
            at = next;
        }
        Some(I::of(at))
    }

    // The item before an item that is in a list.
    fn before(&self, i: I) -> Option<I>
        requires { IsSome (home (I.place_of i) self.now.lists) }
        ensures { result ≡ option_map I.key_of (prev_in self.now.lists (I.place_of i)) }
    {
        let prev = self.arrays.links[i.place() as usize].prev?;
        Some(I::of(prev))
    }
}
