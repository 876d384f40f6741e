//! The arrays in which the lists are linked.
ghost use Rattle.std.specs.Prelude.{◌≡◌, ◌++◌, ◌<◌, ◌-◌, [], None, Some, length, slice_set, replicate, OnOk, OnErr};
ghost use Rattle.link_rows.specs.Links.{link_of, first_at, loose, front_links, cut_firsts, cut_links, with_next, with_prev, IsWithin};

use emu_io::NoMemory;
use std::alloc::Global;

/// What an item knows of its list: its neighbours, and the head. All three are `None` where the item
/// is in no list.
#[derive(Clone, Copy, Debug, Drop, PartialEq, Eq)]
pub(crate) struct Link {
    pub(crate) next: Option<u32>,
    pub(crate) prev: Option<u32>,
    pub(crate) owner: Option<u32>,
}

/// The first item of each head, and the link of each item.
#[derive(Drop)]
pub(crate) struct Arrays {
    pub(crate) firsts: Vec<Option<u32>>,
    pub(crate) links: Vec<Link>,
}

impl Arrays {
    /// No heads and no items.
    pub(crate) fn new(alloc: Global) -> Arrays
        ensures firsts { result.firsts.items ≡ [] }
        ensures links { result.links.items ≡ [] }
    {
        Arrays {
            firsts: Vec::new(alloc),
            links: Vec::new(alloc),
        }
    }

    /// Makes the numbers of heads and items at least these; the new heads have no items, and the new
    /// items are in no list.
    pub(crate) fn grow(&mut self, heads: u32, items: u32) -> Result<(), NoMemory>
        ensures firsts { let old = self.old.firsts.items in
            OnOk result (self.new.firsts.items ≡ old ++ replicate (heads - length old) None) }
        ensures links { let old = self.old.links.items in
            OnOk result (self.new.links.items ≡ old ++ replicate (items - length old) loose) }
        ensures firsts_kept { OnErr result (self.new.firsts.items ≡ self.old.firsts.items) }
        ensures links_kept { OnErr result (self.new.links.items ≡ self.old.links.items) }
    {
        let more_heads = (heads as usize).saturating_sub(self.firsts.len());
        let more_items = (items as usize).saturating_sub(self.links.len());
        self.firsts.reserve(more_heads)?;
        self.links.reserve(more_items)?;
        self.firsts.resize(self.firsts.len() + more_heads, None)?;
        let loose = Link {
            next: None,
            prev: None,
            owner: None,
        };
        self.links.resize(self.links.len() + more_items, loose)?;
        Ok(())
    }

    /// Puts an item before the first of a head.
    pub(crate) fn put_front(&mut self, head: u32, item: u32)
        requires head { head < length self.old.firsts.items }
        requires item { item < length self.old.links.items }
        requires first { IsWithin (first_at self.old.firsts.items head) (length self.old.links.items) }
        ensures firsts { self.new.firsts.items ≡ slice_set self.old.firsts.items head (Some item) }
        ensures links { self.new.links.items
            ≡ front_links self.old.firsts.items self.old.links.items head item }
    {
        let next = self.firsts[head as usize];
        self.set_prev(next, Some(item));
        self.links[item as usize] = Link {
            next,
            prev: None,
            owner: Some(head),
        };
        self.firsts[head as usize] = Some(item);
    }

    /// Takes an item of a head out of its list.
    pub(crate) fn cut(&mut self, head: u32, item: u32)
        requires head { head < length self.old.firsts.items }
        requires item { item < length self.old.links.items }
        requires next { IsWithin (link_of self.old.links.items item).next (length self.old.links.items) }
        requires prev { IsWithin (link_of self.old.links.items item).prev (length self.old.links.items) }
        ensures firsts { let link = link_of self.old.links.items item in
            self.new.firsts.items ≡ cut_firsts self.old.firsts.items link.prev link.next head }
        ensures links { self.new.links.items ≡ cut_links self.old.links.items item }
    {
        let Link { next, prev, .. } = self.links[item as usize];
        if prev.is_none() {
            self.firsts[head as usize] = next;
        }
        self.set_next(prev, next);
        self.set_prev(next, prev);
        self.links[item as usize] = Link {
            next: None,
            prev: None,
            owner: None,
        };
    }

    // Sets what follows an item, if there is one.
    fn set_next(&mut self, item: Option<u32>, next: Option<u32>)
        requires { IsWithin item (length self.old.links.items) }
        ensures firsts { self.new.firsts.items ≡ self.old.firsts.items }
        ensures links { self.new.links.items ≡ with_next self.old.links.items item next }
    {
        if let Some(item) = item {
            self.links[item as usize].next = next;
        }
    }

    // Sets what is before an item, if there is one.
    fn set_prev(&mut self, item: Option<u32>, prev: Option<u32>)
        requires { IsWithin item (length self.old.links.items) }
        ensures firsts { self.new.firsts.items ≡ self.old.firsts.items }
        ensures links { self.new.links.items ≡ with_prev self.old.links.items item prev }
    {
        if let Some(item) = item {
            self.links[item as usize].prev = prev;
        }
    }
}
