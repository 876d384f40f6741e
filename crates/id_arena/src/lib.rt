//! Typed keys, the lists that they lead into, and names numbered in the order of their first use.
#![tactic(auto)]

pub mod arena;
pub mod keys;
pub mod names;
pub mod wire;

pub use arena::{Arena, ArenaFault};
pub use keys::{
    CellId, ChipId, ChipNetId, ElemId, GroupId, Key, MemId, NetId, PinId, RegId, WireId, WorkId,
};
pub use names::Names;
pub use wire::Wire;

#[cfg(test)]
mod tests {
    use super::*;
    use std::test::Fail;

    #[test]
    fn an_arena_gives_its_items_the_places_from_zero_on(rt: HostRuntime) -> Result<(), Fail> {
        let mut weights: Arena<ElemId, u64> = Arena::new(rt.alloc());
        let first = weights.push(8)?;
        let second = weights.push(1)?;
        assert_eq!(rt; first.place(), 0);
        assert_eq!(rt; second.place(), 1);
        assert_eq!(rt; weights.len(), 2);
        weights.set(first, 5);
        assert_eq!(rt; *weights.get(first), 5);
        assert_eq!(rt; *weights.get(second), 1);
        Ok(())
    }

    #[test]
    fn a_name_keeps_the_number_of_its_first_use(rt: HostRuntime) -> Result<(), Fail> {
        let mut names = Names::new(rt.alloc());
        assert_eq!(rt; names.intern(b"a")?, 0);
        assert_eq!(rt; names.intern(b"b")?, 1);
        assert_eq!(rt; names.intern(b"a")?, 0);
        assert_eq!(rt; names.find(b"b"), Some(1));
        assert_eq!(rt; names.find(b"c"), None);
        assert_eq!(rt; names.len(), 2);
        assert!(rt; names.text(1) == b"b".as_slice());
        Ok(())
    }
}
