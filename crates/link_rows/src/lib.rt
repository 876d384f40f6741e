//! Lists of items under heads, linked by places inside arrays, so that an item moves from one list
//! to another without memory and in constant time; and rows of bits that can grow wider.
#![tactic(auto)]

mod arrays;
mod bit_rows;
mod rows;
mod words;

pub use bit_rows::BitRows;
pub use rows::Rows;

#[cfg(test)]
mod tests {
    use super::*;
    use id_arena::{ElemId, Key, NetId};
    use std::test::Fail;

    #[test]
    fn items_move_between_the_lists_of_two_heads(rt: HostRuntime) -> Result<(), Fail> {
        let mut rows: Rows<NetId, ElemId> = Rows::new(rt.alloc());
        rows.reserve(2, 3)?;
        assert_eq!(rt; rows.heads(), 2);
        assert_eq!(rt; rows.items(), 3);
        let (near, far) = (NetId::of(0), NetId::of(1));
        let (a, b, c) = (ElemId::of(0), ElemId::of(1), ElemId::of(2));

        rows.push_front(near, a);
        rows.push_front(near, b);
        rows.push_front(far, c);
        assert_eq!(rt; rows.first(near), Some(b));
        assert_eq!(rt; rows.next(b), Some(a));
        assert_eq!(rt; rows.next(a), None);
        assert_eq!(rt; rows.first(far), Some(c));
        assert_eq!(rt; rows.next(c), None);

        rows.move_all(near, far);
        assert_eq!(rt; rows.first(near), None);
        assert_eq!(rt; rows.first(far), Some(b));
        assert_eq!(rt; rows.next(b), Some(a));
        assert_eq!(rt; rows.next(a), Some(c));
        assert_eq!(rt; rows.next(c), None);

        rows.unlink(a);
        assert_eq!(rt; rows.head_of(a), None);
        assert_eq!(rt; rows.head_of(b), Some(far));
        assert_eq!(rt; rows.first(far), Some(b));
        assert_eq!(rt; rows.next(b), Some(c));

        rows.unlink(c);
        assert_eq!(rt; rows.first(far), Some(b));
        assert_eq!(rt; rows.next(b), None);
        Ok(())
    }

    #[test]
    fn the_first_clear_bit_of_a_row_that_grows(rt: HostRuntime) -> Result<(), Fail> {
        let mut bits = BitRows::new(rt.alloc(), 1, 3)?;
        bits.set(0, 0, true);
        bits.set(0, 1, true);
        assert_eq!(rt; bits.first_clear_from(0, 0), Some(2));
        bits.set(0, 2, true);
        assert_eq!(rt; bits.first_clear_from(0, 0), None);
        assert_eq!(rt; bits.first_clear_from(0, 3), None);
        bits.widen(4)?;
        assert_eq!(rt; bits.width(), 4);
        assert_eq!(rt; bits.first_clear_from(0, 0), Some(3));
        assert_eq!(rt; bits.test(0, 2), true);
        bits.set(0, 2, false);
        assert_eq!(rt; bits.test(0, 2), false);
        assert_eq!(rt; bits.first_clear_from(0, 1), Some(2));
        Ok(())
    }
}
