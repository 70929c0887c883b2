// A list in a room of fixed size.
#![tactic(auto)]

mod list;

pub use list::{FixedList, Full};

#[cfg(test)]
mod tests {
    use super::*;

    #[test]
    fn items_are_kept_in_order(rt: HostRuntime) {
        let mut list: FixedList<u8, 3> = FixedList::filled_with(0);
        assert!(rt; list.as_slice().is_empty());
        assert!(rt; list.push(7).is_ok());
        assert_eq!(rt; list.len(), 1);
        list.fill_from(&[8, 9, 10]);
        let held = list;
        assert_eq!(rt; list.push(11), Err(Full));
        assert!(rt; list.as_slice() == [7, 8, 9].as_slice());
        assert!(rt; held.as_slice() == [7, 8, 9].as_slice());
    }
}
