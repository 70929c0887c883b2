// A plan text and what it says: the rows of a slot table and the cards of tasks, or the first fault in it.
#![tactic(auto)]

mod cards;
mod draft;
mod fault;
mod fields;
mod lawful;
mod laws;
mod line;
mod plan;
mod reader;
mod row;
mod table;

pub use fault::{Cause, Fault};
pub use lawful::reading_law;
pub use laws::cycle_law;
pub use plan::Plan;
pub use row::SlotRow;

#[cfg(test)]
mod tests {
    use super::*;
    use std::test::Fail;

    // the rows of a small rack and two cards
    const RACK: &[u8] = b"S,0,4,1100\nS,1,8,11110000\nT,0,1,8,3\nT,31,2,4096,2\n";

    #[test]
    fn a_plan_is_read(rt: HostRuntime) -> Result<(), Fail> {
        let mut plan = Plan::idle();
        assert!(rt; plan.read(RACK).is_ok());
        assert_eq!(rt; plan.row_count(), 2);
        assert_eq!(rt; plan.cycle(), 8);
        assert_eq!(rt; plan.card_count(), 2);
        let Some(row) = plan.row(1) else {
            return Err(Fail::new("no row 1"));
        };
        assert_eq!(rt; row.period(), 8);
        assert!(rt; row.gives(3));
        assert!(rt; !row.gives(4));
        assert!(rt; row.gives(11));
        assert!(rt; plan.row(2).is_none());
        let Some(card) = plan.card(1) else {
            return Err(Fail::new("no card 1"));
        };
        assert_eq!(rt; card.id(), 31);
        assert_eq!(rt; card.run(), 2);
        assert_eq!(rt; card.period(), 4096);
        assert_eq!(rt; card.deadline(), 2);
        assert!(rt; plan.card(2).is_none());
        Ok(())
    }

    #[test]
    fn rows_and_cards_are_lent(rt: HostRuntime) {
        let mut plan = Plan::idle();
        assert_eq!(rt; plan.rows().len(), 1);
        assert!(rt; plan.cards().is_empty());
        assert!(rt; plan.read(RACK).is_ok());
        assert_eq!(rt; plan.rows().len(), 2);
        assert_eq!(rt; plan.rows()[1].period(), 8);
        assert_eq!(rt; plan.cards().len(), 2);
        assert_eq!(rt; plan.cards()[1].id(), 31);
    }

    #[test]
    fn a_fault_leaves_the_plan(rt: HostRuntime) {
        let mut plan = Plan::idle();
        assert_eq!(rt; plan.row_count(), 1);
        assert_eq!(rt; plan.cycle(), 1);
        assert_eq!(rt; plan.card_count(), 0);
        assert!(rt; plan.read(RACK).is_ok());
        let fault = Fault {
            cause: Cause::TaskTimes,
            line: 2,
            field: 5,
        };
        assert_eq!(rt; plan.read(b"S,0,1,1\nT,0,1,4,5\n"), Err(fault));
        assert_eq!(rt; plan.row_count(), 2);
        assert_eq!(rt; plan.cycle(), 8);
        assert_eq!(rt; plan.card_count(), 2);
    }

    #[test]
    fn causes_have_their_numbers(rt: HostRuntime) {
        assert_eq!(rt; Cause::TextTooLong.number(), 1);
        assert_eq!(rt; Cause::NotANumber.number(), 5);
        assert_eq!(rt; Cause::TaskTimes.number(), 12);
    }
}
