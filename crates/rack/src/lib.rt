// Racks whose processors are given in a cycle that repeats itself.
#![tactic(auto)]

mod counts;
mod kept;
mod level;
mod levels;
mod running;
mod slots;

pub use slots::SlotRack;
use supply::Supply;

#[cfg(test)]
mod tests {
    use super::*;
    use plan::Plan;
    use supply::Supply;

    // The rack of the rows 1100 and 11110000.
    fn two_rows() -> SlotRack {
        let mut plan = Plan::idle();
        let _ = plan.read(b"S,0,4,1100\nS,1,8,11110000\n");
        SlotRack::new(&plan)
    }

    #[test]
    fn a_cycle_begins_again(rt: HostRuntime) {
        let mut rack = two_rows();
        for _ in 0u32..7 {
            let _ = rack.draw();
        }
        assert_eq!(rt; rack.draw(), 0);
        assert_eq!(rt; rack.draw(), 2);
        assert_eq!(rt; rack.level(2, 7), 6);
    }

    // Its levels at the deadlines 4 and 12 are kept; it has the same without the cards.
    #[test]
    fn kept_levels(rt: HostRuntime) {
        let mut plan = Plan::idle();
        let _ = plan.read(b"S,0,4,1100\nS,1,8,11110000\nT,0,1,8,4\nT,1,1,16,12\nT,2,1,16,7\n");
        let rack = SlotRack::new(&plan);
        assert_eq!(rt; rack.level(2, 4), 2);
        assert_eq!(rt; two_rows().level(2, 4), 2);
        assert_eq!(rt; rack.level(2, 12), 10);
        assert_eq!(rt; two_rows().level(2, 12), 10);
        assert_eq!(rt; rack.level(9, 7), 6);
        assert_eq!(rt; rack.level(0, 4), 0);
    }

    // Lengths that are not kept, windows that go on at the start of the cycle among them.
    #[test]
    fn found_levels(rt: HostRuntime) {
        let rack = two_rows();
        assert_eq!(rt; rack.level(1, 0), 0);
        assert_eq!(rt; rack.level(1, 2), 0);
        assert_eq!(rt; rack.level(1, 3), 1);
        assert_eq!(rt; rack.level(1, 8), 6);
        assert_eq!(rt; rack.level(2, 9000), 8192);
    }
}
