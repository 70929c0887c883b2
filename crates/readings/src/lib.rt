// Worked readings of the definitions, proved as one statement, and run on the code.
#![tactic(auto)]

ghost use Rattle.std.specs.Prelude.{◌≡◌, true};
ghost use Rattle.readings.specs.Readings.{Readings};

// The level tables of a small rack, the levels that sets of tasks have on it, and the words of some ticks are as worked out by hand.
pub fn readings_hold() -> bool
    ensures readings { Readings }
    ensures value { result ≡ true }
{
    true
}

#[cfg(test)]
mod tests {
    use dispatch::Dispatcher;
    use plan::Plan;
    use rack::SlotRack;
    use schedule::Refusal;
    use supply::{Joined, Narrowed, SteadyRack, Supply};

    fn rack_a() -> SlotRack {
        let mut plan = Plan::idle();
        let _ = plan.read(b"S,0,4,1100\nS,1,8,11110000\n");
        SlotRack::new(&plan)
    }

    #[test]
    fn levels_of_rack_a(rt: HostRuntime) {
        let rack = rack_a();
        assert_eq!(rt; rack.level(1, 2), 0);
        assert_eq!(rt; rack.level(1, 3), 1);
        assert_eq!(rt; rack.level(2, 6), 4);
        assert_eq!(rt; rack.level(2, 7), 6);
        assert_eq!(rt; rack.level(2, 10), 8);
        assert_eq!(rt; rack.level(1, 16), 12);
        for j in 0u32..9 {
            assert_eq!(rt; rack.level(j, 0), 0);
        }
        assert_eq!(rt; Narrowed::new(rack_a(), 1).level(2, 7), 5);
        assert_eq!(rt; Joined::new(rack_a(), SteadyRack::new(1)).level(2, 3), 4);
    }

    #[test]
    fn five_fit_on_two_processors(rt: HostRuntime) {
        let mut dispatcher = Dispatcher::new(SteadyRack::new(2));
        for id in 0u32..5 {
            assert!(rt; dispatcher.admit(id, 2, 6, 6).is_ok());
        }
        for id in 0u32..5 {
            assert_eq!(rt; dispatcher.level(id), Ok(2));
        }
        assert_eq!(rt; dispatcher.admit(5, 2, 6, 6), Err(Refusal::NoLevel(0)));
    }

    #[test]
    fn seven_fit_on_rack_a(rt: HostRuntime) {
        let mut dispatcher = Dispatcher::new(rack_a());
        for id in 0u32..6 {
            assert!(rt; dispatcher.admit(id, 1, 8, 8).is_ok());
        }
        for id in 0u32..6 {
            assert_eq!(rt; dispatcher.level(id), Ok(1));
        }
        assert_eq!(rt; dispatcher.admit(6, 1, 8, 8), Ok(2));
        for id in 0u32..7 {
            assert_eq!(rt; dispatcher.level(id), Ok(2));
        }
        assert_eq!(rt; dispatcher.admit(7, 1, 8, 8), Err(Refusal::NoLevel(0)));
    }

    #[test]
    fn words_of_six_ticks(rt: HostRuntime) {
        let mut dispatcher = Dispatcher::new(SteadyRack::new(1));
        assert_eq!(rt; dispatcher.admit(0, 2, 5, 5), Ok(1));
        assert_eq!(rt; dispatcher.admit(1, 3, 7, 6), Ok(1));
        assert_eq!(rt; dispatcher.release(0, 2), Ok(()));
        assert_eq!(rt; dispatcher.release(1, 3), Ok(()));
        for word in [1u32, 1, 2, 2] {
            assert_eq!(rt; dispatcher.tick(), Ok((1, word)));
        }
        assert_eq!(rt; dispatcher.release(0, 2), Err(Refusal::TooSoon));
        assert_eq!(rt; dispatcher.tick(), Ok((1, 2)));
        assert_eq!(rt; dispatcher.release(0, 2), Ok(()));
        assert_eq!(rt; dispatcher.tick(), Ok((1, 1)));
    }

    #[test]
    fn a_tick_without_jobs(rt: HostRuntime) {
        let mut dispatcher = Dispatcher::new(SteadyRack::new(1));
        assert_eq!(rt; dispatcher.admit(0, 2, 5, 5), Ok(1));
        assert_eq!(rt; dispatcher.admit(1, 3, 7, 6), Ok(1));
        assert_eq!(rt; dispatcher.release(0, 2), Ok(()));
        assert_eq!(rt; dispatcher.release(1, 3), Ok(()));
        for word in [1u32, 1, 2, 2, 2, 0] {
            assert_eq!(rt; dispatcher.tick(), Ok((1, word)));
        }
    }
}
