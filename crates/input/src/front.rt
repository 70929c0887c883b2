// The front of a text that may be long.
use crate::PLAN_ROOM;
use fixed::FixedList;

mod keeping;

// The first bytes of a text, as many as there is room for.
#[derive(Clone, Copy)]
pub struct Front {
    bytes: FixedList<u8, PLAN_ROOM>,
}
