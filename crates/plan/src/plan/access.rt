ghost use Rattle.std.specs.Prelude.{◌≡◌, ◌≤◌, false, [], ◌∷◌, map, length, if◌then◌else◌, Some, None, nat_lt};
ghost use Rattle.std.specs.Option.{option_map};
ghost use Rattle.std.specs.List.{slice_get};
ghost use Rattle.task.specs.Task.{task_of};
ghost use Rattle.plan.specs.Contents.{drafted, contents};
ghost use Rattle.plan.specs.Rows.{marks_of, cycle_of, LeastCommon};

use super::Plan;
use crate::cards::CardList;
use crate::draft::Draft;
use crate::row::SlotRow;
use crate::table::SlotTable;
use task::Card;

impl Plan {
    // The plan whose one row, of period 1, never gives a processor: named for that, and no `Default`.
    pub fn idle() -> Plan
        ensures { contents result ≡ record { rows = (false ∷ []) ∷ []; tasks = [] } }
    {
        Plan {
            table: SlotTable::idle(),
            cards: CardList::new(),
        }
    }

    // The plan that the lines make, where there is a row among them. No `TryFrom`: which fault it is, the reader says.
    pub(crate) fn from_draft(draft: &Draft) -> Option<Plan>
        ensures { option_map contents result ≡ (if nat_lt 0 (length (drafted draft.now).rows) then Some (drafted draft.now) else None) }
    {
        let table = draft.table;
        let cards = draft.cards;
        if table.rows().is_empty() {
            return None;
        }
        Some(Plan { table, cards })
    }

    // The rows of the slot table, in the order of their lines.
    pub fn rows(&self) -> &[SlotRow]
        ensures rows { map marks_of result.now ≡ (contents self.now).rows }
        ensures some { 1 ≤ length result.now }
        ensures few { length result.now ≤ 8 }
    {
        self.table.rows()
    }

    // The cards, in the order of their lines.
    pub fn cards(&self) -> &[Card]
        ensures cards { map task_of result.now ≡ (contents self.now).tasks }
        ensures few { length result.now ≤ 32 }
    {
        self.cards.cards()
    }

    // How many rows the slot table has.
    pub fn row_count(&self) -> usize
        ensures value { result ≡ length (contents self.now).rows }
        ensures some { 1 ≤ result }
        ensures few { result ≤ 8 }
    {
        self.rows().len()
    }

    // How many cards there are.
    pub fn card_count(&self) -> usize
        ensures value { result ≡ length (contents self.now).tasks }
        ensures few { result ≤ 32 }
    {
        self.cards().len()
    }

    // Row n of the slot table, counted from 0.
    pub fn row(&self, n: usize) -> Option<SlotRow>
        ensures { option_map marks_of result ≡ slice_get (contents self.now).rows n }
    {
        self.rows().get(n).copied()
    }

    // Card n, counted from 0 in the order of the lines.
    pub fn card(&self, n: usize) -> Option<Card>
        ensures { option_map task_of result ≡ slice_get (contents self.now).tasks n }
    {
        self.cards().get(n).copied()
    }

    // After how many ticks the whole slot table repeats: the least common multiple of the periods.
    pub fn cycle(&self) -> usize
        ensures value { result ≡ cycle_of (map length (contents self.now).rows) }
        ensures least { LeastCommon (map length (contents self.now).rows) result }
        ensures few { result ≤ 512 }
    {
        self.table.cycle()
    }
}
