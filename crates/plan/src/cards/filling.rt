ghost use Rattle.std.specs.Prelude.{◌≡◌, ◌≤◌, not, [], ◌∷◌, ◌++◌, map, length, if◌then◌else◌, is_some};
ghost use Rattle.task.specs.Task.{task_of};
ghost use Rattle.plan.specs.Rows.{has as among};
ghost use Rattle.plan.specs.Lists.{tasks_of};

use super::CardList;
use fixed::FixedList;
use task::Card;

impl CardList {
    // No card yet.
    pub(crate) fn new() -> CardList
        ensures { tasks_of result ≡ [] }
    {
        CardList {
            cards: FixedList::filled_with(Card::smallest()),
        }
    }

    // The cards in the order of their lines.
    pub(crate) fn cards(&self) -> &[Card]
        ensures value { map task_of result.now ≡ tasks_of self.now }
        ensures few { length result.now ≤ 32 }
    {
        self.cards.as_slice()
    }

    // Whether a card has this number.
    pub(crate) fn has(&self, id: u32) -> bool
        ensures { result ≡ among id (map (λ k. k.id) (tasks_of self.now)) }
    {
        self.cards().iter().any(|card| id == card.id())
    }

    // Adds a card, unless its number is taken.
    pub(crate) fn push(&mut self, card: Card) -> Option<()>
        ensures value { is_some result ≡ not (among card.id (map (λ k. k.id) (tasks_of self.old))) }
        ensures after { tasks_of self.new ≡ (if is_some result then tasks_of self.old ++ task_of card ∷ [] else tasks_of self.old) }
    {
        if self.has(card.id()) {
            return None;
        }
        self.cards.push(card).ok()
    }
}
