// What every plan holds.
ghost use Rattle.std.specs.Prelude.{◌≡◌, true};
ghost use Rattle.plan.specs.Lawful.{ReadingLaw};

// Whatever text passes the questions says one to eight rows, and tasks whose numbers are below 32 and stand once, each with
// the times of a card: a law over the definitions that the reader follows.
pub fn reading_law() -> bool
    ensures law { ReadingLaw }
    ensures value { result ≡ true }
{
    true
}
