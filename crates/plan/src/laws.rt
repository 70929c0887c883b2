ghost use Rattle.std.specs.Prelude.{◌≡◌, true};
ghost use Rattle.plan.specs.Rows.{CycleLaw};

// The cycle of rows is the least common multiple of their periods, and a plan is refused for its cycle exactly where that
// is above 512: a law over the definitions that the reader follows.
pub fn cycle_law() -> bool
    ensures law { CycleLaw }
    ensures value { result ≡ true }
{
    true
}
