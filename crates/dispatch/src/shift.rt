// A whole shift: a list of calls, carried out one after another.
ghost use Rattle.std.specs.Prelude.{◌≡◌, min, length, take, drop};
ghost use Rattle.schedule.specs.State.{fresh};
ghost use Rattle.schedule.specs.Calls.{answer, after};
ghost use Rattle.schedule.specs.Shift.{shift, ShiftLaw};
ghost use Rattle.dispatch.specs.Dispatcher.{state_of};
ghost use Rattle.dispatch.specs.Entries.{entries_of};

use crate::Dispatcher;
use schedule::{Answer, Call};
use supply::Supply;

// Asks a dispatcher one call.
fn carry_out<S: Supply>(dispatcher: &mut Dispatcher<S>, call: Call) -> Answer
    ensures answer { result ≡ answer (state_of S.Supply.row S.Supply.table dispatcher.old) call }
    ensures after { state_of S.Supply.row S.Supply.table dispatcher.new ≡ after (state_of S.Supply.row S.Supply.table dispatcher.old) call }
{
    match call {
        Call::Admit {
            id,
            run,
            period,
            deadline,
        } => dispatcher
            .admit(id, run, period, deadline)
            .map_or_else(Answer::Refused, Answer::Level),
        Call::Level { id } => dispatcher
            .level(id)
            .map_or_else(Answer::Refused, Answer::Level),
        Call::Withdraw { id } => dispatcher
            .withdraw(id)
            .map_or_else(Answer::Refused, |()| Answer::Passed),
        Call::Release { id, run } => dispatcher
            .release(id, run)
            .map_or_else(Answer::Refused, |()| Answer::Passed),
        Call::Tick => dispatcher
            .tick()
            .map_or_else(Answer::Refused, |(given, ran)| Answer::Ticked(given, ran)),
    }
}

// Makes a dispatcher over the supply, carries out the calls one after another and fills in their answers, as far as there
// are both calls and places for answers. Answers how many calls were carried out; the answers behind them stay.
pub fn run_shift<S: Supply + Drop>(supply: S, calls: &[Call], answers: &mut [Answer]) -> usize
    ensures count { result ≡ min (length calls.now) (length answers.old) }
    ensures answered { entries_of (take result calls.now) (take result answers.new) ≡ shift (fresh (S.Supply.row supply) (S.Supply.table supply)) (take result calls.now) }
    ensures rest { drop result answers.new ≡ drop result answers.old }
    ensures law { ShiftLaw (S.Supply.row supply) (S.Supply.table supply) (entries_of (take result calls.now) (take result answers.new)) }
{
    let mut dispatcher = Dispatcher::new(supply);
    let count = calls.len().min(answers.len());
    // by index, since a proof learns nothing of what is written through `answers.iter_mut().zip(calls)`
    for i in 0..count {
        answers[i] = carry_out(&mut dispatcher, calls[i]);
    }
    count
}

#[cfg(test)]
mod tests {
    use super::*;
    use schedule::Refusal;
    use supply::SteadyRack;

    // Two tasks on one processor, both released at clock 0. Task 0 may not be released again at clock 4, and may at 5.
    #[test]
    fn two_tasks(rt: HostRuntime) {
        let calls = [
            Call::Admit {
                id: 0,
                run: 2,
                period: 5,
                deadline: 5,
            },
            Call::Admit {
                id: 1,
                run: 3,
                period: 7,
                deadline: 6,
            },
            Call::Release { id: 0, run: 2 },
            Call::Release { id: 1, run: 3 },
            Call::Tick,
            Call::Tick,
            Call::Tick,
            Call::Tick,
            Call::Release { id: 0, run: 2 },
            Call::Tick,
            Call::Release { id: 0, run: 1 },
            Call::Tick,
            Call::Tick,
        ];
        let wanted = [
            Answer::Level(1),
            Answer::Level(1),
            Answer::Passed,
            Answer::Passed,
            Answer::Ticked(1, 0b01),
            Answer::Ticked(1, 0b01),
            Answer::Ticked(1, 0b10),
            Answer::Ticked(1, 0b10),
            Answer::Refused(Refusal::TooSoon),
            Answer::Ticked(1, 0b10),
            Answer::Passed,
            Answer::Ticked(1, 0b01),
            Answer::Ticked(1, 0b00),
            Answer::Passed,
        ];
        let mut answers = [Answer::Passed; 14];
        assert_eq!(rt; run_shift(SteadyRack::new(1), &calls, &mut answers), 13);
        assert_eq!(rt; answers, wanted);
    }
}
