// What the lines so far say, and one line more.
ghost use Rattle.std.specs.Prelude.{◌≡◌};
ghost use Rattle.plan.specs.Contents.{drafted, said};
ghost use Rattle.plan.specs.Parts.{part_of, content_of};
ghost use Rattle.plan.specs.Reading.{empty, with_row, with_task, with_content};

use crate::cards::CardList;
use crate::fault::{Cause, Fault};
use crate::line::{Field, Line};
use crate::row::{MAX_MARKS, SlotRow};
use crate::table::{ROWS, SlotTable};
use task::{Card, MAX_PERIOD, TASKS};

#[derive(Clone, Copy)]
pub(crate) struct Draft {
    pub(crate) table: SlotTable,
    pub(crate) cards: CardList,
}

impl Draft {
    pub(crate) fn new() -> Draft
        ensures { drafted result ≡ empty }
    {
        Draft {
            table: SlotTable::new(),
            cards: CardList::new(),
        }
    }

    // Takes up a line, or names the first question that is answered with no.
    pub(crate) fn take_line(&mut self, line: Line<'_>) -> Result<(), Fault>
        ensures { said result (drafted self.new) ≡ with_content (drafted self.old) (content_of line.entry) }
    {
        match line {
            Line::Row(number, period, marks) => self.take_row(number, period, marks),
            Line::Task(number, run, period, deadline) => self.take_task(
                number, run, period, deadline,
            ),
        }
    }

    fn take_row(
        &mut self,
        number: Field<'_>,
        period: Field<'_>,
        marks: Field<'_>,
    ) -> Result<(), Fault>
        ensures { said result (drafted self.new) ≡ with_row (drafted self.old) (part_of number.entry) (part_of period.entry) (part_of marks.entry) }
    {
        let n = number.value()? as usize;
        let p = period.value()? as usize;
        if n != self.table.rows().len() || n >= ROWS || !self.cards.cards().is_empty() {
            return Err(number.fault(Cause::RowNumber));
        }
        if !(1..=MAX_MARKS).contains(&p) {
            return Err(period.fault(Cause::RowPeriod));
        }
        let bytes = marks.bytes();
        if bytes.len() != p {
            return Err(marks.fault(Cause::RowMarks));
        }
        let row = SlotRow::new(bytes).ok_or(marks.fault(Cause::RowMarks))?;
        self.table
            .push(row)
            .ok_or(period.fault(Cause::CycleTooLong))
    }

    fn take_task(
        &mut self,
        number: Field<'_>,
        run: Field<'_>,
        period: Field<'_>,
        deadline: Field<'_>,
    ) -> Result<(), Fault>
        ensures { said result (drafted self.new) ≡ with_task (drafted self.old) (part_of number.entry) (part_of run.entry) (part_of period.entry) (part_of deadline.entry) }
    {
        let id = number.value()?;
        let c = run.value()?;
        let t = period.value()?;
        let d = deadline.value()?;
        if self.table.rows().is_empty() {
            return Err(Fault::at(Cause::NoRow, number.line(), 1));
        }
        if id >= TASKS || self.cards.has(id) {
            return Err(number.fault(Cause::TaskNumber));
        }
        if !(1..=MAX_PERIOD).contains(&t) {
            return Err(period.fault(Cause::TaskTimes));
        }
        if !(1..=t).contains(&d) {
            return Err(deadline.fault(Cause::TaskTimes));
        }
        // the number, the period and the deadline have passed: what no card has then is the run time
        let card = Card::new(id, c, t, d).ok_or(run.fault(Cause::TaskTimes))?;
        // the number is free, as was asked above
        self.cards.push(card).ok_or(number.fault(Cause::TaskNumber))
    }
}
