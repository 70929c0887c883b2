ghost use Rattle.std.specs.Prelude.{◌≡◌};
ghost use Rattle.plan.specs.Faults.{cause_number};
ghost use Rattle.plan.specs.Reading.{at as fault_at};

// Why a plan text is at fault: the question that was answered with no, with the number by which the listing names it.
#[derive(Clone, Copy, PartialEq, Eq, Debug)]
pub enum Cause {
    // the text has more than 8,192 bytes
    TextTooLong = 1,
    // a line has more than 96 bytes, or no byte 10 at its end
    LineNotEnded = 2,
    // the first field is neither S nor T
    UnknownLine = 3,
    // an S line has not four fields, or a T line not five
    FieldCount = 4,
    // a field is no number
    NotANumber = 5,
    // a row's number is not the count of the rows before it, or not below 8, or the row follows a task
    RowNumber = 6,
    // a row's period is not from 1 to 64
    RowPeriod = 7,
    // the marks are not as many as the period says, each 0 or 1
    RowMarks = 8,
    // the cycle of the rows so far is above 512
    CycleTooLong = 9,
    // no row comes before the task, or the text has none
    NoRow = 10,
    // a task's number is not below 32, or stands on an earlier line
    TaskNumber = 11,
    // not 1 ≤ c ≤ d ≤ t ≤ 4,096
    TaskTimes = 12,
}

impl Cause {
    // The number by which the listing names the cause.
    pub fn number(self) -> u32
        ensures { result ≡ cause_number self }
    {
        self as u32
    }
}

// The first fault of a text: its cause, the line counted from 1 and the field counted from 1, or 0 where the whole line or
// text is meant.
#[derive(Clone, Copy, PartialEq, Eq, Debug)]
pub struct Fault {
    pub cause: Cause,
    pub line: u32,
    pub field: u32,
}

impl Fault {
    // The fault of this cause, found in this field of this line.
    pub(crate) fn at(cause: Cause, line: u32, field: u32) -> Fault
        ensures { result ≡ fault_at cause line field }
    {
        Fault { cause, line, field }
    }
}
