// The fields of a line: a row begins with S and has four, a task begins with T and has five.
ghost use Rattle.std.specs.Prelude.{◌≡◌, [], ◌∷◌, if◌then◌else◌};
ghost use Rattle.text.specs.Bytes.{parts};
ghost use Rattle.plan.specs.Parts.{content_said};
ghost use Rattle.plan.specs.Reading.{at, content};
ghost use Rattle.plan.specs.Fields.{lone_letter, Next, Last};
ghost use Rattle.plan.specs.declared.fault.Cause.TheVariants.{FieldCount, UnknownLine};

use crate::fault::{Cause, Fault};
use crate::line::{Field, Line, Place};
use rest::Rest;

mod rest;

// The fields behind `S,`.
fn row_line(mut fields: Rest<'_>) -> Result<Line<'_>, Fault>
    ensures { content_said result ≡ content fields.entry.line ((83 ∷ []) ∷ parts 44 fields.entry.bytes.now) }
{
    let line = fields.line;
    let number = fields.next()?;
    let period = fields.next()?;
    let marks = fields.last()?;
    Ok(Line::Row(
        Field::Number(number, Place { line, field: 2 }),
        Field::Number(period, Place { line, field: 3 }),
        Field::Marks(marks, Place { line, field: 4 }),
    ))
}

// The fields behind `T,`: beside those of `S,`, since a loop over both would need a table of what each line has.
fn task_line(mut fields: Rest<'_>) -> Result<Line<'_>, Fault>
    ensures { content_said result ≡ content fields.entry.line ((84 ∷ []) ∷ parts 44 fields.entry.bytes.now) }
{
    let line = fields.line;
    let number = fields.next()?;
    let run = fields.next()?;
    let period = fields.next()?;
    let deadline = fields.last()?;
    Ok(Line::Task(
        Field::Number(number, Place { line, field: 2 }),
        Field::Number(run, Place { line, field: 3 }),
        Field::Number(period, Place { line, field: 4 }),
        Field::Number(deadline, Place { line, field: 5 }),
    ))
}

// A line with no comma behind its S or T, or with another first field.
fn other_line(bytes: &[u8], line: u32) -> Fault
    ensures { result ≡ (if lone_letter bytes.now then at FieldCount line 0 else at UnknownLine line 1) }
{
    match bytes {
        [b'S'] | [b'T'] => Fault::at(Cause::FieldCount, line, 0),
        _ => Fault::at(Cause::UnknownLine, line, 1),
    }
}

// The fields of a line. No `TryFrom`: a fault needs the line's number.
pub(crate) fn parse(bytes: &[u8], line: u32) -> Result<Line<'_>, Fault>
    ensures { content_said result ≡ content line (parts 44 bytes.now) }
{
    match bytes {
        [b'S', b',', rest @ ..] => row_line(Rest { bytes: rest, line }),
        [b'T', b',', rest @ ..] => task_line(Rest { bytes: rest, line }),
        _ => Err(other_line(bytes, line)),
    }
}
