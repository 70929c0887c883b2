// The fields of a line that are still to come.
ghost use Rattle.plan.specs.Fields.{Next, Last};

use crate::fault::{Cause, Fault};

const COMMA: u8 = b',';

#[derive(Clone, Copy)]
pub(crate) struct Rest<'a> {
    pub(crate) bytes: &'a [u8],
    pub(crate) line: u32,
}

impl<'a> Rest<'a> {
    // The first field, with others behind it.
    pub(crate) fn next(&mut self) -> Result<&'a [u8], Fault>
        ensures { Next self.old result self.new }
    {
        let (field, behind) = text::cut(self.bytes, COMMA).ok_or(Fault::at(
            Cause::FieldCount,
            self.line,
            0,
        ))?;
        self.bytes = behind;
        Ok(field)
    }

    // The last field, with no other behind it.
    pub(crate) fn last(self) -> Result<&'a [u8], Fault>
        ensures { Last self.entry result }
    {
        match text::cut(self.bytes, COMMA) {
            None => Ok(self.bytes),
            Some(_) => Err(Fault::at(Cause::FieldCount, self.line, 0)),
        }
    }
}
