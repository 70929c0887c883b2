// A line cut into its fields. Fields and lines borrow from the text.
ghost use Rattle.std.specs.Prelude.{◌≡◌};
ghost use Rattle.plan.specs.Parts.{part_of, wrong, value_in, bytes_in, line_in};

use crate::fault::{Cause, Fault};

// Where a field stands: its line and its place in the line, both counted from 1.
#[derive(Clone, Copy)]
pub(crate) struct Place {
    pub(crate) line: u32,
    pub(crate) field: u32,
}

#[derive(Clone, Copy)]
pub(crate) enum Field<'a> {
    Number(&'a [u8], Place),
    Marks(&'a [u8], Place),
}

impl Field<'_> {
    // The fault of this cause, found in this field.
    pub(crate) fn fault(&self, cause: Cause) -> Fault
        ensures { result ≡ wrong cause (part_of self.now) }
    {
        let (Field::Number(_, place) | Field::Marks(_, place)) = self;
        Fault::at(cause, place.line, place.field)
    }

    // The number of a number field; marks are no number.
    pub(crate) fn value(&self) -> Result<u32, Fault>
        ensures { result ≡ value_in (part_of self.now) }
    {
        match self {
            Field::Number(digits, _) => text::decimal(digits).ok_or(self.fault(Cause::NotANumber)),
            Field::Marks(..) => Err(self.fault(Cause::NotANumber)),
        }
    }

    pub(crate) fn bytes(&self) -> &[u8]
        ensures { result.now ≡ bytes_in (part_of self.now) }
    {
        let (Field::Number(bytes, _) | Field::Marks(bytes, _)) = self;
        bytes
    }

    pub(crate) fn line(&self) -> u32
        ensures { result ≡ line_in (part_of self.now) }
    {
        let (Field::Number(_, place) | Field::Marks(_, place)) = self;
        place.line
    }
}

pub(crate) enum Line<'a> {
    // number, period and marks of a row
    Row(Field<'a>, Field<'a>, Field<'a>),
    // number, run time, period and deadline of a task
    Task(Field<'a>, Field<'a>, Field<'a>, Field<'a>),
}
