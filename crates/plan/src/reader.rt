// A whole plan text: its lines one after another.
ghost use Rattle.std.specs.Prelude.{◌≡◌, ◌≤◌, true, length, is_err};
ghost use Rattle.text.specs.Bytes.{parts};
ghost use Rattle.plan.specs.Contents.{drafted, contents, said};
ghost use Rattle.plan.specs.Reading.{empty, with_lines, reading};

use crate::draft::Draft;
use crate::fault::{Cause, Fault};
use crate::fields;
use crate::plan::Plan;

const MAX_TEXT: usize = 8192;

const MAX_LINE: usize = 96;

const NEWLINE: u8 = b'\n';

// What the lines say.
fn take_lines(draft: &mut Draft, text: &[u8]) -> Result<(), Fault>
    requires { length text.now ≤ 8192 }
    ensures { said result (drafted draft.new) ≡ with_lines 1 (drafted draft.old) (parts 10 text.now) }
{
    for (i, ended) in text.split_inclusive(|b| *b == NEWLINE).enumerate() {
        let line = i as u32 + 1;
        let bytes = ended
            .strip_suffix(&[NEWLINE])
            .filter(|bytes| bytes.len() <= MAX_LINE)
            .ok_or(Fault::at(Cause::LineNotEnded, line, 0))?;
        draft.take_line(fields::parse(bytes, line)?)?;
    }
    Ok(())
}

impl Plan {
    // Reads a plan text into `self`, or names the first fault in it and leaves `self` as it was.
    pub fn read(&mut self, text: &[u8]) -> Result<(), Fault>
        ensures outcome { said result (contents self.new) ≡ reading text.now }
        ensures same { is_err result ≡ true → self.new ≡ self.old }
    {
        if text.len() > MAX_TEXT {
            return Err(Fault::at(Cause::TextTooLong, 0, 0));
        }
        let mut draft = Draft::new();
        take_lines(&mut draft, text)?;
        let plan = Plan::from_draft(&draft).ok_or(Fault::at(Cause::NoRow, 0, 0))?;
        *self = plan;
        Ok(())
    }
}
