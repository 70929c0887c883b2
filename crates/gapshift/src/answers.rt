// Answers as they are written, one a line.
ghost use Rattle.std.specs.Prelude.{Some};
ghost use Rattle.gapshift.specs.Lines.{answer_text};

use schedule::Answer;
use std::fmt;

// An answer as its line says it.
#[derive(Clone, Copy)]
pub(crate) struct AnswerLine(pub(crate) Answer);

impl fmt::Display for AnswerLine {
    ghost output = { λ l. Some (answer_text l.0) };

    fn fmt<W: fmt::Write>(&self, f: &mut fmt::Formatter<W>) -> fmt::Result {
        match self.0 {
            Answer::Level(level) => write!(f, "level,{level}"),
            Answer::Passed => write!(f, "passed"),
            Answer::Ticked(given, word) => write!(f, "tick,{given},{word}"),
            Answer::Refused(refusal) => {
                let number = refusal.number();
                match refusal.task() {
                    Some(task) => write!(f, "no,{number},{task}"),
                    None => write!(f, "no,{number}"),
                }
            }
        }
    }
}
