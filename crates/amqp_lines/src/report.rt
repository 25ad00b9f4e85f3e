//! Reports of reading lines back: how that ended early, and at which line.

ghost use Rattle.std.specs.Prelude.{◌≡◌, IfErr};
ghost use Rattle.amqp_lines.specs.LineReading.{IsNextPlace};
ghost use Rattle.amqp_lines.specs.UndumpReports.{first_line, unreported_lines};

use crate::errors::UndumpError;

/// How reading lines back ended early, and where.
#[derive(Clone, Copy, Debug, PartialEq, Eq)]
pub struct UndumpReport {
    /// Why it ended.
    pub error: UndumpError,

    /// The number of the line at which it ended, from 1 on: the lines in front are those of frames. It stays at its last
    /// value, 2^64 - 1.
    pub line: u64,

    /// How many bytes the lines in front have, with their newlines. The line begins there. The count stays at its last
    /// value, 2^64 - 1.
    pub place: u64,
}

/// The result of reading lines back, without where it ended.
pub fn unreported_lines(answer: Result<(), UndumpReport>) -> Result<(), UndumpError>
    ensures { result ≡ unreported_lines answer }
{
    match answer {
        Ok(()) => Ok(()),
        Err(report) => Err(report.error),
    }
}

/// The line that was reached: its number, from 1 on, and how many bytes come before it.
#[derive(Clone, Copy)]
pub(crate) struct LinePlace {
    pub line: u64,
    pub place: u64,
}

impl LinePlace {
    /// The first line.
    pub(crate) fn first() -> LinePlace
        ensures { result ≡ first_line }
    {
        LinePlace { line: 1, place: 0 }
    }

    /// The line after one of so many bytes.
    pub(crate) fn pass(&mut self, length: usize)
        ensures { IsNextPlace length self.old self.new }
    {
        self.line = self.line.saturating_add(1);
        self.place = self.place.saturating_add(length as u64);
    }

    /// The result of reading lines back, with this line where it ended.
    pub(crate) fn reported(self, answer: Result<(), UndumpError>) -> Result<(), UndumpReport>
        ensures answer { unreported_lines result ≡ answer }
        ensures line { IfErr result (λ report. report.line ≡ self.line) }
        ensures place { IfErr result (λ report. report.place ≡ self.place) }
    {
        match answer {
            Ok(()) => Ok(()),
            Err(error) => Err(UndumpReport {
                error,
                line: self.line,
                place: self.place,
            }),
        }
    }
}
