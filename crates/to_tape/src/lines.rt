// The lines of a text, each turned into a record.
ghost use Rattle.std.specs.Prelude.{◌≤◌, length};

use crate::errors::Failure;
use stream::{Consumer, FillError, SheetWriter};
use tape::{Head, MESSAGE};
use text::LineError;

// Makes a tape of a text: what the CRCs start from, the number of the line that comes next, the tape's records on a sheet, and the
// buffers that a line's message is made in.
#[derive(Drop)]
pub(crate) struct Recorder<'a, P> {
    start: u16,
    number: u64,
    sheet: SheetWriter<'a, P>,
    scratch: &'a mut [u8],
    message: &'a mut [u8],
}

impl<P: Print> Consumer for Recorder<'_, P> {
    type Error = Failure;

    // The lines that end in the text.
    fn consume(&mut self, text: &[u8]) -> Result<usize, Failure> {
        let mut used = 0;
        // A while: what ends a line is said once, in the crate text, and split would say it again.
        while used < text.len() {
            let end = text::line_end(text, used);
            if text.len() <= end {
                break;
            }
            self.line(&text[used..end])?;
            self.number = self.number.wrapping_add(1);
            used = end + 1;
        }
        self.sheet.written()?;
        Ok(used)
    }

    // The last line, which the end of the text ends.
    fn finish(&mut self, line: &[u8]) -> Result<(), Failure> {
        self.line(line)?;
        self.sheet.written()?;
        Ok(())
    }

    fn refuse(&mut self, error: FillError) -> Failure {
        match error {
            FillError::Full => Failure::LongLine {
                number: self.number,
            },
            FillError::Failed => Failure::Unreadable,
        }
    }
}

impl<'a, P: Print> Recorder<'a, P> {
    pub(crate) fn new(
        start: u16,
        sheet: SheetWriter<'a, P>,
        scratch: &'a mut [u8],
        message: &'a mut [u8],
    ) -> Self {
        Recorder {
            start,
            number: 1,
            sheet,
            scratch,
            message,
        }
    }

    // One line: its message, if it has one, goes on the sheet as a record. That it lies in its buffer the law of the line says.
    fn line(&mut self, line: &[u8]) -> Result<(), Failure> {
        match text::message_in(self.start, line, self.scratch, self.message) {
            Ok(None) => Ok(()),
            Ok(Some(size)) => self.record(size),
            Err(error) => Err(self.wrong(error)),
        }
    }

    // The message, of this size in its buffer, as a record: its head says how long that part of the buffer is.
    fn record(&mut self, size: usize) -> Result<(), Failure>
        requires { size ≤ length self.old.message.now }
    {
        let message = &mut *self.message;
        let body = &message[..size];
        let Ok(length) = u16::try_from(body.len()) else {
            return Err(self.wrong(LineError::TooLong));
        };
        let head = Head {
            length,
            kind: MESSAGE,
        };
        // Where the sheet cannot be written out it keeps that, and it is told when the lines of the block are done.
        let _ = self.sheet.bytes(&head.to_bytes());
        let _ = self.sheet.bytes(body);
        Ok(())
    }

    // Something about the line that comes next.
    fn wrong(&self, error: LineError) -> Failure {
        Failure::Line {
            number: self.number,
            error,
        }
    }
}
