// What is printed of the cases.
use crate::show::Runs;
use std::fmt::Display;
use std::io;
use tm32::Refusal;

// The report as it is written. A line is open where it ends with the words of a case.
#[derive(Drop)]
pub(crate) struct Report<'r, R> {
    rt: &'r R,
    open: bool,
}

impl<'r, R: Print> Report<'r, R> {
    pub(crate) fn new(rt: &'r R) -> Self {
        Report { rt, open: false }
    }

    pub(crate) fn heading(&mut self, text: &[u8]) -> io::Result<()> {
        self.line(text, "\n")
    }

    pub(crate) fn wrong(&mut self, text: &[u8]) -> io::Result<()> {
        self.line(text, " is not understood.\n")
    }

    // What comes of the case goes on the same line.
    pub(crate) fn case(&mut self, words: &[u8]) -> io::Result<()> {
        self.line(words, ":")?;
        self.open = true;
        Ok(())
    }

    // A message and what came of it.
    pub(crate) fn sent(
        &mut self,
        message: &[u8],
        answer: Result<&[u8], Refusal>,
    ) -> io::Result<()> {
        self.lead()?;
        let message = Runs(message);
        match answer {
            Ok(reply) => println!(self.rt; "{message} -> {}", Runs(reply)),
            Err(refusal) => {
                println!(self.rt; "{message} -> no reply, refusal {}", refusal.number())
            }
        }
    }

    // What a line asks to see.
    pub(crate) fn shown(&mut self, shown: impl Display + Drop) -> io::Result<()> {
        self.lead()?;
        self.rt.println(shown)
    }

    // Ends the line where it is open.
    pub(crate) fn end_line(&mut self) -> io::Result<()> {
        if self.open {
            self.open = false;
            self.rt.print("\n")?;
        }
        Ok(())
    }

    // Some words on a new line.
    fn line(&mut self, words: &[u8], end: &str) -> io::Result<()> {
        self.end_line()?;
        self.rt.write_all(words)?;
        self.rt.print(end)
    }

    // What is shown stands behind the words of the case, or on a line of its own.
    fn lead(&mut self) -> io::Result<()> {
        let lead = if self.open { " " } else { "  " };
        self.open = false;
        self.rt.print(lead)
    }
}
