// Standard output for a report: what cannot be written is left out, and what comes behind it is tried all the same.
ghost use Rattle.std.specs.Prelude.{◌≡◌, Ok};

use std::fmt::{Display, Write};
use std::{fmt, io};

// Standard output that goes on. Each call hands on what it is given, piece by piece as it is formatted, and tells no failure: so a report
// never ends before its last line, and lacks no more than the pieces that could not be written.
#[derive(Clone, Copy)]
pub struct Onward<'a, P>(pub &'a P);

impl<P: Print> Print for Onward<'_, P> {
    fn print<D: Display + Drop>(&self, value: D) -> io::Result<()>
        ensures { result ≡ Ok tt }
    {
        let _ = Pieces(self.0).write(value);
        Ok(())
    }

    fn println<D: Display + Drop>(&self, value: D) -> io::Result<()>
        ensures { result ≡ Ok tt }
    {
        let _ = Pieces(self.0).writeln(value);
        Ok(())
    }

    fn write_all(&self, bytes: &[u8]) -> io::Result<()>
        ensures { result ≡ Ok tt }
    {
        let _ = self.0.write_all(bytes);
        Ok(())
    }
}

// The pieces of what is formatted, each written by itself.
#[derive(Clone, Copy)]
struct Pieces<'a, P>(&'a P);

impl<P: Print> Write for Pieces<'_, P> {
    fn write_str(&mut self, piece: &str) -> fmt::Result {
        let _ = self.0.write_all(piece.as_bytes());
        Ok(())
    }
}
