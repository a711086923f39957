// The sheet that standard output is collected on. Where its paper is full it is written out, and where that fails nothing more
// is. A sheet is a value, that each call takes and hands back; what holds its paper and the handle, too, is its writer.
ghost use Rattle.std.specs.Io.KnownBytes.{WriteAppends};
ghost use Rattle.std.specs.Io.{WritesAtMost};
ghost use Rattle.std.specs.IoError.{error_kind};
ghost use Rattle.std.specs.Prelude.{◌≡◌, ◌≢◌, ◌+◌, ◌≤◌, ◌↔◌, IfErr, IsTrue, None, is_ok, length, not, take};
ghost use Rattle.stream.specs.Sheets.{Adds, AddsAll, GoesOn, MakesRoom, WritesOut, empty_sheet, filled, on_paper, sheet_of, told};

use crate::first;
use std::io;
use std::io::{ErrorKind, Write};

// What is collected on lent paper, since nothing is allocated: how many of its bytes, and whether it could not be written out.
#[derive(Clone, Copy, Debug, PartialEq, Eq)]
pub struct Sheet {
    pub place: usize,
    pub failed: bool,
}

impl Sheet {
    pub fn empty() -> Self
        ensures { result ≡ empty_sheet }
    {
        Sheet {
            place: 0,
            failed: false,
        }
    }

    // One byte more.
    pub fn byte(self, rt: &impl Print, buffer: &mut [u8], value: u8) -> Self
        ensures { Adds self buffer.old value result buffer.new }
    {
        let sheet = self.with_room(rt, buffer);
        let place = sheet.place;
        if place < buffer.len() {
            buffer[place] = value;
            return Sheet {
                place: place + 1,
                ..sheet
            };
        }
        sheet
    }

    // Some bytes more.
    pub fn bytes(self, rt: &impl Print, buffer: &mut [u8], values: &[u8]) -> Self
        ensures { AddsAll self buffer.old values.now result buffer.new }
    {
        let mut sheet = self;
        for value in values {
            sheet = sheet.byte(rt, buffer, *value);
        }
        sheet
    }

    // A full sheet is written out.
    #[tactic(auto, using(crate::proofs::Laws::roomy, crate::proofs::Laws::made))]
    fn with_room(self, rt: &impl Print, buffer: &[u8]) -> Self
        ensures { MakesRoom (length buffer.now) self result }
    {
        if self.place < buffer.len() {
            return self;
        }
        self.written(rt, buffer)
    }

    // All of it is written out.
    pub fn written(self, rt: &impl Print, buffer: &[u8]) -> Self
        ensures { WritesOut self result }
    {
        if self.failed {
            return self;
        }
        let taken = rt.write_all(first(buffer, self.place)).is_ok();
        Sheet {
            place: 0,
            failed: !taken,
        }
    }
}

// A sheet in use, with the handle that it is written out by and the paper that it is lent. In place of whether it has failed it keeps what
// has come of writing it out: the first failure stays, and every call behind it tells it.
#[derive(Drop)]
pub struct SheetWriter<'a, P> {
    to: &'a P,
    paper: &'a mut [u8],
    place: usize,
    outcome: io::Result<()>,
}

impl<'a, P: Print> SheetWriter<'a, P> {
    pub fn empty(to: &'a P, paper: &'a mut [u8]) -> Self
        ensures empty { filled result ≡ empty_sheet }
        ensures as_it_was { on_paper result ≡ paper.old }
        ensures same_paper { result.paper.ghost_name ≡ paper.entry.ghost_name }
    {
        SheetWriter {
            to,
            paper,
            place: 0,
            outcome: Ok(()),
        }
    }

    // Goes on with a sheet, on its paper.
    pub fn resumed(sheet: Sheet, to: &'a P, paper: &'a mut [u8]) -> Self
        ensures resumed { filled result ≡ sheet }
        ensures as_it_was { on_paper result ≡ paper.old }
        ensures same_paper { result.paper.ghost_name ≡ paper.entry.ghost_name }
    {
        SheetWriter {
            to,
            paper,
            place: sheet.place,
            outcome: if sheet.failed {
                Err(io::Error::other("the sheet could not be written out"))
            } else {
                Ok(())
            },
        }
    }

    // The sheet as it stands.
    pub fn sheet(&self) -> Sheet
        ensures { result ≡ filled self.now }
    {
        Sheet {
            place: self.place,
            failed: self.outcome.is_err(),
        }
    }

    // Some bytes more. Where it has failed by then, that is told. Byte by byte where they do not all fit: between any two the sheet may be
    // written out.
    pub fn bytes(&mut self, values: &[u8]) -> io::Result<()>
        ensures adds { AddsAll (filled self.old) (on_paper self.old) values.now (filled self.new) (on_paper self.new) }
        ensures tells { result ≡ self.new.outcome }
        ensures goes_on { GoesOn self.old self.new }
    {
        if self.has_room(values.len()) {
            self.lay(values);
            return self.outcome;
        }
        for value in values {
            self.byte(*value);
        }
        self.outcome
    }

    // Whether so many bytes fit on what is left of the paper.
    fn has_room(&self, count: usize) -> bool
        ensures { IsTrue result ↔ self.now.place + count ≤ length (on_paper self.now) }
    {
        match self.place.checked_add(count) {
            Some(end) => end <= self.paper.len(),
            None => false,
        }
    }

    // Bytes that fit, laid behind what is on it.
    fn lay(&mut self, values: &[u8])
        requires { self.old.place + length values.now ≤ length (on_paper self.old) }
        ensures adds { AddsAll (filled self.old) (on_paper self.old) values.now (filled self.new) (on_paper self.new) }
        ensures goes_on { GoesOn self.old self.new }
    {
        let end = self.place + values.len();
        self.paper[self.place..end].copy_from_slice(values);
        self.place = end;
    }

    // One byte more.
    pub fn byte(&mut self, value: u8)
        ensures adds { Adds (filled self.old) (on_paper self.old) value (filled self.new) (on_paper self.new) }
        ensures goes_on { GoesOn self.old self.new }
    {
        self.make_room();
        let place = self.place;
        // No get_mut: its contract leaves open what the slice ends as.
        if place < self.paper.len() {
            self.paper[place] = value;
            self.place = place + 1;
        }
    }

    // A full sheet is written out. Where that fails, the sheet keeps it.
    #[tactic(auto, using(crate::proofs::Laws::roomy, crate::proofs::Laws::made))]
    fn make_room(&mut self)
        ensures makes { MakesRoom (length (on_paper self.old)) (filled self.old) (filled self.new) }
        ensures as_it_was { on_paper self.new ≡ on_paper self.old }
        ensures goes_on { GoesOn self.old self.new }
    {
        if self.paper.len() <= self.place {
            let _ = self.written();
        }
    }

    // All of it is written out. What has failed is not tried again.
    #[tactic(auto, using(crate::proofs::Laws::stays))]
    pub fn written(&mut self) -> io::Result<()>
        ensures writes { WritesOut (filled self.old) (filled self.new) }
        ensures tells { result ≡ self.new.outcome }
        ensures as_it_was { on_paper self.new ≡ on_paper self.old }
        ensures goes_on { GoesOn self.old self.new }
    {
        self.outcome?;
        let to = self.to;
        let answer = lasting(to.write_all(self.collected()));
        self.empty_by(answer);
        answer
    }

    // The system has answered: nothing is on it then, and it has failed if the system did not take it.
    fn empty_by(&mut self, answer: io::Result<()>)
        ensures empties { filled self.new ≡ sheet_of 0 (not (is_ok answer)) }
        ensures tells { self.new.outcome ≡ answer }
        ensures as_it_was { on_paper self.new ≡ on_paper self.old }
        ensures same_paper { self.new.paper.ghost_name ≡ self.old.paper.ghost_name }
    {
        self.place = 0;
        self.outcome = answer;
    }

    // What is on it.
    fn collected(&self) -> &[u8]
        ensures { result.now ≡ take self.now.place (on_paper self.now) }
    {
        first(self.paper, self.place)
    }
}

impl<P: Print> Write for SheetWriter<'_, P> {
    // What `bytes` promises, and in the last two clauses what std asks of a writer.
    fn write(&mut self, bytes: &[u8]) -> io::Result<usize>
        ensures adds { AddsAll (filled self.old) (on_paper self.old) bytes.now (filled self.new) (on_paper self.new) }
        ensures tells { result ≡ told self.new.outcome (length bytes.now) }
        ensures goes_on { GoesOn self.old self.new }
        ensures bound { WritesAtMost result bytes.now }
        ensures appends { WriteAppends None None result bytes.now }
    {
        self.bytes(bytes)?;
        Ok(bytes.len())
    }

    fn flush(&mut self) -> io::Result<()>
        ensures writes { WritesOut (filled self.old) (filled self.new) }
        ensures tells { result ≡ self.new.outcome }
        ensures as_it_was { on_paper self.new ≡ on_paper self.old }
        ensures goes_on { GoesOn self.old self.new }
    {
        self.written()
    }
}

// What the system answers, as it is kept. Who is told that a write was interrupted tries again, and told so for ever it would never end: so
// what is kept is another failure.
fn lasting(answer: io::Result<()>) -> io::Result<()>
    ensures same { is_ok result ≡ is_ok answer }
    ensures lasts { IfErr result (λ error. error_kind error ≢ ErrorKind.Interrupted) }
{
    match answer {
        Err(error) if error.kind() == ErrorKind::Interrupted => {
            Err(io::Error::other("the write was interrupted too often"))
        }
        _ => answer,
    }
}
