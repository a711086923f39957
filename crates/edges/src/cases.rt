// The cases, line by line, on the device.
use crate::bench::{Bench, HELLO};
use crate::lines::{self, Line, Question, Setting};
use crate::report::Report;
use crate::scan::is;
use crate::show::{Runs, SessionLine};
use std::io;
use tm32::Refusal;

// What answers the handshake, and the result of work that is done: as 01 prints them, and not as the code has them.
const HELLO_BACK: u8 = 0x79;

const WORK_DONE: u8 = 0x90;

// All lines of a text.
pub(crate) fn run(rt: &impl Print, text: &[u8]) -> io::Result<()> {
    let mut bench = Bench::new();
    let mut report = Report::new(rt);
    for line in text.split(|c| is(*c, b'\n')) {
        obey(&mut bench, &mut report, line)?;
    }
    report.end_line()
}

// One line.
fn obey<R: Print>(bench: &mut Bench, report: &mut Report<R>, text: &[u8]) -> io::Result<()> {
    let mut room = [0; lines::ROOM];
    match Line::read(bench.start(), text, &mut room) {
        Line::Heading => report.heading(text),
        Line::Case(words) => {
            report.case(words)?;
            prepared(report, HELLO, bench.begin())
        }
        Line::Setting(setting) => {
            bench.set(setting);
            if let Setting::Talking(_) = setting {
                prepared(report, HELLO, bench.answer(HELLO))?;
            }
            Ok(())
        }
        Line::Message(message) => report.sent(message, bench.answer(message)),
        Line::Quiet(message) => prepared(report, message, bench.answer(message)),
        Line::Question(question) => asked(bench, report, question),
        Line::Remark => Ok(()),
        Line::Wrong => report.wrong(text),
    }
}

// A message that only prepares a case: nothing is said of it where all went well.
fn prepared<R: Print>(
    report: &mut Report<R>,
    message: &[u8],
    answer: Result<&[u8], Refusal>,
) -> io::Result<()> {
    match answer {
        Ok([HELLO_BACK] | [_, WORK_DONE, ..]) => Ok(()),
        _ => report.sent(message, answer),
    }
}

fn asked<R: Print>(bench: &Bench, report: &mut Report<R>, question: Question) -> io::Result<()> {
    match question {
        Question::Session => report.shown(SessionLine(bench.session())),
        Question::Buffer => {
            let bytes = Runs(bench.buffer());
            report.shown(format_args!("buffer: {bytes}"))
        }
        Question::Memory { address, count } => {
            let bytes = Runs(bench.part(address, count).unwrap_or(b""));
            report.shown(format_args!("{address:08X}: {bytes}"))
        }
    }
}
