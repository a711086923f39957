// The device: one message, with the memory and the reply buffer that are lent for it.
ghost use Rattle.std.specs.Prelude.{◌≡◌, ◌≤◌, length};
ghost use Rattle.frame.specs.Frame.{data_of};
ghost use Rattle.tm32.specs.After.{after, call_checks, reply_room};
ghost use Rattle.tm32.specs.Device.{device_of, in_state};
ghost use Rattle.tm32.specs.Promises.{Laid, SameSlices, call_number, held, lay_answer, leaves, lent_of};
ghost use Rattle.tm32_asks.specs.Checks.{verdict};
ghost use Rattle.tm32_asks.specs.Request.{request_in};
ghost use Rattle.tm32.specs.Respond.{hello_back, reply_to, respond as respond_is, serve as serve_is, verdict_on};
ghost use Rattle.tm32_asks.specs.Results.{number_of, work_done};
ghost use Rattle.tm32.specs.Work.{work as work_is};

use crate::mapped::MappedMemory;
use crate::replies::reply;
use crate::{
    LentMemory, Refusal, Session, Settings, State, Turn, erase, get, go, heart_beat, memory_crc,
    pps, read, write, write_options,
};
use tm32_asks::{
    Complaint, FLASH_LENGTH, NVR_LENGTH, RAM_LENGTH, Request, bytes_to_write, is_rate, request_in,
};

// The byte that a host shakes hands with, and the byte that answers it.
const HELLO: u8 = 0x7F;

const HELLO_BACK: u8 = 0x79;

// How long a lent reply buffer must be at least.
pub const REPLY_ROOM: usize = 1030;

impl Session {
    // A message: the session from then on, beside the length of the reply that stands at the start of the lent buffer, or a
    // refusal.
    #[tactic(auto, unfolding(crate::specs::After::after, crate::specs::After::tell, crate::specs::After::lay, crate::specs::After::call_checks, tm32_asks::specs::Checks::verdict))]
    pub fn answer(
        self,
        settings: Settings,
        message: &[u8],
        memory: &mut LentMemory,
        buffer: &mut [u8],
    ) -> Turn
        ensures same_slices { SameSlices memory.old memory.new }
        ensures outcome { leaves result (held memory.new) buffer.new
            ≡ after settings (device_of self (held memory.old)) message.now buffer.old }
    {
        if let Err(refusal) = checked(self, memory, buffer.len()) {
            return Turn {
                session: self,
                answer: Err(refusal),
            };
        }
        let mut memory = MappedMemory {
            flash: memory.flash,
            ram: memory.ram,
            nvr: memory.nvr,
        };
        respond(self, settings, message, &mut memory, buffer)
    }
}

// What is tested of a call before the message is looked at, and what the first test that fails refuses it for.
#[tactic(auto, unfolding(crate::specs::After::call_checks, tm32_asks::specs::Checks::verdict, tm32_asks::specs::Numbers::from_one_to))]
fn checked(session: Session, memory: &LentMemory, room: usize) -> Result<(), Refusal>
    ensures { call_number result
        ≡ verdict 0 (call_checks (device_of session (held memory.now)) room) }
{
    if memory.flash.len() != FLASH_LENGTH as usize {
        return Err(Refusal::FlashLength);
    }
    if memory.ram.len() != RAM_LENGTH as usize {
        return Err(Refusal::RamLength);
    }
    if memory.nvr.len() != NVR_LENGTH as usize {
        return Err(Refusal::NvrLength);
    }
    if room < REPLY_ROOM {
        return Err(Refusal::NoRoom);
    }
    if !is_rate(session.rate) {
        return Err(Refusal::NoSuchRate);
    }
    Ok(())
}

// The answer to a message that the call's own checks let through. What a call lends stays apart here and below: of one struct with
// all of it each promise would have to say, too, that settings and message stay; of a type for a buffer with room, that it is the same
// buffer, which is a clause more for the one that it saves.
#[tactic(auto, unfolding(crate::specs::Respond::respond, crate::specs::Respond::greet, crate::specs::Respond::refuse, crate::specs::After::lay, frame::specs::Frame::laid), using(crate::proofs::Answers::alike))]
fn respond(
    session: Session,
    settings: Settings,
    message: &[u8],
    memory: &mut MappedMemory,
    buffer: &mut [u8],
) -> Turn
    requires { reply_room ≤ length buffer.old }
    ensures same_slices { SameSlices (lent_of memory.old) (lent_of memory.new) }
    ensures outcome { leaves result (held (lent_of memory.new)) buffer.new
        ≡ lay_answer buffer.old
        (respond_is settings (device_of session (held (lent_of memory.old))) message.now) }
{
    if message.is_empty() || matches!(session.state, State::Gone { .. }) {
        return Turn {
            session,
            answer: Ok(0),
        };
    }
    if message == [HELLO].as_slice() {
        return greet(session, buffer);
    }
    if session.state == State::Waiting {
        return reply(
            settings.start,
            session,
            Err(Complaint::NoHandshake),
            &[],
            buffer,
        );
    }
    serve(session, settings, message, memory, buffer)
}

// The handshake, answered.
#[tactic(auto, unfolding(frame::specs::Frame::laid))]
fn greet(session: Session, buffer: &mut [u8]) -> Turn
    requires { reply_room ≤ length buffer.old }
    ensures { Laid result buffer.new (in_state session State.Talking) hello_back buffer.old }
{
    buffer[0] = HELLO_BACK;
    Turn {
        session: session.in_state(State::Talking),
        answer: Ok(1),
    }
}

// What a Talking device does with a message: it is read, checked, and refused or worked on.
#[tactic(auto, unfolding(crate::specs::Respond::serve, crate::specs::Respond::refuse, crate::specs::After::lay))]
fn serve(
    session: Session,
    settings: Settings,
    message: &[u8],
    memory: &mut MappedMemory,
    buffer: &mut [u8],
) -> Turn
    requires { reply_room ≤ length buffer.old }
    ensures same_slices { SameSlices (lent_of memory.old) (lent_of memory.new) }
    ensures outcome { leaves result (held (lent_of memory.new)) buffer.new
        ≡ lay_answer buffer.old
        (serve_is settings (device_of session (held (lent_of memory.old)))
        (data_of message.now) (request_in settings.start message.now)) }
{
    let request = request_in(settings.start, message);
    if let Err(complaint) = verdict_on(session, memory, request) {
        return reply(settings.start, session, Err(complaint), &[], buffer);
    }
    work(session, settings, request, message, memory, buffer)
}

// What the checks and protection say of a request.
#[tactic(auto, unfolding(crate::specs::Respond::verdict_on))]
fn verdict_on(session: Session, memory: &MappedMemory, request: Request) -> Result<(), Complaint>
    ensures { number_of result ≡ verdict_on (device_of session (held (lent_of memory.now))) request }
{
    tm32_asks::verdict(session.link, memory.options(), request)
}

// The work of a request that the checks let through, and the reply to it.
#[tactic(auto, unfolding(crate::specs::Work::work, crate::specs::Work::with_options, crate::specs::Respond::reply_to, crate::specs::After::lay, crate::specs::Respond::verdict_on, tm32_asks::specs::Checks::checks, tm32_asks::specs::Checks::verdict, tm32_asks::specs::Numbers::from_one_to), using(crate::proofs::Written::option_bytes_length, crate::proofs::Written::read_length))]
fn work(
    session: Session,
    settings: Settings,
    request: Request,
    message: &[u8],
    memory: &mut MappedMemory,
    buffer: &mut [u8],
) -> Turn
    requires room { reply_room ≤ length buffer.old }
    requires asked { request ≡ request_in settings.start message.now }
    requires passes { verdict_on (device_of session (held (lent_of memory.old))) request ≡ work_done }
    ensures same_slices { SameSlices (lent_of memory.old) (lent_of memory.new) }
    ensures outcome { leaves result (held (lent_of memory.new)) buffer.new
        ≡ lay_answer buffer.old
        (reply_to settings.start (work_is settings (device_of session (held (lent_of memory.old)))
        (data_of message.now) request)) }
{
    let start = settings.start;
    match request {
        Request::Pps { code } => reply(start, pps::work(session, code), Ok(()), &[], buffer),
        Request::Get => reply(start, session, Ok(()), &get::work(settings), buffer),
        Request::Read { address, count } => {
            let bytes = read::work(memory, address, count);
            reply(start, session, Ok(()), bytes, buffer)
        }
        Request::Write { flag, address, .. } => {
            let data = frame::data_of(message);
            let outcome = write::work(memory, flag, address, bytes_to_write(data));
            reply(start, session, outcome, &[], buffer)
        }
        Request::MemoryCrc {
            address,
            count,
            crc,
        } => {
            let outcome = memory_crc::work(start, memory, address, count, crc);
            reply(start, session, outcome, &[], buffer)
        }
        Request::Erase { first, count } => {
            erase::work(memory.flash, first, count);
            reply(start, session, Ok(()), &[], buffer)
        }
        Request::Go { address } => reply(start, go::work(session, address), Ok(()), &[], buffer),
        Request::WriteOptions => {
            write_options::work(memory.flash, memory.nvr, frame::data_of(message));
            reply(start, session, Ok(()), &[], buffer)
        }
        Request::ReadOptions => reply(start, session, Ok(()), memory.options(), buffer),
        Request::HeartBeat => reply(start, heart_beat::work(session), Ok(()), &[], buffer),
        // The checks let none of these through.
        Request::Misshapen => reply(start, session, Err(Complaint::WrongShape), &[], buffer),
    }
}
