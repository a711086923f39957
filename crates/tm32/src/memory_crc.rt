// Memory CRC compares: the frame's own CRC over a range, from the same start value, against the one that was sent.
ghost use Rattle.std.specs.Prelude.{true, ◌≡◌};
ghost use Rattle.tm32.specs.Promises.{held, lent_of};
ghost use Rattle.tm32_asks.specs.Map.{in_user_region};
ghost use Rattle.tm32_asks.specs.Results.{number_of};
ghost use Rattle.tm32.specs.Work.{compared};

use crate::mapped::MappedMemory;
use crate::read;
use tm32_asks::Complaint;

#[tactic(auto, unfolding(crate::specs::Work::compared, tm32_asks::specs::Map::in_read_region, tm32_asks::specs::Map::in_user_region, memory::specs::Ranges::within))]
pub(crate) fn work(
    start: u16,
    memory: &MappedMemory,
    address: u32,
    count: u32,
    wanted: u16,
) -> Result<(), Complaint>
    requires { in_user_region address count ≡ true }
    ensures { number_of result ≡ compared start (held (lent_of memory.now)) address count wanted }
{
    if frame::crc(start, read::work(memory, address, count)) == wanted {
        return Ok(());
    }
    Err(Complaint::WrongCrc)
}
