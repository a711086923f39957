// What the option bytes protect: the chip from reading, and single pages of the flash. A byte that is not there counts as nought, as
// in the definitions, so nothing is asked of the slice.
ghost use Rattle.std.specs.Prelude.{◌≡◌, ◌≤◌, ◌<◌};
ghost use Rattle.memory.specs.Pages.{some_page};
ghost use Rattle.tm32_asks.specs.Options.{in_range, low_byte, rdp_on, under};

use crate::map::PAGE_COUNT;
use crate::requests::byte_at;
use memory::PageRun;

// The low byte of halfword 1 that means no read protection.
const RDP_OFF: u8 = 0xAA;

// What protects single pages, by two ranges each: the number is that of the halfword in which the first starts. A range's end stands in
// the next halfword, and the second range behind the first.
#[derive(Clone, Copy, Debug, PartialEq, Eq)]
pub(crate) enum PageProtection {
    Pcrop = 3,
    Wrp = 7,
}

impl PageProtection {
    // Whether some page of a run is in one of the two ranges.
    #[tactic(auto, using(crate::proofs::Ranges::some_in_either))]
    pub(crate) fn meets(self, options: &[u8], pages: PageRun) -> bool
        ensures { result ≡ some_page (under self options.now) pages }
    {
        let first = self as usize;
        range_meets(options, first, pages) || range_meets(options, first + 2, pages)
    }
}

// Whether read protection is on.
#[tactic(auto, unfolding(crate::specs::Options::rdp_on))]
pub fn rdp_on(options: &[u8]) -> bool
    ensures { result ≡ rdp_on options.now }
{
    low_byte(options, 1) != RDP_OFF
}

// Whether some page of a run is in the range that starts in a halfword.
#[tactic(auto, using(memory::proofs::Laws::meets_is))]
fn range_meets(options: &[u8], halfword: usize, pages: PageRun) -> bool
    requires { (1 ≤ halfword) × (halfword < 11) }
    ensures { result ≡ some_page (in_range options.now halfword) pages }
{
    memory::meets(
        PAGE_COUNT,
        low_byte(options, halfword),
        low_byte(options, halfword + 1),
        pages,
    )
}

// The low byte of a halfword. Halfwords count from 1.
fn low_byte(options: &[u8], halfword: usize) -> u8
    requires { (1 ≤ halfword) × (halfword < 12) }
    ensures { result ≡ low_byte options.now halfword }
{
    byte_at(options, 2 * (halfword - 1))
}
