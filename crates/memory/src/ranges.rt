// Ranges of addresses, and the regions that hold them.
ghost use Rattle.std.specs.Prelude.{◌≡◌, ◌+◌};
ghost use Rattle.memory.specs.Ranges.{within};

// A region of addresses: so many bytes from its start on.
#[derive(Clone, Copy, Debug, PartialEq, Eq)]
pub struct Region {
    pub start: u32,
    pub length: u32,
}

impl Region {
    // Whether so many bytes from an address on all lie in the region.
    #[tactic(auto, unfolding(crate::specs::Ranges::within))]
    pub fn holds(self, address: u32, count: u32) -> bool
        ensures { result ≡ within self.start self.length address count }
    {
        self.start <= address && end(address, count) <= end(self.start, self.length)
    }
}

// The address behind a range. It takes more than 32 bits where the range ends with the last address of all, or would reach past it.
fn end(address: u32, count: u32) -> u64
    ensures { result ≡ address + count }
{
    u64::from(address) + u64::from(count)
}
