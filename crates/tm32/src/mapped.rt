// The lent memory, once its lengths are known to be those of the map: a type of its own, since what is lent may have any length.
ghost use Rattle.std.specs.Prelude.{◌≡◌, length};
ghost use Rattle.tm32_asks.specs.Map.{flash_length, nvr_length, ram_length};
ghost use Rattle.tm32_asks.specs.Options.{option_bytes};

use crate::read_options;

#[derive(Drop)]
pub(crate) struct MappedMemory<'a> {
    pub flash: &'a mut [u8],
    pub ram: &'a mut [u8],
    pub nvr: &'a mut [u8],
    ghost flash_sized: { length flash.now ≡ flash_length },
    ghost ram_sized: { length ram.now ≡ ram_length },
    ghost nvr_sized: { length nvr.now ≡ nvr_length },
}

impl MappedMemory<'_> {
    // The option bytes, of the NVR alone: what reads them is lent no more.
    pub(crate) fn options(&self) -> &[u8]
        ensures { result.now ≡ option_bytes self.now.nvr.now }
    {
        read_options::work(self.nvr)
    }
}
