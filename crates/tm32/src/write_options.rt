// Write options: first the wipe, then the bytes are stored.
ghost use Rattle.std.specs.Prelude.{◌≡◌, ◌-◌, length};
ghost use Rattle.memory.specs.Stores.{replaced};
ghost use Rattle.tm32_asks.specs.Map.{flash_length, nvr_length, nvr_start, options_length, options_start, page_count};
ghost use Rattle.tm32_asks.specs.Options.{option_bytes};
ghost use Rattle.tm32.specs.Work.{wiped, wipes as wipes_is};

use crate::{erase, read_options};
use tm32_asks::{OPTIONS_PLACE, PAGE_COUNT, rdp_on};

// Lent the two slices that it changes, and so asks their lengths: through the struct the one could not be read while the other changes.
#[tactic(auto, using(memory::proofs::Laws::stored))]
pub(crate) fn work(flash: &mut [u8], nvr: &mut [u8], options: &[u8])
    requires flash_sized { length flash.old ≡ flash_length }
    requires nvr_sized { length nvr.old ≡ nvr_length }
    requires options_sized { length options.now ≡ options_length }
    ensures { (flash.new ≡ wiped (option_bytes nvr.old) options.now page_count flash.old)
        × (nvr.new ≡ replaced nvr.old (options_start - nvr_start) options.now) }
{
    wipe(read_options::work(nvr), options, flash);
    memory::store(nvr, OPTIONS_PLACE, options).unwrap();
}

// The wipe, page by page. Lent the flash alone: nothing else is wiped.
#[tactic(auto, using(crate::proofs::Written::none_wiped, crate::proofs::Written::page_wiped))]
fn wipe(old: &[u8], new: &[u8], flash: &mut [u8])
    requires { length flash.old ≡ flash_length }
    ensures { flash.new ≡ wiped old.now new.now page_count flash.old }
{
    for page in 0..PAGE_COUNT {
        if wipes(old, new, page) {
            erase::work(flash, page, 1);
        }
    }
}

// Whether new options over old ones wipe a page: where read protection goes from on to off, each page alike.
#[tactic(auto, unfolding(crate::specs::Work::wipes))]
fn wipes(old: &[u8], new: &[u8], page: u32) -> bool
    ensures { result ≡ wipes_is old.now new.now page }
{
    rdp_on(old) && !rdp_on(new)
}
