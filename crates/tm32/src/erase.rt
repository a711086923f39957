// Erase: so many pages from the first on become blank.
ghost use Rattle.std.specs.Prelude.{◌≡◌, ◌+◌, ◌≤◌, length};
ghost use Rattle.tm32_asks.specs.Map.{flash_length, page_count};
ghost use Rattle.tm32.specs.Work.{erased};

use tm32_asks::{BLANK, PAGE_SIZE};

// Of the one slice that it is lent it asks the length: the wipe, too, is lent the flash alone.
#[tactic(auto, using(crate::proofs::Written::filled))]
pub(crate) fn work(flash: &mut [u8], first: u32, count: u32)
    requires flash_sized { length flash.old ≡ flash_length }
    requires inside { first + count ≤ page_count }
    ensures { flash.new ≡ erased flash.old first count }
{
    memory::fill(
        flash,
        (first * PAGE_SIZE) as usize,
        (count * PAGE_SIZE) as usize,
        BLANK,
    )
    .unwrap();
}
