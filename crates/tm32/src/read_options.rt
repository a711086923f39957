// Read options: the option bytes, lent on as a part of the NVR.
ghost use Rattle.std.specs.Prelude.{◌≡◌, length};
ghost use Rattle.tm32_asks.specs.Map.{nvr_length};
ghost use Rattle.tm32_asks.specs.Options.{option_bytes};

use tm32_asks::{OPTIONS_END, OPTIONS_PLACE};

#[tactic(auto, unfolding(tm32_asks::specs::Options::option_bytes, memory::specs::Stores::part))]
pub(crate) fn work(nvr: &[u8]) -> &[u8]
    requires { length nvr.now ≡ nvr_length }
    ensures { result.now ≡ option_bytes nvr.now }
{
    &nvr[OPTIONS_PLACE..OPTIONS_END]
}
