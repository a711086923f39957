// The value that a CRC starts from, among the settings.
ghost use Rattle.std.specs.Prelude.{◌≡◌};
ghost use Rattle.tm32.specs.Fresh.{with_start};

use crate::Settings;

impl Settings {
    // The same with another start value.
    pub fn starting_from(self, start: u16) -> Settings
        ensures { result ≡ with_start self start }
    {
        Settings { start, ..self }
    }
}
