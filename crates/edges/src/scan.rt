// Looking for a byte.
ghost use Rattle.std.specs.Prelude.{◌≡◌, ◌↔◌, IsTrue};

// Whether a byte is the one that is looked for: what ends a line of the cases, or a word of a line.
pub(crate) fn is(byte: u8, wanted: u8) -> bool
    ensures { IsTrue result ↔ byte ≡ wanted }
{
    byte == wanted
}
