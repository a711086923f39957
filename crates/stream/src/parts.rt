// The two parts of some bytes at a place, for any place.
ghost use Rattle.std.specs.Prelude.{◌≡◌, drop, take};

// So many bytes from the start, and all where there are fewer.
pub fn first(bytes: &[u8], count: usize) -> &[u8]
    ensures { result.now ≡ take count bytes.now }
{
    bytes.get(..count).unwrap_or(bytes)
}

// What stands from a place on, and nothing where it lies past the end.
pub fn behind(bytes: &[u8], place: usize) -> &[u8]
    ensures { result.now ≡ drop place bytes.now }
{
    bytes.get(place..).unwrap_or(&[])
}
