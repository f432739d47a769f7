// Bytes, two-byte numbers and marks, read where they stand in a file. Past the end they are 0.
#![tactic(auto)]

ghost use Rattle.std.specs.Prelude.{◌≡◌};
ghost use Rattle.files.specs.Marks.{is_mark};
ghost use Rattle.files.specs.InPlace.{byte_at, two_at};

// The byte at a place.
pub fn byte_at(file: &[u8], at: usize) -> u8
    ensures { result ≡ byte_at file.now at }
{
    file.get(at).copied().unwrap_or(0)
}

// The number of two bytes at a place, low byte first.
pub fn two_at(file: &[u8], at: usize) -> u16
    ensures { result ≡ two_at file.now at }
{
    match file.get(at) {
        Some(low) => u16::from_le_bytes([*low, byte_at(file, at + 1)]),
        None => 0,
    }
}

// Does the file start with the mark?
pub fn starts_with(file: &[u8], mark: &[u8; 2]) -> bool
    ensures { result ≡ is_mark mark.now (byte_at file.now 0) (byte_at file.now 1) }
{
    // the library's `starts_with` wants both letters there: past a file's end a letter is 0
    byte_at(file, 0) == mark[0] && byte_at(file, 1) == mark[1]
}
