// Rooms for the small tables of stored answers.
ghost use Rattle.std.specs.Prelude.{length, ◌≡◌};

// For texts, letters and slices.
pub fn byte_room() -> [u8; 4096]
    ensures { 4096 ≡ length result }
{
    [0u8; 4096]
}

// For rows and other numbers.
pub fn number_room() -> [usize; 264]
    ensures { 264 ≡ length result }
{
    [0usize; 264]
}
