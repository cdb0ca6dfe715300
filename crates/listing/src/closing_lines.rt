// The two lines with which the output of the program ends.
ghost use Rattle.std.specs.Prelude.{◌≡◌, ◌<◌, ◌≤◌, ◌⊎◌, MatchOption};
ghost use Rattle.listing.specs.ClosingLines.{end_text, refusal_text};

use tray::eight_digits;

// Two digits write the numbers below this.
const REFUSALS: u8 = 100;

// The line of an end: the cubes and the triangles, in eight digits each; none where one of them has more digits.
pub fn end_line(cubes: u32, triangles: u32) -> Option<[u8; 20]>
    ensures { MatchOption result ((100000000 ≤ cubes) ⊎ (100000000 ≤ triangles)) (λ line. (cubes < 100000000) × (triangles < 100000000) × (line ≡ end_text cubes triangles)) }
{
    let mut line = *b"E,00000000,00000000\n";
    line[2..10].copy_from_slice(&eight_digits(cubes.into())?);
    line[11..19].copy_from_slice(&eight_digits(triangles.into())?);
    Some(line)
}

// The line of a refusal: its number in two digits and what it tells in eight; none where one of them has more digits.
pub fn refusal_line(number: u8, told: u32) -> Option<[u8; 14]>
    ensures { MatchOption result ((100 ≤ number) ⊎ (100000000 ≤ told)) (λ line. (number < 100) × (told < 100000000) × (line ≡ refusal_text number told)) }
{
    if number >= REFUSALS {
        return None;
    }
    let mut line = *b"R,00,00000000\n";
    line[2] = b'0' + number / 10;
    line[3] = b'0' + number % 10;
    line[5..13].copy_from_slice(&eight_digits(told.into())?);
    Some(line)
}
