// Numbers in eight decimal digits: writing them and reading them.
ghost use Rattle.std.specs.Prelude.{◌≡◌, ℕ, ◌+◌, ◌%◌, ◌<◌, ◌≤◌, length, IfSome, MatchOption, ◌≢◌};
ghost use Rattle.tray.specs.Decimal.{digits, value_after};

// Eight digits write the numbers below this. Contracts have the number itself: it is what a reader of them looks for.
const NUMBERS: u64 = 100_000_000;

// The eight digits of a number, zeros in front; none for a number of more digits.
pub fn eight_digits(number: u64) -> Option<[u8; 8]>
    ensures { MatchOption result (100000000 ≤ number) (λ bs. (number < 100000000) × (bs ≡ digits 8 number)) }
{
    if number >= NUMBERS {
        return None;
    }
    let mut bytes = [b'0'; 8];
    write_digits(&mut bytes, number);
    Some(bytes)
}

// Writes the last digits of a number over the bytes, as many as there are bytes: the last of them, and then the others over the bytes before.
#[tactic(auto, using(crate::proofs::Decimals::digits_more, crate::proofs::Decimals::digits_none))]
pub(crate) fn write_digits(bytes: &mut [u8], number: u64)
    ensures { bytes.new ≡ digits (length bytes.old) number }
{
    // From the back, by a call: a loop over `iter_mut().rev()` says nothing of what the bytes end as.
    if let Some((last, front)) = bytes.split_last_mut() {
        *last = b'0' + (number % 10) as u8;
        write_digits(front, number / 10);
    }
}

// The number that eight digits write; none for any other bytes.
pub fn read_digits(bytes: &[u8]) -> Option<u32>
    ensures told { MatchOption result ((n : ℕ) → n < 100000000 → bytes.now ≢ digits 8 n) (λ n. (n < 100000000) × (bytes.now ≡ digits 8 n)) }
    ensures value { IfSome result (λ n. value_after 0 bytes.now ≡ n) }
{
    if bytes.len() != 8 {
        return None;
    }
    let mut number = 0;
    for &byte in bytes {
        number = 10 * number + char::from(byte).to_digit(10)?;
    }
    Some(number)
}
