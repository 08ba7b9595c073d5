// A number read a digit at a time.
ghost use Rattle.std.specs.Prelude.{◌≡◌};
ghost use Rattle.script.specs.Number.{number_more};

// A byte more of a number: none where the byte is no digit, or the number over 4,294,967,295.
pub fn number_more(number: Option<u32>, b: u8) -> Option<u32>
    ensures { result ≡ number_more number b }
{
    if !b.is_ascii_digit() {
        return None;
    }
    number?.checked_mul(10)?.checked_add(u32::from(b - b'0'))
}
