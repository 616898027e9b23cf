//! Addresses as commands write them.

ghost use Rattle.std.specs.Prelude.{◌≡◌};
ghost use Rattle.command_text.specs.Address.{digit, address};

const DIGITS: [u8; 16] = *b"0123456789abcdef";

fn digit(number: u16) -> u8
    ensures { result ≡ digit number }
{
    DIGITS[(number % 16) as usize]
}

/// An address as `0x` and four digits.
pub fn address(at: u16) -> [u8; 6]
    ensures { result ≡ address at }
{
    [
        b'0',
        b'x',
        digit(at / 4096),
        digit(at / 256),
        digit(at / 16),
        digit(at),
    ]
}
