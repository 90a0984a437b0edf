//! How a number escape writes its number.
ghost use Rattle.std.specs.Prelude.{◌≡◌, ◌<◌, ◌≤◌, true, length};
ghost use Rattle.std.specs.List.{list_all};
ghost use Rattle.el_lex.specs.Bytes.{digit_value, is_hexadecimal_digit, number_in};

/// How a number escape writes its number.
#[derive(Clone, Copy, PartialEq, Eq)]
pub(crate) enum Base {
    Octal,
    Decimal,
    Hexadecimal,
}

impl Base {
    ghost use Rattle.el_lex.specs.Base.{radix, most_digits, is_digit_in};

    fn radix(self) -> u32
        ensures value { result ≡ radix self }
        ensures small { result ≤ 16 }
    {
        match self {
            Base::Octal => 8,
            Base::Decimal => 10,
            Base::Hexadecimal => 16,
        }
    }

    /// The greatest number of digits of an escape.
    pub(crate) fn most(self) -> usize
        ensures value { result ≡ most_digits self }
        ensures few { result ≤ 3 }
    {
        match self {
            Base::Octal | Base::Decimal => 3,
            Base::Hexadecimal => 2,
        }
    }

    /// Whether `byte` is one of the digits.
    pub(crate) fn has_digit(self, byte: u8) -> bool
        ensures { result ≡ is_digit_in self byte }
    {
        match self {
            Base::Octal => matches!(byte, b'0'..=b'7'),
            Base::Decimal => byte.is_ascii_digit(),
            Base::Hexadecimal => byte.is_ascii_hexdigit(),
        }
    }

    /// The number that at most three digits write.
    pub(crate) fn number(self, digits: &[u8]) -> u32
        requires few { length digits.now ≤ 3 }
        requires digits { list_all is_hexadecimal_digit digits.now ≡ true }
        ensures { result ≡ number_in (radix self) digits.now }
    {
        let mut number = 0;
        for digit in digits {
            number = number * self.radix() + digit_value(*digit);
        }
        number
    }
}

fn digit_value(digit: u8) -> u32
    requires { is_hexadecimal_digit digit ≡ true }
    ensures value { result ≡ digit_value digit }
    ensures small { result < 16 }
{
    let value = match digit {
        b'0'..=b'9' => digit - b'0',
        b'A'..=b'F' => digit - b'A' + 10,
        _ => digit - b'a' + 10,
    };
    u32::from(value)
}
