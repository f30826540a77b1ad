// Reading a number from its decimal digits.
ghost use Rattle.std.specs.Prelude.{◌+◌, ◌*◌, ◌≤◌, min, ◌≡◌, cond, ltb};
ghost use Rattle.text.specs.Reading.{digit as Reading·digit, number_of};

// The value of a digit. No `then_some`, which would subtract before the test.
fn digit(byte: u8) -> Option<usize>
    ensures { result ≡ cond (ltb 9 (Reading·digit byte)) None (Some (Reading·digit byte)) }
{
    if byte.is_ascii_digit() {
        Some((byte - b'0') as usize)
    } else {
        None
    }
}

// The number with one digit more, at most 65,536.
fn with_digit(value: usize, digit: usize) -> usize
    requires { (value ≤ 65536) × (digit ≤ 10) }
    ensures { result ≡ min (10 * value + digit) 65536 }
{
    (10 * value + digit).min(65536)
}

// The number that decimal digits spell; numbers over 65,536 count as 65,536. No `parse`: that refuses what is too large, and takes a
// sign.
#[tactic(auto, using(crate::proofs::Reading::none_empty, crate::proofs::Reading::none_spoilt, crate::proofs::Reading::digits_more, crate::proofs::Reading::value_more, crate::proofs::Reading::some_number))]
pub fn number_of(text: &[u8]) -> Option<usize>
    ensures { result ≡ number_of text.now }
{
    if text.is_empty() {
        return None;
    }
    let mut value = 0;
    for byte in text {
        value = with_digit(value, digit(*byte)?);
    }
    Some(value)
}
