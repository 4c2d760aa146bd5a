// A number as it is spelled: all bytes are its digits.
ghost use Rattle.text.specs.Spelled.{Spells};

use crate::digits;

// The number below the limit, a power of ten, that the bytes spell.
pub fn number(limit: u64, bytes: &[u8]) -> Option<u64>
    ensures { Spells limit bytes.now result }
{
    let (first, rest) = bytes.split_first()?;
    if !digits::is_digit(*first) {
        return None;
    }
    let mut v = u64::from(digits::worth(*first));
    for b in rest {
        if !digits::continues(limit, v, *b) {
            return None;
        }
        v = digits::extended(limit, v, *b);
    }
    Some(v)
}
