// Bytes: where they are cut, and the numbers that they write.
#![tactic(auto)]

ghost use Rattle.std.specs.Prelude.{◌≡◌, ◌≤◌, length};
ghost use Rattle.text.specs.Bytes.{before, Cut};
ghost use Rattle.text.specs.Decimal.{number, number32, number_up_to, value_after};

pub const MAX_DIGITS: usize = 5;

pub const MAX_NUMBER: u32 = 65_535;

const MAX_DIGITS_32: usize = 10;

// How many bytes stand before the first `b`; all of them, where there is none.
pub fn find(s: &[u8], b: u8) -> usize
    ensures { result ≡ before b s.now }
{
    s.iter().position(|x| *x == b).unwrap_or(s.len())
}

// The bytes before the first `b` and those behind it; none, where there is no `b`.
pub fn cut(s: &[u8], b: u8) -> Option<(&[u8], &[u8])>
    ensures { Cut b s.now result }
{
    let n = find(s, b);
    if n >= s.len() {
        return None;
    }
    Some((&s[..n], &s[n + 1..]))
}

// The number that up to ten digits write; none, where a byte is no digit. No `parse`: that takes a sign.
fn value(s: &[u8]) -> Option<u64>
    requires { length s.now ≤ 10 }
    ensures { result ≡ value_after 0 s.now }
{
    let mut n: u64 = 0;
    for b in s {
        if !b.is_ascii_digit() {
            return None;
        }
        n = n * 10 + u64::from(*b - b'0');
    }
    Some(n)
}

// The number that `s` writes in decimal: one to `width` digits, no zero in front unless it is 0, at most `limit`.
fn decimal_up_to(s: &[u8], width: usize, limit: u32) -> Option<u32>
    requires { width ≤ 10 }
    ensures { result ≡ number_up_to width limit s.now }
{
    match s {
        [] | [b'0', _, ..] => None,
        _ if s.len() > width => None,
        _ => u32::try_from(value(s)?).ok().filter(|n| *n <= limit),
    }
}

// The number that `s` writes in decimal: one to five digits, no zero in front unless it is 0, at most 65,535.
pub fn decimal(s: &[u8]) -> Option<u32>
    ensures { result ≡ number s.now }
{
    decimal_up_to(s, MAX_DIGITS, MAX_NUMBER)
}

// The number of 32 bits that `s` writes in decimal, with no zero in front unless it is 0. Like `decimal`, a line over what both share.
pub fn decimal32(s: &[u8]) -> Option<u32>
    ensures { result ≡ number32 s.now }
{
    decimal_up_to(s, MAX_DIGITS_32, u32::MAX)
}

#[cfg(test)]
mod tests {
    use super::*;
    use std::test::Fail;

    #[test]
    fn numbers(rt: HostRuntime) {
        assert_eq!(rt; decimal(b"0"), Some(0));
        assert_eq!(rt; decimal(b"7"), Some(7));
        assert_eq!(rt; decimal(b"4096"), Some(4096));
        assert_eq!(rt; decimal(b"65535"), Some(65_535));
        assert_eq!(rt; decimal(b"65536"), None);
        assert_eq!(rt; decimal(b"99999"), None);
        assert_eq!(rt; decimal(b"100000"), None);
        assert_eq!(rt; decimal(b""), None);
        assert_eq!(rt; decimal(b"00"), None);
        assert_eq!(rt; decimal(b"07"), None);
        assert_eq!(rt; decimal(b"7a"), None);
        assert_eq!(rt; decimal(b"-7"), None);
        assert_eq!(rt; decimal(b"+7"), None);
        assert_eq!(rt; decimal32(b"65536"), Some(65_536));
        assert_eq!(rt; decimal32(b"4294967295"), Some(u32::MAX));
        assert_eq!(rt; decimal32(b"4294967296"), None);
        assert_eq!(rt; decimal32(b"10000000000"), None);
        assert_eq!(rt; decimal32(b"01"), None);
    }

    #[test]
    fn cuts(rt: HostRuntime) -> Result<(), Fail> {
        assert_eq!(rt; find(b"ab,c", b','), 2);
        assert_eq!(rt; find(b"abc", b','), 3);
        let (front, back) = cut(b"ab,c,", b',').ok_or("no comma")?;
        assert_eq!(rt; front.len(), 2);
        assert_eq!(rt; back.len(), 2);
        assert!(rt; cut(b"abc", b',').is_none());
        Ok(())
    }
}
