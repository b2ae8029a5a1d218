// The limits in time of a parser, and that of its parts, as C has them.
ghost use Rattle.std.specs.Prelude.{◌≡◌};
ghost use Rattle.hedrugal.specs.Limits.{c_millis, has_long_limit, is_long, limit_in, limit_or_usual, limits_in, parts_in};

use termwiz_timed::parser::Policy;

// The longest limit: what a string may be buffered for is then still told in 31 bits.
const LONGEST_LIMIT: i32 = 2_147_418_111;

/// `hed_policy`: how long each kind of bytes may stay buffered, in milliseconds. 0: the usual limit. Negative: for ever.
#[repr(C)]
#[derive(Clone, Copy)]
pub struct CPolicy {
    pub escape: i32,
    pub alt_key: i32,
    pub sequence: i32,
    pub string: i32,
    pub character: i32,
    pub paste: i32,
}

// A limit; none if it is negative.
pub(crate) fn limit_in(millis: i32) -> Option<u32>
    ensures { result ≡ limit_in millis }
{
    u32::try_from(millis).ok()
}

// A limit of a policy; the usual one if it is 0.
fn limit_or_usual(millis: i32, usual: Option<u32>) -> Option<u32>
    ensures { result ≡ limit_or_usual millis usual }
{
    if millis == 0 { usual } else { limit_in(millis) }
}

// Whether a limit is too long.
fn is_long(millis: i32) -> bool
    ensures { result ≡ is_long millis }
{
    millis > LONGEST_LIMIT
}

impl CPolicy {
    // Whether one of the limits is too long.
    pub(crate) fn has_long_limit(&self) -> bool
        ensures { result ≡ has_long_limit self.now }
    {
        is_long(self.escape)
            || is_long(self.alt_key)
            || is_long(self.sequence)
            || is_long(self.string)
            || is_long(self.character)
            || is_long(self.paste)
    }

    // The limits that these numbers stand for.
    pub(crate) fn limits(&self) -> Policy
        ensures { result ≡ limits_in self.now }
    {
        let usual = Policy::usual();
        Policy {
            escape: limit_or_usual(self.escape, usual.escape),
            alt_key: limit_or_usual(self.alt_key, usual.alt_key),
            sequence: limit_or_usual(self.sequence, usual.sequence),
            string: limit_or_usual(self.string, usual.string),
            character: limit_or_usual(self.character, usual.character),
            paste: limit_or_usual(self.paste, usual.paste),
        }
    }
}

// Milliseconds for poll: at most those of an `i32`, and -1 for ever.
pub(crate) fn c_millis(left: Option<u64>) -> i32
    ensures { result ≡ c_millis left }
{
    match left {
        Some(millis) => millis.min(0x7fff_ffff) as i32,
        None => -1,
    }
}

// The limit of parts with this number; none for the largest.
pub(crate) fn parts_in(limit: usize) -> Option<usize>
    ensures { result ≡ parts_in limit }
{
    if limit == usize::MAX {
        None
    } else {
        Some(limit)
    }
}
