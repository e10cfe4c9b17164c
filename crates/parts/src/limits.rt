ghost use Rattle.std.specs.Prelude.{◌≡◌};
ghost use Rattle.parts.specs.Limits.{within, mark_in, other_mark, pitch_in};

// The first field of an entry that is outside its limits, counted from 1.
#[derive(Clone, Copy, Debug, PartialEq, Eq)]
pub struct OutOfLimits {
    pub field: u8,
}

// The value, where it is from `low` to `high`.
pub fn limited(value: i32, low: u16, high: u16) -> Option<u16>
    ensures { result ≡ within low high value }
{
    u16::try_from(value)
        .ok()
        .filter(|n| (low..=high).contains(n))
}

// A mark or a load number.
pub fn mark(value: i32) -> Option<u16>
    ensures { result ≡ mark_in value }
{
    limited(value, 1, 9999)
}

// The mark of a second plate, which is not the first again.
pub fn second_plate(value: i32, first: u16) -> Option<u16>
    ensures { result ≡ other_mark first value }
{
    mark(value).filter(|&second| second != first)
}

// The distance between neighbouring rows (columns): none where there is one alone.
pub fn pitch(value: i32, lines: u8) -> Option<u16>
    ensures { result ≡ pitch_in lines value }
{
    if lines == 1 {
        limited(value, 0, 0)
    } else {
        limited(value, 1, 400)
    }
}
