// A bar's mark, what is printed on the bar, as one number: packed and unpacked in one place.
#![tactic(auto)]

ghost use Rattle.std.specs.Prelude.{◌≤◌, ◌≡◌};
ghost use Rattle.bar_marks.specs.Marks.{packed, unpacked};

// The figures of the meter and whether it is printed; tempo and fifths + 8, 0 where none is marked; whether the key is minor.
// Kept: 0 for no tempo and for no key, since `UnpacksPacked` is of every number that the bits hold.
#[derive(Clone, Copy, Debug, PartialEq, Eq)]
pub struct Mark {
    pub upper: u32,
    pub lower: u32,
    pub printed: bool,
    pub tempo: u32,
    pub fifths: u32,
    pub minor: bool,
}

// Bits 0 to 7 upper, 8 to 15 lower, 16 printed, 17 to 26 tempo, 27 to 31 fifths + 8, 32 minor.
pub fn pack(m: Mark) -> u64
    ensures { result ≡ packed m }
{
    let meter = u64::from(m.upper) + u64::from(m.lower) * 256 + u64::from(m.printed) * 65536;
    meter
        + u64::from(m.tempo) * 131072
        + u64::from(m.fifths) * 134217728
        + u64::from(m.minor) * 4294967296
}

// The fields read back.
pub fn unpack(mark: u64) -> Mark
    ensures { result ≡ unpacked mark }
{
    Mark {
        upper: (mark % 256) as u32,
        lower: (mark / 256 % 256) as u32,
        printed: mark / 65536 % 2 == 1,
        tempo: (mark / 131072 % 1024) as u32,
        fifths: (mark / 134217728 % 32) as u32,
        minor: mark / 4294967296 % 2 == 1,
    }
}
