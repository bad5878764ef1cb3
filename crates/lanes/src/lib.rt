// Several counts in one 64-bit entry: lane l of width w has the bits from w × l on.
#![tactic(auto)]

ghost use Rattle.std.specs.Prelude.{◌≡◌, ◌+◌, ◌-◌, ◌*◌, ◌/◌, ◌%◌, ◌^◌, ◌<◌, ◌≤◌};
ghost use Rattle.lanes.specs.Lane.{lane, without_lane, ones, lanes_of, width_of};

// The count in lane l. Shifting left drops the lanes above, shifting right those below; neither shift reaches 64.
pub fn lane_at(x: u64, w: usize, l: usize) -> u64
    requires { (0 < w) × (w * l + w ≤ 64) }
    ensures { result ≡ lane w x l }
{
    (x << (64 - w - w * l)) >> (64 - w)
}

// The entry with lane l set to 0.
pub fn without_lane(x: u64, w: usize, l: usize) -> u64
    requires { (0 < w) × (w * l + w ≤ 64) }
    ensures { result ≡ without_lane w x l }
{
    x - (lane_at(x, w, l) << (w * l))
}

// 1 in each lane of an entry of 1, 2, 4 or 8 lanes.
#[tactic(auto, unfolding(crate::specs::Lane::packed, crate::specs::Lane::ones, crate::specs::Lane::lanes_of, crate::specs::Lane::width_of))]
pub fn ones_of(s: usize) -> u64
    requires { s ≤ 3 }
    ensures { result ≡ ones (width_of s) (lanes_of s) }
{
    match s {
        0 => 1,
        1 => 0x0000_0001_0000_0001,
        2 => 0x0001_0001_0001_0001,
        _ => 0x0101_0101_0101_0101,
    }
}

// How many bits a lane has, where an entry has 2^s lanes.
pub fn width_of(s: usize) -> usize
    requires { s ≤ 3 }
    ensures { result ≡ 64 / 2 ^ s }
{
    64 >> s
}

// The largest count that fits a lane.
pub fn limit_of(s: usize) -> u64
    requires { s ≤ 3 }
    ensures { result ≡ 2 ^ (64 / 2 ^ s) - 1 }
{
    match s {
        0 => u64::MAX,
        1 => u64::from(u32::MAX),
        2 => u64::from(u16::MAX),
        _ => u64::from(u8::MAX),
    }
}

// The entry that holds column j.
pub fn entry_of(j: usize, s: usize) -> usize
    requires { s ≤ 3 }
    ensures { result ≡ j / 2 ^ s }
{
    j >> s
}

// The lane that holds column j.
pub fn lane_of(j: usize, s: usize) -> usize
    requires { (s ≤ 3) × (j < 2 ^ 63) }
    ensures { result ≡ j % 2 ^ s }
{
    j & ((1 << s) - 1)
}

// How many columns so many entries hold.
pub fn columns_of(block: usize, s: usize) -> usize
    requires { (s ≤ 3) × (block < 2 ^ 60) }
    ensures { result ≡ block * 2 ^ s }
{
    block << s
}
