// Records of 18 bytes for the drawing program: a station and two doubles, written and read back.
#![tactic(auto)]

ghost use Rattle.std.specs.Prelude.{◌≡◌, ◌+◌, ◌*◌, ◌^◌, ◌<◌, ◌≤◌, not, T, length, is_nan, to_bits};
ghost use Rattle.std.proofs.lemmas.List.Edits.{sets};
ghost use Rattle.std.specs.Float.{binary64};
ghost use Rattle.temporal.specs.Drawing.{share_bits, carried, bytes_of, drawn_record, Reads};
ghost use Rattle.drawing.specs.Bytes.{number_at};
ghost use Rattle.drawing.specs.Doubles.{carried_bits, DrawnAs, drawn_bytes};
ghost use Rattle.drawing.specs.Reading.{read_result, NumberOf, Parseable, ParsedAs, NumbersRead};

// The bits of the double infinity; no share has these or higher ones.
const INFINITY: u64 = 0x7ff0_0000_0000_0000;

// Loads and numbers of pairs are below 2^49.
const LIMIT: u64 = 1 << 49;

// What a station carries: a low and a high double, or nothing. Document 02 names an enum of these two cases.
#[derive(Clone, Copy)]
pub enum Figures {
    Idle,
    Carries(f64, f64),
}

// What a record holds.
#[derive(Clone, Copy)]
pub struct Drawn {
    pub station: usize,
    pub low: f64,
    pub high: f64,
}

// x / 2^32; nothing is rounded.
pub fn share_value(x: u64) -> f64
    requires { x < 2 ^ 53 }
    ensures { to_bits binary64 result ≡ share_bits x }
{
    x as f64 / 4294967296.0
}

// The figures of a station with a load and a number of pairs.
pub fn figures_of(load: u64, pairs: u64) -> Figures
    requires { (load < 2 ^ 49) × (pairs < 2 ^ 49) }
    ensures { carried_bits result ≡ carried load pairs }
{
    if pairs == 0 {
        return Figures::Idle;
    }
    Figures::Carries(share_value(load), share_value(load + pairs))
}

// What is drawn of a station; an idle one has zeros.
pub fn drawn_of(station: usize, load: u64, pairs: u64) -> Drawn
    requires { (load < 2 ^ 49) × (pairs < 2 ^ 49) }
    ensures { DrawnAs station load pairs result.station result.low result.high }
{
    match figures_of(load, pairs) {
        Figures::Idle => Drawn {
            station,
            low: 0.0,
            high: 0.0,
        },
        Figures::Carries(low, high) => Drawn { station, low, high },
    }
}

// Writes 64 bits from a place on, high byte first.
#[tactic(auto, using(crate::proofs::ByteLaws::double_stored))]
fn write_double(records: &mut [u8], at: usize, bits: u64)
    requires { at + 8 ≤ length records.old }
    ensures { records.new ≡ sets records.old at (bytes_of 8 bits) }
{
    records[at..at + 8].copy_from_slice(&bits.to_be_bytes());
}

// Writes a record from a place on: the station in 16 bits, then both doubles.
pub fn write_record(records: &mut [u8], at: usize, drawn: Drawn)
    requires at_in_bounds { at + 18 ≤ length records.old }
    requires no_nan { T (not (is_nan drawn.low)) × T (not (is_nan drawn.high)) }
    ensures { records.new ≡ sets records.old at (drawn_bytes drawn) }
{
    let station = (drawn.station % 65536) as u16;
    records[at..at + 2].copy_from_slice(&station.to_be_bytes());
    write_double(records, at + 2, f64::to_bits(drawn.low));
    write_double(records, at + 10, f64::to_bits(drawn.high));
}

// Writes the record of a station with a load and a number of pairs from a place on.
pub fn draw_station(records: &mut [u8], at: usize, station: usize, load: u64, pairs: u64)
    requires at_in_bounds { at + 18 ≤ length records.old }
    requires load_bound { (load < 2 ^ 49) × (pairs < 2 ^ 49) }
    ensures { records.new ≡ sets records.old at (drawn_record station load pairs) }
{
    write_record(records, at, drawn_of(station, load, pairs));
}

// What is read back of bytes: a station with its load and its number of pairs.
#[derive(Clone, Copy)]
pub struct Reading {
    pub station: usize,
    pub load: u64,
    pub pairs: u64,
}

// The 16 bits from a place on.
#[tactic(auto, using(crate::proofs::ReadLaws::word_is))]
fn read_word(bytes: &[u8], at: usize) -> u16
    requires { at + 2 ≤ length bytes.now }
    ensures { result ≡ number_at bytes.now at 2 }
{
    let mut word = [0; 2];
    word.copy_from_slice(&bytes[at..at + 2]);
    u16::from_be_bytes(word)
}

// The 64 bits from a place on.
#[tactic(auto, using(crate::proofs::ReadLaws::double_is))]
fn read_double(bytes: &[u8], at: usize) -> u64
    requires { at + 8 ≤ length bytes.now }
    ensures { result ≡ number_at bytes.now at 8 }
{
    let mut word = [0; 8];
    word.copy_from_slice(&bytes[at..at + 8]);
    u64::from_be_bytes(word)
}

// The record that bytes are, or none. Bits from the infinity's on are of no share.
#[tactic(auto, using(crate::proofs::RecordLaws::foreign_length), unfolding(crate::specs::Reading::ParsedAs))]
fn parse_record(bytes: &[u8]) -> Option<Drawn>
    ensures { ParsedAs bytes.now result }
{
    if bytes.len() != 18 {
        return None;
    }
    let low = read_double(bytes, 2);
    let high = read_double(bytes, 10);
    if INFINITY <= low || INFINITY <= high {
        return None;
    }
    Some(Drawn {
        station: usize::from(read_word(bytes, 0)),
        low: f64::from_bits(low),
        high: f64::from_bits(high),
    })
}

// The whole number below 2^53 whose share a double is, or none: a guess, whose share is compared with the double bit by bit.
fn number_of(value: f64) -> Option<u64>
    requires { to_bits binary64 value < 2047 * 2 ^ 52 }
    ensures { NumberOf (to_bits binary64 value) result }
{
    let scaled = value * 4294967296.0;
    if scaled < 18446744073709551616.0 {
        let x = std::num::truncating_f64_to_u64(scaled);
        if x < 9007199254740992 && f64::to_bits(share_value(x)) == f64::to_bits(value) {
            return Some(x);
        }
    }
    None
}

// The station, load and pairs of a load and its sum with the pairs.
#[tactic(auto, unfolding(crate::specs::Reading::NumbersRead))]
fn read_numbers(station: usize, load: u64, sum: u64) -> Option<Reading>
    ensures { NumbersRead station load sum (read_result result) }
{
    if 256 <= station || LIMIT <= load {
        return None;
    }
    let pairs = sum.checked_sub(load)?;
    if LIMIT <= pairs || pairs == 0 && load != 0 {
        return None;
    }
    Some(Reading {
        station,
        load,
        pairs,
    })
}

// What a record says.
#[tactic(auto, using(crate::proofs::ReadLaws::no_low, crate::proofs::ReadLaws::no_high, crate::proofs::ReadLaws::numbers_read))]
fn read_drawn(drawn: Drawn) -> Option<Reading>
    requires { Parseable drawn }
    ensures { Reads (drawn_bytes drawn) (read_result result) }
{
    read_numbers(drawn.station, number_of(drawn.low)?, number_of(drawn.high)?)
}

// Reads bytes back; none where no station could have written them.
#[tactic(auto, unfolding(crate::specs::Reading::ParsedAs))]
pub fn read_record(bytes: &[u8]) -> Option<Reading>
    ensures { Reads bytes.now (read_result result) }
{
    read_drawn(parse_record(bytes)?)
}
