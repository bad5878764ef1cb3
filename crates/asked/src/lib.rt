// The arguments of a program that accounts for a station: the station, and the most walks to print under each pair of it.
#![tactic(auto)]

ghost use Rattle.std.specs.Prelude.{◌+◌, ◌*◌, ◌≤◌, min, length, ◌≡◌};
ghost use Rattle.asked.specs.Asked.{largest, number_of, request_of, RequestWithin};

use std::env::{Env, FillError};

// What the arguments ask for.
#[derive(Clone, Copy)]
pub struct Request {
    pub station: usize,
    pub walks: usize,
}

// The most walks that may be asked for.
const MOST_WALKS: usize = 8;

// The arguments of a program, its own name among them.
const ARGUMENTS: usize = 3;

// Room for the longest argument that Linux hands to a program: 32 pages, with the 0 that ends it.
const LONGEST: usize = 131072;

// The number whose digits are those of x and one more; the largest that a usize holds in place of every larger one.
fn grown(x: usize, digit: usize) -> usize
    ensures { result ≡ min (x * 10 + digit) largest }
{
    x.saturating_mul(10).saturating_add(digit)
}

// The number that a word is in decimal, or none.
pub fn number(word: &[u8]) -> Option<usize>
    ensures { result ≡ number_of word.now }
{
    if word.is_empty() {
        return None;
    }
    let mut x = 0;
    for c in word {
        if *c < b'0' || b'9' < *c {
            return None;
        }
        x = grown(x, usize::from(*c - b'0'));
    }
    Some(x)
}

// What so many arguments ask for, of which two words are the first and the second behind the program's name; none where they are
// wrong.
#[tactic(auto, unfolding(crate::specs::Asked::request_of, crate::specs::Asked::asked))]
pub fn request_of(count: usize, first: &[u8], second: &[u8]) -> Option<Request>
    ensures { result ≡ request_of count first.now second.now }
{
    if count != ARGUMENTS {
        return None;
    }
    let station = number(first)?;
    let walks = number(second)?;
    if MOST_WALKS < walks {
        return None;
    }
    Some(Request { station, walks })
}

// Whether the program has an argument of this number; its name has number 0.
fn is_given<V: Env>(environment: &V, number: usize) -> bool {
    let mut none = [0u8; 0];
    !matches!(
        environment.arg(number, &mut none),
        Err(FillError::NotPresent)
    )
}

// The number of the program's arguments, its own name among them; one more than ARGUMENTS stands for every larger number.
fn count_of<V: Env>(environment: &V) -> usize
    ensures { result ≤ 4 }
{
    for count in 0..=ARGUMENTS {
        if !is_given(environment, count) {
            return count;
        }
    }
    ARGUMENTS + 1
}

// Puts an argument at the beginning of a buffer; its length, 0 where it is missing or longer than the buffer.
fn read_word<V: Env>(environment: &V, number: usize, word: &mut [u8]) -> usize
    ensures { result ≤ length word.new }
{
    environment.arg(number, word).unwrap_or(0)
}

// What the program's own arguments ask for. Where they are wrong, one line says what they are to be. An argument that is missing or too
// long counts as an empty word, which is no number.
#[tactic(auto, using(crate::proofs::RequestLaws::request_within))]
pub fn arguments<V: Env, E: Print>(environment: &V, errors: &E, wrong: &[u8]) -> Option<Request>
    ensures { RequestWithin result }
{
    let mut first = [0u8; LONGEST];
    let mut second = [0u8; LONGEST];
    let a = read_word(environment, 1, &mut first);
    let b = read_word(environment, 2, &mut second);
    let request = request_of(count_of(environment), &first[..a], &second[..b]);
    if request.is_none() {
        let _ = errors.write_all(wrong);
    }
    request
}
