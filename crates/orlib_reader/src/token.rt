// White space, and tokens, read byte by byte or by runs of digits, and their numbers.
ghost use Rattle.std.specs.Prelude.{◌≡◌, ◌<◌, ◌≤◌, ◌+◌, ◌-◌, ◌*◌, ℕ, ℤ, List, Ok, drop, get_or, length, pos, true, false, IfOk, IsTrue, MatchOption, MatchResult};
ghost use Rattle.assign_core.specs.Numbered.{IsNumber};
ghost use Rattle.assign_core.specs.Rows.{IsCost, IsSize};
ghost use Rattle.orlib_reader.specs.Tokens.{is_space};
ghost use Rattle.orlib_reader.specs.Numbers.{Tells, is_among, judged_number};
ghost use Rattle.orlib_reader.specs.Numbers;
ghost use Rattle.orlib_reader.specs.Wanted;
ghost use Rattle.orlib_reader.specs.inside.Steps.{after, begun, between_tokens, continued, saturated, token_number, within_token};
ghost use Rattle.orlib_reader.specs.declared.layout.Layout.{Layout};
ghost use Rattle.orlib_reader.specs.declared.machine.TheConstants.{TEXT_LIMIT};

use super::fault::InputFault;
use assign_core::{Cost, GREATEST_COST, MOST_PERSONS};

// Greater values are kept as this one, which is outside each range.
pub const VALUE_LIMIT: u64 = 1_000_000_000_000_000_000;

// A lesser value stays within the limit with one more digit.
const SHORT_VALUE_LIMIT: u64 = VALUE_LIMIT / 10;

// What has been read of a token.
#[derive(Clone, Copy)]
pub struct OpenToken {
    pub place: u64,
    pub is_negative: bool,
    pub has_digits: bool,
    pub is_bad: bool,
    pub value: u64,
}

pub fn is_white(b: u8) -> bool
    ensures { result ≡ is_space b }
{
    b == b' ' || (b >= 9 && b <= 13)
}

// The number of bytes of white space at the beginning.
#[inline(always)]
pub fn white_run(bytes: &[u8]) -> usize
    ensures count { result ≤ length bytes.now }
    ensures dark { result < length bytes.now → is_space (get_or bytes.now result 0) ≡ false }
    ensures after { (layout : Layout) (at : ℕ) (found : List ℤ)
        → at + length bytes.now ≤ TEXT_LIMIT
        → after (Ok (between_tokens layout (at + result) found)) (drop result bytes.now)
        ≡ after (Ok (between_tokens layout at found)) bytes.now }
{
    let mut count = 0;
    while count < bytes.len() && is_white(bytes[count]) {
        count += 1;
    }
    count
}

// The value with one digit more.
#[inline(always)]
fn with_digit(value: u64, b: u8) -> u64
    requires short { value < SHORT_VALUE_LIMIT }
    requires digit { (48 ≤ b) × (b ≤ 57) }
    ensures value { result ≡ saturated (value * 10 + (b - 48)) }
    ensures bound { result ≤ VALUE_LIMIT }
{
    value * 10 + u64::from(b - b'0')
}

impl OpenToken {
    // A token that begins with this byte.
    #[inline(always)]
    pub fn begin(place: u64, b: u8) -> OpenToken
        ensures token { result ≡ begun place b }
        ensures bound { result.value ≤ VALUE_LIMIT }
    {
        let is_digit = b.is_ascii_digit();
        OpenToken {
            place,
            is_negative: b == b'-',
            has_digits: is_digit,
            is_bad: !is_digit && b != b'+' && b != b'-',
            value: if is_digit { u64::from(b - b'0') } else { 0 },
        }
    }

    // The token with one more byte.
    pub fn go_on(self, b: u8) -> OpenToken
        requires { self.value ≤ VALUE_LIMIT }
        ensures token { result ≡ continued self b }
        ensures bound { result.value ≤ VALUE_LIMIT }
    {
        if b.is_ascii_digit() {
            let value = self.value * 10 + u64::from(b - b'0');
            OpenToken {
                place: self.place,
                is_negative: self.is_negative,
                has_digits: true,
                is_bad: self.is_bad,
                value: value.min(VALUE_LIMIT),
            }
        } else {
            OpenToken {
                place: self.place,
                is_negative: self.is_negative,
                has_digits: self.has_digits,
                is_bad: true,
                value: self.value,
            }
        }
    }

    // The token with the digits that come next (all of them, if the value stays short), and their
    // number.
    #[inline(always)]
    pub fn go_on_by_digits(self, bytes: &[u8]) -> (OpenToken, usize)
        requires { self.value ≤ VALUE_LIMIT }
        ensures count { result.1 ≤ length bytes.now }
        ensures after { (layout : Layout) (at : ℕ) (found : List ℤ)
            → at + length bytes.now ≤ TEXT_LIMIT
            → after (Ok (within_token layout (at + result.1) result.0 found))
            (drop result.1 bytes.now)
            ≡ after (Ok (within_token layout at self found)) bytes.now }
        ensures bound { result.0.value ≤ VALUE_LIMIT }
    {
        let mut value = self.value;
        let mut has_digits = self.has_digits;
        let mut count = 0;
        while count < bytes.len() && value < SHORT_VALUE_LIMIT && bytes[count].is_ascii_digit() {
            value = with_digit(value, bytes[count]);
            has_digits = true;
            count += 1;
        }
        let token = OpenToken {
            place: self.place,
            is_negative: self.is_negative,
            has_digits,
            is_bad: self.is_bad,
            value,
        };
        (token, count)
    }

    // The number of the token, if it is one.
    #[inline(always)]
    fn number(self) -> Result<i64, InputFault>
        requires { self.value ≤ VALUE_LIMIT }
        ensures { MatchResult result (λ v. token_number self ≡ Some v)
            (λ e. (token_number self ≡ None) × (e ≡ InputFault.BadToken self.place)) }
    {
        if self.is_bad || !self.has_digits {
            Err(InputFault::BadToken(self.place))
        } else if self.is_negative {
            Ok(-(self.value as i64))
        } else {
            Ok(self.value as i64)
        }
    }

    // The token as the number of persons.
    pub fn size(self) -> Result<u16, InputFault>
        requires { self.value ≤ VALUE_LIMIT }
        ensures gives { Tells (λ n. pos n) result
            (judged_number Wanted.Size self.place (token_number self)) }
        ensures range { IfOk result (λ n. IsSize n) }
    {
        let number = self.number()?;
        among(MOST_PERSONS, number).ok_or(InputFault::Size)
    }

    // The token as the number of a person or an object, from 1 to n.
    #[inline(always)]
    pub fn index(self, n: u16) -> Result<u16, InputFault>
        requires { self.value ≤ VALUE_LIMIT }
        ensures gives { Tells (λ k. pos k) result
            (judged_number (Wanted.Index n) self.place (token_number self)) }
        ensures range { IfOk result (λ k. IsNumber n k) }
    {
        let number = self.number()?;
        among(n, number).ok_or(InputFault::Index(self.place))
    }

    // The token as a cost.
    #[inline(always)]
    pub fn cost(self) -> Result<Cost, InputFault>
        requires { self.value ≤ VALUE_LIMIT }
        ensures gives { Tells (λ c. c) result
            (judged_number Wanted.Cost self.place (token_number self)) }
        ensures range { IfOk result (λ c. IsCost c) }
    {
        let number = self.number()?;
        if is_cost(number) {
            Ok(number)
        } else {
            Err(InputFault::Cost(self.place))
        }
    }
}

// The number, if it is from 1 to n.
fn among(n: u16, number: i64) -> Option<u16>
    ensures { MatchOption result (is_among n number ≡ false)
        (λ k. (is_among n number ≡ true) × (number ≡ pos k) × IsNumber n k) }
{
    if number >= 1 && number <= i64::from(n) {
        Some(number as u16)
    } else {
        None
    }
}

// Whether a number is in the range of costs.
fn is_cost(number: i64) -> bool
    ensures value { result ≡ Numbers.is_cost number }
    ensures range { IsTrue result → IsCost number }
{
    number >= -GREATEST_COST && number <= GREATEST_COST
}
