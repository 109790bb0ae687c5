// The numbers of control sequences.
ghost use Rattle.std.specs.Prelude.{◌≡◌, ◌+◌, ◌-◌, ◌*◌, ◌<◌, ◌≤◌, ◌==◌, min, OnOk, IfSome, MatchOption};
ghost use Rattle.tx_terminal.specs.Numbers.{number_after, index_of};

use std::alloc::Global;
use std::marker::Model;
use tx_base::Memory;

// A number of any size, by its digits in decimal.
#[derive(Drop)]
pub(crate) struct Number {
    digits: Vec<u8>,
}

impl Model for Number {
    ghost use Rattle.std.specs.Prelude.{ℕ};
    ghost use Rattle.tx_terminal.specs.Numbers.{number_after};

    ghost Value = { ℕ };

    ghost view = { λ n. number_after 0 n.digits.items };
}

// The number with one digit more, and 65536 where it is larger.
fn next_number(number: u32, digit: u8) -> u32
    requires { number ≤ 65536 }
    ensures { result ≡ min (number * 10 + (digit - 48)) 65536 }
{
    let next = number * 10 + u32::from(digit.saturating_sub(48));
    if next < 65536 { next } else { 65536 }
}

// The number that digits spell, and 65536 where it is larger.
fn number_of(digits: &[u8]) -> u32
    ensures { result ≡ min (number_after 0 digits.now) 65536 }
{
    let mut number = 0;
    for digit in digits {
        number = next_number(number, *digit);
    }
    number
}

impl Number {
    // 0, with no digit.
    pub(crate) fn new(alloc: Global) -> Number
        ensures { result ≡ 0 }
    {
        Number {
            digits: Vec::new(alloc),
        }
    }

    // Adds a digit at the end.
    #[tactic(auto, using(crate::proofs::Emulating::one_digit_more))]
    pub(crate) fn push(&mut self, digit: u8) -> Result<(), Memory>
        ensures { OnOk result (self.new ≡ self.old * 10 + (digit - 48)) }
    {
        self.digits.push(digit)?;
        Ok(())
    }

    // The number, where it is below 65536.
    pub(crate) fn value(&self) -> Option<u32>
        ensures { MatchOption result (65536 ≤ self.now) (λ n. (n ≡ self.now) × (n < 65536)) }
    {
        let number = number_of(&self.digits);
        if number < 65536 { Some(number) } else { None }
    }

    // Whether it is this number.
    pub(crate) fn is(&self, number: u32) -> bool
        requires { number < 65536 }
        ensures { result ≡ (self.now == number) }
    {
        number_of(&self.digits) == number
    }

    // The number from 0 of a row or a column that is counted from 1; None where there are fewer.
    pub(crate) fn index(&self, most: usize) -> Option<u16>
        requires { most < 65536 }
        ensures value { result ≡ index_of self.now most }
        ensures within { IfSome result (λ n. n < most) }
    {
        let number = number_of(&self.digits);
        if 1 <= number && number as usize <= most {
            Some((number - 1) as u16)
        } else {
            None
        }
    }
}
