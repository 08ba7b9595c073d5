// Words of the text: whether a word is the one that is spelled so, and the number that it has to be.
ghost use Rattle.std.specs.Prelude.{◌≡◌};
ghost use Rattle.script.specs.Number.{as_number};
ghost use Rattle.drafting.specs.Draft.{number_from, same_bytes, said, is_value, is_from1_to};
ghost use Rattle.drafting.specs.Expected.{expected_number};
ghost use Rattle.drafting.specs.Held.{Numbered};

use crate::Expected;

#[tactic(auto, using(crate::proofs::Letters::pointwise_same))]
pub(crate) fn is(word: &[u8], text: &[u8]) -> bool
    ensures { result ≡ same_bytes word.now text.now }
{
    word == text
}

#[tactic(auto, using(crate::proofs::Letters::number_on), unfolding(crate::specs::Draft::number_from))]
fn number(word: &[u8]) -> Option<u32>
    ensures { result ≡ as_number (number_from 0 word.now) }
{
    let mut number = Some(0);
    for b in word {
        number = script::number_more(number, *b);
    }
    number
}

pub(crate) fn value(word: &[u8]) -> Result<u32, Expected>
    ensures { Numbered result (is_value (said word.now)) (number_from 0 word.now) 2 }
{
    number(word).ok_or(Expected::Value)
}

// A number from 1 to most.
pub(crate) fn from1_to(most: u32, word: &[u8], expected: Expected) -> Result<u32, Expected>
    ensures { Numbered result (is_from1_to most (said word.now)) (number_from 0 word.now) (expected_number expected) }
{
    match number(word) {
        Some(x) if 0 < x && x <= most => Ok(x),
        _ => Err(expected),
    }
}
