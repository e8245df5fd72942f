//! From the text of a schedule to the schedule.
ghost use Rattle.std.specs.Prelude.{◌≡◌, ◌<◌, ◌≤◌, [], ◌∷◌, length, IfOk, IfSome, vec_items, MatchOption, MatchResult, ◌==◌};
ghost use Rattle.std.specs.List.{position};
ghost use Rattle.std.specs.Option.{option_map};
ghost use Rattle.schedule_text.specs.declared.reader.TheConstants.{MAX_BYTES};
ghost use Rattle.schedule_text.specs.declared.types.Fault.TheVariants.{Unfinished};
ghost use Rattle.schedule_text.specs.Reading.{pieces, digits_after, number_in, rule_line, values_line, step_of, step_line};
ghost use Rattle.schedule_text.specs.Reading.{BeginsWithStep, NoStep, ReadsSteps, Reads};
ghost use Rattle.schedule_text.specs.Judging.{ReadingLaws};

use crate::types::{Fault, ReadError, Schedule};
use catalogue::{RuleName, read_name};
use protocol::types::Step;
use stations::STATIONS;
use std::alloc::{AllocError, Global};

/// The most bytes of a text.
pub const MAX_BYTES: usize = 65536;

/// The most opening values, one for each station.
pub const MAX_VALUES: usize = STATIONS;

/// The number of the first line that has a step.
pub const FIRST_STEP: usize = 3;

// The fewest bytes of a step: a letter, a blank and a digit.
const SHORTEST_STEP: usize = 3;

// The number that decimal digits write, with any zeros before it; none at another byte, or above 65,535.
fn value_of(digits: &[u8]) -> Option<u16>
    ensures { result ≡ digits_after 0 digits.now }
{
    let mut value: u16 = 0;
    for byte in digits {
        if !byte.is_ascii_digit() {
            return None;
        }
        value = value.checked_mul(10)?.checked_add(u16::from(*byte - b'0'))?;
    }
    Some(value)
}

// The number that the digits write: 0 to 65,535 without leading zeros.
#[inline(always)]
fn number(digits: &[u8]) -> Option<u16>
    ensures { result ≡ number_in digits.now }
{
    match digits {
        [b'0'] => Some(0),
        [b'1'..=b'9', ..] => value_of(digits),
        _ => None,
    }
}

// The rule of the first line: `rule`, a blank and the rule's name; none where it is wrong.
fn rule_line(line: &[u8]) -> Option<RuleName>
    ensures { result ≡ rule_line line.now }
{
    read_name(line.strip_prefix(b"rule ")?)
}

// The values of the second line: `values` and 1 to 16 numbers, one blank before each; none where it is wrong.
fn values_line(heap: Global, line: &[u8]) -> Result<Option<Vec<u16>>, AllocError>
    ensures { IfOk result (λ values. option_map vec_items values ≡ values_line line.now) }
{
    let Some(numbers) = line.strip_prefix(b"values ") else {
        return Ok(None);
    };
    let mut values = Vec::new(heap);
    for digits in numbers.split(|byte| *byte == b' ') {
        let Some(value) = number(digits) else {
            return Ok(None);
        };
        if values.len() == MAX_VALUES {
            return Ok(None);
        }
        values.push(value)?;
    }
    Ok(Some(values))
}

// The step of a letter and a number; none for another letter.
fn step(letter: char, number: usize) -> Option<Step>
    ensures { result ≡ step_of letter number }
{
    match letter {
        's' => Some(Step::Send(number)),
        'd' => Some(Step::Deliver(number)),
        'x' => Some(Step::Drop(number)),
        'r' => Some(Step::Repeat(number)),
        't' => Some(Step::Turn(number)),
        'c' => Some(Step::Crash(number)),
        _ => None,
    }
}

// The step of a later line: a letter, a blank and a number; none where it is wrong.
fn step_line(line: &[u8]) -> Option<Step>
    ensures { result ≡ step_line line.now }
{
    let [letter, b' ', digits @ ..] = line else {
        return None;
    };
    let place = number(digits)?;
    step(char::from(*letter), usize::from(place))
}

// Where the first line ends.
fn line_end(text: &[u8]) -> Option<usize>
    ensures { result ≡ position (λ byte. byte == 10) text.now }
{
    text.iter().position(|byte| *byte == b'\n')
}

// The first line, which has the number `line`, and what stands after its end; refused where it does not end.
fn finished_line(text: &[u8], line: usize) -> Result<(&[u8], &[u8]), Fault>
    ensures cut { MatchResult result (λ x. pieces 10 text.now ≡ x.0.now ∷ pieces 10 x.1.now)
        (λ f. (f ≡ Unfinished line) × (pieces 10 text.now ≡ text.now ∷ [])) }
    ensures shorter { IfOk result (λ x. length x.1.now < length text.now) }
{
    let end = line_end(text).ok_or(Fault::Unfinished(line))?;
    Ok((&text[..end], &text[end + 1..]))
}

// The step of the line that the text begins with, and what stands after the line; none where that line writes no step or
// does not end. No line of a step ends before its fourth byte, so the end is looked for from there.
fn next_step(text: &[u8]) -> Option<(Step, &[u8])>
    ensures step { MatchOption result (NoStep text.now) (λ x. BeginsWithStep text.now x.0 x.1.now) }
    ensures shorter { IfSome result (λ x. length x.1.now < length text.now) }
{
    let end = SHORTEST_STEP + line_end(text.get(SHORTEST_STEP..)?)?;
    let step = step_line(&text[..end])?;
    Some((step, &text[end + 1..]))
}

// The steps of the lines from the third on, of which there is one at least.
fn read_steps(heap: Global, text: &[u8]) -> Result<Vec<Step>, ReadError>
    requires { length text.now ≤ MAX_BYTES }
    ensures { ReadsSteps text.now result }
{
    let mut steps = Vec::new(heap);
    let mut rest = text;
    while let Some((step, later)) = next_step(rest) {
        steps.push(step)?;
        rest = later;
    }
    if rest.is_empty() && !steps.is_empty() {
        return Ok(steps);
    }
    let number = steps.len() + FIRST_STEP;
    let _line = finished_line(rest, number)?;
    Err(ReadError::Refused(Fault::WrongStep(number)))
}

/// The schedule of a text, or its fault: too long, or else the first line that is wrong, unfinished or lacking.
#[tactic(auto, using(crate::proofs::Judged::reading_laws))]
pub fn read_schedule(heap: Global, text: &[u8]) -> Result<Schedule, ReadError>
    ensures reads { Reads text.now result }
    ensures laws { ReadingLaws }
{
    if text.len() > MAX_BYTES {
        return Err(ReadError::Refused(Fault::TooLong));
    }
    let (first, rest) = finished_line(text, 1)?;
    let rule = rule_line(first).ok_or(Fault::WrongRule)?;
    let (second, rest) = finished_line(rest, 2)?;
    let values = values_line(heap, second)?.ok_or(Fault::WrongValues)?;
    let steps = read_steps(heap, rest)?;
    Ok(Schedule {
        rule,
        values,
        steps,
    })
}
