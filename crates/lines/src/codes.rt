// Each answer as one number, for those who take plain numbers: document 01's refusals, and this house's kinds. The kinds are bare
// numbers and no enum, since they are what the C interface hands out (include/yasmirand.h); inside, an answer is a Route or a Trace.
ghost use Rattle.std.specs.Prelude.{◌≡◌};
ghost use Rattle.lines.specs.Answers.{refusal_code, coded, route_code, trace_code};

use crate::{Route, Trace};
use words::Refusal;

// What stands above the place of a refusal, above both values of an answer, and above its second value.
const REFUSALS: u64 = 1 << 48;

const KINDS: u64 = 1 << 40;

const HIGH: u64 = 1 << 32;

// The kinds of an answer to a global number.
pub(crate) const ARRIVES: u8 = 0;

pub(crate) const UNWIRED: u8 = 1;

pub(crate) const NO_OWNER: u8 = 2;

// The kinds of an answer to a core vector and a number.
const NOTHING: u8 = 0;

const LIO_INPUT: u8 = 1;

const BIO_INPUT: u8 = 2;

const LPC_CASCADE: u8 = 3;

const MSI_SLOT: u8 = 4;

// A refusal as a number.
pub fn refusal_code(refusal: Refusal) -> u64
    ensures { result ≡ refusal_code refusal }
{
    (refusal.number as u64) * REFUSALS + (refusal.place as u64)
}

// A kind and its two values as a number.
fn coded_as(kind: u8, high: u8, low: u32) -> u64
    ensures { result ≡ coded kind high low }
{
    (kind as u64) * KINDS + (high as u64) * HIGH + (low as u64)
}

// The answer to a global number as a number.
#[tactic(auto, unfolding(crate::specs::Answers::route_code, crate::specs::Answers::in_numbers))]
pub fn route_code(route: Result<Route, Refusal>) -> u64
    ensures { result ≡ route_code route }
{
    match route {
        Ok(Route::Arrives(vector, number)) => coded_as(ARRIVES, vector, number),
        Ok(Route::Unwired) => coded_as(UNWIRED, 0, 0),
        Ok(Route::NoOwner) => coded_as(NO_OWNER, 0, 0),
        Err(refusal) => refusal_code(refusal),
    }
}

// The answer to a core vector and a number as a number.
#[tactic(auto, unfolding(crate::specs::Answers::trace_code))]
pub fn trace_code(trace: Result<Trace, Refusal>) -> u64
    ensures { result ≡ trace_code trace }
{
    match trace {
        Ok(Trace::Nothing) => coded_as(NOTHING, 0, 0),
        Ok(Trace::LioInput(number)) => coded_as(LIO_INPUT, 0, number),
        Ok(Trace::BioInput(number)) => coded_as(BIO_INPUT, 0, number),
        Ok(Trace::LpcCascade(number)) => coded_as(LPC_CASCADE, 0, number),
        Ok(Trace::MsiSlot(node, slot)) => coded_as(MSI_SLOT, node, slot),
        Err(refusal) => refusal_code(refusal),
    }
}
