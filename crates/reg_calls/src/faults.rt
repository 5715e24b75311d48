// Refusals of messages that ask nothing of the service.
ghost use Rattle.std.specs.Prelude.{◌≡◌};
ghost use Rattle.reg_calls.specs.Faults.{no_route, no_method, no_caller_header, refusal_of};

use reg_http::HeadFault;
use reg_terms::{MAX_LINE, Refusal};

/// The path has no route.
pub fn no_route() -> Refusal
    ensures { result ≡ no_route }
{
    Refusal::NoRoute
}

/// The route has another method.
pub fn no_method() -> Refusal
    ensures { result ≡ no_method }
{
    Refusal::NoMethod
}

/// Not exactly one caller is named.
pub fn no_caller_header() -> Refusal
    ensures { result ≡ no_caller_header }
{
    Refusal::NoCallerHeader
}

/// Why a head isn't taken, as a refusal.
pub fn refusal_of(fault: HeadFault) -> Refusal
    ensures { result ≡ refusal_of fault }
{
    match fault {
        HeadFault::HeadTooLong => Refusal::HeadTooLong,
        HeadFault::BadHead => Refusal::BadHead,
        HeadFault::Coding => Refusal::Coding,
        HeadFault::TooLong => Refusal::TooLong {
            limit: MAX_LINE as u64,
        },
        HeadFault::NoLength => Refusal::NoLength,
    }
}
