//! How long bytes may stay buffered by the extended parser, by the policy of [`termwiz_input::time`].
ghost use Rattle.std.specs.Prelude.{◌≡◌};
ghost use Rattle.termwiz_input_extended.specs.ExtendedExpiry.{IsLimitOf, limit_of_waiting};

use crate::input::{ExtendedParser, ExtendedWaiting};
use termwiz_grammar::waiting::Waiting;
pub use termwiz_input::time::{Age, Limit, Policy};

// The limit of so many buffered bytes of this kind.
fn limit(policy: &Policy, waiting: ExtendedWaiting, len: usize) -> Limit
    ensures { result ≡ limit_of_waiting policy.now waiting len }
{
    match waiting {
        ExtendedWaiting::Nothing => policy.limit(Waiting::Nothing, len),
        ExtendedWaiting::Escape => policy.limit(Waiting::Escape, len),
        ExtendedWaiting::Sequence => policy.limit(Waiting::Sequence, len),
        ExtendedWaiting::Character => policy.limit(Waiting::Character, len),
        ExtendedWaiting::Paste => policy.limit(Waiting::Paste, len),
        ExtendedWaiting::String => policy.string_limit(len),
    }
}

/// The limit of what a parser has buffered, once it emitted all events.
pub fn limit_of(parser: &ExtendedParser, policy: &Policy) -> Limit
    ensures { IsLimitOf policy.now parser.now.reading parser.now.text result }
{
    limit(policy, parser.waiting(), parser.waiting_len())
}
