// The calls of a matcher.
ghost use Rattle.std.specs.Prelude.{◌≡◌, ◌≢◌, ◌↔◌, ◌⊎◌, ◌<◌, ◌≤◌, ◌*◌, ◌++◌, ◌+◌, ◌-◌, [], None, IfSome, IfNone, true, false, length, drop};
ghost use Rattle.termwiz_bindings.specs.Matchers.{outcome_copied};
ghost use Rattle.termwiz_bindings.specs.declared.press.KeyPress.{KeyPress as Pressed};
ghost use Rattle.hedrugal.specs.MatcherCalls as calls;
ghost use Rattle.hedrugal.specs.MatcherCalls.{AreHeld, AreOfEither, AreOfNeither, DecidesFirst, HasDeadEnd, HasNoDeadEnd, Holds, HoldsNone, IsFull, PressedEither, TakesFirst, Waits, WrotePending, c_outcome, front};
ghost use Rattle.hedrugal.specs.NameCalls.{AreOfNoPress};

use crate::chords::{chord_of, code_of, copy_presses};
use crate::handles::BindingsHandle;
use crate::press_calls::{CKeyPress, c_press};
use crate::status::{BAD_NUMBER, FULL, NONE, NOT_INITIALIZED, OK};
use termwiz_bindings::chord::{CODE_LEN, CODES_MOST, Chord, MAX_KEYS, are_codes, of_codes};
use termwiz_bindings::matcher::{Matcher, Outcome, first_outcome};
use termwiz_bindings::press::KeyPress;

// The kinds of outcomes.
const OUTCOME_BOUND: u32 = 1;

const OUTCOME_UNBOUND: u32 = 2;

/// `hed_matcher`: the presses that are pending, by their codes.
#[repr(C)]
#[derive(Clone, Copy)]
pub struct CMatcher {
    /// How many they are.
    pub count: usize,
    /// Their codes, and other bytes after them.
    pub codes: [u8; CODES_MOST],
}

/// `hed_outcome`: what the first of the pending presses do.
#[repr(C)]
#[derive(Clone, Copy)]
pub struct COutcome {
    /// How many presses it takes.
    pub keys: usize,
    /// The value of a chord.
    pub value: u64,
    /// The press that begins no chord.
    pub press: CKeyPress,
    /// 1 for a chord, 2 for a press that begins none.
    pub kind: u32,
}

// The codes of the presses that are pending.
fn codes_of(matcher: &CMatcher) -> Option<&[u8]>
    ensures some { IfSome result (λ bytes. AreHeld matcher.now bytes.now) }
    ensures none { IfNone result (HoldsNone matcher.now) }
{
    if matcher.count > MAX_KEYS {
        return None;
    }
    let codes = &matcher.codes[..matcher.count * CODE_LEN];
    if are_codes(codes) { Some(codes) } else { None }
}

// The matcher with the presses that have these codes.
fn matcher_of(matcher: &CMatcher) -> Option<Matcher>
    ensures some { IfSome result (λ presses. Holds matcher.now presses) }
    ensures none { IfNone result (HoldsNone matcher.now) }
{
    Some(Matcher::with_pending(of_codes(codes_of(matcher)?)))
}

// Writes the presses that are pending.
fn write_pending(pending: &Chord, matcher: &mut CMatcher)
    ensures { Holds matcher.new pending.now }
{
    let codes = pending.codes();
    matcher.codes[..codes.len()].copy_from_slice(codes);
    matcher.count = pending.len();
}

// An outcome in numbers.
fn c_outcome(outcome: Outcome<&u64>) -> COutcome
    ensures { result ≡ c_outcome (outcome_copied outcome.entry) }
{
    match outcome {
        Outcome::Bound { keys, value } => COutcome {
            keys,
            value: *value,
            press: CKeyPress::default(),
            kind: OUTCOME_BOUND,
        },
        Outcome::Unbound(press) => COutcome {
            keys: 1,
            value: 0,
            press: c_press(press),
            kind: OUTCOME_UNBOUND,
        },
    }
}

// Puts a code behind those of the presses that are pending.
fn push_code(matcher: &mut CMatcher, code: &[u8])
    requires room { matcher.old.count < MAX_KEYS }
    requires code { length code.now ≡ CODE_LEN }
    ensures count { matcher.new.count ≡ matcher.old.count + 1 }
    ensures codes { front matcher.new ≡ front matcher.old ++ code.now }
{
    let start = matcher.count * CODE_LEN;
    matcher.codes[start..start + CODE_LEN].copy_from_slice(code);
    matcher.count += 1;
}

/// Puts a press behind those that are pending, of which there are at most 32.
#[unsafe(no_mangle)]
pub extern "C" fn hed_matcher_press(matcher: &mut CMatcher, press: &CKeyPress) -> u32
    ensures answers { (result ≡ OK) ⊎ ((result ≡ FULL) ⊎ (result ≡ BAD_NUMBER)) }
    ensures pressed { result ≡ OK → calls.Pressed matcher.old press.now matcher.new }
    ensures full { result ≡ FULL → IsFull matcher.old }
    ensures bad_number { result ≡ BAD_NUMBER → HoldsNone matcher.old ⊎ AreOfNoPress press.now }
    ensures same { result ≢ OK → matcher.new ≡ matcher.old }
{
    let Some(_codes) = codes_of(matcher) else {
        return BAD_NUMBER;
    };
    let Some(code) = code_of(press) else {
        return BAD_NUMBER;
    };
    if matcher.count == MAX_KEYS {
        return FULL;
    }
    push_code(matcher, &code);
    OK
}

// The first press, and the second, if there is one.
#[tactic(auto, using(crate::proofs::PressNumbers::too_many, crate::proofs::PressNumbers::has_first))]
fn either_of(keys: &[CKeyPress]) -> Option<(KeyPress, Option<KeyPress>)>
    ensures some { IfSome result (λ either. AreOfEither keys.now either.0 either.1) }
    ensures none { IfNone result (AreOfNeither keys.now) }
{
    if keys.len() > 2 {
        return None;
    }
    let presses = chord_of(keys)?;
    Some((presses.get(0)?, presses.get(1)))
}

/// Puts the first of the presses behind those that are pending, or the second, if there is one, and only it leads on.
#[unsafe(no_mangle)]
pub extern "C" fn hed_matcher_press_either(
    matcher: &mut CMatcher,
    bindings: &mut BindingsHandle,
    keys: &[CKeyPress],
) -> u32
    ensures answers { (result ≡ OK) ⊎ ((result ≡ FULL) ⊎ ((result ≡ BAD_NUMBER) ⊎ (result ≡ NOT_INITIALIZED))) }
    ensures pressed { result ≡ OK → PressedEither bindings.old.state.held matcher.old keys.now matcher.new }
    ensures full { result ≡ FULL → IsFull matcher.old }
    ensures bad_number { result ≡ BAD_NUMBER → HoldsNone matcher.old ⊎ AreOfNeither keys.now }
    ensures no_bindings { result ≡ NOT_INITIALIZED → bindings.old.state.held ≡ None }
    ensures same { result ≢ OK → matcher.new ≡ matcher.old }
    ensures bindings_same { bindings.new.state ≡ bindings.old.state }
{
    let Some(mut pending) = matcher_of(matcher) else {
        return BAD_NUMBER;
    };
    let Some((first, second)) = either_of(keys) else {
        return BAD_NUMBER;
    };
    let Some(held) = bindings.get_mut() else {
        return NOT_INITIALIZED;
    };
    if !pending.press_either(&held.chords, first, second) {
        return FULL;
    }
    write_pending(pending.pending(), matcher);
    OK
}

// Takes codes away from the front of those of the presses that are pending, so many of them.
fn remove_first(matcher: &mut CMatcher, keys: usize)
    requires few { matcher.old.count ≤ MAX_KEYS }
    requires keys { keys ≤ matcher.old.count }
    ensures count { matcher.new.count ≡ matcher.old.count - keys }
    ensures codes { front matcher.new ≡ drop (keys * CODE_LEN) (front matcher.old) }
{
    let (start, end) = (keys * CODE_LEN, matcher.count * CODE_LEN);
    matcher.codes.copy_within(start..end, 0);
    matcher.count -= keys;
}

/// Takes what comes first of the presses that are pending, and sets `outcome` to it: a chord, or a press that begins none. There is none if nothing
/// is pending, or more may come and may make a longer chord.
#[unsafe(no_mangle)]
pub extern "C" fn hed_matcher_next(
    matcher: &mut CMatcher,
    bindings: &mut BindingsHandle,
    maybe_more: bool,
    outcome: &mut COutcome,
) -> u32
    ensures answers { (result ≡ OK) ⊎ ((result ≡ NONE) ⊎ ((result ≡ BAD_NUMBER) ⊎ (result ≡ NOT_INITIALIZED))) }
    ensures none { result ≡ NONE → Waits bindings.old.state.held maybe_more matcher.old }
    ensures outcome { result ≡ OK → TakesFirst bindings.old.state.held maybe_more matcher.old outcome.new matcher.new }
    ensures bad_number { result ≡ BAD_NUMBER ↔ HoldsNone matcher.old }
    ensures no_bindings { result ≡ NOT_INITIALIZED → bindings.old.state.held ≡ None }
    ensures same { result ≢ OK → matcher.new ≡ matcher.old }
    ensures outcome_same { result ≢ OK → outcome.new ≡ outcome.old }
    ensures bindings_same { bindings.new.state ≡ bindings.old.state }
{
    let Some(codes) = codes_of(matcher) else {
        return BAD_NUMBER;
    };
    let Some(held) = bindings.get_mut() else {
        return NOT_INITIALIZED;
    };
    let Some(first) = first_outcome(&held.chords, codes, maybe_more) else {
        return NONE;
    };
    remove_first(matcher, first.keys());
    *outcome = c_outcome(first);
    OK
}

/// Tells what giving up would decide first: the outcome of `hed_matcher_next` with no more to come. The matcher is unchanged.
#[unsafe(no_mangle)]
pub extern "C" fn hed_matcher_on_pause(
    matcher: &CMatcher,
    bindings: &mut BindingsHandle,
    outcome: &mut COutcome,
) -> u32
    ensures answers { (result ≡ OK) ⊎ ((result ≡ NONE) ⊎ ((result ≡ BAD_NUMBER) ⊎ (result ≡ NOT_INITIALIZED))) }
    ensures none { result ≡ NONE → Holds matcher.now [] }
    ensures outcome { result ≡ OK → DecidesFirst bindings.old.state.held matcher.now outcome.new }
    ensures bad_number { result ≡ BAD_NUMBER ↔ HoldsNone matcher.now }
    ensures no_bindings { result ≡ NOT_INITIALIZED → bindings.old.state.held ≡ None }
    ensures outcome_same { result ≢ OK → outcome.new ≡ outcome.old }
    ensures bindings_same { bindings.new.state ≡ bindings.old.state }
{
    let Some(pending) = matcher_of(matcher) else {
        return BAD_NUMBER;
    };
    let Some(held) = bindings.get_mut() else {
        return NOT_INITIALIZED;
    };
    let Some(next) = pending.on_pause(&held.chords) else {
        return NONE;
    };
    *outcome = c_outcome(next);
    OK
}

/// Whether more than one press is pending, no chord begins with them all, and they begin with no chord. It is false if the bytes are the
/// codes of no presses, or there are no bindings.
#[unsafe(no_mangle)]
pub extern "C" fn hed_matcher_is_dead_end(matcher: &CMatcher, bindings: &mut BindingsHandle) -> bool
    ensures dead_end { result ≡ true → HasDeadEnd bindings.old.state.held matcher.now }
    ensures otherwise { result ≡ false → (bindings.old.state.held ≡ None) ⊎ HoldsNone matcher.now ⊎ HasNoDeadEnd bindings.old.state.held matcher.now }
    ensures bindings_same { bindings.new.state ≡ bindings.old.state }
{
    let Some(pending) = matcher_of(matcher) else {
        return false;
    };
    let Some(held) = bindings.get_mut() else {
        return false;
    };
    pending.is_dead_end(&held.chords)
}

/// Copies the presses that are pending, as many as `keys` has room for, and returns how many they are. If the bytes are the codes of no
/// presses, the answer is 0 and `keys` is unchanged.
#[unsafe(no_mangle)]
pub extern "C" fn hed_matcher_pending(matcher: &CMatcher, keys: &mut [CKeyPress]) -> usize
    ensures pending { WrotePending matcher.now keys.old keys.new result }
    ensures none { HoldsNone matcher.now → result ≡ 0 }
    ensures same { HoldsNone matcher.now → keys.new ≡ keys.old }
{
    let Some(pending) = matcher_of(matcher) else {
        return 0;
    };
    copy_presses(pending.pending(), keys)
}

/// Does what `hed_matcher_pending` does, and leaves nothing pending.
#[unsafe(no_mangle)]
pub extern "C" fn hed_matcher_cancel(matcher: &mut CMatcher, keys: &mut [CKeyPress]) -> usize
    ensures pending { WrotePending matcher.old keys.old keys.new result }
    ensures none { HoldsNone matcher.old → result ≡ 0 }
    ensures same { HoldsNone matcher.old → keys.new ≡ keys.old }
    ensures empty { Holds matcher.new [] }
{
    let count = hed_matcher_pending(matcher, keys);
    matcher.count = 0;
    count
}
