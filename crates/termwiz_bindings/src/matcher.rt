//! What presses do: a matcher reads them one after another, and gives what the chords of some bindings make of them.
ghost use Rattle.std.specs.Prelude.{◌≡◌, ◌↔◌, ◌<◌, ◌++◌, List, [], ◌∷◌, false, length, IsTrue, IfNone, IfSome, MatchOption, if◌then◌else◌};
ghost use Rattle.termwiz_bindings.specs.Bindings.{find};
ghost use Rattle.termwiz_bindings.specs.Chords.{AreCodes};
ghost use Rattle.termwiz_bindings.specs.Codes.{IsPress, presses_with};
ghost use Rattle.termwiz_bindings.specs.declared.press.KeyPress.{KeyPress};
ghost use Rattle.termwiz_bindings.specs.Matching.{IsChordMap, IsContinued, IsPending, Steps};
ghost use Rattle.termwiz_bindings.specs.Matchers.{DecidesFirst, IsDeadEnd, IsFirst, IsPreferred, IsTaken, LeadsOn, first_unbound, keys_of, outcome_copied};

use crate::bindings::Bindings;
use crate::chord::{CODE_LEN, Chord, MAX_KEYS, press_with};
use crate::press::KeyPress;
use std::fmt::Debug;
use std::marker::Model;
use termwiz_keymap::keymap::Found;

/// What the first presses of a list do.
#[derive(Clone, Copy, PartialEq, Eq, Debug)]
pub enum Outcome<V> {
    /// A chord was pressed.
    Bound {
        /// How many presses the chord has.
        keys: usize,

        /// The value that it is bound to.
        value: V,
    },

    /// This press begins no chord that was pressed.
    Unbound(KeyPress),
}

impl<V> Outcome<V> {
    /// How many presses it takes.
    pub fn keys(&self) -> usize
        ensures { result ≡ keys_of self.now }
    {
        match self {
            Outcome::Bound { keys, .. } => *keys,
            Outcome::Unbound(_) => 1,
        }
    }
}

/// Reads presses as chords and as single keys. It holds the presses that aren't decided yet, and nothing else.
///
/// The bindings are passed to each call. So a program may keep several, as for its modes, and change them at any time: what is
/// pending is read by those of the call.
///
/// A program gives each press to [`Matcher::press`], and then calls [`Matcher::next`] until it returns `None`. If presses stay
/// pending and no key comes for a while, it may give up: it calls `next` with no more to come, until that returns `None`.
#[derive(Drop)]
pub struct Matcher {
    pending: Chord,
}

impl Model for Matcher {
    ghost use Rattle.std.specs.Prelude.{List};
    ghost use Rattle.termwiz_bindings.specs.declared.press.KeyPress.{KeyPress};

    ghost Value = { List KeyPress };

    ghost view = { λ m. m.pending };
}

// What some presses do under bindings.
#[derive(Clone, Copy)]
struct Front<'a, V> {
    // The outcome of what comes first of them, if no more come; `None` if there are none.
    outcome: Option<Outcome<&'a V>>,

    // Whether some chord is longer than the presses, and begins with them.
    goes_on: bool,
}

// The first of the presses with these codes, as one that begins no chord; `None` if there are none.
fn first_unbound<'a, V>(codes: &[u8]) -> Option<Outcome<&'a V>>
    requires { AreCodes codes.now }
    ensures { result ≡ first_unbound (presses_with codes.now) }
{
    if codes.len() < CODE_LEN {
        return None;
    }
    Some(Outcome::Unbound(press_with(&codes[..CODE_LEN])?))
}

// Looks presses up in bindings, by their codes.
#[tactic(auto, using(crate::proofs::lemmas::BindingChords::are_chords, crate::proofs::lemmas::MatcherSteps::chord_first, crate::proofs::lemmas::MatcherSteps::press_first))]
fn front_of_codes<'a, V: Debug + Clone + Drop>(
    bindings: &'a Bindings<V>,
    codes: &[u8],
) -> Front<'a, V>
    requires { AreCodes codes.now }
    ensures outcome { DecidesFirst (find bindings.now) (presses_with codes.now) result.outcome }
    ensures goes_on { IsTrue result.goes_on ↔ IsContinued (find bindings.now) (presses_with codes.now) }
    ensures chords { IsChordMap (find bindings.now) }
{
    match bindings.find_codes(codes, true) {
        Found::Ambiguous(keys, value) => Front {
            outcome: Some(Outcome::Bound { keys, value }),
            goes_on: true,
        },
        Found::Exact(keys, value) => Front {
            outcome: Some(Outcome::Bound { keys, value }),
            goes_on: false,
        },
        Found::NeedData => Front {
            outcome: first_unbound(codes),
            goes_on: true,
        },
        Found::None => Front {
            outcome: first_unbound(codes),
            goes_on: false,
        },
    }
}

// Looks presses up in bindings.
fn front_of<'a, V: Debug + Clone + Drop>(bindings: &'a Bindings<V>, presses: &Chord) -> Front<'a, V>
    ensures outcome { DecidesFirst (find bindings.now) presses.now result.outcome }
    ensures goes_on { IsTrue result.goes_on ↔ IsContinued (find bindings.now) presses.now }
    ensures chords { IsChordMap (find bindings.now) }
{
    front_of_codes(bindings, presses.codes())
}

/// What comes first of the presses with these codes: the longest chord that they begin with, or else the first press. `None` if there are
/// none, or if more may come and they may yet become a longer chord. So [`Matcher::next`] decides what is pending.
#[tactic(auto, using(crate::proofs::lemmas::MatcherSteps::decided_within, crate::proofs::lemmas::MatcherSteps::last_step, crate::proofs::lemmas::MatcherSteps::ended_step))]
pub fn first_outcome<'a, V: Debug + Clone + Drop>(
    bindings: &'a Bindings<V>,
    codes: &[u8],
    maybe_more: bool,
) -> Option<Outcome<&'a V>>
    requires { AreCodes codes.now }
    ensures { IsFirst (find bindings.now) maybe_more (presses_with codes.now) result }
{
    let front = front_of_codes(bindings, codes);
    if maybe_more && front.goes_on {
        return None;
    }
    let outcome = front.outcome?;
    Some(outcome)
}

// Whether some chord begins with these presses and this one.
fn leads_on<V: Debug + Clone + Drop>(
    bindings: &Bindings<V>,
    presses: &Chord,
    press: KeyPress,
) -> bool
    requires { IsPress press }
    ensures { IsTrue result ↔ LeadsOn (find bindings.now) presses.now press }
{
    if !front_of(bindings, presses).goes_on {
        return false;
    }
    let mut longer = *presses;
    if !longer.push(press) {
        return false;
    }
    let front = front_of(bindings, &longer);
    let is_chord = match front.outcome {
        Some(Outcome::Bound { keys, .. }) => keys == longer.len(),
        _ => false,
    };
    front.goes_on || is_chord
}

// The one of two presses that leads on after others: the first, if both do.
fn preferred<V: Debug + Clone + Drop>(
    bindings: &Bindings<V>,
    presses: &Chord,
    first: KeyPress,
    second: KeyPress,
) -> Option<KeyPress>
    requires first { IsPress first }
    requires second { IsPress second }
    ensures { IsPreferred (find bindings.now) presses.now first second result }
{
    if leads_on(bindings, presses, first) {
        Some(first)
    } else if leads_on(bindings, presses, second) {
        Some(second)
    } else {
        None
    }
}

impl Matcher {
    /// A matcher with nothing pending.
    pub fn new() -> Matcher
        ensures { result ≡ [] }
    {
        Matcher {
            pending: Chord::new(),
        }
    }

    /// A matcher with these presses pending.
    pub fn with_pending(pending: Chord) -> Matcher
        ensures { result ≡ pending }
    {
        Matcher { pending }
    }

    /// Puts a press behind those that are pending. Returns false, and changes nothing, if [`MAX_KEYS`] are pending: that isn't so
    /// after [`Matcher::next`] returned `None`.
    pub fn press(&mut self, press: KeyPress) -> bool
        requires { IsPress press }
        ensures pressed { IsTrue result ↔ (length self.old < MAX_KEYS) }
        ensures presses { self.new ≡ (if result then self.old ++ press ∷ [] else self.old) }
    {
        self.pending.push(press)
    }

    /// Takes what comes first of the presses that are pending: the longest chord that they begin with, or else the first press.
    /// Its outcome is returned.
    ///
    /// Returns `None` if nothing is pending, or if more may come and the presses may yet become a longer chord. With no more to
    /// come it decides all: a program gives up by calling it so until it returns `None`.
    pub fn next<'a, V: Debug + Clone + Drop>(
        &mut self,
        bindings: &'a Bindings<V>,
        maybe_more: bool,
    ) -> Option<Outcome<&'a V>>
        ensures outcome { MatchOption result (IsPending (find bindings.now) maybe_more self.old)
            (λ outcome. Steps (find bindings.now) maybe_more self.old (outcome_copied outcome ∷ []) self.new) }
        ensures unchanged { IfNone result (self.new ≡ self.old) }
        ensures room { IfNone result (length self.new < MAX_KEYS) }
    {
        let outcome = first_outcome(bindings, self.pending.codes(), maybe_more)?;
        self.pending.remove_first(outcome.keys());
        Some(outcome)
    }

    /// What giving up would decide first: the outcome that [`Matcher::next`] returns with no more to come. It takes nothing.
    /// `None` is for nothing pending.
    ///
    /// While that is unbound, a program may prefer to wait for ever: the press may still begin a chord.
    #[tactic(auto, using(crate::proofs::lemmas::MatcherSteps::given_up_first))]
    pub fn on_pause<'a, V: Debug + Clone + Drop>(
        &self,
        bindings: &'a Bindings<V>,
    ) -> Option<Outcome<&'a V>>
        ensures { MatchOption result (self.now ≡ [])
            (λ outcome. (left : List KeyPress) × Steps (find bindings.now) false self.now (outcome_copied outcome ∷ []) left) }
    {
        front_of(bindings, &self.pending).outcome
    }

    /// Whether more than one press is pending, no chord begins with them all, and they begin with no chord. A program that takes
    /// such presses as one mistake asks this after each press, and calls [`Matcher::cancel`].
    pub fn is_dead_end<V: Debug + Clone + Drop>(&self, bindings: &Bindings<V>) -> bool
        ensures { IsTrue result ↔ IsDeadEnd (find bindings.now) self.now }
    {
        let front = front_of(bindings, &self.pending);
        self.pending.len() > 1
            && !front.goes_on
            && matches!(front.outcome, Some(Outcome::Unbound(_)))
    }

    // The one of two presses that is to be pressed.
    fn taken<V: Debug + Clone + Drop>(
        &self,
        bindings: &Bindings<V>,
        first: KeyPress,
        second: Option<KeyPress>,
    ) -> KeyPress
        requires first { IsPress first }
        requires second { IfSome second IsPress }
        ensures { IsTaken (find bindings.now) self.now first second result }
    {
        let Some(second) = second else {
            return first;
        };
        if let Some(press) = preferred(bindings, &self.pending, first, second) {
            return press;
        }
        preferred(bindings, &Chord::new(), first, second).unwrap_or(first)
    }

    /// Puts one of two presses behind those that are pending: the second if only that leads on, and else the first. A press leads
    /// on if some chord begins with what is pending and it. If neither does, the same is asked as if nothing were pending.
    ///
    /// The second press of a report is [`KeyPress::second`]. So Ctrl with a Cyrillic letter runs the command of the Latin letter
    /// at its place, unless it has one of its own. Returns false, and changes nothing, if [`MAX_KEYS`] are pending.
    pub fn press_either<V: Debug + Clone + Drop>(
        &mut self,
        bindings: &Bindings<V>,
        first: KeyPress,
        second: Option<KeyPress>,
    ) -> bool
        requires first { IsPress first }
        requires second { IfSome second IsPress }
        ensures pressed { IsTrue result ↔ (length self.old < MAX_KEYS) }
        ensures presses { (press : KeyPress) × IsTaken (find bindings.now) self.old first second press
            × (self.new ≡ (if result then self.old ++ press ∷ [] else self.old)) }
    {
        let press = self.taken(bindings, first, second);
        self.press(press)
    }

    /// The presses that are pending, in the order in which they were pressed.
    pub fn pending(&self) -> &Chord
        ensures { result.now ≡ self.now }
    {
        &self.pending
    }

    /// Returns what is pending, and leaves nothing.
    pub fn cancel(&mut self) -> Chord
        ensures presses { result ≡ self.old }
        ensures empty { self.new ≡ [] }
    {
        let pending = self.pending;
        self.pending = Chord::new();
        pending
    }
}
