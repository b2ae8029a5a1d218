//! What a terminal's replies say.
ghost use Rattle.std.specs.Prelude.{◌≡◌, ◌∷◌, [], IfOk, OnErr};
ghost use Rattle.termwiz_extended_events.specs.Numbers.{fields, first_some};
ghost use Rattle.termwiz_extended_events.specs.ReplyValues as rules;
ghost use Rattle.termwiz_extended_events.specs.ReplyValues.{NeedsMemory, mode_of_fields, reply_of, state_at};
ghost use Rattle.termwiz_extended_events.specs.SpelledReplies.{IsSpelledClipboard};

use crate::attributes::{
    primary_attributes, reply_number, secondary_attributes, tertiary_attributes,
};
use crate::base64::{decoded, is_base64};
use crate::colours::colour;
use crate::fields::{Fields, after_start, before_end};
use crate::numbers::{number, short_number};
use crate::reply_types::{ColourScheme, ModeState, Reply};
use crate::types::{Event, SequenceBytes};
use std::alloc::{AllocError, Global};

// The state of a mode by its number.
fn state_at(number: u32) -> ModeState
    ensures { result ≡ state_at number }
{
    match number {
        0 => ModeState::NotRecognized,
        1 => ModeState::Set,
        2 => ModeState::Reset,
        3 => ModeState::PermanentlySet,
        _ => ModeState::PermanentlyReset,
    }
}

// mode ; state.
fn mode(body: &[u8], is_private: bool) -> Option<Reply>
    ensures { result ≡ mode_of_fields is_private (fields body.now) }
{
    let mut fields = Fields::new(body, b';');
    let mode = reply_number(fields.next()?)?;
    let state = number(fields.next()?, 0, 4)?;
    match fields.next() {
        Some(_) => None,
        None => Some(Reply::Mode {
            mode,
            is_private,
            state: state_at(state),
        }),
    }
}

// mode ; state $ y, with a question mark in front for a private mode: the state of a mode.
#[tactic(auto, unfolding(crate::specs::ReplyValues::mode_report))]
fn mode_report(t: &[u8]) -> Option<Reply>
    ensures { result ≡ rules.mode_report t.now }
{
    let body = before_end(t, b"$y")?;
    match after_start(body, b"?") {
        Some(marked) => mode(marked, true),
        None => mode(body, false),
    }
}

// 8 ; rows ; columns t: the size of the window in characters.
#[tactic(auto, unfolding(crate::specs::ReplyValues::window_size))]
fn window_size(t: &[u8]) -> Option<Reply>
    ensures { result ≡ rules.window_size t.now }
{
    let mut fields = Fields::new(before_end(t, b"t")?, b';');
    if fields.next()? != b"8".as_slice() {
        return None;
    }
    let rows = short_number(fields.next()?)?;
    let columns = short_number(fields.next()?)?;
    match fields.next() {
        Some(_) => None,
        None => Some(Reply::WindowSize { rows, columns }),
    }
}

// ? 997 ; 1 n: the colour scheme is dark. With 2 it is light.
#[tactic(auto, unfolding(crate::specs::ReplyValues::colour_scheme))]
fn colour_scheme(t: &[u8]) -> Option<Reply>
    ensures { result ≡ rules.colour_scheme t.now }
{
    if t == b"?997;1n".as_slice() {
        Some(Reply::ColourScheme(ColourScheme::Dark))
    } else if t == b"?997;2n".as_slice() {
        Some(Reply::ColourScheme(ColourScheme::Light))
    } else {
        None
    }
}

// The replies behind ESC [ that hold no memory, by the first rule that fits.
fn short_reply(t: &[u8]) -> Option<Reply>
    ensures { result ≡ first_some (rules.mode_report t.now ∷ rules.window_size t.now ∷ rules.colour_scheme t.now ∷ []) }
{
    mode_report(t)
        .or_else(|| window_size(t))
        .or_else(|| colour_scheme(t))
}

/// Returns what a control sequence says as a reply, if it is one: of its bytes after ESC `[`, by the first rule that fits.
#[tactic(auto, unfolding(crate::specs::ReplyValues::csi_reply))]
pub fn csi_reply(alloc: Global, t: &[u8]) -> Result<Option<Reply>, AllocError>
    ensures ok { IfOk result (λ reply. reply ≡ rules.csi_reply t.now) }
    ensures refused { OnErr result (NeedsMemory (rules.csi_reply t.now)) }
{
    if let Some(reply) = short_reply(t) {
        return Ok(Some(reply));
    }
    if let Some(reply) = primary_attributes(alloc, t)? {
        return Ok(Some(reply));
    }
    secondary_attributes(alloc, t)
}

// > | and the name and version of the terminal.
#[tactic(auto, unfolding(crate::specs::ReplyValues::version))]
fn version(alloc: Global, t: &[u8]) -> Result<Option<Reply>, AllocError>
    ensures ok { IfOk result (λ reply. reply ≡ rules.version t.now) }
    ensures refused { OnErr result (NeedsMemory (rules.version t.now)) }
{
    let Some(text) = after_start(t, b">|") else {
        return Ok(None);
    };
    let text = SequenceBytes::new(text.to_vec(alloc)?);
    Ok(Some(Reply::Version(text)))
}

/// Returns what a device control string says as a reply, if it is one: of its bytes after ESC `P`, without its end.
#[tactic(auto, unfolding(crate::specs::ReplyValues::dcs_reply))]
pub fn dcs_reply(alloc: Global, t: &[u8]) -> Result<Option<Reply>, AllocError>
    ensures ok { IfOk result (λ reply. reply ≡ rules.dcs_reply t.now) }
    ensures refused { OnErr result (NeedsMemory (rules.dcs_reply t.now)) }
{
    if let Some(reply) = version(alloc, t)? {
        return Ok(Some(reply));
    }
    tertiary_attributes(alloc, t)
}

// One selection, or none.
#[tactic(auto, unfolding(crate::specs::ReplyValues::selection_of))]
fn selection_of(field: &[u8]) -> Option<Option<u8>>
    ensures { result ≡ rules.selection_of field.now }
{
    match field {
        [] => Some(None),
        [b] => match b {
            b'c' | b'p' | b'q' | b's' | b'0'..=b'7' => Some(Some(*b)),
            _ => None,
        },
        _ => None,
    }
}

// What a selection holds, still in base64.
#[derive(Clone, Copy)]
struct SpelledClipboard<'t> {
    selection: Option<u8>,
    text: &'t [u8],
}

// 52 ; selection ; base64: what is in the clipboard or in a selection.
#[tactic(auto, unfolding(crate::specs::ReplyValues::clipboard))]
fn spelled_clipboard(t: &[u8]) -> Option<SpelledClipboard<'_>>
    ensures { IsSpelledClipboard result (rules.clipboard t.now) }
{
    let mut fields = Fields::new(t, b';');
    if fields.next()? != b"52".as_slice() {
        return None;
    }
    let selection = selection_of(fields.next()?)?;
    let text = fields.next()?;
    if fields.next().is_some() || !is_base64(text) {
        return None;
    }
    Some(SpelledClipboard { selection, text })
}

// The same with its bytes.
fn clipboard(alloc: Global, t: &[u8]) -> Result<Option<Reply>, AllocError>
    ensures ok { IfOk result (λ reply. reply ≡ rules.clipboard t.now) }
    ensures refused { OnErr result (NeedsMemory (rules.clipboard t.now)) }
{
    let Some(spelled) = spelled_clipboard(t) else {
        return Ok(None);
    };
    Ok(Some(Reply::Clipboard {
        selection: spelled.selection,
        bytes: SequenceBytes::new(decoded(alloc, spelled.text)?),
    }))
}

/// Returns what an operating system command says as a reply, if it is one: of its bytes after ESC `]`, without its end.
#[tactic(auto, unfolding(crate::specs::ReplyValues::osc_reply))]
pub fn osc_reply(alloc: Global, t: &[u8]) -> Result<Option<Reply>, AllocError>
    ensures ok { IfOk result (λ reply. reply ≡ rules.osc_reply t.now) }
    ensures refused { OnErr result (NeedsMemory (rules.osc_reply t.now)) }
{
    if let Some(reply) = colour(t) {
        return Ok(Some(reply));
    }
    clipboard(alloc, t)
}

impl Event {
    /// Returns the values of a reply, if the event is a control sequence or a string that one of these rules reads. Other events, parts of
    /// strings and strings that were cut off have none. Only a list, a text and bytes take memory, so only device attributes, versions
    /// and clipboards can fail.
    pub fn reply(&self, alloc: Global) -> Result<Option<Reply>, AllocError>
        ensures ok { IfOk result (λ reply. reply ≡ reply_of self.now) }
        ensures refused { OnErr result (NeedsMemory (reply_of self.now)) }
    {
        match self {
            Event::Csi(bytes) => csi_reply(alloc, bytes.as_slice()),
            Event::Osc(bytes) => osc_reply(alloc, bytes.as_slice()),
            Event::Dcs(bytes) => dcs_reply(alloc, bytes.as_slice()),
            _ => Ok(None),
        }
    }
}
