// What a reply says, as C has it.
ghost use Rattle.std.specs.Prelude.{◌≡◌};
ghost use Rattle.hedrugal.specs.Replies.{bytes_in, c_reply, name_number, numbers_of, palette_index, report_number, scheme_number, state_number};

use termwiz_extended_events::reply_types::{
    ColourName, ColourScheme, DeviceAttributes, ModeState, Reply,
};

// The kinds of replies.
const REPLY_DEVICE_ATTRIBUTES: u8 = 1;

const REPLY_MODE: u8 = 2;

const REPLY_COLOUR: u8 = 3;

const REPLY_VERSION: u8 = 4;

const REPLY_WINDOW_SIZE: u8 = 5;

const REPLY_COLOUR_SCHEME: u8 = 6;

const REPLY_CLIPBOARD: u8 = 7;

// The three reports of device attributes.
const DEVICE_ATTRIBUTES_PRIMARY: u8 = 1;

const DEVICE_ATTRIBUTES_SECONDARY: u8 = 2;

const DEVICE_ATTRIBUTES_TERTIARY: u8 = 3;

// The states of a mode.
const MODE_STATE_NOT_RECOGNIZED: u8 = 0;

const MODE_STATE_SET: u8 = 1;

const MODE_STATE_RESET: u8 = 2;

const MODE_STATE_PERMANENTLY_SET: u8 = 3;

const MODE_STATE_PERMANENTLY_RESET: u8 = 4;

// The colours that have a name.
const COLOUR_NAME_PALETTE: u8 = 4;

const COLOUR_NAME_FOREGROUND: u8 = 10;

const COLOUR_NAME_BACKGROUND: u8 = 11;

const COLOUR_NAME_CURSOR: u8 = 12;

// The colour schemes.
const COLOUR_SCHEME_DARK: u8 = 1;

const COLOUR_SCHEME_LIGHT: u8 = 2;

/// `hed_reply`: what a reply says, in numbers. What its kind has no use for is 0.
#[repr(C)]
#[derive(Clone, Copy, Default)]
pub struct CReply {
    /// 1 for device attributes, 2 for the state of a mode, 3 for a colour, 4 for a version, 5 for the size of the window, 6 for the
    /// colour scheme, and 7 for what is in the clipboard.
    pub kind: u8,
    /// Of device attributes 1, 2 or 3.
    pub report: u8,
    /// The state of a mode, from 0 to 4.
    pub state: u8,
    /// Whether the mode is a private one.
    pub is_private: bool,
    /// Which colour it is: 4, 10, 11 or 12.
    pub name: u8,
    /// The colour scheme: 1 or 2.
    pub scheme: u8,
    /// The letter or digit of the selection, or 0.
    pub selection: u8,
    /// The index of a colour of the palette.
    pub index: u16,
    /// How red the colour is.
    pub red: u16,
    /// How green it is.
    pub green: u16,
    /// How blue it is.
    pub blue: u16,
    /// The window's number of rows.
    pub rows: u16,
    /// The window's number of columns.
    pub columns: u16,
    /// The number of the mode.
    pub mode: u32,
    /// How many numbers or bytes the reply brings.
    pub len: usize,
}

// The number of a report of attributes.
#[tactic(auto, unfolding(crate::specs::Replies::report_number))]
fn report_number(report: DeviceAttributes) -> u8
    ensures { result ≡ report_number report }
{
    match report {
        DeviceAttributes::Primary => DEVICE_ATTRIBUTES_PRIMARY,
        DeviceAttributes::Secondary => DEVICE_ATTRIBUTES_SECONDARY,
        DeviceAttributes::Tertiary => DEVICE_ATTRIBUTES_TERTIARY,
    }
}

// The number of a mode's state.
#[tactic(auto, unfolding(crate::specs::Replies::state_number))]
fn state_number(state: ModeState) -> u8
    ensures { result ≡ state_number state }
{
    match state {
        ModeState::NotRecognized => MODE_STATE_NOT_RECOGNIZED,
        ModeState::Set => MODE_STATE_SET,
        ModeState::Reset => MODE_STATE_RESET,
        ModeState::PermanentlySet => MODE_STATE_PERMANENTLY_SET,
        ModeState::PermanentlyReset => MODE_STATE_PERMANENTLY_RESET,
    }
}

// The number of a colour.
#[tactic(auto, unfolding(crate::specs::Replies::name_number))]
fn name_number(name: ColourName) -> u8
    ensures { result ≡ name_number name }
{
    match name {
        ColourName::Palette(_) => COLOUR_NAME_PALETTE,
        ColourName::Foreground => COLOUR_NAME_FOREGROUND,
        ColourName::Background => COLOUR_NAME_BACKGROUND,
        ColourName::Cursor => COLOUR_NAME_CURSOR,
    }
}

// The index of a colour of the palette.
#[tactic(auto, unfolding(crate::specs::Replies::palette_index))]
fn palette_index(name: ColourName) -> u16
    ensures { result ≡ palette_index name }
{
    match name {
        ColourName::Palette(index) => index,
        _ => 0,
    }
}

// The number of a colour scheme.
#[tactic(auto, unfolding(crate::specs::Replies::scheme_number))]
fn scheme_number(scheme: ColourScheme) -> u8
    ensures { result ≡ scheme_number scheme }
{
    match scheme {
        ColourScheme::Dark => COLOUR_SCHEME_DARK,
        ColourScheme::Light => COLOUR_SCHEME_LIGHT,
    }
}

// The numbers that a reply brings.
pub(crate) fn numbers_of(reply: &Reply) -> &[u32]
    ensures { result.now ≡ numbers_of reply.now }
{
    match reply {
        Reply::DeviceAttributes { numbers, .. } => numbers.as_slice(),
        _ => &[],
    }
}

// The bytes that a reply brings.
pub(crate) fn bytes_in(reply: &Reply) -> &[u8]
    ensures { result.now ≡ bytes_in reply.now }
{
    match reply {
        Reply::Version(text) => text.as_slice(),
        Reply::Clipboard { bytes, .. } => bytes.as_slice(),
        _ => &[],
    }
}

// What a reply says, in numbers.
pub(crate) fn c_reply(reply: &Reply) -> CReply
    ensures { result ≡ c_reply reply.now }
{
    match reply {
        Reply::DeviceAttributes { report, numbers } => CReply {
            kind: REPLY_DEVICE_ATTRIBUTES,
            report: report_number(*report),
            len: numbers.as_slice().len(),
            ..CReply::default()
        },
        Reply::Mode {
            mode,
            is_private,
            state,
        } => CReply {
            kind: REPLY_MODE,
            state: state_number(*state),
            is_private: *is_private,
            mode: *mode,
            ..CReply::default()
        },
        Reply::Colour { name, colour } => CReply {
            kind: REPLY_COLOUR,
            name: name_number(*name),
            index: palette_index(*name),
            red: colour.red,
            green: colour.green,
            blue: colour.blue,
            ..CReply::default()
        },
        Reply::Version(text) => CReply {
            kind: REPLY_VERSION,
            len: text.as_slice().len(),
            ..CReply::default()
        },
        Reply::WindowSize { rows, columns } => CReply {
            kind: REPLY_WINDOW_SIZE,
            rows: *rows,
            columns: *columns,
            ..CReply::default()
        },
        Reply::ColourScheme(scheme) => CReply {
            kind: REPLY_COLOUR_SCHEME,
            scheme: scheme_number(*scheme),
            ..CReply::default()
        },
        Reply::Clipboard { selection, bytes } => CReply {
            kind: REPLY_CLIPBOARD,
            selection: selection.unwrap_or(0),
            len: bytes.as_slice().len(),
            ..CReply::default()
        },
    }
}
