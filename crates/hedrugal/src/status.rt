// What the calls return, as C's `hed_status`. A call that succeeds returns `OK`.

pub(crate) const OK: u32 = 0;

pub(crate) const NONE: u32 = 1;

pub(crate) const NO_MEMORY: u32 = 2;

pub(crate) const BAD_NUMBER: u32 = 3;

pub(crate) const BUSY: u32 = 4;

pub(crate) const NOT_INITIALIZED: u32 = 5;

pub(crate) const REFUSED_KEY: u32 = 6;

pub(crate) const NO_TEXT: u32 = 7;

pub(crate) const TOO_LONG: u32 = 8;

pub(crate) const BAD_TEXT: u32 = 9;

pub(crate) const TOO_FAR: u32 = 10;

pub(crate) const AMBIGUOUS: u32 = 11;

pub(crate) const NEED_DATA: u32 = 12;

pub(crate) const FULL: u32 = 13;

pub(crate) const NAME_CONTROL_CHARACTER: u32 = 20;

pub(crate) const NAME_MODIFIER_TWICE: u32 = 21;

pub(crate) const NAME_UNKNOWN_MODIFIER: u32 = 22;

pub(crate) const NAME_MISSING_KEY: u32 = 23;

pub(crate) const NAME_BAD_NUMBER: u32 = 24;

pub(crate) const NAME_UNKNOWN_NAME: u32 = 25;

pub(crate) const NAME_AMBIGUOUS: u32 = 26;

pub(crate) const NAME_NOT_A_KEY: u32 = 27;

pub(crate) const NAME_SHIFTED_CHARACTER: u32 = 28;

pub(crate) const NAME_TOO_LONG: u32 = 29;

pub(crate) const NAME_EMPTY: u32 = 30;
