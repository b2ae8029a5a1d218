// The questions that a program has asked its terminal.
ghost use Rattle.std.specs.Prelude.{◌≡◌, ◌↔◌, ◌<◌, ◌≤◌, [], ◌∷◌, ◌++◌, length, take, true, false};
ghost use Rattle.std.specs.List.{list_all};
ghost use Rattle.hedrugal.specs.Questions.{Answers, Asks, HasOthersOf, IsFull, IsWithinMost, after_event, after_position, held_by, is_answer, is_da1_reply, is_of_numbers, is_reply_kind, open_at, positions_asked, positions_to_come, replied_to, time_left};

use crate::events::{
    KIND_APC, KIND_CSI, KIND_CURSOR_POSITION, KIND_DCS, KIND_KEYBOARD_FLAGS, KIND_OSC,
    KIND_STRING_CUT, KIND_STRING_PART,
};

/// The most questions that are open at once.
pub(crate) const MOST: usize = 16;

// What asks for the position of the cursor.
const POSITION_QUESTION: &[u8] = b"\x1b[6n";

// How many milliseconds a question is open at least: some terminals never answer.
const LEAST_MILLIS: u64 = 2000;

/// `hed_question`: a question that is open.
#[repr(C)]
#[derive(Clone, Copy)]
pub struct CQuestion {
    /// Its number.
    pub number: u64,
    /// When it was asked.
    pub asked: u64,
    /// From when on it is overdue.
    pub until: u64,
    /// How many positions of the cursor are still to come for it.
    pub positions: u32,
}

/// `hed_questions`: the questions that a program has asked its terminal.
#[repr(C)]
#[derive(Clone, Copy)]
pub struct CQuestions {
    /// The number of the question that was asked last.
    pub asked: u64,
    /// The number of the question that was answered last.
    pub answered: u64,
    /// How many milliseconds the slowest answer took.
    pub slowest: u64,
    /// How many questions are open.
    pub count: u32,
    /// These, the oldest first, and others after them.
    pub open: [CQuestion; MOST],
}

// How many positions of the cursor a text asks for.
fn positions_asked(text: &[u8]) -> u32
    ensures { result ≡ positions_asked text.now }
{
    let mut count: usize = 0;
    for i in 0..text.len() {
        if text[i..].starts_with(POSITION_QUESTION) {
            count += 1;
        }
    }
    u32::try_from(count).unwrap_or(u32::MAX)
}

// How many positions are still to come for the questions, up to 255.
pub(crate) fn positions_to_come(questions: &[CQuestion]) -> u8
    requires { length questions.now ≤ MOST }
    ensures { result ≡ positions_to_come questions.now }
{
    let sum: u64 = questions
        .iter()
        .map(|question| u64::from(question.positions))
        .sum();
    sum.min(255) as u8
}

// Keeps those that aren't overdue, in their order, at the front, and returns how many they are.
fn keep_open(questions: &mut [CQuestion], now: u64) -> usize
    ensures kept { take result questions.new ≡ open_at now questions.old }
    ensures count { result ≤ length questions.old }
{
    let mut kept = 0;
    for i in 0..questions.len() {
        let question = questions[i];
        if now < question.until {
            questions[kept] = question;
            kept += 1;
        }
    }
    kept
}

// A position came: the oldest question with positions to come has one less.
fn note_position(questions: &mut [CQuestion])
    ensures { questions.new ≡ after_position questions.old }
{
    for i in 0..questions.len() {
        if questions[i].positions > 0 {
            questions[i].positions -= 1;
            return;
        }
    }
}

// How many milliseconds are left until the first of them is overdue.
pub(crate) fn time_left(questions: &[CQuestion], now: u64) -> Option<u64>
    ensures { result ≡ time_left now questions.now }
{
    questions
        .iter()
        .map(|question| question.until.saturating_sub(now))
        .min()
}

// Whether an event of this kind is a reply.
fn is_reply_kind(kind: u8) -> bool
    ensures { result ≡ is_reply_kind kind }
{
    matches!(
        kind,
        KIND_CURSOR_POSITION
            | KIND_KEYBOARD_FLAGS
            | KIND_CSI
            | KIND_OSC
            | KIND_DCS
            | KIND_APC
            | KIND_STRING_PART
            | KIND_STRING_CUT
    )
}

// Whether each is a digit or a semicolon.
fn are_numbers(bytes: &[u8]) -> bool
    ensures { result ≡ list_all is_of_numbers bytes.now }
{
    bytes
        .iter()
        .all(|byte| byte.is_ascii_digit() || *byte == b';')
}

// Whether this is what the reply to DA1 brings.
fn is_da1_reply(bytes: &[u8]) -> bool
    ensures { result ≡ is_da1_reply bytes.now }
{
    matches!(bytes, [b'?', digit, .., b'c'] if digit.is_ascii_digit())
        && are_numbers(&bytes[1..bytes.len() - 1])
}

impl CQuestions {
    // Those that are held.
    pub(crate) fn held(&self) -> &[CQuestion]
        requires { IsWithinMost self.now }
        ensures questions { result.now ≡ held_by self.now }
        ensures few { length result.now ≤ MOST }
    {
        &self.open[..self.count as usize]
    }

    // Ends those that are overdue.
    pub(crate) fn expire(&mut self, now: u64)
        requires { IsWithinMost self.old }
        ensures held { held_by self.new ≡ open_at now (held_by self.old) }
        ensures count { self.new.count ≡ length (open_at now (held_by self.old)) }
        ensures few { IsWithinMost self.new }
        ensures others { HasOthersOf self.old self.new }
    {
        let held = &mut self.open[..self.count as usize];
        self.count = keep_open(held, now) as u32;
    }

    // Puts a question behind those that are held.
    #[tactic(auto, using(crate::proofs::QuestionLists::one_more_held))]
    fn push(&mut self, question: CQuestion)
        requires { self.old.count < MOST }
        ensures held { held_by self.new ≡ held_by self.old ++ question ∷ [] }
        ensures few { IsWithinMost self.new }
        ensures others { HasOthersOf self.old self.new }
    {
        self.open[self.count as usize] = question;
        self.count += 1;
    }

    // Asks a question now, unless as many are open as may be, or there is no further number.
    pub(crate) fn ask(&mut self, now: u64, milliseconds: u64, text: &[u8]) -> bool
        requires { IsWithinMost self.old }
        ensures asked { result ≡ true → Asks self.old now milliseconds text.now self.new }
        ensures full { (result ≡ false) ↔ IsFull self.old now }
        ensures same { result ≡ false → self.new ≡ self.old }
    {
        let mut left = *self;
        left.expire(now);
        if left.count as usize >= MOST || left.asked == u64::MAX {
            return false;
        }
        left.asked += 1;
        let question = CQuestion {
            number: left.asked,
            asked: now,
            until: now.saturating_add(milliseconds.max(LEAST_MILLIS)),
            positions: positions_asked(text),
        };
        left.push(question);
        *self = left;
        true
    }

    // Which question an event of this kind is a reply to, or 0.
    pub(crate) fn replied_to(&self, kind: u8) -> u64
        requires { IsWithinMost self.now }
        ensures { result ≡ replied_to (held_by self.now) kind }
    {
        match self.held() {
            [oldest, ..] if is_reply_kind(kind) => oldest.number,
            _ => 0,
        }
    }

    // The oldest is answered now: it isn't open any more.
    fn end_oldest(&mut self, now: u64)
        requires some { 0 < self.old.count }
        requires few { IsWithinMost self.old }
        ensures { Answers self.old now self.new }
    {
        let oldest = self.open[0];
        self.answered = oldest.number;
        self.slowest = self.slowest.max(now.saturating_sub(oldest.asked));
        self.open[..self.count as usize].rotate_left(1);
        self.count -= 1;
    }

    // Notes an event now. The answer is whether it answers a question.
    pub(crate) fn note(&mut self, now: u64, kind: u8, bytes: &[u8]) -> bool
        requires { IsWithinMost self.old }
        ensures answer { result ≡ is_answer self.old kind bytes.now }
        ensures answers { result ≡ true → Answers self.old now self.new }
        ensures held { result ≡ false → held_by self.new ≡ after_event kind (held_by self.old) }
        ensures others { result ≡ false → HasOthersOf self.old self.new }
        ensures few { IsWithinMost self.new }
    {
        if kind == KIND_CURSOR_POSITION {
            note_position(&mut self.open[..self.count as usize]);
            return false;
        }
        if self.count == 0 || kind != KIND_CSI || !is_da1_reply(bytes) {
            return false;
        }
        self.end_oldest(now);
        true
    }
}
