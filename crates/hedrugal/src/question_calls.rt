// The calls of a program that asks its terminal.
ghost use Rattle.std.specs.Prelude.{◌≡◌, ◌≢◌, ◌↔◌, ◌⊎◌, None, negsuc, true, false};
ghost use Rattle.termwiz_timed.specs.Steps.Call.{ForgetPositions};
ghost use Rattle.hedrugal.specs.Calls.{Calls};
ghost use Rattle.hedrugal.specs.Limits.{c_millis};
ghost use Rattle.hedrugal.specs.QuestionCalls.{Expects, ForgetsAndExpects, expecting};
ghost use Rattle.hedrugal.specs.Questions.{Answers, Asks, HasOthersOf, HasTooMany, IsFull, IsWithinMost, after_event, held_by, is_answer, open_at, positions_to_come, replied_to, time_left};

use crate::events::CEvent;
use crate::handles::ParserHandle;
use crate::policy::c_millis;
use crate::questions::{CQuestions, MOST, positions_to_come, time_left};
use crate::status::{BAD_NUMBER, FULL, NOT_INITIALIZED, OK};
use termwiz_timed::parser::TimedParser;

// Has a parser expect the positions of the cursor that are still to come for the questions, and no others.
fn expect_positions(parser: &mut TimedParser, questions: &CQuestions)
    requires { IsWithinMost questions.now }
    ensures { parser.new ≡ expecting parser.old (positions_to_come (held_by questions.now)) }
{
    parser.forget_positions();
    for _ in 0..positions_to_come(questions.held()) {
        parser.expect_position();
    }
}

/// Notes that the program asks its terminal now. `text` is what it writes, and `number` is set to the number of the question.
#[unsafe(no_mangle)]
pub extern "C" fn hed_questions_ask(
    questions: &mut CQuestions,
    parser: &mut ParserHandle,
    now: u64,
    milliseconds: u64,
    text: &[u8],
    number: &mut u64,
) -> u32
    ensures answers { (result ≡ OK) ⊎ ((result ≡ FULL) ⊎ ((result ≡ BAD_NUMBER) ⊎ (result ≡ NOT_INITIALIZED))) }
    ensures asked { result ≡ OK → Asks questions.old now milliseconds text.now questions.new }
    ensures number { result ≡ OK → number.new ≡ questions.new.asked }
    ensures expects { result ≡ OK → Expects parser.old.state.held (positions_to_come (held_by questions.new)) parser.new.state.held }
    ensures steps { result ≡ OK → ForgetsAndExpects parser.old.state.held (positions_to_come (held_by questions.new)) parser.new.state.held }
    ensures bad_number { result ≡ BAD_NUMBER ↔ HasTooMany questions.old }
    ensures no_parser { result ≡ NOT_INITIALIZED ↔ (IsWithinMost questions.old × (parser.old.state.held ≡ None)) }
    ensures full { result ≡ FULL → IsFull questions.old now }
    ensures room { result ≡ OK → ¬ IsFull questions.old now }
    ensures same { result ≢ OK → questions.new ≡ questions.old }
    ensures number_same { result ≢ OK → number.new ≡ number.old }
    ensures parser_same { result ≢ OK → parser.new.state ≡ parser.old.state }
{
    if questions.count as usize > MOST {
        return BAD_NUMBER;
    }
    let Some(held) = parser.get_mut() else {
        return NOT_INITIALIZED;
    };
    if !questions.ask(now, milliseconds, text) {
        return FULL;
    }
    expect_positions(&mut held.parser, questions);
    *number = questions.asked;
    OK
}

/// Notes an event of the parser, and sets `number` to that of the question to which it is a reply: the oldest, or 0 if it is none. The reply to
/// DA1 ends that question.
#[unsafe(no_mangle)]
pub extern "C" fn hed_questions_note(
    questions: &mut CQuestions,
    parser: &mut ParserHandle,
    now: u64,
    event: &CEvent,
    text: &[u8],
    number: &mut u64,
) -> u32
    ensures answers { (result ≡ OK) ⊎ ((result ≡ BAD_NUMBER) ⊎ (result ≡ NOT_INITIALIZED)) }
    ensures number { result ≡ OK → number.new ≡ replied_to (held_by questions.old) event.now.kind }
    ensures answered { result ≡ OK → is_answer questions.old event.now.kind text.now ≡ true → Answers questions.old now questions.new }
    ensures expects { result ≡ OK → is_answer questions.old event.now.kind text.now ≡ true
        → Expects parser.old.state.held (positions_to_come (held_by questions.new)) parser.new.state.held }
    ensures steps { result ≡ OK → is_answer questions.old event.now.kind text.now ≡ true
        → ForgetsAndExpects parser.old.state.held (positions_to_come (held_by questions.new)) parser.new.state.held }
    ensures held { result ≡ OK → is_answer questions.old event.now.kind text.now ≡ false
        → held_by questions.new ≡ after_event event.now.kind (held_by questions.old) }
    ensures others { result ≡ OK → is_answer questions.old event.now.kind text.now ≡ false → HasOthersOf questions.old questions.new }
    ensures parser { result ≡ OK → is_answer questions.old event.now.kind text.now ≡ false → parser.new.state ≡ parser.old.state }
    ensures within { result ≡ OK → IsWithinMost questions.new }
    ensures bad_number { result ≡ BAD_NUMBER ↔ HasTooMany questions.old }
    ensures no_parser { result ≡ NOT_INITIALIZED ↔ (IsWithinMost questions.old × (parser.old.state.held ≡ None)) }
    ensures same { result ≢ OK → questions.new ≡ questions.old }
    ensures number_same { result ≢ OK → number.new ≡ number.old }
    ensures parser_same { result ≢ OK → parser.new.state ≡ parser.old.state }
{
    if questions.count as usize > MOST {
        return BAD_NUMBER;
    }
    let Some(held) = parser.get_mut() else {
        return NOT_INITIALIZED;
    };
    *number = questions.replied_to(event.kind);
    if !questions.note(now, event.kind, text) {
        return OK;
    }
    expect_positions(&mut held.parser, questions);
    OK
}

/// Ends the questions that are overdue.
#[unsafe(no_mangle)]
pub extern "C" fn hed_questions_expire(
    questions: &mut CQuestions,
    parser: &mut ParserHandle,
    now: u64,
) -> u32
    ensures answers { (result ≡ OK) ⊎ ((result ≡ BAD_NUMBER) ⊎ (result ≡ NOT_INITIALIZED)) }
    ensures held { result ≡ OK → held_by questions.new ≡ open_at now (held_by questions.old) }
    ensures others { result ≡ OK → HasOthersOf questions.old questions.new }
    ensures within { result ≡ OK → IsWithinMost questions.new }
    ensures expects { result ≡ OK → Expects parser.old.state.held (positions_to_come (held_by questions.new)) parser.new.state.held }
    ensures steps { result ≡ OK → ForgetsAndExpects parser.old.state.held (positions_to_come (held_by questions.new)) parser.new.state.held }
    ensures bad_number { result ≡ BAD_NUMBER ↔ HasTooMany questions.old }
    ensures no_parser { result ≡ NOT_INITIALIZED ↔ (IsWithinMost questions.old × (parser.old.state.held ≡ None)) }
    ensures same { result ≢ OK → questions.new ≡ questions.old }
    ensures parser_same { result ≢ OK → parser.new.state ≡ parser.old.state }
{
    if questions.count as usize > MOST {
        return BAD_NUMBER;
    }
    let Some(held) = parser.get_mut() else {
        return NOT_INITIALIZED;
    };
    questions.expire(now);
    expect_positions(&mut held.parser, questions);
    OK
}

/// Ends all questions, also without a parser.
#[unsafe(no_mangle)]
pub extern "C" fn hed_questions_forget(questions: &mut CQuestions, parser: &mut ParserHandle)
    ensures none { questions.new.count ≡ 0 }
    ensures others { HasOthersOf questions.old questions.new }
    ensures parser { Calls parser.old.state.held ForgetPositions parser.new.state.held }
{
    questions.count = 0;
    if let Some(held) = parser.get_mut() {
        held.parser.forget_positions();
    }
}

/// How many milliseconds are left until a question is overdue: -1 if none is open, or more are counted than may be.
#[unsafe(no_mangle)]
pub extern "C" fn hed_questions_timeout(questions: &CQuestions, now: u64) -> i32
    ensures millis { IsWithinMost questions.now → result ≡ c_millis (time_left now (held_by questions.now)) }
    ensures bad_number { HasTooMany questions.now → result ≡ negsuc 0 }
{
    if questions.count as usize > MOST {
        return -1;
    }
    c_millis(time_left(questions.held(), now))
}
