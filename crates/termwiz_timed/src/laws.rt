//! The laws of whole runs of a timed parser, each the contract of a function without effect.
//!
//! A run is a list of calls with their answers, from a new parser: each of them is a step, as the parser's own contracts say. A refused call
//! changes nothing. The laws hold for each dialect, reading, policy and limit of parts, and for each clock, also one that steps back.
ghost use Rattle.termwiz_timed.specs.RunLaws.{Bounded, Exact, FlushHasBytes, NoPauseMatters, OnTime, OneAnswer, PasteIsInert, TimeoutIsRight};
ghost use Rattle.termwiz_timed.specs.WorkedRuns.{AreRuns, WorkedRuns};

/// A segment of a run is a list of reads: each feed is a read of its bytes with more to come; each idle call that was due, each flush and each
/// end is a read of no bytes with no more to come, and, but for a flush, of END if a paste is open. First what was buffered is read, as a flush
/// that began reads it. Nothing is set in a segment. Once all is told, the events told and what is buffered are those of these reads in turn,
/// and of nothing else. The parts of a paste stand before its text.
pub fn exact()
    ensures { Exact }
{}

/// What is buffered is due exactly if all is told and its limit has passed: by the clock's steps forward, from call to call, since bytes last came
/// or the parser was interrupted (an Escape, a paste), or since its first byte came to the front (all else). A paste or a string that was open
/// when the parser was interrupted is due, too, once a second passed since then without a byte.
pub fn on_time()
    ensures { OnTime }
{}

/// What [`TimedParser::timeout`](crate::parser::TimedParser::timeout) answers at a time that isn't before the last call is right. If it is d and
/// the next call is [`TimedParser::idle`](crate::parser::TimedParser::idle), what is buffered is due d later and at no time before, unless it is
/// due already; all must be told. If it is none, nothing is due at any time.
pub fn timeout_is_right()
    ensures { TimeoutIsRight }
{}

/// Once all is told, at most 256 bytes are buffered, or an open string of at most 65535, or an open paste: with parts on, of at most 6 bytes and
/// the larger of their limit and 5. No more events are told than bytes were fed.
pub fn bounded()
    ensures { Bounded }
{}

/// No pause within the limits matters. In a segment without a flush and an end, and that doesn't begin in one, if each idle call comes before the
/// limit of what is buffered has passed, the events and what is buffered once all is told are what the grammar says of what was buffered and
/// the segment's bytes. So no cut, no pause, no part, no refusal and no time changes them. The hypothesis is of times alone.
pub fn no_pause_matters()
    ensures { NoPauseMatters }
{}

/// No byte of a paste becomes a key. Once its start is at the front of what is buffered, and while the policy has no limit for pastes, only parts
/// of the paste are told until its end came, and then its event: whatever is fed, flushed, skipped, interrupted, set or refused. No times are
/// supposed, but that after the parser was interrupted no second passes without a byte. An end and a reset are excepted.
pub fn paste_is_inert()
    ensures { PasteIsInert }
{}

/// Each call has one answer: what is told depends on nothing but the calls, and on which of them were refused.
pub fn one_answer()
    ensures { OneAnswer }
{}

/// Runs that were worked out by hand (`runs`): calls that follow one after another are those of a run (`are_runs`).
pub fn worked_runs()
    ensures runs { WorkedRuns }
    ensures are_runs { AreRuns }
{}

/// A flush that isn't over has something to tell: while a feed is `Busy`, something is buffered.
pub fn flush_has_bytes()
    ensures { FlushHasBytes }
{}
