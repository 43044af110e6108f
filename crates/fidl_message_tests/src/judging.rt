//! The loop that goes through the cases of suites, and what is asked in them.
use crate::bytes::bytes_of;
use crate::choices::{any_bytes, encoded};
use crate::counting::counted;
use crate::decoding::decoded;
use crate::hostile::{changes, fronts};
use crate::limits::values_found;
use crate::lookups::call;
use crate::reading::{Case, cases};
use crate::verifying::{cuts, each_byte, verdict};
use fidl_decode::Scratch;
use fidl_verify::{Table, verify};
use std::alloc::Global;
use std::process::Abort;
use std::test::Fail;

/// What is asked of a table that a case changes, or of a message by a table.
#[derive(Clone, Copy, Drop)]
pub(crate) enum Asked {
    /// What `verify` answers to the table.
    Verdict,
    /// How many fronts of the table are truncated.
    Cuts,
    /// Whether the table is judged as it must be, with each of its bytes changed to each value.
    EachByte,
    /// What a call of the table answers.
    Call,
    /// What `decode` answers to a message, and its views.
    Message,
    /// Whether a message takes steps, and at least so many.
    Steps(u64),
    /// How many fronts of a message are refused.
    Fronts,
    /// How many changes of a byte of a message are refused.
    Changes,
    /// How many messages of any byte are decoded.
    AnyBytes,
    /// How many changes of a message are decoded just where they encode a value.
    Encoded,
    /// How many numbers are decoded just where they are values of an enum.
    Values,
}

/// Cases by a table.
#[derive(Clone, Copy, Drop)]
pub(crate) struct Suite<'a> {
    pub(crate) asked: Asked,
    pub(crate) table: &'a str,
    /// How many cases there are.
    pub(crate) count: usize,
    /// A case a line: what is given, and the answer. Of a table its changes are given; else they
    /// stand behind the word `by`, if there are any.
    pub(crate) cases: &'a str,
}

/// What is answered to bytes as a table.
fn answer_of_bytes(alloc: Global, asked: Asked, bytes: &mut [u8]) -> Option<String> {
    match asked {
        Asked::Verdict => verdict(alloc, bytes),
        Asked::Cuts => cuts(alloc, bytes),
        Asked::EachByte => each_byte(alloc, bytes),
        _ => None,
    }
}

/// What is answered by a table.
fn answer_by_table(
    alloc: Global,
    asked: Asked,
    table: &Table<'_>,
    case: &Case<'_>,
    scratch: &mut Scratch,
) -> Option<String> {
    match asked {
        Asked::Call => call(alloc, table, case.given),
        Asked::Message => decoded(alloc, table, case, scratch),
        Asked::Steps(least) => counted(alloc, table, case, least, scratch),
        Asked::Fronts => fronts(alloc, table, case.given, scratch),
        Asked::Changes => changes(alloc, table, case.given, scratch),
        Asked::AnyBytes => any_bytes(alloc, table, case.given, scratch),
        Asked::Encoded => encoded(alloc, table, case.given, scratch),
        Asked::Values => values_found(alloc, table, case.given, scratch),
        _ => None,
    }
}

/// What is answered to a case. Nothing where it has a word without a meaning, or memory ran out.
fn answer(
    alloc: Global,
    suite: &Suite<'_>,
    case: &Case<'_>,
    scratch: &mut Scratch,
) -> Option<String> {
    let asked = suite.asked;
    if let Asked::Verdict | Asked::Cuts | Asked::EachByte = asked {
        let mut bytes = bytes_of(alloc, suite.table, case.given)?;
        return answer_of_bytes(alloc, asked, bytes.as_mut_slice());
    }
    let bytes = bytes_of(alloc, suite.table, case.changes)?;
    let table = verify(bytes.as_slice()).ok()?;
    answer_by_table(alloc, asked, &table, case, scratch)
}

/// The answer to a case is the one of its line.
fn compare(rt: &impl Abort, case: &Case<'_>, found: Option<String>) {
    assert_eq!(rt;
        found.as_deref(),
        Some(case.want),
        "the answer to {}",
        case.line
    );
}

/// The answer to each case is the one of its line, and there are so many.
fn judge(
    rt: &impl Abort,
    alloc: Global,
    suite: &Suite<'_>,
    scratch: &mut Scratch,
) -> Result<(), Fail> {
    let mut judged = 0usize;
    for case in &cases(alloc, suite.cases).ok_or("memory")? {
        let found = answer(alloc, suite, case, scratch);
        compare(rt, case, found);
        judged = judged.saturating_add(1);
    }
    assert_eq!(rt; judged, suite.count, "how many cases are judged");
    Ok(())
}

/// The same for each suite. One scratch serves all messages.
pub(crate) fn judge_all(rt: &impl Abort, alloc: Global, suites: &[Suite<'_>]) -> Result<(), Fail> {
    let mut scratch = Scratch::new(alloc)?;
    for suite in suites {
        judge(rt, alloc, suite, &mut scratch)?;
    }
    Ok(())
}
