// A case once more for each call that can fail: each call of an object in turn, until there is none.
use crate::case::{Case, File};
use crate::failing::{Fails, Object};
use crate::outcome::{Came, PROFILE, is_of_run, is_same, run, wrong};
use std::alloc::{AllocError, Global};

/// More calls of one object than a case makes.
const MOST_CALLS: u64 = 1000;

/// `ok`, the case's name, and how many calls failed in turn; or its name, and the call that left something that isn't due.
pub fn tried(alloc: Global, case: &Case) -> Result<String, AllocError> {
    let name = case.name.as_str();
    let mut all: u64 = 0;
    for object in &case.each {
        let (calls, status) = tries(alloc, case, *object)?;
        all = all.saturating_add(calls);
        if let Some(status) = status {
            return format!(in alloc; "FAILED {name}: call {calls} fails, status {status}");
        }
    }
    format!(in alloc; "ok {name}, and where each of {all} calls fails")
}

/// How many calls of the object failed in turn, and the status of the last one where it left something that isn't due. A call
/// that isn't made leaves what the case says.
fn tries(alloc: Global, case: &Case, object: Object) -> Result<(u64, Option<u64>), AllocError> {
    for call in 1..MOST_CALLS {
        let came = run(alloc, case, Fails::at(object, call))?;
        if wrong(&came, case).is_none() {
            return Ok((call - 1, None));
        }
        if !is_due(&came, case, object) {
            return Ok((call, Some(came.status)));
        }
    }
    Ok((MOST_CALLS, Some(0)))
}

/// Whether the status tells a fault of the object, and the streams and files have fronts of what they should have.
fn is_due(came: &Came, case: &Case, object: Object) -> bool {
    tells(came.status, case, object)
        && (came.status != 2 || came.out.bytes().is_empty())
        && case.out.starts_with(came.out.bytes())
        && is_told(came, case, object)
        && came
            .store
            .files()
            .iter()
            .all(|(name, bytes)| may_stand(case, name, bytes))
}

/// Whether the status is one of a fault of the object. That of another fault stays where its line can't be written.
fn tells(status: u64, case: &Case, object: Object) -> bool {
    match object {
        Object::Store => status == 2 || status == 7,
        Object::Out => status == 7,
        Object::Err => status == 7 || status == case.status,
        Object::Net => status == 9,
    }
}

/// Whether the error stream has a front of what should be there, and behind it the line of the fault, which the status tells. Where a
/// call of that stream fails there may be none.
fn is_told(came: &Came, case: &Case, object: Object) -> bool {
    let bytes = came.err.bytes();
    let told = match came.status {
        2 => bytes.starts_with(b"mdprof: ") && bytes.ends_with(b": read fault\n"),
        7 => is_front_with(case.err.as_slice(), bytes, b"mdprof: write fault\n"),
        9 => is_front_with(case.err.as_slice(), bytes, b"mdprof: network fault\n"),
        _ => false,
    };
    told || (matches!(object, Object::Err) && case.err.starts_with(bytes))
}

/// Whether these are a front of what should be there, and then the line.
fn is_front_with(due: &[u8], bytes: &[u8], line: &[u8]) -> bool {
    match bytes.strip_suffix(line) {
        Some(front) => due.starts_with(front),
        None => false,
    }
}

/// Whether a file is as it was given, or a front of what has to be there in the end.
fn may_stand(case: &Case, name: &str, bytes: &[u8]) -> bool {
    (name == PROFILE && is_of_run(case))
        || case.files.iter().any(|file| is_same(file, name, bytes))
        || case.left.iter().any(|file| is_front(file, name, bytes))
}

fn is_front(file: &File, name: &str, bytes: &[u8]) -> bool {
    file.name.as_str() == name && file.bytes.starts_with(bytes)
}
