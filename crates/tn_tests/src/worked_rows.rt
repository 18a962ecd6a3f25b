//! Whole runs on the worked rows.

use crate::rows::answers::ANSWERS;
use crate::rows::claims::CLAIMS;
use crate::rows::faults::FAULTS;
use crate::rows::layouts::LAYOUTS;
use crate::rows::parts::PARTS;
use crate::rows::runs::RUNS;
use crate::rows::units::UNITS;
use crate::runs::run_on;
use std::alloc::Global;
use std::test::Fail;

/// The words, the document, the status and the text of a row.
fn parts(row: &str) -> Option<(&str, &str, &str, &str)> {
    let (words, rest) = row.split_once('\n')?;
    let (document, wanted) = rest.split_once('\n')?;
    let (status, text) = wanted.split_once(' ')?;
    Some((words, document, status, text))
}

/// Whether a line is the wanted text and a line end.
fn is_line(written: &[u8], wanted: &str) -> bool {
    match (written.strip_suffix(b"\n"), wanted.split_once("..")) {
        (None, _) => false,
        (Some(line), None) => line == wanted.as_bytes(),
        (Some(line), Some((begin, end))) => line.starts_with(begin.as_bytes())
            && line.ends_with(end.as_bytes()),
    }
}

/// Whether a price, with what closes its list and those around it, is in a range: `4]]` is so for `3` and `5]]`.
fn is_within(found: &str, least: &str, most: &str) -> bool {
    let Some((price, rest)) = found.split_once(']') else {
        return false;
    };
    let Some((most, wanted)) = most.split_once(']') else {
        return false;
    };
    match (
        price.parse::<i64>(),
        least.parse::<i64>(),
        most.parse::<i64>(),
    ) {
        (Ok(price), Ok(least), Ok(most)) => rest == wanted && least <= price && price <= most,
        (Err(_), _, _) | (_, Err(_), _) | (_, _, Err(_)) => false,
    }
}

/// Whether what stands between two commas is as wanted: a price in a range, any text at `..`, or the very text.
fn is_part(found: &str, wanted: &str) -> bool {
    if let Some((least, most)) = wanted.split_once('~') {
        is_within(found, least, most)
    } else if let Some((begin, end)) = wanted.split_once("..") {
        found.starts_with(begin) && found.ends_with(end)
    } else {
        found == wanted
    }
}

/// Whether a line is as wanted, part by part between its commas.
fn has_parts(written: &[u8], wanted: &str) -> bool {
    let Some(line) = written.strip_suffix(b"\n") else {
        return false;
    };
    let Ok(line) = str::from_utf8(line) else {
        return false;
    };
    let mut parts = line.split(',');
    for part in wanted.split(',') {
        match parts.next() {
            Some(found) if is_part(found, part) => {}
            Some(_) | None => return false,
        }
    }
    parts.next().is_none()
}

/// Whether what was written is as wanted.
fn is_answer(written: &[u8], wanted: &str) -> bool {
    if wanted.contains('~') {
        has_parts(written, wanted)
    } else {
        is_line(written, wanted)
    }
}

/// Whether the run on a row's words and document ends as the row says.
fn agrees(alloc: Global, row: &str) -> Result<bool, Fail> {
    let Some((words, document, status, text)) = parts(row) else {
        return Ok(false);
    };
    let (found, written) = run_on(alloc, words, document.as_bytes())?;
    Ok(status.as_bytes() == [b'0'.wrapping_add(found)].as_slice() && is_answer(&written, text))
}

#[test]
fn worked_rows_agree(rt: HostRuntime) -> Result<(), Fail> {
    for rows in [ANSWERS, CLAIMS, FAULTS, PARTS, LAYOUTS, UNITS] {
        for row in rows.split("\n\n") {
            assert!(rt; agrees(rt.alloc(), row)?, "{row}");
        }
    }
    for row in RUNS.split("\n\n\n") {
        assert!(rt; agrees(rt.alloc(), row)?, "{row}");
    }
    Ok(())
}
