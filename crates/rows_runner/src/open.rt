//! Answers that leave a number open: of requests, or of blocks.

use rows_text::Fault;

/// Appends the outcomes of a refused call or question. Where the wanted answer has question marks for the
/// numbers of requests these stand there too: one, or two with a plus between them where the call does
/// without some, or may.
pub fn write_counted(counted: &str, wanted: &str, found: &mut String) -> Result<(), Fault> {
    let (counts, outcomes) = counted.split_once(':').unwrap_or((counted, ""));
    let Some((marks, listed)) = wanted.split_once(':') else {
        return Ok(found.push_str(counted)?);
    };
    let may_spare = marks == "? + ?";
    if !may_spare && (marks != "?" || counts.contains('+')) {
        return Ok(found.push_str(counted)?);
    }
    let is_told = are_among(outcomes.trim(), listed.trim(), !may_spare);
    write!(found, "{marks}:{}", if is_told { listed } else { outcomes })?;
    Ok(())
}

// Whether some outcomes are all among those of a list, the last as its last. An `extend` keeps a longer
// beginning the more it is granted, so they come in the list's order, unless it does without some requests.
fn are_among(outcomes: &str, listed: &str, are_in_order: bool) -> bool {
    let mut least = 0;
    for outcome in outcomes.split("; ") {
        match place_of(outcome, listed, least) {
            Some(place) if are_in_order => least = place,
            Some(_) => {}
            None => return false,
        }
    }
    last_of(outcomes) == last_of(listed)
}

// The first place in a list, from one on, that has an outcome.
fn place_of(outcome: &str, listed: &str, least: usize) -> Option<usize> {
    for (place, other) in listed.split("; ").enumerate() {
        if place >= least && other == outcome {
            return Some(place);
        }
    }
    None
}

fn last_of(outcomes: &str) -> &str {
    match outcomes.rsplit_once("; ") {
        Some((_, last)) => last,
        None => outcomes,
    }
}

/// Appends how many blocks are held, or what is wanted where that is two numbers, one of which is no more
/// and one no less: `1 to 3`.
pub fn write_blocks(held: u64, wanted: &str, found: &mut String) -> Result<(), Fault> {
    if is_within(held, wanted) == Some(true) {
        found.push_str(wanted)?;
    } else {
        write!(found, "{held}")?;
    }
    Ok(())
}

// Whether a number lies between two others.
fn is_within(number: u64, bounds: &str) -> Option<bool> {
    let (least, most) = bounds.split_once(" to ")?;
    let least = least.parse::<u64>().ok()?;
    let most = most.parse::<u64>().ok()?;
    Some(least <= number && number <= most)
}
