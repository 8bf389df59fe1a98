//! The roster of the crate's documentation: weeks of a calendar, and who is on duty.

use crate::checks::assert_same;
use jiff::ToSpan;
use jiff::civil::Date;
use rangemap::RangeMap;
use std::alloc::Global;
use std::cmp::Ord;
use std::test::Fail;

// Dates to persons.
type Roster = RangeMap<Date, &'static str>;

// Gives a person the week that starts on a date, and answers the date after it.
fn add_week(roster: &mut Roster, start: Date, person: &'static str) -> Result<Date, Fail> {
    let end = start.checked_add(7i64.days())?;
    if !start.cmp(&end).is_lt() {
        return Err(Fail::new("a week has no day"));
    }
    roster.insert(start..end, person)?;
    Ok(end)
}

// Three weeks for each of three persons, of which Bob takes one more.
fn make_roster(alloc: Global) -> Result<Roster, Fail> {
    let mut roster: Roster = RangeMap::new(alloc);
    let mut start = Date::new(2019, 1, 7)?;
    for _ in 0..3u8 {
        start = add_round(&mut roster, start)?;
    }
    add_week(&mut roster, Date::new(2019, 1, 28)?, "Bob")?;
    Ok(roster)
}

// Gives each person a week, the first of which starts on a date. Answers the date after the last.
fn add_round(roster: &mut Roster, start: Date) -> Result<Date, Fail> {
    let second = add_week(roster, start, "Alice")?;
    let third = add_week(roster, second, "Bob")?;
    add_week(roster, third, "Carol")
}

// A line for each person's days.
fn lines(roster: &Roster, alloc: Global) -> Result<Vec<String>, Fail> {
    let mut lines = Vec::new(alloc);
    for (range, person) in roster.iter() {
        let days = range.start.until(range.end)?.get_days();
        lines.push(format!(in alloc; "{}UTC (P{days}D): {person}", range.start)?)?;
    }
    Ok(lines)
}

#[test]
fn the_roster_is_printed(rt: HostRuntime) -> Result<(), Fail> {
    let lines = lines(&make_roster(rt.alloc())?, rt.alloc())?;
    let expected = [
        "2019-01-07UTC (P7D): Alice",
        "2019-01-14UTC (P7D): Bob",
        "2019-01-21UTC (P7D): Carol",
        "2019-01-28UTC (P14D): Bob",
        "2019-02-11UTC (P7D): Carol",
        "2019-02-18UTC (P7D): Alice",
        "2019-02-25UTC (P7D): Bob",
        "2019-03-04UTC (P7D): Carol",
    ];
    assert_same(&rt, lines.len(), expected.len());
    for (line, expected) in lines.iter().zip(expected) {
        assert_same(&rt, line.as_str(), expected);
    }
    Ok(())
}
