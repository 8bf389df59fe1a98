//! The words of rows, and which subjects know them.

use crate::row::name_of;
use rows_text::first_word;

/// A way in which a container is made a subject.
#[derive(Clone, Copy, PartialEq, Eq)]
pub enum Group {
    /// What every map is asked, or every set.
    AnySteps,
    /// What one is asked whose keys have steps of their own, or none.
    OwnSteps,
    /// What one is asked whose keys have the steps of another type.
    OtherSteps,
    /// What a set is asked that becomes what an operator makes of it and another.
    Operators,
    /// What every container is asked, maps and sets alike.
    AnyContainer,
    /// What one is asked for its JSON form.
    Json,
    /// What one of numbers is asked that is made again of what it hands over.
    RoundTrips,
}

impl Group {
    /// Its name in a report.
    pub fn name(self) -> &'static str {
        match self {
            Group::AnySteps => "over any steps",
            Group::OwnSteps => "over own steps",
            Group::OtherSteps => "over other steps",
            Group::Operators => "by operators",
            Group::AnyContainer => "as any container",
            Group::Json => "as JSON",
            Group::RoundTrips => "in round trips",
        }
    }
}

/// Which subjects know some words.
#[derive(Clone, Copy)]
pub struct Known {
    /// Whether `Group::AnySteps` knows them.
    pub any_steps: bool,
    /// Whether `Group::OwnSteps` does.
    pub own_steps: bool,
    /// Whether `Group::OtherSteps` does.
    pub other_steps: bool,
    /// Whether `Group::Operators` does.
    pub operators: bool,
    /// Whether `Group::AnyContainer` does.
    pub any_container: bool,
    /// Whether `Group::Json` does.
    pub json: bool,
    /// Whether `Group::RoundTrips` does.
    pub round_trips: bool,
}

impl Known {
    /// All subjects but those of the JSON form.
    pub const ALL: Known = Known {
        json: false,
        round_trips: false,
        ..Known::EVERY
    };
    /// All of these but the one as any container.
    pub const BY_STEPS: Known = Known {
        any_container: false,
        ..Known::ALL
    };
    /// The one over any steps, and the one over the steps of another type.
    pub const BY_OTHER_STEPS: Known = Known {
        own_steps: false,
        operators: false,
        ..Known::BY_STEPS
    };
    /// The one over any steps.
    pub const ANY_STEPS: Known = Known {
        other_steps: false,
        ..Known::BY_OTHER_STEPS
    };
    /// That one, and the one of operators.
    pub const ANY_STEPS_AND_OPERATORS: Known = Known {
        own_steps: false,
        other_steps: false,
        ..Known::BY_STEPS
    };
    /// The one over any steps, and the one as any container.
    pub const ANY_STEPS_AND_CONTAINER: Known = Known {
        own_steps: false,
        other_steps: false,
        operators: false,
        ..Known::ALL
    };

    /// The one that is asked for its JSON form.
    pub const JSON: Known = Known {
        json: true,
        ..Known::NONE
    };
    /// That one, and the one that is made again.
    pub const JSON_AND_ROUND_TRIPS: Known = Known {
        round_trips: true,
        ..Known::JSON
    };

    const EVERY: Known = Known {
        any_steps: true,
        own_steps: true,
        other_steps: true,
        operators: true,
        any_container: true,
        json: true,
        round_trips: true,
    };

    const NONE: Known = Known {
        any_steps: false,
        own_steps: false,
        other_steps: false,
        operators: false,
        any_container: false,
        json: false,
        round_trips: false,
    };

    const ROUND_TRIPS: Known = Known {
        round_trips: true,
        ..Known::NONE
    };

    const OWN_STEPS: Known = Known {
        other_steps: false,
        ..Known::OWN_OR_OTHER_STEPS
    };

    const OWN_OR_OTHER_STEPS: Known = Known {
        operators: false,
        ..Known::OPERATORS
    };

    const OPERATORS: Known = Known {
        any_steps: false,
        ..Known::BY_STEPS
    };

    const ANY_CONTAINER: Known = Known {
        any_steps: false,
        ..Known::ANY_STEPS_AND_CONTAINER
    };

    /// Those that know these words and others.
    pub fn and(self, other: Known) -> Known {
        Known {
            any_steps: self.any_steps && other.any_steps,
            own_steps: self.own_steps && other.own_steps,
            other_steps: self.other_steps && other.other_steps,
            operators: self.operators && other.operators,
            any_container: self.any_container && other.any_container,
            json: self.json && other.json,
            round_trips: self.round_trips && other.round_trips,
        }
    }

    /// The subject on which a row with these words is run, among those that a container is made.
    pub fn first(self, made: Known) -> Option<Group> {
        let both = self.and(made);
        if both.any_steps {
            Some(Group::AnySteps)
        } else if both.own_steps {
            Some(Group::OwnSteps)
        } else if both.other_steps {
            Some(Group::OtherSteps)
        } else if both.operators {
            Some(Group::Operators)
        } else if both.any_container {
            Some(Group::AnyContainer)
        } else if both.json {
            Some(Group::Json)
        } else if both.round_trips {
            Some(Group::RoundTrips)
        } else {
            None
        }
    }
}

/// Whether a word names a call.
pub fn is_call(word: &str) -> bool {
    known_call(word).is_some()
}

// The subjects that know a call.
fn known_call(word: &str) -> Option<Known> {
    match word {
        "insert" | "many" => Some(Known::EVERY),
        "remove" | "clear" | "clone" => Some(Known::ALL),
        "update" => Some(Known::ANY_CONTAINER),
        "extend" | "insert_pairs" => Some(Known::OWN_OR_OTHER_STEPS),
        "new" | "from_iter" => Some(Known::OWN_STEPS),
        "or" | "and" | "without" | "xor" => Some(Known::OPERATORS),
        _ => None,
    }
}

// The subjects that know a question.
fn known_question(word: &str) -> Option<Known> {
    match word {
        "holds" | "iter" | "len" | "ends" | "blocks" => Some(Known::ALL),
        "at" | "equals" | "overlaps" | "covers" => Some(Known::BY_STEPS),
        "subset" | "superset" | "disjoint" => Some(Known::BY_STEPS),
        "overlapping" | "gaps" | "ascending" | "hashed" => Some(Known::ANY_STEPS),
        "union" | "intersection" | "difference" | "symmetric_difference" => Some(Known::ANY_STEPS),
        "into_iter" | "lines" | "operators" => Some(Known::OWN_OR_OTHER_STEPS),
        "debug" => Some(Known {
            round_trips: true,
            ..Known::OWN_OR_OTHER_STEPS
        }),
        "to_value" | "from_value" => Some(Known::JSON),
        "round_trips" => Some(Known::ROUND_TRIPS),
        "law"
        | "append_all"
        | "append_overlapping"
        | "append_gaps"
        | "collect_gaps"
        | "segments"
        | "run" => Some(Known::ANY_CONTAINER),
        "replay" => Some(Known {
            any_container: true,
            ..Known::OWN_OR_OTHER_STEPS
        }),
        _ => None,
    }
}

/// The subjects that know all words of some calls, unless one is no call.
pub fn known_calls(calls: &str) -> Option<Known> {
    let mut known = Known::EVERY;
    for call in calls.split(", ") {
        if !call.is_empty() {
            known = known.and(known_call(call_of(call))?);
        }
    }
    Some(known)
}

/// The name of a call, of one that is refused memory before it is made too.
pub fn call_of(call: &str) -> &str {
    first_word(call.strip_prefix("refuse ").unwrap_or(call)).0
}

/// The subjects that know a question, unless it is none.
pub fn known_asked(question: &str) -> Option<Known> {
    let (name, operand) = name_of(question);
    if name != "refuse" {
        return known_question(name);
    }
    let (refused, _) = name_of(operand);
    known_call(refused).or(known_question(refused))
}
