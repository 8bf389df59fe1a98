//! How the text of a row is divided: items of a list have a comma and a space between them, and words
//! a space.

/// Takes the first item off a list that has one.
pub fn take_item<'t>(list: &mut &'t str) -> Option<&'t str> {
    if list.is_empty() {
        return None;
    }
    let (item, rest) = list.split_once(", ").unwrap_or((*list, ""));
    *list = rest;
    Some(item)
}

/// Returns the last item of a list, if it has one.
pub fn last_item(list: &str) -> Option<&str> {
    if list.is_empty() {
        return None;
    }
    match list.rsplit_once(", ") {
        Some((_, item)) => Some(item),
        None => Some(list),
    }
}

/// Returns the first word of a text, and the others.
pub fn first_word(text: &str) -> (&str, &str) {
    text.split_once(' ').unwrap_or((text, ""))
}
