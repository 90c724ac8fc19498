// Where the files of a row of words stand.

/// Where the word of each role stands in the row of a command, from 0 with the command.
#[derive(Clone, Copy, Debug)]
pub struct Places {
    pub image: Option<usize>,
    pub events: Option<usize>,
    pub work: Option<usize>,
    pub saved: Option<usize>,
    pub display: Option<usize>,
    pub vault: Option<usize>,
}

const RUN: Places = Places {
    image: Some(1),
    events: Some(2),
    work: Some(3),
    saved: Some(4),
    display: Some(5),
    vault: None,
};

const GUARD: Places = Places {
    image: Some(1),
    events: Some(2),
    work: Some(3),
    saved: Some(4),
    display: Some(5),
    vault: Some(10),
};

const RESUME: Places = Places {
    image: None,
    events: Some(2),
    work: Some(3),
    saved: Some(4),
    display: Some(5),
    vault: Some(1),
};

const CONVERSION: Places = Places {
    image: Some(1),
    events: None,
    work: Some(2),
    saved: Some(3),
    display: None,
    vault: None,
};

const MAKE: Places = Places {
    image: None,
    events: None,
    work: None,
    saved: Some(2),
    display: None,
    vault: None,
};

fn places_of(command: &str) -> Places {
    match command {
        "guard" => GUARD,
        "resume" => RESUME,
        "list" | "asm" => CONVERSION,
        "make" => MAKE,
        _ => RUN,
    }
}

/// Where the words of a row stand.
pub fn places_in(row: &[String]) -> Places {
    match row.first() {
        Some(command) => places_of(command.as_str()),
        None => RUN,
    }
}

/// The word at a place.
pub fn word_at(row: &[String], place: Option<usize>) -> Option<&str> {
    match row.get(place?) {
        Some(word) => Some(word.as_str()),
        None => None,
    }
}
