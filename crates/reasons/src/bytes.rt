//! Bytes that no canonical JSON has where they stand.

// Where the next byte stands.
#[derive(Clone, Copy)]
enum Place {
    Outside,
    InText,
    BehindSlash,
}

/// The place, from 0, of the first byte that no canonical JSON can have there, be it white space outside a text or an escape in one, or
/// the end of bytes that end in a text. None where no such byte is easily found.
pub(crate) fn first_stray(bytes: &[u8]) -> Option<usize> {
    let mut place = Place::Outside;
    for (i, b) in bytes.iter().enumerate() {
        match step(place, *b) {
            Some(next) => place = next,
            None => return Some(i),
        }
    }
    match place {
        Place::Outside => None,
        Place::InText | Place::BehindSlash => Some(bytes.len()),
    }
}

// Where the byte after this one stands, if this one can stand here.
fn step(place: Place, b: u8) -> Option<Place> {
    match place {
        Place::Outside => outside(b),
        Place::InText if b == b'"' => Some(Place::Outside),
        Place::InText if b == b'\\' => Some(Place::BehindSlash),
        Place::InText => Some(Place::InText),
        Place::BehindSlash if b == b'"' || b == b'\\' => Some(Place::InText),
        Place::BehindSlash => None,
    }
}

// No spelling has white space outside a text, nor what is no sign of ASCII.
fn outside(b: u8) -> Option<Place> {
    if b == b'"' {
        Some(Place::InText)
    } else if b.is_ascii_graphic() {
        Some(Place::Outside)
    } else {
        None
    }
}
