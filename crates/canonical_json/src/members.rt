// The member of a name, looked up in the text of an object without reading the values before it.
ghost use Rattle.std.specs.Prelude.{◌≡◌, ◌+◌, ◌<◌, ◌≤◌, ◌^◌, ℕ, List, [], ◌∷◌, ◌++◌, Some, None, IfSome, IsSome, IsNone};
ghost use Rattle.canonical_json.specs.Json.{Json, HasMember};
ghost use Rattle.canonical_json.specs.Spelling.{spelling, byte_spelling, member_front, IsCanonical};
ghost use Rattle.canonical_json.specs.steps.Skipping.{step_over, step_outside, place_in_text, behind_value, EndsWith};

// Where the next byte of a canonical text stands.
#[derive(Clone, Copy)]
pub(crate) enum Place {
    Outside,
    InText,
    BehindSlash,
}

// The value of the first member of that name, if the bytes spell an object.
pub(crate) fn find<'a>(bytes: &'a [u8], name: &str) -> Option<&'a [u8]>
    ensures found { (v : Json) → IsCanonical v bytes.now
        → IfSome result (λ s. (x : Json) × HasMember v name.now x × (s.now ≡ spelling x)) }
    ensures none { (v x : Json) → IsCanonical v bytes.now → HasMember v name.now x → IsSome result }
    ensures place { IfSome result (λ s. (front back : List ℕ)
        × (bytes.now ≡ front ++ (member_front name.now ++ (s.now ++ back)))) }
{
    let mut at = behind(bytes, b'{')?;
    'members: loop {
        if let Some(value) = behind_name(at, name) {
            return Some(value_front(value));
        }
        at = behind(skip(at), b',')?;
    }
}

// The bytes of the value at the front.
fn value_front(bytes: &[u8]) -> &[u8]
    ensures { bytes.now ≡ result.now ++ behind_value 0 Place.Outside bytes.now }
{
    let rest = skip(bytes);
    &bytes[..bytes.len() - rest.len()]
}

// What stands after the value, or the member, at the front: a comma, a closing bracket or nothing.
fn skip(bytes: &[u8]) -> &[u8]
    ensures value { result.now ≡ behind_value 0 Place.Outside bytes.now }
    ensures back { EndsWith bytes.now result.now }
{
    let mut place = Place::Outside;
    let mut inside = 0usize;
    let mut rest = bytes;
    'bytes: while let Some((b, later)) = rest.split_first() {
        let Some((next, inner)) = step(place, inside, *b) else {
            return rest;
        };
        place = next;
        inside = inner;
        rest = later;
    }
    rest
}

// Where the byte after this one stands and inside how many brackets. None where the value ended before this one.
fn step(place: Place, inside: usize, b: u8) -> Option<(Place, usize)>
    requires { inside + 1 < 2 ^ 64 }
    ensures value { result ≡ step_over inside place b }
    ensures most { IfSome result (λ s. s.1 ≤ inside + 1) }
{
    match place {
        Place::BehindSlash => Some((Place::InText, inside)),
        Place::InText => Some((in_text(b), inside)),
        Place::Outside => outside(inside, b),
    }
}

fn in_text(b: u8) -> Place
    ensures { result ≡ place_in_text b }
{
    if b == b'"' {
        Place::Outside
    } else if b == b'\\' {
        Place::BehindSlash
    } else {
        Place::InText
    }
}

fn outside(inside: usize, b: u8) -> Option<(Place, usize)>
    requires { inside + 1 < 2 ^ 64 }
    ensures value { result ≡ step_outside inside b }
    ensures most { IfSome result (λ s. s.1 ≤ inside + 1) }
{
    if b == b'"' {
        Some((Place::InText, inside))
    } else if b == b'[' || b == b'{' {
        Some((Place::Outside, inside + 1))
    } else if b == b']' || b == b'}' {
        if inside == 0 {
            None
        } else {
            Some((Place::Outside, inside - 1))
        }
    } else if b == b',' && inside == 0 {
        None
    } else {
        Some((Place::Outside, inside))
    }
}

// What stands after a member's name and its colon, if it is this name.
fn behind_name<'a>(bytes: &'a [u8], name: &str) -> Option<&'a [u8]>
    ensures some { IfSome result (λ r. bytes.now ≡ member_front name.now ++ r.now) }
    ensures none { IsNone result → (rest : List ℕ) → bytes.now ≡ member_front name.now ++ rest → ⊥ }
{
    let mut at = behind(bytes, b'"')?;
    let mut left = name.as_bytes();
    'name: while let Some((b, later)) = left.split_first() {
        at = behind_byte(at, *b)?;
        left = later;
    }
    let colon = behind(at, b'"')?;
    behind(colon, b':')
}

// What stands after a byte of a text.
fn behind_byte(bytes: &[u8], b: u8) -> Option<&[u8]>
    ensures some { IfSome result (λ r. bytes.now ≡ byte_spelling b ++ r.now) }
    ensures none { IsNone result → (rest : List ℕ) → bytes.now ≡ byte_spelling b ++ rest → ⊥ }
{
    if b == b'"' || b == b'\\' {
        behind(behind(bytes, b'\\')?, b)
    } else {
        behind(bytes, b)
    }
}

// What stands after this byte.
fn behind(bytes: &[u8], wanted: u8) -> Option<&[u8]>
    ensures some { IfSome result (λ r. bytes.now ≡ wanted ∷ r.now) }
    ensures none { IsNone result → (rest : List ℕ) → bytes.now ≡ wanted ∷ rest → ⊥ }
{
    let (first, rest) = bytes.split_first()?;
    if *first == wanted { Some(rest) } else { None }
}
