//! Keys and denials, as rows have them.
use growing_texts::Text;

/// A key: the digits of its id, what a document calls it, if one does, whether the draft alone does so, and the words by which lines have it.
#[derive(Drop)]
pub struct KeyWords {
    pub id: String,
    pub name: Option<String>,
    pub is_new_name: bool,
    pub words: String,
}

/// A denial: its number and its name.
#[derive(Clone, Copy)]
pub struct DenialRow {
    pub number: u8,
    pub name: &'static str,
}

/// Says a denial as lines have it, and before it what leads to it.
pub(crate) fn say_denial(text: &mut Text, lead: &str, denial: DenialRow) {
    text.say(lead);
    text.number("denied ", u64::from(denial.number));
    text.say(" ");
    text.say(denial.name);
}

/// Says a denial as JSON has it, and before it what leads to it.
pub(crate) fn json_denial(text: &mut Text, lead: &str, denial: Option<DenialRow>) {
    text.say(lead);
    match denial {
        Some(denial) => {
            text.quoted("{\"name\":", denial.name);
            text.number(",\"number\":", u64::from(denial.number));
            text.say("}");
        }
        None => text.say("null"),
    }
}

/// Says the words of each key, and a lead before each.
pub(crate) fn say_keys(text: &mut Text, lead: &str, keys: &[KeyWords]) {
    for key in keys {
        text.say(lead);
        text.say(key.words.as_str());
    }
}

/// Says the keys as a list of JSON, and before it what leads to it.
pub(crate) fn json_keys(text: &mut Text, lead: &str, keys: &[KeyWords]) {
    text.say(lead);
    text.say("[");
    for (index, key) in keys.iter().enumerate() {
        text.comma(index);
        json_key(text, key);
    }
    text.say("]");
}

fn json_key(text: &mut Text, key: &KeyWords) {
    text.quoted("{\"id\":", key.id.as_str());
    text.quoted_or_null(",\"name\":", key.name.as_deref());
    text.flag(",\"new_name\":", key.is_new_name);
    text.say("}");
}
