//! Text that grows.
ghost use Rattle.std.specs.Prelude.{◌≡◌, ◌++◌, ◌<◌, [], ◌∷◌, None, Some, IfErr, IfOk, MatchResult, codes, cond, nat_lt, option_map, string_bytes, unwrap_or};
ghost use Rattle.growing_texts.specs.Texts.{Says, control, hex_digit, in_quotes, json_text, on_page, page_text, said};

use std::alloc::{AllocError, Global};

/// Text so far. Once memory has run out it takes nothing more, and there is no text in the end.
#[derive(Drop)]
pub struct Text {
    pub alloc: Global,
    bytes: Vec<u8>,
    is_cut: bool,
}

impl Text {
    /// No text so far.
    pub fn new(alloc: Global) -> Text
        ensures { said result ≡ Some [] }
    {
        Text {
            alloc,
            bytes: Vec::new(alloc),
            is_cut: false,
        }
    }

    /// The whole text.
    pub fn done(self) -> Result<Vec<u8>, AllocError>
        ensures done { IfOk result (λ bytes. said self ≡ Some bytes.items) }
        ensures cut { IfErr result (λ _. said self ≡ None) }
    {
        if self.is_cut {
            return Err(AllocError);
        }
        Ok(self.bytes)
    }

    /// Says the text.
    pub fn say(&mut self, text: &str)
        ensures { Says self.old self.new text.now }
    {
        if !self.is_cut {
            self.is_cut = self.bytes.extend_from_slice(text.as_bytes()).is_err();
        }
    }

    /// Says a byte, which is a part of a text.
    pub fn say_byte(&mut self, byte: u8)
        ensures { Says self.old self.new (byte ∷ []) }
    {
        if !self.is_cut {
            self.is_cut = self.bytes.push(byte).is_err();
        }
    }

    /// Says what was formed, if there was memory for it.
    pub fn formed(&mut self, text: Result<String, AllocError>)
        ensures formed { IfOk text (λ t. Says self.old self.new (string_bytes t)) }
        ensures unformed { IfErr text (λ _. said self.new ≡ None) }
    {
        match text {
            Ok(text) => self.say(text.as_str()),
            Err(_) => self.is_cut = true,
        }
    }

    /// Says two parts of a line, and ends it.
    pub fn line(&mut self, first: &str, second: &str)
        ensures { Says self.old self.new (first.now ++ second.now ++ 10 ∷ []) }
    {
        self.say(first);
        self.say(second);
        self.say("\n");
    }

    /// Says the text so many times.
    pub fn repeat(&mut self, text: &str, times: usize) {
        for _ in 0..times {
            self.say(text);
        }
    }

    /// Says a number, and before it what leads to it.
    pub fn number(&mut self, lead: &str, number: u64) {
        self.formed(format!(in self.alloc; "{lead}{number}"));
    }

    /// Says the text as a page has it, and before it what leads to it.
    pub fn escaped(&mut self, lead: &str, text: &str)
        ensures { Says self.old self.new (lead.now ++ page_text text.now) }
    {
        self.say(lead);
        let mut rest = text.as_bytes();
        'bytes: while let Some((byte, later)) = rest.split_first() {
            self.on_page(*byte);
            rest = later;
        }
    }

    // Says a byte of a text as a page has it.
    fn on_page(&mut self, byte: u8)
        ensures { Says self.old self.new (on_page byte) }
    {
        match byte {
            b'&' => self.say("&amp;"),
            b'<' => self.say("&lt;"),
            b'>' => self.say("&gt;"),
            b'"' => self.say("&quot;"),
            byte => self.say_byte(byte),
        }
    }

    /// Says the text as JSON has it, with its quotation marks, and before it what leads to it.
    pub fn quoted(&mut self, lead: &str, text: &str)
        ensures { Says self.old self.new (lead.now ++ json_text text.now) }
    {
        self.say(lead);
        self.say_byte(b'"');
        let mut rest = text.as_bytes();
        'bytes: while let Some((byte, later)) = rest.split_first() {
            self.in_quotes(*byte);
            rest = later;
        }
        self.say_byte(b'"');
    }

    // Says a byte of a text that stands between quotation marks.
    fn in_quotes(&mut self, byte: u8)
        ensures { Says self.old self.new (in_quotes byte) }
    {
        match byte {
            b'"' => self.say("\\\""),
            b'\\' => self.say("\\\\"),
            byte => self.plain(byte),
        }
    }

    // Says a byte of such a text that is neither a quotation mark nor a backslash.
    fn plain(&mut self, byte: u8)
        ensures { Says self.old self.new (cond (nat_lt byte 32) (control byte) (byte ∷ [])) }
    {
        if byte < 0x20 {
            self.control(byte);
        } else {
            self.say_byte(byte);
        }
    }

    // Says a control character of such a text.
    #[tactic(auto, using(crate::proofs::Saying::then))]
    fn control(&mut self, byte: u8)
        ensures { Says self.old self.new (control byte) }
    {
        self.say("\\u00");
        self.say_byte(digit(byte / 16));
        self.say_byte(digit(byte % 16));
    }

    /// Says the texts as a list of JSON, and before it what leads to it.
    pub fn list(&mut self, lead: &str, items: &[String]) {
        self.say(lead);
        self.say("[");
        for (index, item) in items.iter().enumerate() {
            self.comma(index);
            self.quoted("", item.as_str());
        }
        self.say("]");
    }

    /// Says whether something is so as JSON has it, and before it what leads to it.
    pub fn flag(&mut self, lead: &str, is_so: bool)
        ensures { Says self.old self.new (lead.now ++ cond is_so (codes "true") (codes "false")) }
    {
        self.say(lead);
        self.say(if is_so { "true" } else { "false" });
    }

    /// Says a number, or that there is none, as JSON has it, and before it what leads to it.
    pub fn number_or_null(&mut self, lead: &str, number: Option<u64>) {
        match number {
            Some(number) => self.number(lead, number),
            None => self.null(lead),
        }
    }

    /// Says a text, or that there is none, as JSON has it, and before it what leads to it.
    pub fn quoted_or_null(&mut self, lead: &str, text: Option<&str>)
        ensures { Says self.old self.new (lead.now ++ unwrap_or (option_map (λ t. json_text t.now) text.entry) (codes "null")) }
    {
        match text {
            Some(text) => self.quoted(lead, text),
            None => self.null(lead),
        }
    }

    fn null(&mut self, lead: &str)
        ensures { Says self.old self.new (lead.now ++ codes "null") }
    {
        self.say(lead);
        self.say("null");
    }

    /// Says the comma that stands before each item of a list but the first.
    pub fn comma(&mut self, index: usize)
        ensures first { index ≡ 0 → self.new ≡ self.old }
        ensures later { 0 < index → Says self.old self.new (44 ∷ []) }
    {
        if index > 0 {
            self.say(",");
        }
    }

    /// Says each of the texts as an item of a page's list.
    pub fn items(&mut self, items: &[String]) {
        for item in items {
            self.escaped("<li>", item.as_str());
            self.say("</li>\n");
        }
    }
}

// A hex digit of lower case.
fn digit(value: u8) -> u8
    requires { value < 16 }
    ensures { result ≡ hex_digit value }
{
    if value < 10 { 48 + value } else { 87 + value }
}
