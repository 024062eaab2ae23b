use plain_text::{is_plain_name, plain};
use std::alloc::Global;
use std::process::Abort;
use std::test::Fail;

// The text is told in these words.
fn tells(rt: &impl Abort, alloc: Global, text: &str, want: &str) -> Result<(), Fail> {
    let told = plain(alloc, text)?;
    assert!(rt; told.as_str() == want, "{want}");
    Ok(())
}

#[test]
fn keeps_what_is_plain(rt: HostRuntime) -> Result<(), Fail> {
    let alloc = rt.alloc();
    tells(&rt, alloc, "", "")?;
    tells(&rt, alloc, "alice", "alice")?;
    tells(&rt, alloc, "a b~", "a b~")?;
    tells(&rt, alloc, "é 日本 🦀", "é 日本 🦀")?;
    tells(&rt, alloc, "a\\x0a", "a\\\\x0a")
}

#[test]
fn spells_controls(rt: HostRuntime) -> Result<(), Fail> {
    let alloc = rt.alloc();
    tells(&rt, alloc, "a\nnext: x", "a\\x0anext: x")?;
    tells(&rt, alloc, "\u{1b}[2J", "\\x1b[2J")?;
    tells(&rt, alloc, "\0\t\r\u{1f}", "\\x00\\x09\\x0d\\x1f")?;
    tells(
        &rt,
        alloc,
        "\u{7f}\u{80}\u{9b}\u{a0}",
        "\\x7f\\x80\\x9b\u{a0}",
    )
}

#[test]
fn spells_what_is_hidden(rt: HostRuntime) -> Result<(), Fail> {
    let alloc = rt.alloc();
    tells(
        &rt,
        alloc,
        "\u{ad}\u{61c}\u{feff}",
        "\\u{ad}\\u{61c}\\u{feff}",
    )?;
    tells(&rt, alloc, "gpj.\u{202e}exe", "gpj.\\u{202e}exe")?;
    tells(&rt, alloc, "\u{2028}\u{2029}", "\\u{2028}\\u{2029}")?;
    tells(
        &rt,
        alloc,
        "\u{200a}\u{200b}\u{200f}\u{2010}",
        "\u{200a}\\u{200b}\\u{200f}\u{2010}",
    )?;
    tells(
        &rt,
        alloc,
        "\u{2060}\u{2066}\u{2069}",
        "\\u{2060}\\u{2066}\\u{2069}",
    )
}

#[test]
fn tells_plain_names(rt: HostRuntime) {
    let longest = "abcdefghijklmnopqrstuvwxyzABCDEFGHIJKLMNOPQRSTUVWXYZ0123456789._";
    for (text, want) in [
        ("alice.key", true),
        ("a-b", true),
        (longest, true),
        (
            concat!(
                "abcdefghijklmnopqrstuvwxyzABCDEFGHIJKLMNOPQRSTUVWXYZ0123456789._",
                "-"
            ),
            false,
        ),
        ("", false),
        ("-rf", false),
        ("x; touch y", false),
        ("$HOME", false),
        ("é", false),
        ("a\n", false),
    ] {
        assert_eq!(rt; is_plain_name(text), want, "{text}");
    }
}
