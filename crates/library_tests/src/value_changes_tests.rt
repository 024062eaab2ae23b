use canonical_json::{Value, read, write};
use std::alloc::{AllocError, AllocGlobal, Global};
use std::process::Abort;
use std::test::Fail;
use value_changes::{Change, CompareFault, Step, changes};

// The steps as `.name` and `[index]`.
fn put_place(place: &[Step], out: &mut Vec<u8>) -> Result<(), AllocError> {
    for step in place {
        match step {
            Step::Member(name) => {
                out.push(b'.')?;
                out.extend_from_slice(name.as_bytes())?;
            }
            Step::Item(index) => {
                out.push(b'[')?;
                out.push(b'0' + (*index % 10) as u8)?;
                out.push(b']')?;
            }
        }
    }
    Ok(())
}

fn put_side(side: Option<&Value>, out: &mut Vec<u8>) -> Result<(), Fail> {
    match side {
        Some(value) => write(value, out)?,
        None => out.extend_from_slice(b"nothing")?,
    }
    Ok(())
}

// The changes as `PLACE: BEFORE -> AFTER`, each with a line feed.
fn told(alloc: Global, list: &[Change]) -> Result<Vec<u8>, Fail> {
    let mut out = Vec::new(alloc);
    for change in list {
        put_place(change.place.as_slice(), &mut out)?;
        out.extend_from_slice(b": ")?;
        put_side(change.before, &mut out)?;
        out.extend_from_slice(b" -> ")?;
        put_side(change.after, &mut out)?;
        out.push(b'\n')?;
    }
    Ok(out)
}

// The changes between the values of the two texts are told so.
fn tells(
    rt: &(impl Abort + AllocGlobal),
    before: &str,
    after: &str,
    wanted: &str,
) -> Result<(), Fail> {
    let alloc = rt.alloc();
    let one = read(alloc, before.as_bytes())?;
    let other = read(alloc, after.as_bytes())?;
    let list = changes(alloc, &one, &other)?;
    let text = told(alloc, list.as_slice())?;
    assert!(rt; text.as_slice() == wanted.as_bytes(), "{before} {after}");
    Ok(())
}

#[test]
fn tells_a_threshold(rt: HostRuntime) -> Result<(), Fail> {
    tells(
        &rt,
        r#"{"roles":{"root":{"keyids":["a"],"threshold":1}},"version":1}"#,
        r#"{"roles":{"root":{"keyids":["a"],"threshold":2}},"version":1}"#,
        ".roles.root.threshold: 1 -> 2\n",
    )
}

// One target is added, one taken off, and one has another custom part. The names rise by bytes: upper case first.
#[test]
fn tells_targets(rt: HostRuntime) -> Result<(), Fail> {
    tells(
        &rt,
        r#"{"targets":{"a":{"length":1},"b":{"custom":{"n":1},"length":2},"c":{"length":3}}}"#,
        r#"{"targets":{"B":{"length":4},"b":{"custom":{"n":1,"o":2},"length":2},"c":{"length":3}}}"#,
        ".targets.B: nothing -> {\"length\":4}\n.targets.a: {\"length\":1} -> nothing\n.targets.b.custom.o: nothing -> 2\n",
    )
}

#[test]
fn tells_items(rt: HostRuntime) -> Result<(), Fail> {
    tells(
        &rt,
        r#"{"delegations":{"roles":[{"name":"a","terminating":false},{"name":"b"}]}}"#,
        r#"{"delegations":{"roles":[{"name":"a","terminating":true},{"name":"b"}]}}"#,
        ".delegations.roles[0].terminating: false -> true\n",
    )?;
    tells(&rt, "[1,2]", "[1,2,3]", "[2]: nothing -> 3\n")?;
    tells(&rt, "[1,2]", "[2]", "[0]: 1 -> 2\n[1]: 2 -> nothing\n")?;
    tells(
        &rt,
        "[[],[1]]",
        "[[1],[]]",
        "[0][0]: nothing -> 1\n[1][0]: 1 -> nothing\n",
    )
}

#[test]
fn tells_other_kinds(rt: HostRuntime) -> Result<(), Fail> {
    tells(&rt, r#"{"a":{}}"#, r#"{"a":"x"}"#, ".a: {} -> \"x\"\n")?;
    tells(&rt, r#"{"a":null}"#, "{}", ".a: null -> nothing\n")?;
    tells(&rt, "{}", r#"{"a":null}"#, ".a: nothing -> null\n")?;
    tells(&rt, "{}", "[]", ": {} -> []\n")?;
    tells(&rt, "1", "\"1\"", ": 1 -> \"1\"\n")?;
    tells(&rt, "\"ab\"", "\"ac\"", ": \"ab\" -> \"ac\"\n")?;
    tells(&rt, "null", "false", ": null -> false\n")
}

#[test]
fn tells_nothing_of_equal_values(rt: HostRuntime) -> Result<(), Fail> {
    for text in [
        "null",
        "true",
        "-7",
        "\"x\"",
        "[]",
        "{}",
        r#"[1,{"a":[null,{}],"b":"c"},[[]]]"#,
    ] {
        tells(&rt, text, text, "")?;
    }
    Ok(())
}

fn object(alloc: Global, names: [&str; 2]) -> Result<Value, AllocError> {
    let mut members = Vec::with_capacity(alloc, 2)?;
    for name in names {
        members.push((String::from_str(alloc, name)?, Value::Null))?;
    }
    Ok(Value::Object(members))
}

// No reader gives such a value. An object that stands on one side alone is not walked.
#[test]
fn refuses_names_out_of_order(rt: HostRuntime) -> Result<(), Fail> {
    let alloc = rt.alloc();
    let good = object(alloc, ["a", "b"])?;
    for names in [["b", "a"], ["a", "a"]] {
        let bad = object(alloc, names)?;
        assert!(rt; changes(alloc, &bad, &good).err() == Some(CompareFault::Unordered));
        assert!(rt; changes(alloc, &good, &bad).err() == Some(CompareFault::Unordered));
        let list = changes(alloc, &bad, &Value::Null)?;
        assert_eq!(rt; list.len(), 1);
    }
    Ok(())
}

#[test]
fn has_messages(rt: HostRuntime) -> Result<(), Fail> {
    for (fault, message) in [
        (CompareFault::Unordered, "member names out of order"),
        (CompareFault::OutOfMemory, "out of memory"),
    ] {
        assert!(rt; fault.to_string(rt.alloc())?.as_str() == message);
    }
    Ok(())
}
