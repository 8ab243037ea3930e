//! What is read of an object's members, compared with worked examples.
use json::{Invalid, Reader, Scratch};
use json_pass::{Leaf, pass_value, read_object};
use std::alloc::{AllocError, Global};
use std::test::Fail;

// The text of an object, and what is read under its keys `a` and `b`: the first letter of the outline, `-` if absent.
const OBJECTS: &[(&str, &str)] = &[
    (r#"{"a":1,"b":[1,{"a":2}]}"#, "1["),
    (r#"{"b":"x\u0079","c":{"a":[]},"a":null}"#, "nx"),
    (r#"{"a":true,"a":{},"c":0}"#, "{-"),
    (r#"{"a":1,"a":[],"a":false}"#, "f-"),
    (r#"{}"#, "--"),
    (r#"[1]"#, "no object"),
    (r#""a""#, "no object"),
    (r#"{"a":1e400}"#, "unreadable"),
    (r#"{"a":1,}"#, "unreadable"),
    (r#"{"a":[[[]]]}"#, "unreadable"),
    (r#"{"a" 1}"#, "unreadable"),
    (r#""#, "unreadable"),
];

fn shown(slot: Option<Leaf<'_>>) -> char {
    match slot {
        None => '-',
        Some(Leaf::Null) => 'n',
        Some(Leaf::Bool(true)) => 't',
        Some(Leaf::Bool(false)) => 'f',
        Some(Leaf::Number(_)) => '1',
        Some(Leaf::Text(text)) => text.chars().next().unwrap_or('"'),
        Some(Leaf::Array) => '[',
        Some(Leaf::Object) => '{',
    }
}

fn members(alloc: Global, text: &str) -> Result<String, AllocError> {
    let mut scratch = Scratch::new(alloc);
    let mut reader = Reader::new(text, &mut scratch)?;
    let names = ["a", "b"];
    let mut slots = [None; 2];
    match read_object(&mut reader, 3, &names, &mut slots) {
        Ok(true) => format!(in alloc; "{}{}", shown(slots[0]), shown(slots[1])),
        Ok(false) => String::from_str(alloc, "no object"),
        Err(Invalid) => String::from_str(alloc, "unreadable"),
    }
}

#[test]
fn members_of_objects(rt: HostRuntime) -> Result<(), Fail> {
    for (text, found) in OBJECTS {
        let shown = members(rt.alloc(), text)?;
        assert!(rt; shown.as_str() == *found, "{text}: {shown}");
    }
    let mut scratch = Scratch::new(rt.alloc());
    let mut reader = Reader::new("[[]] 1", &mut scratch)?;
    assert!(rt; matches!(pass_value(&mut reader, 2), Ok(Leaf::Array)));
    assert!(rt; pass_value(&mut reader, 2).is_err());
    Ok(())
}
