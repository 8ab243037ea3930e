//! Which fault each spoiled map has, and what is read of a good one.
use channel_map::{ChannelMap, Ends, Field, Local, MapFault, read_local, read_map};
use plan_base::{Dir, NodeId};
use std::alloc::{AllocError, Global};
use std::test::Fail;

const A: &str = "\"02aaaaaaaaaaaaaaaaaaaaaaaaaaaaaaaaaaaaaaaaaaaaaaaaaaaaaaaaaaaaaaaa\"";

const B: &str = "\"02bbbbbbbbbbbbbbbbbbbbbbbbbbbbbbbbbbbbbbbbbbbbbbbbbbbbbbbbbbbbbbbb\"";

const UPPER_A: &str = "\"02AAAAAAAAAAAAAAAAAAAAAAAAAAAAAAAAAAAAAAAAAAAAAAAAAAAAAAAAAAAAAAAA\"";

const NO_KEY: &str = "\"04aaaaaaaaaaaaaaaaaaaaaaaaaaaaaaaaaaaaaaaaaaaaaaaaaaaaaaaaaaaaaaaa\"";

// The keys of a good entry.
const GOOD: &[(&str, &str)] = &[
    ("source", A),
    ("destination", B),
    ("short_channel_id", "\"100x1x0\""),
    ("direction", "0"),
    ("public", "true"),
    ("amount_msat", "\"1000msat\""),
    ("message_flags", "1"),
    ("channel_flags", "0"),
    ("active", "true"),
    ("last_update", "1700000000"),
    ("base_fee_millisatoshi", "0"),
    ("fee_per_millionth", "0"),
    ("delay", "6"),
    ("htlc_minimum_msat", "0"),
];

// A key with another value, and the fault of the entry then.
const SPOILED: &[(&str, &str, Option<Field>)] = &[
    ("source", "1", Some(Field::Source)),
    ("source", "null", Some(Field::Source)),
    ("source", "\"02aa\"", Some(Field::Source)),
    ("source", NO_KEY, Some(Field::Source)),
    ("source", UPPER_A, None),
    ("source", B, Some(Field::Destination)),
    ("destination", A, Some(Field::Destination)),
    ("destination", UPPER_A, Some(Field::Destination)),
    ("destination", "null", Some(Field::Destination)),
    ("destination", "[]", Some(Field::Destination)),
    ("short_channel_id", "\"100x1\"", Some(Field::ShortChannelId)),
    (
        "short_channel_id",
        "\"100x1x0/0\"",
        Some(Field::ShortChannelId),
    ),
    (
        "short_channel_id",
        "\"100X1X0\"",
        Some(Field::ShortChannelId),
    ),
    (
        "short_channel_id",
        "\"16777216x1x0\"",
        Some(Field::ShortChannelId),
    ),
    (
        "short_channel_id",
        "\"100x1x65536\"",
        Some(Field::ShortChannelId),
    ),
    (
        "short_channel_id",
        "109951162843136",
        Some(Field::ShortChannelId),
    ),
    ("short_channel_id", "null", Some(Field::ShortChannelId)),
    ("direction", "1", Some(Field::Direction)),
    ("direction", "2", Some(Field::Direction)),
    ("direction", "\"0\"", Some(Field::Direction)),
    ("direction", "0.0", Some(Field::Direction)),
    ("direction", "-0", Some(Field::Direction)),
    ("direction", "false", Some(Field::Direction)),
    ("direction", "null", Some(Field::Direction)),
    ("amount_msat", "2100000000000000001", Some(Field::Amount)),
    (
        "amount_msat",
        "\"2100000000000000001msat\"",
        Some(Field::Amount),
    ),
    ("amount_msat", "18446744073709551616", Some(Field::Amount)),
    ("amount_msat", "1000.0", Some(Field::Amount)),
    ("amount_msat", "1e3", Some(Field::Amount)),
    ("amount_msat", "-1", Some(Field::Amount)),
    ("amount_msat", "\"1000sat\"", Some(Field::Amount)),
    ("amount_msat", "\"+1\"", Some(Field::Amount)),
    ("amount_msat", "true", Some(Field::Amount)),
    ("amount_msat", "null", Some(Field::Amount)),
    ("amount_msat", "0", None),
    ("amount_msat", "\"2100000000000000000\"", None),
    ("active", "1", Some(Field::Active)),
    ("active", "\"true\"", Some(Field::Active)),
    ("active", "null", Some(Field::Active)),
    ("active", "false", None),
    ("base_fee_millisatoshi", "4294967296", Some(Field::BaseFee)),
    ("base_fee_millisatoshi", "\"0\"", Some(Field::BaseFee)),
    ("base_fee_millisatoshi", "-1", Some(Field::BaseFee)),
    ("base_fee_millisatoshi", "null", Some(Field::BaseFee)),
    ("base_fee_millisatoshi", "4294967295", None),
    (
        "fee_per_millionth",
        "4294967296",
        Some(Field::FeePerMillionth),
    ),
    ("fee_per_millionth", "1.0", Some(Field::FeePerMillionth)),
    ("delay", "65536", Some(Field::Delay)),
    ("delay", "\"6\"", Some(Field::Delay)),
    ("delay", "null", Some(Field::Delay)),
    ("delay", "65535", None),
    (
        "htlc_minimum_msat",
        "2100000000000000001",
        Some(Field::HtlcMinimum),
    ),
    ("htlc_minimum_msat", "null", Some(Field::HtlcMinimum)),
    ("htlc_minimum_msat", "\"x\"", Some(Field::HtlcMinimum)),
    ("htlc_maximum_msat", "{}", Some(Field::HtlcMaximum)),
    ("htlc_maximum_msat", "null", Some(Field::HtlcMaximum)),
    ("htlc_maximum_msat", "\"900msat\"", None),
    ("features", "null", None),
];

// A key that is left out, and the fault of the entry then.
const ABSENT: &[(&str, Option<Field>)] = &[
    ("source", Some(Field::Source)),
    ("destination", Some(Field::Destination)),
    ("short_channel_id", Some(Field::ShortChannelId)),
    ("direction", None),
    ("amount_msat", Some(Field::Amount)),
    ("active", None),
    ("base_fee_millisatoshi", Some(Field::BaseFee)),
    ("fee_per_millionth", Some(Field::FeePerMillionth)),
    ("delay", Some(Field::Delay)),
    ("htlc_minimum_msat", None),
];

// A whole text, and its fault.
const TEXTS: &[(&[u8], &str)] = &[
    (b"", "not JSON"),
    (b"{\"channels\":[]", "not JSON"),
    (b"{\"channels\":[1]", "not JSON"),
    (b"{\"channels\":[]} {}", "not JSON"),
    (b"{\"channels\":[],\"a\":1e400}", "not JSON"),
    (b"{\"channels\":[],\"a\":\"\xff\"}", "not JSON"),
    (b"{}", "no channels"),
    (b"[]", "no channels"),
    (b"null", "no channels"),
    (b"{\"channels\":{}}", "no channels"),
    (b"{\"channels\":[],\"channels\":0}", "no channels"),
    (b"{\"result\":[]}", "no channels"),
    (
        b"{\"result\":{\"result\":{\"channels\":[]}}}",
        "no channels",
    ),
    (b"{\"channels\":[1]}", "no object"),
    (
        b"{\"channels\":null,\"result\":{\"channels\":[[]]}}",
        "no object",
    ),
    (b"{\"channels\":[],\"result\":{\"channels\":[[]]}}", "a map"),
    (b"{\"result\":{\"channels\":[]},\"channels\":null}", "a map"),
    (b" { \"channels\" : [ ] } ", "a map"),
];

// The good entry without a key, and with more members at its end. Of a key that stands twice the last value counts.
fn entry(alloc: Global, left_out: &str, more: &str) -> Result<String, AllocError> {
    let mut text = String::from_str(alloc, "{")?;
    for (key, value) in GOOD {
        if *key != left_out {
            text.push_str(format!(in alloc; "\"{key}\":{value},")?.as_str())?;
        }
    }
    text.push_str(more)?;
    text.push_str("\"z\":0}")?;
    Ok(text)
}

fn fault_of(alloc: Global, entries: &str) -> Result<Option<MapFault>, AllocError> {
    let text = format!(in alloc; "{{\"channels\":[{entries}]}}")?;
    Ok(read_map(alloc, text.as_bytes()).err())
}

fn name_of(fault: Option<MapFault>) -> &'static str {
    match fault {
        None => "a map",
        Some(MapFault::NotJson) => "not JSON",
        Some(MapFault::NoChannels) => "no channels",
        Some(
            MapFault::Entry {
                index: 0,
                field: Field::NotObject,
            },
        ) => "no object",
        Some(_) => "another fault",
    }
}

fn entry_fault(index: usize, field: Option<Field>) -> Option<MapFault> {
    match field {
        Some(field) => Some(MapFault::Entry { index, field }),
        None => None,
    }
}

// How many entries a long text has, of about 400 bytes each.
const LONG: usize = 400;

// How a long text begins, what each entry has more, how the text ends, and its fault.
const LONG_TEXTS: &[(&str, &str, &str, &str)] = &[
    ("{\"channels\":[", "", "]}", "a map"),
    (" { \"channels\" :\n[ ", "", " ]\n} ", "a map"),
    ("{\"result\":{\"channels\":[", "", "]}}", "a map"),
    (
        "{\"channels\":[",
        "\"features\":\"},},},},\",",
        "]}",
        "a map",
    ),
    ("{\"channels\":[", "\"a\":[{},{},{},{},{}],", "]}", "a map"),
    ("{\"channels\":[", "", ",]}", "not JSON"),
    ("{\"channels\":[,", "", "]}", "not JSON"),
    ("{\"channels\":[", "", "]} 1", "not JSON"),
    ("{\"channels\":[", "", "]", "not JSON"),
    ("{\"channels\":[", "\"a\":1e400,", "]}", "not JSON"),
    ("{\"channels\":[", "", "],\"channels\":0}", "no channels"),
    ("{\"channel\":[", "", "]}", "no channels"),
];

fn long_text(alloc: Global, start: &str, more: &str, end: &str) -> Result<String, AllocError> {
    let mut text = String::from_str(alloc, start)?;
    for block in 0..LONG {
        let more = format!(in alloc; "{more}\"short_channel_id\":\"{block}x1x0\",")?;
        if block > 0 {
            text.push_str(",\n")?;
        }
        text.push_str(entry(alloc, "", more.as_str())?.as_str())?;
    }
    text.push_str(end)?;
    Ok(text)
}

#[test]
fn long_maps(rt: HostRuntime) -> Result<(), Fail> {
    let alloc = rt.alloc();
    for (start, more, end, name) in LONG_TEXTS {
        let text = long_text(alloc, start, more, end)?;
        let map = read_map(alloc, text.as_bytes());
        let count = match &map {
            Ok(map) => map.dirs().len(),
            Err(_) => 0,
        };
        let found = name_of(map.err());
        assert!(rt; found == *name, "{found} for {start} {more} {end}");
        assert!(rt;
            (count == LONG) == (*name == "a map"),
            "{count} for {start} {more} {end}"
        );
    }
    let text = long_text(alloc, "{\"channels\":[", "", ",1]}")?;
    let fault = read_map(alloc, text.as_bytes()).err();
    assert!(rt;
        fault == entry_fault(LONG, Some(Field::NotObject)),
        "{fault:?}"
    );
    Ok(())
}

#[test]
fn spoiled_maps(rt: HostRuntime) -> Result<(), Fail> {
    let alloc = rt.alloc();
    let good = entry(alloc, "", "")?;
    for (key, value, field) in SPOILED {
        let more = format!(in alloc; "\"{key}\":{value},")?;
        let spoiled = entry(alloc, "", more.as_str())?;
        let fault = fault_of(alloc, spoiled.as_str())?;
        assert!(rt; fault == entry_fault(0, *field), "{key} {value}: {fault:?}");
    }
    for (key, field) in ABSENT {
        let spoiled = entry(alloc, key, "")?;
        let fault = fault_of(alloc, spoiled.as_str())?;
        assert!(rt; fault == entry_fault(0, *field), "without {key}: {fault:?}");
    }
    for (text, name) in TEXTS {
        let found = read_map(alloc, text).err();
        assert!(rt; name_of(found) == *name, "{found:?} for {name}");
    }
    let late = entry(alloc, "delay", "\"active\":0,")?;
    let entries = format!(in alloc; "{good},{good},{late},1")?;
    let fault = fault_of(alloc, entries.as_str())?;
    assert!(rt; fault == entry_fault(2, Some(Field::Active)), "{fault:?}");
    Ok(())
}

#[test]
fn good_maps(rt: HostRuntime) -> Result<(), Fail> {
    let alloc = rt.alloc();
    let (Ok(dir), Ok(other), Ok(node)) = (
        Dir::read("100x1x0/0"),
        Dir::read("99x1x0/1"),
        NodeId::read("02aaaaaaaaaaaaaaaaaaaaaaaaaaaaaaaaaaaaaaaaaaaaaaaaaaaaaaaaaaaaaaaa"),
    ) else {
        return Ok(assert!(rt; false));
    };
    let good = entry(alloc, "", "")?;
    let back = format!(in alloc;
        "\"short_channel_id\":\"99x1x0\",\"source\":{B},\"destination\":{A},\"direction\":1,"
    )?;
    let earlier = entry(alloc, "", back.as_str())?;
    let text = format!(in alloc; "{{\"channels\":[{good}]}}")?;
    let map = read_map(alloc, text.as_bytes());
    assert!(rt;
        map.is_ok_and(|map| {
            let edges = map.dirs();
            edges.len() == 1
                && edges[0].dir == dir
                && edges[0].source == node
                && edges[0].capacity == 1000
                && edges[0].htlc_max == 1000
                && edges[0].htlc_min == 0
                && edges[0].delay == 6
                && edges[0].enabled
        })
    );
    let text = format!(in alloc; "{{\"result\":{{\"channels\":[{good},{earlier}]}}}}")?;
    let map = read_map(alloc, text.as_bytes());
    assert!(rt;
        map.is_ok_and(|map| {
            let nodes = map.nodes();
            nodes.ids.len() == 2
                && nodes.ids[0] == node
                && nodes.ends.as_slice()
                    == [Ends { from: 1, to: 0 }, Ends { from: 0, to: 1 }].as_slice()
        })
    );
    let local = read_local(alloc, text.as_bytes());
    assert!(rt;
        local.is_ok_and(|local| {
            local.dirs().len() == 2
                && local.dirs()[0].dir == other
                && local.dir(&dir).is_some_and(|edge| edge.destination != node)
        })
    );
    let text = format!(in alloc; "{{\"channels\":[{good},{earlier},{good},{earlier}]}}")?;
    assert!(rt; read_map(alloc, text.as_bytes()).err() == Some(MapFault::Twice { dir }));
    assert!(rt;
        ChannelMap::empty(alloc).dir(&dir).is_none() && ChannelMap::empty(alloc).dirs().is_empty()
    );
    assert!(rt; Local::empty(alloc).dir(&dir).is_none() && Local::empty(alloc).dirs().is_empty());
    Ok(())
}
