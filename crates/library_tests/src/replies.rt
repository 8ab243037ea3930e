//! The lines of replies.
use askrene_command::{EventReply, Listed, Refusal};
use layer::{Bias, Bound, Constraint, Created, Layer, Name, Update};
use plan_answer::{
    event_body, invalid_params, invalid_request, journal_full, line_too_long, method_not_found,
    out_of_memory, out_of_memory_at, parse_error,
};
use plan_base::{Dir, Items, NoMemory, NodeId, Reservation, Scid};
use rpc_lines::{Body, Id, Reply, write_reply};
use std::alloc::Global;

// Whether the reply with this body is written as this line and LF.
fn is_line(alloc: Global, body: Result<Body, NoMemory>, text: &str) -> bool {
    let Ok(body) = body else {
        return false;
    };
    let reply = Reply { id: Id::Null, body };
    let (Ok(line), Ok(expected)) = (write_reply(alloc, &reply), format!(in alloc; "{text}\n"))
    else {
        return false;
    };
    line.as_slice() == expected.as_bytes()
}

// The body of a reply that is no routes.
fn body_of(alloc: Global, at: u64, reply: &EventReply) -> Result<Body, NoMemory> {
    if reply.is_routes() {
        return Err(NoMemory);
    }
    event_body(alloc, at, reply)
}

fn dir() -> Option<Dir> {
    Dir::read("100x3x0/0").ok()
}

fn node(text: &str) -> Option<NodeId> {
    NodeId::read(text).ok()
}

fn constraint(bound: Bound) -> Option<Constraint> {
    Some(Constraint {
        dir: dir()?,
        bound,
        amount: 499,
        moment: 100,
    })
}

#[test]
fn results(rt: HostRuntime) {
    let alloc = rt.alloc();
    for (at, reply, text) in [
        (
            0,
            EventReply::Done,
            r#"{"id":null,"jsonrpc":"2.0","result":{"at":0}}"#,
        ),
        (
            7,
            EventReply::Removed { count: 3 },
            r#"{"id":null,"jsonrpc":"2.0","result":{"at":7,"num_removed":3}}"#,
        ),
        (
            1,
            EventReply::Informed { constraint: None },
            r#"{"id":null,"jsonrpc":"2.0","result":{"at":1,"constraints":[]}}"#,
        ),
        (
            2,
            EventReply::Informed {
                constraint: constraint(Bound::Max),
            },
            r#"{"id":null,"jsonrpc":"2.0","result":{"at":2,"constraints":[{"maximum_msat":499,"short_channel_id_dir":"100x3x0/0","timestamp":100}]}}"#,
        ),
        (
            3,
            EventReply::Informed {
                constraint: constraint(Bound::Min),
            },
            r#"{"id":null,"jsonrpc":"2.0","result":{"at":3,"constraints":[{"minimum_msat":499,"short_channel_id_dir":"100x3x0/0","timestamp":100}]}}"#,
        ),
        (
            4,
            EventReply::Layers(Items::new(alloc)),
            r#"{"id":null,"jsonrpc":"2.0","result":{"at":4,"layers":[]}}"#,
        ),
    ] {
        assert!(rt; is_line(alloc, body_of(alloc, at, &reply), text), "at {at}");
    }
}

const A: &str = "02aaaaaaaaaaaaaaaaaaaaaaaaaaaaaaaaaaaaaaaaaaaaaaaaaaaaaaaaaaaaaaaa";

const B: &str = "02bbbbbbbbbbbbbbbbbbbbbbbbbbbbbbbbbbbbbbbbbbbbbbbbbbbbbbbbbbbbbbbb";

fn listed(alloc: Global, layer: Layer) -> Option<EventReply> {
    let name = Name::read(alloc, "x").ok()?;
    let mut layers = Items::new(alloc);
    layers.push(Listed { name, layer }).ok()?;
    Some(EventReply::Layers(layers))
}

fn with_bias(alloc: Global) -> Option<EventReply> {
    let mut layer = Layer::new(alloc);
    layer
        .push_bias(Bias {
            dir: dir()?,
            bias: 5,
        })
        .ok()?;
    layer.push_disabled(node(B)?).ok()?;
    listed(alloc, layer)
}

fn with_bare_update(alloc: Global) -> Option<EventReply> {
    let mut layer = Layer::new(alloc);
    layer
        .push_update(Update {
            dir: dir()?,
            enabled: None,
            htlc_min: None,
            htlc_max: None,
            base: None,
            ppm: None,
            delay: None,
        })
        .ok()?;
    listed(alloc, layer)
}

fn with_all(alloc: Global) -> Option<EventReply> {
    let (source, destination) = (node(A)?, node(B)?);
    if source == destination {
        return None;
    }
    let scid = Scid::read("100x3x0").ok()?;
    let dir = Dir { scid, side: 1 };
    let mut layer = Layer::new(alloc);
    layer
        .push_created(Created {
            scid,
            source,
            destination,
            capacity: 1_000_000,
        })
        .ok()?;
    layer
        .push_update(Update {
            dir,
            enabled: Some(true),
            htlc_min: Some(0),
            htlc_max: Some(1000),
            base: Some(2),
            ppm: Some(3),
            delay: Some(6),
        })
        .ok()?;
    layer
        .push_constraint(Constraint {
            dir,
            bound: Bound::Min,
            amount: 499,
            moment: 100,
        })
        .ok()?;
    layer.push_bias(Bias { dir, bias: -7 }).ok()?;
    layer.push_disabled(destination).ok()?;
    listed(alloc, layer)
}

#[test]
fn layers(rt: HostRuntime) {
    let alloc = rt.alloc();
    for (at, reply, text) in [
        (
            3,
            with_bias(alloc),
            r#"{"id":null,"jsonrpc":"2.0","result":{"at":3,"layers":[{"biases":[{"bias":5,"short_channel_id_dir":"100x3x0/0"}],"channel_updates":[],"constraints":[],"created_channels":[],"disabled_nodes":["02bbbbbbbbbbbbbbbbbbbbbbbbbbbbbbbbbbbbbbbbbbbbbbbbbbbbbbbbbbbbbbbb"],"layer":"x"}]}}"#,
        ),
        (
            4,
            with_bare_update(alloc),
            r#"{"id":null,"jsonrpc":"2.0","result":{"at":4,"layers":[{"biases":[],"channel_updates":[{"short_channel_id_dir":"100x3x0/0"}],"constraints":[],"created_channels":[],"disabled_nodes":[],"layer":"x"}]}}"#,
        ),
        (
            5,
            with_all(alloc),
            r#"{"id":null,"jsonrpc":"2.0","result":{"at":5,"layers":[{"biases":[{"bias":-7,"short_channel_id_dir":"100x3x0/1"}],"channel_updates":[{"cltv_expiry_delta":6,"enabled":true,"fee_base_msat":2,"fee_proportional_millionths":3,"htlc_maximum_msat":1000,"htlc_minimum_msat":0,"short_channel_id_dir":"100x3x0/1"}],"constraints":[{"minimum_msat":499,"short_channel_id_dir":"100x3x0/1","timestamp":100}],"created_channels":[{"capacity_msat":1000000,"destination":"02bbbbbbbbbbbbbbbbbbbbbbbbbbbbbbbbbbbbbbbbbbbbbbbbbbbbbbbbbbbbbbbb","short_channel_id":"100x3x0","source":"02aaaaaaaaaaaaaaaaaaaaaaaaaaaaaaaaaaaaaaaaaaaaaaaaaaaaaaaaaaaaaaaa"}],"disabled_nodes":["02bbbbbbbbbbbbbbbbbbbbbbbbbbbbbbbbbbbbbbbbbbbbbbbbbbbbbbbbbbbbbbbb"],"layer":"x"}]}}"#,
        ),
    ] {
        let Some(reply) = reply else {
            panic!(rt; "no layer at {at}");
        };
        assert!(rt; is_line(alloc, body_of(alloc, at, &reply), text), "at {at}");
    }
}

#[test]
fn refusals(rt: HostRuntime) {
    let alloc = rt.alloc();
    let (Ok(exists), Ok(unknown), Ok(full), Ok(created), Ok(scid)) = (
        Name::read(alloc, "x"),
        Name::read(alloc, "y"),
        Name::read(alloc, "\"z\""),
        Name::read(alloc, "x"),
        Scid::read("100x3x0"),
    ) else {
        panic!(rt; "no names");
    };
    for (at, refusal, text) in [
        (
            1,
            Refusal::LayerExists { layer: exists },
            r#"{"error":{"code":301,"data":{"at":1,"layer":"x"},"message":"layer exists"},"id":null,"jsonrpc":"2.0"}"#,
        ),
        (
            2,
            Refusal::LayerUnknown { layer: unknown },
            r#"{"error":{"code":302,"data":{"at":2,"layer":"y"},"message":"unknown layer"},"id":null,"jsonrpc":"2.0"}"#,
        ),
        (
            1024,
            Refusal::LayersFull { count: 1024 },
            r#"{"error":{"code":304,"data":{"at":1024,"count":1024},"message":"too many layers"},"id":null,"jsonrpc":"2.0"}"#,
        ),
        (
            2,
            Refusal::ChannelExists {
                layer: created,
                scid,
            },
            r#"{"error":{"code":303,"data":{"at":2,"layer":"x","short_channel_id":"100x3x0"},"message":"channel exists"},"id":null,"jsonrpc":"2.0"}"#,
        ),
        (
            65537,
            Refusal::LayerFull { layer: full },
            r#"{"error":{"code":304,"data":{"at":65537,"layer":"\"z\""},"message":"layer full"},"id":null,"jsonrpc":"2.0"}"#,
        ),
        (
            2,
            Refusal::NotReserved { index: 1 },
            r#"{"error":{"code":305,"data":{"at":2,"index":1},"message":"not reserved"},"id":null,"jsonrpc":"2.0"}"#,
        ),
        (
            3,
            Refusal::ReservationsFull { length: 65536 },
            r#"{"error":{"code":307,"data":{"at":3,"length":65536},"message":"too many reservations"},"id":null,"jsonrpc":"2.0"}"#,
        ),
    ] {
        let reply = EventReply::Refused(refusal);
        assert!(rt;
            is_line(alloc, body_of(alloc, at, &reply), text),
            "not {text}"
        );
    }
}

// the list of a reservation made at 100, by the time of listing
const RESERVATION_LISTS: &[(u64, &str)] = &[
    (
        130,
        r#"{"id":null,"jsonrpc":"2.0","result":{"at":1,"reservations":[{"age_in_seconds":30,"amount_msat":5,"caller":0,"short_channel_id_dir":"100x1x0/0"}]}}"#,
    ),
    (
        90,
        r#"{"id":null,"jsonrpc":"2.0","result":{"at":1,"reservations":[{"age_in_seconds":0,"amount_msat":5,"caller":0,"short_channel_id_dir":"100x1x0/0"}]}}"#,
    ),
];

fn listed_at(alloc: Global, now: u64) -> Option<EventReply> {
    let mut list = Items::new(alloc);
    list.push(Reservation {
        dir: Dir::read("100x1x0/0").ok()?,
        amount: 5,
        caller: 0,
        moment: 100,
    })
    .ok()?;
    Some(EventReply::Reservations { now, list })
}

fn lists_reservations(alloc: Global, now: u64, text: &str) -> bool {
    match listed_at(alloc, now) {
        Some(reply) => is_line(alloc, body_of(alloc, 1, &reply), text),
        None => false,
    }
}

#[test]
fn reservations(rt: HostRuntime) {
    let alloc = rt.alloc();
    for (now, text) in RESERVATION_LISTS {
        assert!(rt; lists_reservations(alloc, *now, text), "now {now}");
    }
}

#[test]
fn errors_without_an_entry(rt: HostRuntime) {
    let alloc = rt.alloc();
    for (body, text) in [
        (
            parse_error(alloc),
            r#"{"error":{"code":-32700,"data":{},"message":"parse error"},"id":null,"jsonrpc":"2.0"}"#,
        ),
        (
            invalid_request(alloc),
            r#"{"error":{"code":-32600,"data":{},"message":"invalid request"},"id":null,"jsonrpc":"2.0"}"#,
        ),
        (
            method_not_found(alloc, "pay"),
            r#"{"error":{"code":-32601,"data":{"method":"pay"},"message":"method not found"},"id":null,"jsonrpc":"2.0"}"#,
        ),
        (
            invalid_params(alloc, "amount_msat"),
            r#"{"error":{"code":-32602,"data":{"name":"amount_msat"},"message":"invalid params"},"id":null,"jsonrpc":"2.0"}"#,
        ),
        (
            line_too_long(alloc),
            r#"{"error":{"code":310,"data":{},"message":"line too long"},"id":null,"jsonrpc":"2.0"}"#,
        ),
        (
            journal_full(alloc, 4194304),
            r#"{"error":{"code":306,"data":{"length":4194304},"message":"journal full"},"id":null,"jsonrpc":"2.0"}"#,
        ),
        (
            out_of_memory(alloc),
            r#"{"error":{"code":399,"data":{},"message":"out of memory"},"id":null,"jsonrpc":"2.0"}"#,
        ),
        (
            out_of_memory_at(alloc, 5),
            r#"{"error":{"code":399,"data":{"at":5},"message":"out of memory"},"id":null,"jsonrpc":"2.0"}"#,
        ),
    ] {
        assert!(rt; is_line(alloc, body, text), "not {text}");
    }
}
