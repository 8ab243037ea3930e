use plan_base::{Dir, IdFault, MAX, MsatFault, NodeId, Scid, add_fee, read_msat, write_msat};

#[test]
fn node_ids_in_either_case(rt: HostRuntime) {
    let lower = "02aabbccddeeff00112233445566778899aabbccddeeff00112233445566778899";
    let upper = "02AABBCCDDEEFF00112233445566778899AABBCCDDEEFF00112233445566778899";
    let id = NodeId::read(lower);
    assert!(rt; id.is_ok() && id == NodeId::read(upper));
    if let Ok(id) = id {
        assert!(rt;
            id.write(rt.alloc())
                .is_ok_and(|text| text.as_str() == lower)
        );
    }
}

#[test]
fn node_ids_that_are_refused(rt: HostRuntime) {
    for (text, at) in [
        ("", 0),
        ("02", 2),
        (
            "x2aabbccddeeff00112233445566778899aabbccddeeff00112233445566778899",
            0,
        ),
        (
            "04aabbccddeeff00112233445566778899aabbccddeeff00112233445566778899",
            0,
        ),
        (
            "02aabbccddeeff00112233445566778899aabbccddeeff0011223344556677889",
            65,
        ),
        (
            "02aabbccddeeff00112233445566778899aabbccddeeff0011223344556677889g",
            65,
        ),
        (
            "02aabbccddeeff00112233445566778899aabbccddeeff001122334455667788990",
            66,
        ),
        (
            "02aabbccddeeff00112233445566778899aabbccddeeff00112233445566778899g",
            66,
        ),
    ] {
        assert!(rt; NodeId::read(text) == Err(IdFault { at }), "at {at}");
    }
}

#[test]
fn short_channel_ids(rt: HostRuntime) {
    for (text, number, written) in [
        ("100x1x0", 109951162843136, "100x1x0"),
        ("0100x001x00", 109951162843136, "100x1x0"),
        ("0x0x0", 0, "0x0x0"),
        (
            "16777215x16777215x65535",
            u64::MAX,
            "16777215x16777215x65535",
        ),
    ] {
        let scid = Scid::read(text);
        assert!(rt; scid.is_ok(), "{text}");
        if let Ok(scid) = scid {
            assert!(rt; scid.number() == number, "{text}");
            assert!(rt;
                scid.write(rt.alloc())
                    .is_ok_and(|text| text.as_str() == written),
                "{written}"
            );
        }
    }
}

#[test]
fn short_channel_ids_that_are_refused(rt: HostRuntime) {
    for text in [
        "",
        "100x1",
        "100X1x0",
        "100x1x0x0",
        "x1x0",
        "16777216x1x0",
        "1x16777216x0",
        "1x1x65536",
        "-1x1x0",
        "1x+1x0",
    ] {
        assert!(rt; Scid::read(text).is_err(), "{text}");
    }
}

#[test]
fn directions(rt: HostRuntime) {
    for text in ["100x1x0/0", "100x1x0/1"] {
        let dir = Dir::read(text);
        assert!(rt; dir.is_ok(), "{text}");
        if let Ok(dir) = dir {
            assert!(rt;
                dir.write(rt.alloc())
                    .is_ok_and(|written| written.as_str() == text),
                "{text}"
            );
        }
    }
}

#[test]
fn directions_that_are_refused(rt: HostRuntime) {
    for text in [
        "100x1x0",
        "100x1x0/2",
        "100x1x0//0",
        "100x1x0/0/",
        "100x1x0/0/1",
        "100x1x0/",
        "100x1x0/00",
        "100X1x0/0",
        "/0",
    ] {
        assert!(rt; Dir::read(text).is_err(), "{text}");
    }
}

#[test]
fn amounts(rt: HostRuntime) {
    for (text, value) in [
        ("5", 5),
        ("5msat", 5),
        ("0005", 5),
        ("00000000000000000005msat", 5),
        ("2100000000000000000", MAX),
    ] {
        assert!(rt; read_msat(text) == Ok(value), "{text}");
    }
    assert!(rt; write_msat(rt.alloc(), 100000).is_ok_and(|text| text.as_str() == "100000"));
}

#[test]
fn amounts_that_are_refused(rt: HostRuntime) {
    for text in [
        "",
        "msat",
        " 5",
        "+5",
        "5.0",
        "5MSAT",
        "5 msat",
        "5msatmsat",
        "000000000000000000005",
    ] {
        assert!(rt; read_msat(text) == Err(MsatFault::Syntax), "{text}");
    }
    for text in [
        "2100000000000000001",
        "18446744073709551616",
        "99999999999999999999msat",
    ] {
        assert!(rt; read_msat(text) == Err(MsatFault::TooLarge), "{text}");
    }
}

#[test]
fn fees(rt: HostRuntime) {
    assert!(rt; add_fee(0, 1_000, 500) == 1_000);
    assert!(rt; add_fee(100_000, 0, 1_000) == 100_100);
    assert!(rt; add_fee(100_100, 1_000, 1_000) == 101_200);
    assert!(rt; add_fee(999_999, 0, 1) == 999_999);
    assert!(rt; add_fee(u64::MAX, u32::MAX, u32::MAX) == 79_246_609_239_895_598_034_449);
}
