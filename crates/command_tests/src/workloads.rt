use port_io::Sink;
use std::test::Fail;
use workload::{
    GrowingSink, ask_lines, count_replies, ends_differ, limit_values, map_text, summary_line,
};

// The draws of these rows were computed apart from this program.
const MAPS: &[(u64, u32, u32, &str)] = &[
    (1, 2, 0, "{\"channels\":[]}"),
    (
        1,
        2,
        1,
        "{\"channels\":[{\"amount_msat\":4154000000,\"base_fee_millisatoshi\":196,\"delay\":8,\"destination\":\"020000000000000000000000000000000000000000000000000000000000000002\",\"fee_per_millionth\":370,\"short_channel_id\":\"1x0x0\",\"source\":\"020000000000000000000000000000000000000000000000000000000000000001\"},{\"amount_msat\":4154000000,\"base_fee_millisatoshi\":795,\"delay\":25,\"destination\":\"020000000000000000000000000000000000000000000000000000000000000001\",\"fee_per_millionth\":130,\"short_channel_id\":\"1x0x0\",\"source\":\"020000000000000000000000000000000000000000000000000000000000000002\"}]}",
    ),
    (
        7,
        5,
        2,
        "{\"channels\":[{\"amount_msat\":3232000000,\"base_fee_millisatoshi\":753,\"delay\":86,\"destination\":\"020000000000000000000000000000000000000000000000000000000000000004\",\"fee_per_millionth\":173,\"short_channel_id\":\"1x0x0\",\"source\":\"020000000000000000000000000000000000000000000000000000000000000001\"},{\"amount_msat\":3232000000,\"base_fee_millisatoshi\":219,\"delay\":142,\"destination\":\"020000000000000000000000000000000000000000000000000000000000000001\",\"fee_per_millionth\":364,\"short_channel_id\":\"1x0x0\",\"source\":\"020000000000000000000000000000000000000000000000000000000000000004\"},{\"amount_msat\":687000000,\"base_fee_millisatoshi\":195,\"delay\":15,\"destination\":\"020000000000000000000000000000000000000000000000000000000000000001\",\"fee_per_millionth\":75,\"short_channel_id\":\"1x1x0\",\"source\":\"020000000000000000000000000000000000000000000000000000000000000002\"},{\"amount_msat\":687000000,\"base_fee_millisatoshi\":280,\"delay\":7,\"destination\":\"020000000000000000000000000000000000000000000000000000000000000002\",\"fee_per_millionth\":449,\"short_channel_id\":\"1x1x0\",\"source\":\"020000000000000000000000000000000000000000000000000000000000000001\"}]}",
    ),
];

const REQUESTS: &[(u64, u32, u32, u32, &str)] = &[
    (1, 2, 0, 0, ""),
    (
        1,
        2,
        0,
        1,
        "{\"id\":0,\"method\":\"getroutes\",\"params\":{\"amount_msat\":1197000000,\"destination\":\"020000000000000000000000000000000000000000000000000000000000000002\",\"final_cltv\":18,\"layers\":[],\"maxdelay\":65535,\"maxfee_msat\":2100000000000000000,\"maxparts\":100,\"source\":\"020000000000000000000000000000000000000000000000000000000000000001\"}}\n",
    ),
    (
        7,
        5,
        2,
        2,
        "{\"id\":0,\"method\":\"getroutes\",\"params\":{\"amount_msat\":797000000,\"destination\":\"020000000000000000000000000000000000000000000000000000000000000005\",\"final_cltv\":18,\"layers\":[],\"maxdelay\":65535,\"maxfee_msat\":2100000000000000000,\"maxparts\":100,\"source\":\"020000000000000000000000000000000000000000000000000000000000000001\"}}\n{\"id\":1,\"method\":\"getroutes\",\"params\":{\"amount_msat\":1794000000,\"destination\":\"020000000000000000000000000000000000000000000000000000000000000003\",\"final_cltv\":18,\"layers\":[],\"maxdelay\":65535,\"maxfee_msat\":2100000000000000000,\"maxparts\":100,\"source\":\"020000000000000000000000000000000000000000000000000000000000000002\"}}\n",
    ),
];

const REPLIES: &str =
    "{\"id\":0,\"jsonrpc\":\"2.0\",\"result\":{\"at\":0,\"fee_msat\":7,\"probability_ppm\":1,\"rounds\":[{\"fault\":{\"fee_msat\":90,\"kind\":\"fee\"}}],\"routes\":[{\"amount_msat\":60,\"path\":[{\"amount_msat\":67}]},{\"amount_msat\":40,\"path\":[]}]}}\n{\"error\":{\"code\":205,\"data\":{\"at\":1},\"message\":\"no flow\"},\"id\":1,\"jsonrpc\":\"2.0\"}\n{\"error\":{\"code\":399,\"data\":{},\"message\":\"out of memory\"},\"id\":2,\"jsonrpc\":\"2.0\"}\n{\"id\":3,\"jsonrpc\":\"2.0\",\"result\":{\"at\":3,\"fee_msat\":18446744073709551615,\"routes\":[{\"amount_msat\":18446744073709551615}]}}\n";

#[test]
fn maps(rt: HostRuntime) -> Result<(), Fail> {
    for (number, nodes, channels, wanted) in MAPS {
        let text = map_text(rt.alloc(), *number, *nodes, *channels)?;
        assert!(rt;
            text.as_slice() == wanted.as_bytes(),
            "{number} {nodes} {channels}"
        );
    }
    Ok(())
}

#[test]
fn requests(rt: HostRuntime) -> Result<(), Fail> {
    for (number, nodes, channels, asks, wanted) in REQUESTS {
        let text = ask_lines(rt.alloc(), *number, *nodes, *channels, *asks)?;
        assert!(rt;
            text.as_slice() == wanted.as_bytes(),
            "{number} {nodes} {channels} {asks}"
        );
    }
    Ok(())
}

#[test]
fn replies_are_added_up(rt: HostRuntime) -> Result<(), Fail> {
    let alloc = rt.alloc();
    let totals = count_replies(alloc, REPLIES.as_bytes())?;
    assert!(rt; totals.out_of_memory == 1);
    let line = summary_line(alloc, 4, &totals)?;
    let wanted =
        "asks 4 routed 2 refused 2 parts 3 amount_msat 18446744073709551715 fee_msat 18446744073709551622\n";
    assert!(rt; line.as_slice() == wanted.as_bytes());
    Ok(())
}

#[test]
fn a_growing_sink_takes_all(rt: HostRuntime) -> Result<(), Fail> {
    let mut sink = GrowingSink::new(rt.alloc());
    assert!(rt; sink.write(b"asks ") == Ok(5));
    assert!(rt; sink.write(b"3\n") == Ok(2));
    assert!(rt; sink.bytes() == b"asks 3\n".as_slice());
    Ok(())
}

#[test]
fn the_laws(rt: HostRuntime) {
    limit_values();
    ends_differ();
}
