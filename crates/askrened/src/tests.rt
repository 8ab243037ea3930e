use crate::rows::{AMOUNTS, CERTIFIED, FILES, LAYERS, LIMITS, PATHS, Row};
use crate::run::run;
use crate::status::Status;
use channel_map::MapFault;
use plan_base::Dir;
use port_io::{MemClock, MemPlaces, MemSink, MemSource};
use std::alloc::Global;
use std::test::Fail;

/// What a run over streams in memory wrote, and how it ended.
#[derive(Drop)]
struct Outcome {
    status: Status,
    sink: MemSink,
}

/// Runs a command on an input that comes and goes in pieces; the calls that are listed fail. The clock gives 100 and then
/// 130.
fn go(
    alloc: Global,
    words: &[&str],
    places: &mut MemPlaces,
    input: &[u8],
    piece: usize,
    reads: &[u64],
    writes: &[u64],
) -> Result<Outcome, Fail> {
    let mut texts = Vec::new(alloc);
    for word in words {
        texts.push(word.to_string(alloc)?)?;
    }
    let piece = piece.max(1);
    let mut source = MemSource::new(input.to_vec(alloc)?, piece, reads.to_vec(alloc)?);
    let mut sink = MemSink::new(alloc, piece, writes.to_vec(alloc)?);
    sink.reserve(65_536)?;
    let mut clock = MemClock::new(vec![in alloc; 100, 130]?);
    let status = run(alloc, &texts, places, &mut source, &mut sink, &mut clock);
    Ok(Outcome { status, sink })
}

/// Runs a command without files.
fn go_alone(
    alloc: Global,
    word: &str,
    input: &[u8],
    piece: usize,
    reads: &[u64],
    writes: &[u64],
) -> Result<Outcome, Fail> {
    let mut places = MemPlaces::new(Vec::new(alloc), Vec::new(alloc));
    go(alloc, &[word], &mut places, input, piece, reads, writes)
}

/// Runs `ask` on an input.
fn ask(
    alloc: Global,
    input: &[u8],
    piece: usize,
    reads: &[u64],
    writes: &[u64],
) -> Result<Outcome, Fail> {
    go_alone(alloc, "ask", input, piece, reads, writes)
}

const FIRST: &str = "{\"id\":1,\"method\":\"askrene-create-layer\",\"params\":{\"layer\":\"x\"}}\n";

const MADE: &str = "{\"id\":1,\"jsonrpc\":\"2.0\",\"result\":{\"at\":0}}\n";

const LONG: &str =
    "{\"error\":{\"code\":310,\"data\":{},\"message\":\"line too long\"},\"id\":null,\"jsonrpc\":\"2.0\"}\n";

/// Lines and their replies, with 100 and then 130 as the moments.
const REPLIES: &[(&str, &str)] = &[
    ("", ""),
    (
        "{\"id\":1,\"method\":\"askrene-create-layer\",\"params\":{\"layer\":\"x\"}}\n{\"id\":2,\"method\":\"askrene-create-layer\",\"params\":{\"layer\":\"x\"}}",
        "{\"id\":1,\"jsonrpc\":\"2.0\",\"result\":{\"at\":0}}\n{\"error\":{\"code\":301,\"data\":{\"at\":1,\"layer\":\"x\"},\"message\":\"layer exists\"},\"id\":2,\"jsonrpc\":\"2.0\"}\n",
    ),
    (
        "\n{\"method\":\"askrene-create-layer\",\"params\":[\"x\"]}\n \r\n",
        "{\"id\":null,\"jsonrpc\":\"2.0\",\"result\":{\"at\":0}}\n",
    ),
    (
        "{\"id\":1,\"method\":\"askrene-create-layer\",\"params\":[\"x\"]}\n{\"id\":2,\"method\":\"askrene-bias-channel\",\"params\":[\"x\",\"100x3x0/0\",5]}\n{\"id\":3,\"method\":\"askrene-disable-node\",\"params\":{\"node\":\"02BBBBBBBBBBBBBBBBBBBBBBBBBBBBBBBBBBBBBBBBBBBBBBBBBBBBBBBBBBBBBBBB\",\"layer\":\"x\"}}\n{\"id\":4,\"method\":\"askrene-listlayers\",\"params\":[\"x\"]}",
        "{\"id\":1,\"jsonrpc\":\"2.0\",\"result\":{\"at\":0}}\n{\"id\":2,\"jsonrpc\":\"2.0\",\"result\":{\"at\":1}}\n{\"id\":3,\"jsonrpc\":\"2.0\",\"result\":{\"at\":2}}\n{\"id\":4,\"jsonrpc\":\"2.0\",\"result\":{\"at\":3,\"layers\":[{\"biases\":[{\"bias\":5,\"short_channel_id_dir\":\"100x3x0/0\"}],\"channel_updates\":[],\"constraints\":[],\"created_channels\":[],\"disabled_nodes\":[\"02bbbbbbbbbbbbbbbbbbbbbbbbbbbbbbbbbbbbbbbbbbbbbbbbbbbbbbbbbbbbbbbb\"],\"layer\":\"x\"}]}}\n",
    ),
    (
        "{\"id\":1,\"method\":\"askrene-create-layer\",\"params\":[\"x\"]}\n{\"id\":2,\"method\":\"askrene-bias-channel\",\"params\":[\"x\",\"100x3x0/0\",5]}\n{\"id\":3,\"method\":\"askrene-bias-channel\",\"params\":[\"x\",\"100x3x0/0\",6]}\n{\"id\":4,\"method\":\"askrene-bias-channel\",\"params\":[\"x\",\"100x2x0/0\",1]}\n{\"id\":5,\"method\":\"askrene-update-channel\",\"params\":{\"layer\":\"x\",\"short_channel_id_dir\":\"100x3x0/0\",\"fee_base_msat\":7}}\n{\"id\":6,\"method\":\"askrene-update-channel\",\"params\":{\"layer\":\"x\",\"short_channel_id_dir\":\"100x3x0/0\",\"fee_proportional_millionths\":9}}\n{\"id\":7,\"method\":\"askrene-listlayers\",\"params\":{}}\n{\"id\":8,\"method\":\"askrene-remove-layer\",\"params\":[\"x\"]}\n{\"id\":9,\"method\":\"askrene-listlayers\",\"params\":[null]}\n{\"id\":10,\"method\":\"askrene-age\",\"params\":[\"x\",1]}",
        "{\"id\":1,\"jsonrpc\":\"2.0\",\"result\":{\"at\":0}}\n{\"id\":2,\"jsonrpc\":\"2.0\",\"result\":{\"at\":1}}\n{\"id\":3,\"jsonrpc\":\"2.0\",\"result\":{\"at\":2}}\n{\"id\":4,\"jsonrpc\":\"2.0\",\"result\":{\"at\":3}}\n{\"id\":5,\"jsonrpc\":\"2.0\",\"result\":{\"at\":4}}\n{\"id\":6,\"jsonrpc\":\"2.0\",\"result\":{\"at\":5}}\n{\"id\":7,\"jsonrpc\":\"2.0\",\"result\":{\"at\":6,\"layers\":[{\"biases\":[{\"bias\":6,\"short_channel_id_dir\":\"100x3x0/0\"},{\"bias\":1,\"short_channel_id_dir\":\"100x2x0/0\"}],\"channel_updates\":[{\"fee_base_msat\":7,\"fee_proportional_millionths\":9,\"short_channel_id_dir\":\"100x3x0/0\"}],\"constraints\":[],\"created_channels\":[],\"disabled_nodes\":[],\"layer\":\"x\"}]}}\n{\"id\":8,\"jsonrpc\":\"2.0\",\"result\":{\"at\":7}}\n{\"id\":9,\"jsonrpc\":\"2.0\",\"result\":{\"at\":8,\"layers\":[]}}\n{\"error\":{\"code\":302,\"data\":{\"at\":9,\"layer\":\"x\"},\"message\":\"unknown layer\"},\"id\":10,\"jsonrpc\":\"2.0\"}\n",
    ),
    (
        "{\"id\":1,\"method\":\"askrene-create-layer\",\"params\":[\"x\"]}\n{\"id\":2,\"method\":\"askrene-inform-channel\",\"params\":[\"x\",\"100x3x0/0\",7,\"unconstrained\"]}\n{\"id\":3,\"method\":\"askrene-inform-channel\",\"params\":[\"x\",\"100x3x0/0\",\"7msat\",\"constrained\"]}\n{\"id\":4,\"method\":\"askrene-inform-channel\",\"params\":[\"x\",\"100x3x0/0\",7,\"succeeded\"]}\n{\"id\":5,\"method\":\"askrene-age\",\"params\":[\"x\",130]}\n{\"id\":6,\"method\":\"askrene-age\",\"params\":[\"x\",131]}",
        "{\"id\":1,\"jsonrpc\":\"2.0\",\"result\":{\"at\":0}}\n{\"id\":2,\"jsonrpc\":\"2.0\",\"result\":{\"at\":1,\"constraints\":[{\"minimum_msat\":7,\"short_channel_id_dir\":\"100x3x0/0\",\"timestamp\":130}]}}\n{\"id\":3,\"jsonrpc\":\"2.0\",\"result\":{\"at\":2,\"constraints\":[{\"maximum_msat\":6,\"short_channel_id_dir\":\"100x3x0/0\",\"timestamp\":130}]}}\n{\"id\":4,\"jsonrpc\":\"2.0\",\"result\":{\"at\":3,\"constraints\":[]}}\n{\"id\":5,\"jsonrpc\":\"2.0\",\"result\":{\"at\":4,\"num_removed\":0}}\n{\"id\":6,\"jsonrpc\":\"2.0\",\"result\":{\"at\":5,\"num_removed\":2}}\n",
    ),
    (
        "{\"id\":1,\"method\":\"askrene-reserve\",\"params\":{\"path\":[{\"short_channel_id_dir\":\"100x1x0/0\",\"amount_msat\":5}]}}\n{\"id\":2,\"method\":\"askrene-listreservations\"}",
        "{\"id\":1,\"jsonrpc\":\"2.0\",\"result\":{\"at\":0}}\n{\"id\":2,\"jsonrpc\":\"2.0\",\"result\":{\"at\":1,\"reservations\":[{\"age_in_seconds\":30,\"amount_msat\":5,\"caller\":0,\"short_channel_id_dir\":\"100x1x0/0\"}]}}\n",
    ),
];

fn is_replied(alloc: Global, input: &str, output: &str, piece: usize) -> Result<bool, Fail> {
    let outcome = ask(alloc, input.as_bytes(), piece, &[], &[])?;
    Ok(outcome.status == Status::Ok && outcome.sink.bytes() == output.as_bytes())
}

#[test]
fn lines_get_their_replies(rt: HostRuntime) -> Result<(), Fail> {
    for (input, output) in REPLIES {
        assert!(rt; is_replied(rt.alloc(), input, output, 1)?, "{input}");
        assert!(rt; is_replied(rt.alloc(), input, output, 7)?, "{input}");
        assert!(rt; is_replied(rt.alloc(), input, output, 65_536)?, "{input}");
    }
    Ok(())
}

/// Room for 5 units if 6 are demanded.
const CUT: &str = "askrene-certificate 1
cut 2 1 0 1 6
arc 0 1 5 1
side 1
side 0
end
";

/// Room for 6 units if 6 are demanded.
const NO_CUT: &str = "askrene-certificate 1
cut 2 1 0 1 6
arc 0 1 6 1
side 1
side 0
end
";

fn is_checked(
    alloc: Global,
    input: &str,
    reads: &[u64],
    writes: &[u64],
    status: Status,
    output: &str,
) -> Result<bool, Fail> {
    let outcome = go_alone(alloc, "check", input.as_bytes(), 32, reads, writes)?;
    Ok(outcome.status == status && outcome.sink.bytes() == output.as_bytes())
}

#[test]
fn certificates_are_checked(rt: HostRuntime) -> Result<(), Fail> {
    let alloc = rt.alloc();
    assert!(rt; is_checked(alloc, CUT, &[], &[], Status::Ok, "no-flow\n")?);
    let unreadable = Status::CheckNo {
        line: 1,
        readable: false,
    };
    assert!(rt; is_checked(alloc, "?", &[], &[], unreadable, "unreadable 1\n")?);
    let no = Status::CheckNo {
        line: 2,
        readable: true,
    };
    assert!(rt; is_checked(alloc, NO_CUT, &[], &[], no, "no 2\n")?);
    assert!(rt; is_checked(alloc, CUT, &[1], &[], Status::ReadFault, "")?);
    assert!(rt; is_checked(alloc, CUT, &[], &[0], Status::WriteFault, "")?);
    assert_eq!(rt; no.code(), 7);
    Ok(())
}

#[test]
fn a_fault_is_told_where_it_comes(rt: HostRuntime) -> Result<(), Fail> {
    for call in 0..3 {
        let outcome = ask(rt.alloc(), FIRST.as_bytes(), 40, &[call], &[])?;
        assert_eq!(rt; outcome.status, Status::ReadFault);
        let whole = if call < 2 { "" } else { MADE };
        assert!(rt; outcome.sink.bytes() == whole.as_bytes());
    }
    for call in 0..2 {
        let outcome = ask(rt.alloc(), FIRST.as_bytes(), 40, &[], &[call])?;
        assert_eq!(rt; outcome.status, Status::WriteFault);
        assert_eq!(rt; outcome.sink.bytes().len() as u64, 40 * call);
    }
    Ok(())
}

#[test]
fn a_line_may_be_too_long(rt: HostRuntime) -> Result<(), Fail> {
    let longest = vec![in rt.alloc(); b' '; 1_048_576]?;
    let outcome = ask(rt.alloc(), &longest, 65_536, &[], &[])?;
    assert_eq!(rt; outcome.status, Status::Ok);
    assert!(rt; outcome.sink.bytes().is_empty());
    let longer = vec![in rt.alloc(); b' '; 1_048_577]?;
    let outcome = ask(rt.alloc(), &longer, 65_536, &[], &[])?;
    assert_eq!(rt; outcome.status, Status::Long);
    assert!(rt; outcome.sink.bytes() == LONG.as_bytes());
    Ok(())
}

#[test]
fn there_may_be_too_many_lines(rt: HostRuntime) -> Result<(), Fail> {
    let most = vec![in rt.alloc(); b'\n'; 1_000_000]?;
    let outcome = ask(rt.alloc(), &most, 65_536, &[], &[])?;
    assert_eq!(rt; outcome.status, Status::Ok);
    let more = vec![in rt.alloc(); b'\n'; 1_000_001]?;
    let outcome = ask(rt.alloc(), &more, 65_536, &[], &[])?;
    assert_eq!(rt; outcome.status, Status::SessionFull);
    assert_eq!(rt; outcome.status.code(), 8);
    assert!(rt; outcome.sink.bytes().is_empty());
    Ok(())
}

/// Runs `ask` with the map and the local file of a row on lines.
fn ask_over(alloc: Global, map: &str, local: &str, lines: &str) -> Result<Outcome, Fail> {
    let mut files = Vec::new(alloc);
    let mut words = Vec::new(alloc);
    words.push("ask")?;
    for (option, name, text) in [("--map", "map", map), ("--local", "local", local)] {
        if !text.is_empty() {
            files.push((name.to_string(alloc)?, text.as_bytes().to_vec(alloc)?))?;
            words.push(option)?;
            words.push(name)?;
        }
    }
    let mut places = MemPlaces::new(files, Vec::new(alloc));
    go(
        alloc,
        &words,
        &mut places,
        lines.as_bytes(),
        4_096,
        &[],
        &[],
    )
}

fn all_hold(alloc: Global, rows: &[Row]) -> Result<bool, Fail> {
    for (map, local, lines, replies) in rows {
        let outcome = ask_over(alloc, map, local, lines)?;
        if outcome.status != Status::Ok || outcome.sink.bytes() != replies.as_bytes() {
            return Ok(false);
        }
    }
    Ok(true)
}

#[test]
fn asks_get_their_routes(rt: HostRuntime) -> Result<(), Fail> {
    assert!(rt; all_hold(rt.alloc(), PATHS)?);
    assert!(rt; all_hold(rt.alloc(), LIMITS)?);
    assert!(rt; all_hold(rt.alloc(), AMOUNTS)?);
    assert!(rt; all_hold(rt.alloc(), LAYERS)?);
    assert!(rt; all_hold(rt.alloc(), FILES)?);
    Ok(())
}

#[test]
fn a_certificate_is_printed(rt: HostRuntime) -> Result<(), Fail> {
    let (map, line, beginning) = CERTIFIED;
    let outcome = ask_over(rt.alloc(), map, "", line)?;
    assert!(rt; outcome.sink.bytes().starts_with(beginning.as_bytes()));
    Ok(())
}

const GOOD_MAP: &str =
    "{\"channels\":[{\"source\":\"02aaaaaaaaaaaaaaaaaaaaaaaaaaaaaaaaaaaaaaaaaaaaaaaaaaaaaaaaaaaaaaaa\",\"destination\":\"02bbbbbbbbbbbbbbbbbbbbbbbbbbbbbbbbbbbbbbbbbbbbbbbbbbbbbbbbbbbbbbbb\",\"short_channel_id\":\"100x1x0\",\"direction\":0,\"amount_msat\":1000,\"active\":true,\"base_fee_millisatoshi\":0,\"fee_per_millionth\":0,\"delay\":6,\"htlc_minimum_msat\":0}]}";

const TWICE_MAP: &str =
    "{\"channels\":[{\"source\":\"02aaaaaaaaaaaaaaaaaaaaaaaaaaaaaaaaaaaaaaaaaaaaaaaaaaaaaaaaaaaaaaaa\",\"destination\":\"02bbbbbbbbbbbbbbbbbbbbbbbbbbbbbbbbbbbbbbbbbbbbbbbbbbbbbbbbbbbbbbbb\",\"short_channel_id\":\"100x1x0\",\"direction\":0,\"amount_msat\":1000,\"active\":true,\"base_fee_millisatoshi\":0,\"fee_per_millionth\":0,\"delay\":6,\"htlc_minimum_msat\":0},{\"source\":\"02aaaaaaaaaaaaaaaaaaaaaaaaaaaaaaaaaaaaaaaaaaaaaaaaaaaaaaaaaaaaaaaa\",\"destination\":\"02bbbbbbbbbbbbbbbbbbbbbbbbbbbbbbbbbbbbbbbbbbbbbbbbbbbbbbbbbbbbbbbb\",\"short_channel_id\":\"100x1x0\",\"direction\":0,\"amount_msat\":1000,\"active\":true,\"base_fee_millisatoshi\":0,\"fee_per_millionth\":0,\"delay\":6,\"htlc_minimum_msat\":0}]}";

/// Words, and the status that they end with on an empty input.
const WORDS: &[(&[&str], u8)] = &[
    (&["ask"], 0),
    (&["ask", "--map", "good"], 0),
    (&["ask", "--map=good", "--local", "good"], 0),
    (&["ask", "--local=good", "--map", "good"], 0),
    (&[], 2),
    (&["Ask"], 2),
    (&["ask", "ask"], 2),
    (&["ask", "good"], 2),
    (&["ask", "--map"], 2),
    (&["ask", "--map", "good", "--map=good"], 2),
    (&["ask", "--layers", "good"], 2),
    (&["ask", "--help"], 2),
    (&["check", "--map", "good"], 2),
    (&["--map", "good", "ask"], 2),
    (&["--help"], 2),
    (&["-h"], 2),
    (&["help"], 2),
    (&["--version"], 2),
    (&["serve"], 2),
    (&["ask", "--map", "twice"], 3),
    (&["ask", "--local", "bad"], 3),
    (&["ask", "--map", "good", "--local", "twice"], 3),
    (&["ask", "--map", "bad", "--local", "missing"], 3),
    (&["ask", "--map", "missing"], 4),
    (&["ask", "--map", "good", "--local=missing"], 4),
    (&["ask", "--map", ""], 4),
    (&["ask", "--map="], 4),
    (&["check"], 7),
];

fn places(alloc: Global, fails: &[u64]) -> Result<MemPlaces, Fail> {
    let mut files = Vec::new(alloc);
    for (name, text) in [("good", GOOD_MAP), ("twice", TWICE_MAP), ("bad", "?")] {
        files.push((name.to_string(alloc)?, text.as_bytes().to_vec(alloc)?))?;
    }
    Ok(MemPlaces::new(files, fails.to_vec(alloc)?))
}

#[test]
fn words_have_their_status(rt: HostRuntime) -> Result<(), Fail> {
    let alloc = rt.alloc();
    for (words, code) in WORDS {
        let outcome = go(alloc, words, &mut places(alloc, &[])?, &[], 64, &[], &[])?;
        assert_eq!(rt; outcome.status.code(), *code);
    }
    Ok(())
}

/// Words, the calls of reading that fail, and the status; nothing is written.
fn is_refused(alloc: Global, words: &[&str], fails: &[u64], status: Status) -> Result<bool, Fail> {
    let mut places = places(alloc, fails)?;
    let outcome = go(alloc, words, &mut places, FIRST.as_bytes(), 64, &[], &[])?;
    Ok(outcome.status == status && outcome.sink.bytes().is_empty())
}

#[test]
fn files_that_are_refused_end_the_run_at_once(rt: HostRuntime) -> Result<(), Fail> {
    let alloc = rt.alloc();
    let Ok(dir) = Dir::read("100x1x0/0") else {
        panic!(rt; "a direction is refused")
    };
    let twice = Status::MapRefused {
        local: false,
        fault: MapFault::Twice { dir },
    };
    assert!(rt; is_refused(alloc, &["ask", "--map", "twice"], &[], twice)?);
    let bad = Status::MapRefused {
        local: true,
        fault: MapFault::NotJson,
    };
    let both = &["ask", "--map", "good", "--local", "bad"];
    assert!(rt; is_refused(alloc, both, &[], bad)?);
    assert!(rt; is_refused(alloc, both, &[1], Status::ReadFault)?);
    assert!(rt; is_refused(alloc, &["ask", "--map", "missing"], &[], Status::ReadFault)?);
    Ok(())
}

fn is_generated(
    alloc: Global,
    words: &[&str],
    writes: &[u64],
    status: Status,
    output: &str,
) -> Result<bool, Fail> {
    let mut places = MemPlaces::new(Vec::new(alloc), Vec::new(alloc));
    let outcome = go(alloc, words, &mut places, b"", 32, &[], writes)?;
    Ok(outcome.status == status && outcome.sink.bytes() == output.as_bytes())
}

/// Words that are no workload.
const NO_WORKLOADS: &[&[&str]] = &[
    &["gen"],
    &["gen", "1", "2", "0"],
    &["gen", "1", "2", "0", "3", "4"],
    &["gen", "1", "1", "0", "3"],
    &["gen", "1", "65537", "0", "3"],
    &["gen", "1", "2", "131073", "3"],
    &["gen", "1", "2", "0", "10001"],
    &["gen", "18446744073709551616", "2", "0", "3"],
    &["gen", "x", "2", "0", "3"],
    &["gen", "1", "2", "0", "-1"],
];

#[test]
fn workloads_are_served(rt: HostRuntime) -> Result<(), Fail> {
    let alloc = rt.alloc();
    let words: &[&str] = &["gen", "1", "2", "0", "3"];
    let line = "asks 3 routed 0 refused 3 parts 0 amount_msat 0 fee_msat 0\n";
    for words in NO_WORKLOADS {
        assert!(rt; is_generated(alloc, words, &[], Status::Usage, "")?);
    }
    assert!(rt;
        is_generated(
            alloc,
            &["gen", "1", "2", "0", "0"],
            &[],
            Status::Ok,
            "asks 0 routed 0 refused 0 parts 0 amount_msat 0 fee_msat 0\n"
        )?
    );
    assert!(rt; is_generated(alloc, words, &[0], Status::WriteFault, "")?);
    assert!(rt;
        is_generated(
            alloc,
            words,
            &[1],
            Status::WriteFault,
            "asks 3 routed 0 refused 3 parts "
        )?
    );
    assert!(rt; is_generated(alloc, words, &[], Status::Ok, line)?);
    Ok(())
}
