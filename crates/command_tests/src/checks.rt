use check_command::{CheckEnd, TEXT_MAX, check};
use port_io::{MemSink, MemSource};
use std::alloc::Global;
use std::test::Fail;

/// One arc that carries 5 of its 7 units, with potentials that show it.
const CHEAPEST: &str =
    "askrene-certificate 1\nflow 2 1 0 1 5\narc 0 1 7 1 5\npotential 0\npotential 1\nend\n";

/// The same, with potentials that don't show it.
const UNSHOWN: &str =
    "askrene-certificate 1\nflow 2 1 0 1 5\narc 0 1 7 1 5\npotential 0\npotential 2\nend\n";

/// The same without its last line.
const CUT_SHORT: &str =
    "askrene-certificate 1\nflow 2 1 0 1 5\narc 0 1 7 1 5\npotential 0\npotential 1\n";

/// Two pieces of one direction, of which the later one carries a unit while the earlier one has room left.
const UNORDERED: &str =
    "askrene-certificate 2\nflow 2 2 0 1 5\narc 0 0 1 5 1 4\narc 0 0 1 2 1 1\npotential 0\npotential 1\nend\n";

/// Room for 7 units when 8 are asked for.
const CUT: &str = "askrene-certificate 1\ncut 2 1 0 1 8\narc 0 1 7 1\nside 1\nside 0\nend\n";

const ROWS: &[(&str, &str, CheckEnd)] = &[
    (CHEAPEST, "cheapest\n", CheckEnd::Shown),
    (CUT, "no-flow\n", CheckEnd::Shown),
    (
        UNSHOWN,
        "no 3\n",
        CheckEnd::NotShown {
            line: 3,
            readable: true,
        },
    ),
    (
        UNORDERED,
        "no 4\n",
        CheckEnd::NotShown {
            line: 4,
            readable: true,
        },
    ),
    (
        CUT_SHORT,
        "unreadable 6\n",
        CheckEnd::NotShown {
            line: 6,
            readable: false,
        },
    ),
    (
        "",
        "unreadable 1\n",
        CheckEnd::NotShown {
            line: 1,
            readable: false,
        },
    ),
];

/// Whether a check of a text, in pieces, ends so and writes this, if the listed calls fail.
fn ends(
    alloc: Global,
    text: &str,
    reads: &[u64],
    writes: &[u64],
    end: CheckEnd,
    line: &str,
) -> Result<bool, Fail> {
    let mut source = MemSource::new(text.as_bytes().to_vec(alloc)?, 64, reads.to_vec(alloc)?);
    let mut sink = MemSink::new(alloc, 4, writes.to_vec(alloc)?);
    sink.reserve(64)?;
    let found = check(alloc, &mut source, &mut sink);
    Ok(found == end && sink.bytes() == line.as_bytes())
}

#[test]
fn texts_are_checked(rt: HostRuntime) -> Result<(), Fail> {
    for (text, line, end) in ROWS {
        assert!(rt; ends(rt.alloc(), text, &[], &[], *end, line)?, "{line}");
    }
    Ok(())
}

#[test]
fn faults_are_told(rt: HostRuntime) -> Result<(), Fail> {
    let alloc = rt.alloc();
    assert!(rt; ends(alloc, CUT, &[1], &[], CheckEnd::ReadFault, "")?);
    assert!(rt; ends(alloc, CUT, &[], &[0], CheckEnd::WriteFault, "")?);
    assert!(rt; ends(alloc, CUT, &[], &[1], CheckEnd::WriteFault, "no-f")?);
    Ok(())
}

#[test]
fn a_long_text_is_refused(rt: HostRuntime) -> Result<(), Fail> {
    let alloc = rt.alloc();
    let text = vec![in alloc; b'x'; TEXT_MAX + 1]?;
    let mut source = MemSource::new(text, 65_536, Vec::new(alloc));
    let mut sink = MemSink::new(alloc, 4, Vec::new(alloc));
    let end = check(alloc, &mut source, &mut sink);
    assert!(rt; end == CheckEnd::Long);
    assert!(rt; sink.bytes().is_empty());
    Ok(())
}
