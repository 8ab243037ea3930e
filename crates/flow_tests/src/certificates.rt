ghost use Rattle.std.specs.Prelude.{◌≡◌, ◌≤◌, IfOk, ◌∷◌, []};
ghost use Rattle.flow_model.specs.declared.limits.TheConstants.{NODES_MAX};

use certificate::{CertFault, CertRefusal, Verdict, Version, check, print_cut, print_flow, read};
use flow_model::{Arc, Flow, Instance};
use plan_base::NoMemory;
use std::alloc::Global;

/// Two channels of 600000 and 400000 msat with three pieces each, which carry all that they hold.
const FLOW: &str = "askrene-certificate 1
flow 2 6 0 1 1000000
arc 0 1 300000 255000000001 300000
arc 0 1 180000 255000000001 180000
arc 0 1 120000 255000000001 120000
arc 0 1 200000 255000000001 200000
arc 0 1 120000 255000000001 120000
arc 0 1 80000 255000000001 80000
potential 0
potential 255000000001
end
";

/// The same two channels with seven pieces each, which are two directions.
const PIECES: &str = "askrene-certificate 2
flow 2 14 0 1 1000000
arc 0 0 1 180000 255000000001 180000
arc 0 0 1 120000 255000000001 120000
arc 0 0 1 90000 255000000001 90000
arc 0 0 1 90000 255000000001 90000
arc 0 0 1 60000 255000000001 60000
arc 0 0 1 30000 255000000001 30000
arc 0 0 1 30000 255000000001 30000
arc 1 0 1 120000 255000000001 120000
arc 1 0 1 80000 255000000001 80000
arc 1 0 1 60000 255000000001 60000
arc 1 0 1 60000 255000000001 60000
arc 1 0 1 40000 255000000001 40000
arc 1 0 1 20000 255000000001 20000
arc 1 0 1 20000 255000000001 20000
potential 0
potential 255000000001
end
";

/// A middle node keeps a unit, and the destination lacks one.
const UNEVEN: &str = "askrene-certificate 1
flow 3 2 0 1 5
arc 0 2 5 1 5
arc 2 1 5 1 4
potential 0
potential 2
potential 1
end
";

/// Two units go round the arc in the middle, over which the cheapest way of one leads.
const DETOUR: &str = "askrene-certificate 1
flow 4 5 0 3 2
arc 0 1 1 1 1
arc 0 2 1 10 1
arc 1 2 1 1 0
arc 1 3 1 10 1
arc 2 3 1 1 1
potential 0
potential 9
potential 10
potential 19
end
";

/// Room for 5 units when 6 are asked for.
const CUT: &str = "askrene-certificate 1
cut 2 1 0 1 6
arc 0 1 5 1
side 1
side 0
end
";

/// Two pieces of one direction have room for 5 units when 6 are asked for.
const CUT_PIECES: &str = "askrene-certificate 2
cut 2 2 0 1 6
arc 7 0 1 3 1
arc 7 0 1 2 5
side 1
side 0
end
";

/// The outcome of reading and checking a text.
#[derive(Clone, Copy, Debug, PartialEq, Eq)]
enum Outcome {
    Cheapest,
    NoFlow,
    No(u64),
    Unreadable(u64),
    NoMemory,
}

use Outcome::{Cheapest, No, NoFlow, Unreadable};

fn read_and_check(alloc: Global, text: &[u8]) -> Outcome {
    match read(alloc, text) {
        Ok(cert) => match check(&cert) {
            Verdict::Cheapest => Cheapest,
            Verdict::NoFlow => NoFlow,
            Verdict::No { line } => No(line),
        },
        Err(CertFault::Line { line }) => Unreadable(line),
        Err(CertFault::NoMemory) => Outcome::NoMemory,
    }
}

/// A piece of a text, what replaces it, and the outcome of the changed text.
type Change = (&'static str, &'static str, Outcome);

/// The first line of version 1.
const HEADS: &[Change] = &[
    ("certificate 1", "certificate 2", Unreadable(3)),
    ("certificate 1", "certificate 10", Unreadable(1)),
    ("certificate 1", "certificate 01", Unreadable(1)),
    ("certificate 1\n", "certificate 1\r\n", Unreadable(1)),
    ("certificate 1\n", "certificate 1", Unreadable(1)),
    ("askrene", "\naskrene", Unreadable(1)),
];

/// The second line.
const PROBLEMS: &[Change] = &[
    ("flow 2 6", "flow 02 6", Unreadable(2)),
    ("flow 2", "flow  2", Unreadable(2)),
    ("flow 2", "flow\t2", Unreadable(2)),
    ("flow 2", "flow -2", Unreadable(2)),
    ("flow 2", "flows 2", Unreadable(2)),
    ("flow 2 6 0 1", "flow 1 6 0 1", Unreadable(2)),
    ("flow 2 6 0 1", "flow 2 6 1 1", Unreadable(2)),
    ("flow 2 6 0 1", "flow 2 6 0 2", Unreadable(2)),
    ("flow 2 6", "flow 2 262145", Unreadable(2)),
    ("flow 2 6", "flow 262145 6", Unreadable(2)),
    ("1000000\n", "0\n", Unreadable(2)),
    ("1000000\n", "2100000000000000000\n", No(9)),
    ("1000000\n", "2100000000000000001\n", Unreadable(2)),
    ("1000000\n", "18446744073710551616\n", Unreadable(2)),
    ("1000000\n", "1000000 1\n", Unreadable(2)),
    ("flow 2 6", "flow 2 5", Unreadable(8)),
    ("flow 2 6", "flow 2 7", Unreadable(9)),
    ("flow 2 6", "flow 3 6", Unreadable(11)),
    ("flow", "cut", Unreadable(3)),
    ("1000000\n", "999999\n", No(9)),
    ("flow 2 6 0 1", "flow 2 6 1 0", No(9)),
];

/// The lines of arcs.
const ARCS: &[Change] = &[
    ("arc 0 1 300000", "arc 0 0 300000", Unreadable(3)),
    ("arc 0 1 300000", "arc 2 1 300000", Unreadable(3)),
    ("arc 0 1 300000 ", "arc 0 1 0 ", Unreadable(3)),
    (
        "arc 0 1 300000 ",
        "arc 0 1 2100000000000000001 ",
        Unreadable(3),
    ),
    ("255000000001 180000", "0 180000", Unreadable(4)),
    ("255000000001 180000", "2000000000000 180000", Unreadable(4)),
    ("255000000001 180000", "1999999999999 180000", No(4)),
    (" 180000\n", " 2100000000000000001\n", Unreadable(4)),
    (" 180000\n", " 180000 \n", Unreadable(4)),
    (" 180000\n", " 180000\r\n", Unreadable(4)),
    (" 180000\n", " 0180000\n", Unreadable(4)),
    (" 180000\n", "\n", Unreadable(4)),
    (" 180000\n", " 180001\n", No(4)),
    (" 180000\n", " 179999\n", No(9)),
    ("arc 0 1 180000 ", "arc 0 0 1 180000 ", Unreadable(4)),
    ("arc 0 1 80000 255000000001 80000\n", "", Unreadable(8)),
    ("1000000\narc", "1000000\narc 0 1 5 1 0\narc", Unreadable(9)),
    (
        "6 0 1 1000000\narc",
        "7 0 1 1000000\narc 0 1 5 1 0\narc",
        No(3),
    ),
    ("arc 0 1 80000 ", "arc 0 1 80001 ", Cheapest),
    (
        "80000 255000000001 80000\n",
        "80001 255000000000 80000\n",
        No(8),
    ),
    (
        "80000 255000000001 80000\n",
        "80000 255000000000 80000\n",
        Cheapest,
    ),
    (
        "80000 255000000001 80000\n",
        "80000 255000000002 80000\n",
        No(8),
    ),
    (
        "80000 255000000001 80000\n",
        "80000 255000000002 0\n",
        No(9),
    ),
];

/// The lines of potentials.
const POTENTIALS: &[Change] = &[
    ("potential 0", "potential -0", Unreadable(9)),
    ("potential 0", "potential 00", Unreadable(9)),
    ("potential 0", "potential +0", Unreadable(9)),
    ("potential 0", "potential -01", Unreadable(9)),
    ("potential 0", "potential -", Unreadable(9)),
    ("potential 0", "potential  0", Unreadable(9)),
    ("potential 0", "side 0", Unreadable(9)),
    ("potential 0\n", "potential 0", Unreadable(9)),
    ("potential 0", "potential 999999999999999999999999", No(3)),
    (
        "potential 0",
        "potential 1000000000000000000000000",
        Unreadable(9),
    ),
    (
        "potential 0",
        "potential -999999999999999999999999",
        Cheapest,
    ),
    (
        "potential 0",
        "potential -1000000000000000000000000",
        Unreadable(9),
    ),
    (
        "potential 0",
        "potential 1000000000000000000000000000000000000000",
        Unreadable(9),
    ),
    ("potential 0\n", "", Unreadable(10)),
    (
        "potential 0\n",
        "potential 0\npotential 0\n",
        Unreadable(11),
    ),
    ("potential 0", "potential 1", No(3)),
    ("potential 255000000001", "potential 255000000000", No(3)),
    ("potential 255000000001", "potential 255000000002", Cheapest),
];

/// The last line.
const ENDS: &[Change] = &[
    ("end\n", "", Unreadable(11)),
    ("end\n", "end", Unreadable(11)),
    ("end\n", "end \n", Unreadable(11)),
    ("end\n", "end\r\n", Unreadable(11)),
    ("end", "End", Unreadable(11)),
    ("end\n", "end\n\n", Unreadable(12)),
    ("end\n", "end\nend\n", Unreadable(12)),
    ("end\n", "end\n ", Unreadable(12)),
];

/// The lines of a cut.
const SIDES: &[Change] = &[
    (" 6\n", " 5\n", No(2)),
    ("arc 0 1 5", "arc 0 1 6", No(2)),
    ("arc 0 1 5", "arc 1 0 5", NoFlow),
    ("arc 0 1 5 1", "arc 0 1 5 1 0", Unreadable(3)),
    ("cut", "flow", Unreadable(3)),
    ("cut 2 1 0 1", "cut 2 1 1 0", No(5)),
    ("cut 2 1", "cut 3 1", Unreadable(6)),
    ("side 1\nside 0", "side 0\nside 0", No(4)),
    ("side 1\nside 0", "side 1\nside 1", No(5)),
    ("side 1", "side 2", Unreadable(4)),
    ("side 1", "side 01", Unreadable(4)),
    ("side 1", "side -1", Unreadable(4)),
    ("side 1", "potential 1", Unreadable(4)),
    ("side 0\n", "", Unreadable(5)),
    ("side 0\n", "side 0\nside 0\n", Unreadable(6)),
];

/// Potentials that don't show the flow, and flows that the arc in the middle can't have.
const DETOURS: &[Change] = &[
    ("potential 9", "potential 8", No(5)),
    ("potential 19", "potential 18", No(6)),
    ("arc 1 2 1 1 0", "arc 1 2 1 1 1", No(9)),
    ("arc 1 2 1 1 0", "arc 1 2 1 1 2", No(5)),
];

/// The first two lines of version 2.
const PIECE_PROBLEMS: &[Change] = &[
    ("certificate 2", "certificate 0", Unreadable(1)),
    ("certificate 2", "certificate 1", Unreadable(3)),
    ("certificate 2", "certificate 3", Unreadable(1)),
    ("certificate 2", "certificate 02", Unreadable(1)),
    ("certificate 2", "certificate 21", Unreadable(1)),
    ("certificate 2", "certificate  2", Unreadable(1)),
    ("certificate 2", "certificate", Unreadable(1)),
    ("flow 2 14", "flow 2 014", Unreadable(2)),
    ("flow 2 14", "flow 2 1048577", Unreadable(2)),
    ("flow 2 14", "flow 2 1048576", Unreadable(17)),
    ("flow 2 14", "flow 2 13", Unreadable(16)),
    ("flow 2 14", "flow 2 15", Unreadable(17)),
    ("flow 2 14", "flow 262145 14", Unreadable(2)),
    ("flow 2 14", "flow 262144 14", Unreadable(19)),
    ("flow 2 14", "cut 2 14", Unreadable(3)),
];

/// The lines of arcs in version 2.
const PIECE_LINES: &[Change] = &[
    ("arc 0 0 1 180000", "arc 4294967295 0 1 180000", Cheapest),
    (
        "arc 0 0 1 180000",
        "arc 4294967296 0 1 180000",
        Unreadable(3),
    ),
    (
        "arc 0 0 1 180000",
        "arc 18446744073709551616 0 1 180000",
        Unreadable(3),
    ),
    ("arc 0 0 1 120000", "arc 00 0 1 120000", Unreadable(4)),
    ("arc 0 0 1 120000", "arc -0 0 1 120000", Unreadable(4)),
    ("arc 0 0 1 120000", "arc  0 0 1 120000", Unreadable(4)),
    ("arc 0 0 1 120000", "arc 0 1 120000", Unreadable(4)),
    ("arc 0 0 1 120000", "arc 0 0 2 120000", Unreadable(4)),
    ("arc 0 0 1 120000", "arc 0 1 1 120000", Unreadable(4)),
    ("arc 0 0 1 120000 ", "arc 0 0 1 0 ", Unreadable(4)),
    ("255000000001 120000\n", "0 120000\n", Unreadable(4)),
    ("255000000001 120000\n", "255000000001\n", Unreadable(4)),
    (
        "255000000001 120000\n",
        "255000000001 120000 0\n",
        Unreadable(4),
    ),
    (
        "arc 1 0 1 80000",
        "arc 1 0 1 0 1\narc 1 0 1 80000",
        Unreadable(11),
    ),
];

/// The order of the arcs of one direction, and then the other checks.
const PIECE_ORDERS: &[Change] = &[
    ("arc 0 0 1 180000 ", "arc 0 0 1 180001 ", No(4)),
    (" 180000\n", " 179999\n", No(4)),
    (" 180000\n", " 180001\n", No(4)),
    ("255000000001 120000", "255000000000 120000", No(4)),
    ("255000000001 120000", "255000000002 120000", No(5)),
    ("arc 0 0 1 120000", "arc 0 1 0 120000", No(4)),
    ("arc 1 0 1 120000", "arc 1 1 0 120000", No(11)),
    ("arc 1 0 1 120000", "arc 0 0 1 120000", Cheapest),
    ("arc 1 0 1 40000", "arc 0 0 1 40000", Cheapest),
    (
        "255000000001 30000\narc 1",
        "255000000002 30000\narc 1",
        No(9),
    ),
    (
        "30000 255000000001 30000\narc 1",
        "30001 255000000001 30000\narc 1",
        Cheapest,
    ),
    (
        "30000 255000000001 30000\narc 1",
        "30001 255000000001 30000\narc 0",
        No(10),
    ),
    (
        "120000 255000000001 120000\narc 1",
        "120000 255000000000 120000\narc 1",
        Cheapest,
    ),
    (
        "120000 255000000001 120000\narc 1",
        "120000 255000000001 120000\narc 2 1 0 5 9 0\narc 1",
        Unreadable(17),
    ),
    (
        "arc 1 0 1 20000 255000000001 20000\npotential",
        "arc 2 1 0 20000 9 0\npotential",
        No(17),
    ),
    (" 20000\npotential", " 19999\npotential", No(17)),
    (" 20000\npotential", " 20001\npotential", No(16)),
    ("potential 0", "potential 1", No(3)),
];

/// The lines of a cut in version 2.
const PIECE_SIDES: &[Change] = &[
    ("certificate 2", "certificate 1", Unreadable(3)),
    ("cut", "flow", Unreadable(3)),
    ("arc 7 0 1 3 1", "arc 0 1 3 1", Unreadable(3)),
    ("arc 7 0 1 2 5", "arc 7 0 1 2 5 0", Unreadable(4)),
    ("arc 7 0 1 3 1", "arc 7 0 1 3 5", NoFlow),
    ("arc 7 0 1 3 1", "arc 7 0 1 3 6", No(4)),
    ("arc 7 0 1 3 1", "arc 8 0 1 3 6", NoFlow),
    ("arc 7 0 1 2 5", "arc 7 1 0 2 5", No(4)),
    ("arc 7 0 1 2 5", "arc 8 1 0 2 5", NoFlow),
    (" 6\n", " 5\n", No(2)),
    ("side 1\nside 0", "side 0\nside 0", No(5)),
    ("side 1\nside 0", "side 1\nside 1", No(6)),
];

fn changed(alloc: Global, text: &str, change: Change) -> Result<Outcome, NoMemory> {
    let (from, to, _) = change;
    let text = text.replacen(alloc, from, to, 1)?;
    Ok(read_and_check(alloc, text.as_bytes()))
}

/// Whether each change of the text has its outcome.
fn all_come_to(alloc: Global, text: &str, changes: &[Change]) -> Result<bool, NoMemory> {
    for change in changes {
        if changed(alloc, text, *change)? != change.2 {
            return Ok(false);
        }
    }
    Ok(true)
}

#[test]
fn certificates_are_read_and_checked(rt: HostRuntime) {
    assert!(rt; read_and_check(rt.alloc(), FLOW.as_bytes()) == Cheapest);
    assert!(rt; read_and_check(rt.alloc(), DETOUR.as_bytes()) == Cheapest);
    assert!(rt; read_and_check(rt.alloc(), CUT.as_bytes()) == NoFlow);
    assert!(rt; read_and_check(rt.alloc(), PIECES.as_bytes()) == Cheapest);
    assert!(rt; read_and_check(rt.alloc(), CUT_PIECES.as_bytes()) == NoFlow);
    assert!(rt; read_and_check(rt.alloc(), UNEVEN.as_bytes()) == No(6));
    assert!(rt; read_and_check(rt.alloc(), b"") == Unreadable(1));
}

#[test]
fn a_changed_certificate_names_its_line(rt: HostRuntime) -> Result<(), NoMemory> {
    assert!(rt; all_come_to(rt.alloc(), FLOW, HEADS)?);
    assert!(rt; all_come_to(rt.alloc(), FLOW, PROBLEMS)?);
    assert!(rt; all_come_to(rt.alloc(), FLOW, ARCS)?);
    assert!(rt; all_come_to(rt.alloc(), FLOW, POTENTIALS)?);
    assert!(rt; all_come_to(rt.alloc(), FLOW, ENDS)?);
    assert!(rt; all_come_to(rt.alloc(), CUT, SIDES)?);
    assert!(rt; all_come_to(rt.alloc(), DETOUR, DETOURS)?);
    Ok(())
}

#[test]
fn a_changed_certificate_of_version_2_names_its_line(rt: HostRuntime) -> Result<(), NoMemory> {
    assert!(rt; all_come_to(rt.alloc(), PIECES, PIECE_PROBLEMS)?);
    assert!(rt; all_come_to(rt.alloc(), PIECES, PIECE_LINES)?);
    assert!(rt; all_come_to(rt.alloc(), PIECES, PIECE_ORDERS)?);
    assert!(rt; all_come_to(rt.alloc(), CUT_PIECES, PIECE_SIDES)?);
    Ok(())
}

#[test]
fn a_certificate_has_its_version_and_potentials(rt: HostRuntime) -> Result<(), CertFault> {
    let cert = read(rt.alloc(), PIECES.as_bytes())?;
    assert!(rt; cert.version() == Version::Two);
    assert!(rt; cert.potentials() == Some([0, 255_000_000_001].as_slice()));
    assert!(rt; read(rt.alloc(), CUT.as_bytes())?.version() == Version::One);
    Ok(())
}

/// The text of one arc's instance with a flow, and with a side.
const ONE_FLOW: &str = "askrene-certificate 2
flow 2 1 0 1 300000
arc 7 0 1 300000 255000000001 300000
potential -1
potential 255000000000
end
";

const ONE_CUT: &str = "askrene-certificate 2
cut 2 1 0 1 300000
arc 7 0 1 300000 255000000001
side 1
side 0
end
";

/// One arc of direction 7, and this many nodes.
fn one_arc(alloc: Global, nodes: u32) -> Result<Instance, NoMemory>
    requires some { 2 ≤ nodes }
    requires few { nodes ≤ NODES_MAX }
    ensures { IfOk result (λ i. i ≡ record {
      nodes = nodes;
      source = 0;
      destination = 1;
      demand = 300000;
      arcs = record {
        from = 0;
        to = 1;
        room = 300000;
        cost = 255000000001;
        dir = 7;
      } ∷ [];
    }) }
{
    let arc = Arc {
        from: 0,
        to: 1,
        room: 300_000,
        cost: 255_000_000_001,
        dir: 7,
    };
    let arcs = vec![in alloc; arc]?;
    Ok(Instance::new(nodes, 0, 1, 300_000, arcs))
}

#[test]
fn certificates_are_printed(rt: HostRuntime) -> Result<(), CertRefusal> {
    let instance = one_arc(rt.alloc(), 2)?;
    let mut units = Vec::new(rt.alloc());
    if units.push(300_000).is_err() {
        return Err(CertRefusal::NoMemory);
    }
    let flow = Flow::from_vec(units);
    let text = print_flow(rt.alloc(), &instance, &flow, &[-1, 255_000_000_000])?;
    assert!(rt; text.as_slice() == ONE_FLOW.as_bytes());
    assert!(rt; read_and_check(rt.alloc(), text.as_slice()) == Cheapest);
    let text = print_cut(rt.alloc(), &instance, &[true, false])?;
    assert!(rt; text.as_slice() == ONE_CUT.as_bytes());
    assert!(rt; read_and_check(rt.alloc(), text.as_slice()) == No(2));
    Ok(())
}

#[test]
fn a_large_instance_has_no_certificate(rt: HostRuntime) -> Result<(), NoMemory> {
    let instance = one_arc(rt.alloc(), 262_145)?;
    let side = vec![in rt.alloc(); false; 262_145]?;
    let refusal = print_cut(rt.alloc(), &instance, &side).err();
    let too_large = CertRefusal::TooLarge {
        arcs: 1,
        nodes: 262_145,
    };
    assert!(rt; refusal == Some(too_large));
    Ok(())
}
