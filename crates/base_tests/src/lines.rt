use line_cut::{Cut, LINE_MAX, Lines, ReadFault};
use plan_base::NoMemory;
use port_io::MemSource;
use std::alloc::Global;
use std::test::Fail;

const PIECES: [usize; 3] = [1, 7, 65_536];

// Makes four calls and writes their outcomes: a line in brackets, `.` at the end, `!` for a long line, `?` for a fault.
fn four_calls(
    alloc: Global,
    input: &[u8],
    piece: usize,
    fails: Vec<u64>,
) -> Result<Vec<u8>, NoMemory> {
    let mut source = MemSource::new(input.to_vec(alloc)?, piece.max(1), fails);
    let mut lines = Lines::new(alloc)?;
    let mut found = Vec::new(alloc);
    for _ in 0..4 {
        match lines.next(&mut source) {
            Ok(Cut::Line) => {
                found.push(b'[')?;
                found.extend_from_slice(lines.line())?;
                found.push(b']')?;
            }
            Ok(Cut::End) => found.push(b'.')?,
            Ok(Cut::Long) => found.push(b'!')?,
            Err(ReadFault) => found.push(b'?')?,
        }
    }
    Ok(found)
}

#[test]
fn lines_are_the_same_in_any_pieces(rt: HostRuntime) -> Result<(), Fail> {
    let alloc = rt.alloc();
    let rows = [
        ("", "...."),
        ("a", "[a]..."),
        ("a\n", "[a]..."),
        ("\n", "[]..."),
        ("a\n\nb", "[a][][b]."),
        ("a\r\n\r", "[a\r][\r].."),
    ];
    for piece in PIECES {
        for (input, expected) in rows {
            let found = four_calls(alloc, input.as_bytes(), piece, Vec::new(alloc))?;
            assert!(rt; found.as_slice() == expected.as_bytes());
        }
    }
    Ok(())
}

#[test]
fn nothing_is_lost_at_a_read_that_fails(rt: HostRuntime) -> Result<(), Fail> {
    let alloc = rt.alloc();
    let rows = [
        "?[ab][cd].",
        "?[ab][cd].",
        "?[ab][cd].",
        "[ab]?[cd].",
        "[ab]?[cd].",
        "[ab]?[cd].",
        "[ab][cd]..",
    ];
    for (call, expected) in rows.iter().enumerate() {
        let found = four_calls(alloc, b"ab\ncd", 1, vec![in alloc; call as u64]?)?;
        assert!(rt; found.as_slice() == expected.as_bytes());
    }
    Ok(())
}

#[test]
fn a_line_may_have_as_many_bytes_as_the_limit(rt: HostRuntime) -> Result<(), Fail> {
    let alloc = rt.alloc();
    for piece in PIECES {
        for rest in ["", "\n"] {
            let found = long_line(alloc, LINE_MAX, rest, piece)?;
            assert_eq!(rt; found.len(), LINE_MAX + "[]...".len());
            let found = long_line(alloc, LINE_MAX + 1, rest, piece)?;
            assert!(rt; found.as_slice() == b"!!!!".as_slice());
        }
    }
    Ok(())
}

// Makes four calls on one line of `len` bytes and the text after it.
fn long_line(alloc: Global, len: usize, rest: &str, piece: usize) -> Result<Vec<u8>, NoMemory> {
    let mut input = Vec::with_capacity(alloc, len)?;
    input.resize(len, b'x')?;
    input.extend_from_slice(rest.as_bytes())?;
    four_calls(alloc, &input, piece, Vec::new(alloc))
}
