use port_io::{
    Acceptor, Clock, Failed, Gate, MemAcceptor, MemClock, MemLink, MemPlaces, MemSink, MemSource,
    Open, PlaceFault, Places, Sink, Source, StdClock, StdPlaces, StdSink, StdSource, UnixAcceptor,
    UnixLink,
};
use std::alloc::Global;
use std::fs;
use std::os::unix::net::{UnixListener, UnixStream};
use std::test::Fail;

#[test]
fn a_source_in_memory_comes_in_pieces_and_fails_at_listed_calls(
    rt: HostRuntime,
) -> Result<(), Fail> {
    let alloc = rt.alloc();
    let mut source = MemSource::new(b"abcde".to_vec(alloc)?, 2, vec![in alloc; 1]?);
    let mut piece = [0; 4];
    for read in [Ok(2), Err(Failed), Ok(2), Ok(1)] {
        assert_eq!(rt; source.read(&mut piece), read);
    }
    assert_eq!(rt; piece, [b'e', b'd', 0, 0]);
    assert_eq!(rt; source.read(&mut piece), Ok(0));
    Ok(())
}

#[test]
fn a_sink_in_memory_takes_pieces_and_fails_at_listed_calls(rt: HostRuntime) -> Result<(), Fail> {
    let mut sink = MemSink::new(rt.alloc(), 2, vec![in rt.alloc(); 1]?);
    assert_eq!(rt; sink.write(b"abc"), Err(Failed));
    sink.reserve(3)?;
    assert_eq!(rt; sink.write(b"abc"), Err(Failed));
    assert_eq!(rt; sink.write(b"abc"), Ok(2));
    assert!(rt; sink.bytes() == b"ab".as_slice());
    Ok(())
}

#[test]
fn a_clock_in_memory_stays_at_its_last_moment(rt: HostRuntime) -> Result<(), Fail> {
    let mut clock = MemClock::new(vec![in rt.alloc(); 100, 130]?);
    for now in [100, 130, 130] {
        assert_eq!(rt; clock.now(), now);
    }
    let mut clock = MemClock::new(Vec::new(rt.alloc()));
    assert_eq!(rt; clock.now(), 0);
    Ok(())
}

#[test]
fn files_in_memory_are_read_by_name(rt: HostRuntime) -> Result<(), Fail> {
    let alloc = rt.alloc();
    let first = ("a".to_string(alloc)?, b"one".to_vec(alloc)?);
    let second = ("a".to_string(alloc)?, b"two".to_vec(alloc)?);
    let mut places = MemPlaces::new(vec![in alloc; first, second]?, vec![in alloc; 1]?);
    let read = places.read_whole(alloc, "a", 3)?;
    assert!(rt; read.as_slice() == b"one".as_slice());
    assert_eq!(rt;
        places.read_whole(alloc, "a", 3).err(),
        Some(PlaceFault::Failed)
    );
    assert_eq!(rt;
        places.read_whole(alloc, "a", 2).err(),
        Some(PlaceFault::Long)
    );
    assert_eq!(rt;
        places.read_whole(alloc, "b", 3).err(),
        Some(PlaceFault::Failed)
    );
    Ok(())
}

#[test]
fn real_streams_pass_bytes_on(rt: HostRuntime) -> Result<(), Fail> {
    let mut source = StdSource::new(b"abc".as_slice());
    let mut piece = [0; 8];
    assert_eq!(rt; source.read(&mut piece), Ok(3));
    assert_eq!(rt; source.read(&mut piece), Ok(0));
    let mut sink = StdSink::new(Vec::<u8>::new(rt.alloc()));
    assert_eq!(rt; sink.write(b"abc"), Ok(3));
    let mut clock = StdClock::new(&rt);
    assert!(rt; clock.now() > 1_700_000_000);
    Ok(())
}

#[test]
fn real_files_pass_bytes_and_faults_on(rt: HostRuntime) -> Result<(), Fail> {
    fs::write(&rt, "file", b"whole".as_slice())?;
    let mut places = StdPlaces::new(&rt);
    let read = places.read_whole(rt.alloc(), "file", 5)?;
    assert!(rt; read.as_slice() == b"whole".as_slice());
    for (name, fault) in [
        ("file", PlaceFault::Long),
        ("missing", PlaceFault::Failed),
        (".", PlaceFault::Failed),
    ] {
        assert!(rt;
            places.read_whole(rt.alloc(), name, 4).err() == Some(fault),
            "{name}"
        );
    }
    Ok(())
}

fn mem_link(alloc: Global, text: &[u8]) -> Result<MemLink, Fail> {
    let source = MemSource::new(text.to_vec(alloc)?, 8, Vec::new(alloc));
    let mut sink = MemSink::new(alloc, 8, Vec::new(alloc));
    sink.reserve(8)?;
    Ok(MemLink::new(source, sink))
}

#[test]
fn connections_in_memory_come_in_order(rt: HostRuntime) -> Result<(), Fail> {
    let alloc = rt.alloc();
    let links = vec![in alloc; mem_link(alloc, b"one")?, mem_link(alloc, b"two")?]?;
    let mut acceptor = MemAcceptor::new(links, vec![in alloc; 1]?);
    let mut link = acceptor.accept()?;
    assert!(rt; acceptor.accept().is_err());
    let mut piece = [0; 3];
    assert_eq!(rt; link.read(&mut piece), Ok(3));
    assert_eq!(rt; piece, *b"one");
    assert_eq!(rt; link.write(b"reply"), Ok(5));
    assert!(rt; link.sink().bytes() == b"reply".as_slice());
    let mut link = acceptor.accept()?;
    assert_eq!(rt; link.read(&mut piece), Ok(3));
    assert_eq!(rt; piece, *b"two");
    assert!(rt; acceptor.accept().is_err());
    Open.hold(&rt, 0, 0);
    Ok(())
}

#[test]
fn a_socket_passes_bytes_and_the_end_on(rt: HostRuntime) -> Result<(), Fail> {
    let _ = fs::remove_file(&rt, "socket");
    let mut acceptor = UnixAcceptor::new(UnixListener::bind(&rt, "socket")?);
    let mut client = UnixLink::new(UnixStream::connect(&rt, "socket")?);
    let mut link = acceptor.accept()?;
    let mut piece = [0; 8];
    assert_eq!(rt; client.write(b"ask"), Ok(3));
    assert_eq!(rt; link.read(&mut piece), Ok(3));
    assert_eq!(rt; link.write(b"reply"), Ok(5));
    drop(link);
    assert_eq!(rt; client.read(&mut piece), Ok(5));
    assert_eq!(rt; client.read(&mut piece), Ok(0));
    assert_eq!(rt; client.write(b"more"), Err(Failed));
    fs::remove_file(&rt, "socket")?;
    Ok(())
}
