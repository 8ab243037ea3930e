ghost use Rattle.std.specs.Prelude.{◌≡◌, OnOk, OnErr};
ghost use Rattle.std.specs.Io.KnownBytes.{Appends};
ghost use Rattle.port_io.specs.Faults.{HasCause};
ghost use Rattle.transfer.specs.Transfer.{AppendsPart};

use port_io::{Failed, Sink};

/// Writes all bytes. If a write fails, some first bytes are written, but not all.
pub fn write_all<O: Sink>(output: &mut O, bytes: &[u8]) -> Result<(), Failed>
    ensures ok { OnOk result (Appends (O.written output.old) (O.written output.new) bytes.now) }
    ensures err { OnErr result (AppendsPart (O.written output.old) (O.written output.new) bytes.now) }
    ensures cause { HasCause (O.write_faults output.old) (O.write_faults output.new) result }
    ensures beside { O.beside_writing output.new ≡ O.beside_writing output.old }
{
    let mut done = 0;
    while done < bytes.len() {
        match output.write(&bytes[done..]) {
            Ok(count) if count > 0 => done += count,
            Ok(_) | Err(_) => return Err(Failed),
        }
    }
    Ok(())
}
