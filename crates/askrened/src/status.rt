ghost use Rattle.std.specs.Prelude.{◌≡◌};
ghost use Rattle.askrened.specs.Status.{code_of};

use channel_map::MapFault;
use check_command::CheckEnd;
use gen_command::GenEnd;
use port_io::SessionEnd;
use std::alloc::AllocError;

/// How the program ended. Its code is the exit status.
#[derive(Clone, Copy, Debug, PartialEq, Eq)]
pub enum Status {
    /// All input was read and answered.
    Ok,
    /// The words of the command line are no command.
    Usage,
    /// A file that was read is refused: the local file, or else the map.
    MapRefused { local: bool, fault: MapFault },
    /// A read of the input or of a file failed.
    ReadFault,
    /// A write of the output failed.
    WriteFault,
    /// Out of memory.
    NoMemory,
    /// The line written is `no LINE` if the input is readable, and else `unreadable LINE`.
    CheckNo { line: u64, readable: bool },
    /// The input has more than the greatest number of lines of a session.
    SessionFull,
    /// A line, or the whole input of a check, is too long.
    Long,
    /// The socket could not be bound.
    BindFault,
    /// A worker could not accept a connection: the first one that failed so.
    AcceptFault { worker: u32 },
}

impl Status {
    /// The exit status.
    pub fn code(&self) -> u8
        ensures { result ≡ code_of self.now }
    {
        match self {
            Status::Ok => 0,
            Status::Usage => 2,
            Status::MapRefused { .. } => 3,
            Status::ReadFault => 4,
            Status::WriteFault => 5,
            Status::NoMemory => 6,
            Status::CheckNo { .. } => 7,
            Status::SessionFull => 8,
            Status::Long => 9,
            Status::AcceptFault { .. } => 10,
            Status::BindFault => 13,
        }
    }
}

impl From<AllocError> for Status {
    ghost use Rattle.std.specs.Prelude.{◌≡◌};
    ghost use Rattle.askrened.specs.declared.status.Status.TheVariants.{NoMemory};

    ghost from_gives = { λ _ status. status ≡ NoMemory };

    fn from(_: AllocError) -> Status {
        Status::NoMemory
    }
}

impl From<SessionEnd> for Status {
    ghost use Rattle.std.specs.Prelude.{◌≡◌};
    ghost use Rattle.askrened.specs.Status.{session_status};

    ghost from_gives = { λ end status. status ≡ session_status end };

    fn from(end: SessionEnd) -> Status {
        match end {
            SessionEnd::Done => Status::Ok,
            SessionEnd::ReadFault => Status::ReadFault,
            SessionEnd::WriteFault => Status::WriteFault,
            SessionEnd::NoMemory => Status::NoMemory,
            SessionEnd::Full => Status::SessionFull,
            SessionEnd::Long => Status::Long,
        }
    }
}

impl From<CheckEnd> for Status {
    ghost use Rattle.std.specs.Prelude.{◌≡◌};
    ghost use Rattle.askrened.specs.Status.{check_status};

    ghost from_gives = { λ end status. status ≡ check_status end };

    fn from(end: CheckEnd) -> Status {
        match end {
            CheckEnd::Shown => Status::Ok,
            CheckEnd::NotShown { line, readable } => Status::CheckNo { line, readable },
            CheckEnd::Long => Status::Long,
            CheckEnd::ReadFault => Status::ReadFault,
            CheckEnd::WriteFault => Status::WriteFault,
            CheckEnd::NoMemory => Status::NoMemory,
        }
    }
}

impl From<GenEnd> for Status {
    ghost use Rattle.std.specs.Prelude.{◌≡◌};
    ghost use Rattle.askrened.specs.Status.{gen_status};

    ghost from_gives = { λ end status. status ≡ gen_status end };

    fn from(end: GenEnd) -> Status {
        match end {
            GenEnd::Done => Status::Ok,
            GenEnd::WriteFault => Status::WriteFault,
            GenEnd::NoMemory => Status::NoMemory,
        }
    }
}
