use one_history::JournalRefusal;

/// Why a desk refuses a call.
#[derive(Clone, Copy, Debug, PartialEq, Eq)]
pub enum DeskRefusal {
    /// The pass has drawn `TURNS_MAX` turns. It takes no turn.
    PassSpent,
    /// `PASSES_MAX` passes and notes were made.
    PassesOut,
    /// The journal has `JOURNAL_MAX` entries, which is this length.
    Full { length: u64 },
    /// Out of memory, for the entry or in the step of its command.
    NoMemory,
}

impl From<JournalRefusal> for DeskRefusal {
    ghost use Rattle.std.specs.Prelude.{◌≡◌};
    ghost use Rattle.turn_desk.specs.Refusal.{refusal_of};

    ghost from_gives = { λ r e. e ≡ refusal_of r };

    fn from(refusal: JournalRefusal) -> Self {
        match refusal {
            JournalRefusal::Full { length } => DeskRefusal::Full { length },
            JournalRefusal::NoMemory => DeskRefusal::NoMemory,
        }
    }
}
