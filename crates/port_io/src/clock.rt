ghost use Rattle.std.specs.Prelude.{ℕ, List};
ghost use Rattle.std.specs.declared.option.Option.{Option};
ghost use Rattle.port_io.specs.Moments.{Ticks};

/// A source of moments.
pub trait Clock {
    /// The moments that are left, if they are known.
    ghost moments: { Self → Option (List ℕ) };

    /// Returns the present moment, in seconds since 1970. It cannot fail.
    fn now(&mut self) -> u64
        ensures { Ticks (moments self.old) result (moments self.new) };
}
