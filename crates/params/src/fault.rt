use plan_base::NoMemory;

/// Why parameters are refused. The name is borrowed, so a refusal allocates nothing.
#[derive(Clone, Copy, Debug)]
pub enum Fault<'a> {
    /// The parameter with this name is refused.
    Param(&'a str),
    /// Out of memory.
    NoMemory,
}

impl<'a> From<NoMemory> for Fault<'a> {
    ghost use Rattle.std.specs.Prelude.{◌≡◌};
    ghost use Rattle.params.specs.declared.fault.Fault.TheVariants.{NoMemory};

    ghost from_gives = { λ _ fault. fault ≡ NoMemory };

    fn from(_: NoMemory) -> Self {
        Fault::NoMemory
    }
}
