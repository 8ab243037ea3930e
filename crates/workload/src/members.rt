ghost use Rattle.std.specs.Prelude.{◌≡◌, ◌++◌, ◌∷◌, [], OnOk, decimal};
ghost use Rattle.json.specs.Token as token;

use json::Writer;
use std::alloc::AllocError;

/// Appends a member that is a whole number.
pub(crate) fn write_number(out: &mut Writer, name: &str, number: u64) -> Result<(), AllocError>
    ensures tokens { OnOk result (out.new.tokens ≡ out.old.tokens ++ (token.key name.now ∷ token.number (decimal number) ∷ [])) }
    ensures before { OnOk result (out.new.before ≡ out.old.before) }
{
    out.key(name)?;
    out.u64(number)
}

/// Appends a member that is a string.
pub(crate) fn write_string(out: &mut Writer, name: &str, text: &str) -> Result<(), AllocError>
    ensures tokens { OnOk result (out.new.tokens ≡ out.old.tokens ++ (token.key name.now ∷ token.string text.now ∷ [])) }
    ensures before { OnOk result (out.new.before ≡ out.old.before) }
{
    out.key(name)?;
    out.string(text)
}

/// Appends a member that is an empty array.
pub(crate) fn write_no_items(out: &mut Writer, name: &str) -> Result<(), AllocError>
    ensures tokens { OnOk result (out.new.tokens ≡ out.old.tokens ++ (token.key name.now ∷ token.begin_array ∷ token.end_array ∷ [])) }
    ensures before { OnOk result (out.new.before ≡ out.old.before) }
{
    out.key(name)?;
    out.begin_array()?;
    out.end_array()
}
