ghost use Rattle.std.specs.Prelude.{◌≡◌, ◌<◌, ◌==◌};
ghost use Rattle.std.specs.List.{list_all, before_first, after_first};
ghost use Rattle.std.specs.Char.{is_ascii_digit};
ghost use Rattle.plan_base.specs.Number.{is_number, number_of};

fn all_digits(text: &str) -> bool
    ensures { result ≡ list_all is_ascii_digit text.now }
{
    text.bytes().all(|byte| byte.is_ascii_digit())
}

fn is_number_text(text: &str) -> bool
    ensures { result ≡ is_number text.now }
{
    0 < text.len() && text.len() <= 20 && all_digits(text)
}

/// The number that a text of one to twenty digits represents. Leading zeros are accepted. None for every other text.
#[tactic(auto, using(crate::proofs::Numbers::parsed_number), unfolding(crate::specs::Number::number_of))]
pub(crate) fn read_number(text: &str) -> Option<u128>
    ensures { result ≡ number_of text.now }
{
    if is_number_text(text) {
        text.parse().ok()
    } else {
        None
    }
}

/// The text before and after the first `mark`. Without a mark the second text is empty.
pub(crate) fn cut_at(text: &str, mark: char) -> (&str, &str)
    requires { mark < 128 }
    ensures before { result.0.now ≡ before_first (λ c. c == mark) text.now }
    ensures after { result.1.now ≡ after_first (λ c. c == mark) text.now }
{
    match text.split_once(mark) {
        Some(parts) => parts,
        None => (text, ""),
    }
}
