ghost use Rattle.std.specs.Prelude.{◌≤◌, IfSome};

/// What is to be done with the problem.
#[derive(Clone, Copy, Debug, PartialEq, Eq)]
pub(crate) enum Choice {
    Correcting,
    Keeping,
    None,
}

/// What is to be done, and how often.
#[derive(Clone, Copy, Debug, PartialEq, Eq)]
pub(crate) struct Order {
    pub(crate) choice: Choice,
    pub(crate) times: u32,
}

/// The order that the words after the program's name give: what is to be done, and how often, once if no count follows.
pub(crate) fn read_order(words: &[String]) -> Option<Order>
    ensures { IfSome result (λ order. 1 ≤ order.times) }
{
    match words {
        [word] => Some(Order {
            choice: read_choice(word.as_str())?,
            times: 1,
        }),
        [word, count] => Some(Order {
            choice: read_choice(word.as_str())?,
            times: read_count(count.as_str())?,
        }),
        _ => None,
    }
}

fn read_choice(word: &str) -> Option<Choice> {
    match word {
        "correcting" => Some(Choice::Correcting),
        "keeping" => Some(Choice::Keeping),
        "none" => Some(Choice::None),
        _ => None,
    }
}

fn read_count(word: &str) -> Option<u32>
    ensures { IfSome result (λ count. 1 ≤ count) }
{
    let count = word.parse::<u32>().ok()?;
    if count == 0 {
        return None;
    }
    Some(count)
}
