use serde_json::Number;

/// The outline of a value: what it is, without what is inside an array or an object.
#[derive(Clone, Copy, Drop)]
pub enum Leaf<'a> {
    Null,
    Bool(bool),
    Number(Number),
    /// The unescaped text.
    Text(&'a str),
    Array,
    Object,
}
