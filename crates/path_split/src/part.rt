use plan_base::Items;

/// A path and the units that are sent along it. The path is the list of its directions, from the source to the
/// destination; each direction is its index in the view.
#[derive(Debug, Drop)]
pub struct Part {
    pub path: Items<u32>,
    pub units: u64,
}
