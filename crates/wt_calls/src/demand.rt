/// What a put asks of its key.
#[derive(Clone, Copy, PartialEq, Eq, Debug)]
pub enum Demand {
    /// Nothing: it overwrites.
    Anything,
    /// That no value is there, else it is refused as `DuplicateKey`.
    Vacant,
    /// That a value is there, else it is refused as `NotFound`.
    Occupied,
}
