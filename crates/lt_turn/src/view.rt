use std::collections::LinkedList;

/// What a seat is doing. `Vacant` is the first one before the value is there, `Note` a new one before it has its number,
/// `Holding` has the lock and `Level` the value too, `Shut` has closed the turn and `Spent` was joined into another.
pub enum Role {
    Vacant,
    Note,
    Idle,
    Holding,
    Level,
    Shut,
    Spent,
}

/// What a seat knows. No value of it is made. A list's entries go with the numbers of the seats that added them.
pub struct View<X> {
    pub role: Role,
    pub number: u64,
    pub seen: LinkedList<(u64, X)>,
    pub told: LinkedList<(u64, X)>,
    pub mine: LinkedList<X>,
    pub ended: LinkedList<(u64, LinkedList<X>)>,
}
