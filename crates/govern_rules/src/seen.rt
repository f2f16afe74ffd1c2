// What is seen of a peer where peers are promoted.
pub enum Seen {
    // it is of the class and on its way
    OnItsWay,
    Suits,
    Neither,
}
