// Which engine a client's record is at. With a function as parameter in its place, each contract that speaks of a role would state what that
// function ensures, for two that there are.
#[derive(Clone, Copy, Debug, PartialEq, Eq)]
pub enum Role {
    // Reads and writes: clients 1 to 64.
    Ordinary,
    // Only looks: clients 65 to 96.
    Viewing,
}
