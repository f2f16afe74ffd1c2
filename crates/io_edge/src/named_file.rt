use net_base::{Octets, Sequence};

/// The bytes of a file under its name.
#[derive(PartialEq, Drop)]
pub struct NamedFile {
    pub name: Octets,
    pub bytes: Octets,
}

/// Files one after another.
pub type FileList = Sequence<NamedFile>;
