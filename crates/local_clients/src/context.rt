/// Whose bytes are heard, on which network and when.
#[derive(Clone, Copy)]
pub(crate) struct Context {
    pub client: u64,
    pub magic: u32,
    pub moment: u64,
}
