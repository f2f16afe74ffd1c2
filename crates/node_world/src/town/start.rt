/// Which of its first events the town gives next.
#[derive(Clone, Copy, PartialEq, Eq)]
pub(crate) enum Start {
    Targets,
    Locals,
    /// Both are given.
    Over,
}
