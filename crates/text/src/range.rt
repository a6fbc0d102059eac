// A place in a text: where it starts, and how many bytes long it is.
#[derive(Clone, Copy)]
pub struct Range {
    pub start: usize,
    pub len: usize,
}
