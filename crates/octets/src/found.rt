// What a reader answers, for the crates that read.

// A thing that a reader found, and the place after it.
#[derive(Clone, Copy)]
pub struct Found<T> {
    pub value: T,
    pub next: usize,
}
