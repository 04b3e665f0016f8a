//! What those who use a window know, for contracts alone: these types have no values when the program runs.

pub enum Grasp {
    /// It has nothing of the window.
    Empty,
    /// It has the value.
    Full,
}

pub struct WindowView<K> {
    pub grasp: Grasp,
    /// The window's key.
    pub key: Option<K>,
}
