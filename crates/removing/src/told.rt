// What goes when documents go.
use types::{DocumentNumbers, WindowNumbers};

#[derive(Clone, Copy)]
pub struct Removal {
    pub windows: WindowNumbers,
    pub documents: DocumentNumbers,
}
